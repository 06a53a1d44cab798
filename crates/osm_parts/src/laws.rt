//! What the definitions imply: theorems, with no code.

ghost use Rattle.osm_parts.specs.Interleaved.{WholeExists, WholeIsOne, NoneFollows};
ghost use Rattle.osm_parts.specs.Unions.{UnionIsWhole};
ghost use Rattle.osm_parts.specs.Parts.{PartsJoin, ExtentsJoin, LinesJoin, FramesJoin, GapsJoin, ImportsAreParts};

/// Where a map's parts follow one another, what is read of them in turn is what is read of the map: its entries, its
/// extents and so its gaps, its lines, and its frames behind one header. And what imports of the parts of a file come to
/// are parts of what an import of the file comes to.
pub fn parts_are_read_in_turn()
    ensures entries { PartsJoin }
    ensures extents { ExtentsJoin }
    ensures lines { LinesJoin }
    ensures frames { FramesJoin }
    ensures gaps { GapsJoin }
    ensures imports { ImportsAreParts }
{}

/// Parts that follow one another are those of one map, and parts that are interleaved follow one another in no order.
pub fn parts_that_follow_are_one_map()
    ensures exists { WholeExists }
    ensures one { WholeIsOne }
    ensures interleaved { NoneFollows }
{}

/// Where maps are the parts of one map, it is their only union.
pub fn a_union_of_parts_is_their_map()
    ensures { UnionIsWhole }
{}
