//! What holds of the definitions, over all inputs.

ghost use Rattle.std.specs.Prelude.{◌≡◌, ◌≢◌, ◌↔◌, ℕ, ℤ, List, [], length, Some, None};
ghost use Rattle.std.specs.List.{AllByRecursion};
ghost use Rattle.osm_value.specs.declared.element.Element.{Element};
ghost use Rattle.osm_value.specs.Elements.{info_of_element};
ghost use Rattle.osm_block.specs.Block.{Block};
ghost use Rattle.osm_block.specs.EarlierBlock as earlier;
ghost use Rattle.osm_block.specs.Flagless.{HasNoFlags};
ghost use Rattle.osm_block.specs.DenseTags.{Pair, Tags, pairs_for};
ghost use Rattle.osm_block.specs.declared.fault.BlockFault.TheVariants.{TagsUneven};
ghost use Rattle.osm_block.specs.Differences.{Diff};
ghost use Rattle.osm_block.specs.Faultless.{FaultlessBlocksSay};
ghost use Rattle.osm_block.specs.Phases.{fault, first, tags_phases};

/// A block says one list of elements.
pub fn one_list_of_elements()
    ensures { (es fs : List Element) (w : List ℕ) → Block es w → Block fs w → es ≡ fs }
{}

/// Differences are those of one list of numbers.
pub fn one_list_of_numbers()
    ensures { (us vs ds : List ℤ) → Diff us ds → Diff vs ds → us ≡ vs }
{}

/// The tags that are read for n dense nodes are those of the one list of n nodes that the array encodes, and the
/// array is uneven (fault 51) exactly where it encodes no list of n nodes.
pub fn uneven_tags_stand_to_no_nodes()
    ensures read { (n : ℕ) (kv : List ℤ) (ts : List (List Pair)) → (pairs_for n kv ≡ Some ts) ↔ ((length ts ≡ n) × Tags ts kv) }
    ensures uneven { (n texts : ℕ) (kv : List ℤ) → (first (tags_phases n texts kv) ≡ Some TagsUneven) ↔ ((ts : List (List Pair)) → length ts ≡ n → Tags ts kv → ⊥) }
{}

/// A block that decodes to some elements has no fault.
pub fn elements_or_a_fault()
    ensures { (es : List Element) (w : List ℕ) → Block es w → fault w ≡ None }
{}

/// A block that has no fault decodes to some elements.
pub fn faultless_blocks_say()
    ensures { FaultlessBlocksSay }
{}

/// A block of which no info has a flag of visibility says elements without one.
pub fn blocks_without_flags_say_none()
    ensures { (es : List Element) (w : List ℕ) → Block es w → HasNoFlags w → AllByRecursion (λ e. (info_of_element e).visible ≡ None) es }
{}

/// There is a block with elements of which no info has such a flag.
pub fn some_block_has_no_flags()
    ensures { (es : List Element) × (w : List ℕ) × (es ≢ []) × Block es w × HasNoFlags w }
{}

/// A block that was read before flags of visibility were still says the same elements. No info of it has a flag, so none of
/// these elements has one.
pub fn earlier_blocks_say_the_same()
    ensures same { (es : List Element) (w : List ℕ) → earlier.Block es w → Block es w }
    ensures flagless { (es : List Element) (w : List ℕ) → earlier.Block es w → HasNoFlags w }
{}
