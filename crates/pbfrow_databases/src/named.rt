//! The commands on several databases, all of those that are named, one after the other.

ghost use Rattle.std.specs.Prelude.{◌≡◌, ◌≤◌, List, Some, IfSome};
ghost use Rattle.osm_rows.specs.Held.{HeldMap};
ghost use Rattle.osm_parts.specs.Opening.{KeepsMaps};
ghost use Rattle.osm_verify.specs.Showing.{HaveTables, ShowsExtents, ShowTogether};
ghost use Rattle.osm_verify.specs.Together.{HoldFile};
ghost use Rattle.pbfrow_commands.specs.Merging.{HasMerged, IsMergeOf, NeverLoses, TakesOf};
ghost use Rattle.pbfrow_commands.specs.Telling.{telling};
ghost use Rattle.pbfrow_commands.specs.VerifyingParts.{VerifiesParts};
ghost use Rattle.pbfrow_databases.specs.Questions.{AnswersTogether};

use crate::questions::ask_in_turn;
use osm_parts::Several;
use osm_rows::{Audited, BlobKeeper, BlobReader};
use osm_value::Sink;
use osm_verify::{Depth, FileBytes};
use pbfrow_commands::merge::merge_all;
use pbfrow_commands::verify_parts::verify_parts;
use pbfrow_words::Question;
use std::alloc::Global;

/// Asks all of the stores, as `ask_in_turn` does so many of them, and answers the exit status.
pub fn ask_named<K: BlobReader + Drop, O: Several<K>, S: Sink>(
    alloc: Global,
    openings: &mut O,
    question: Question,
    out: &mut S,
) -> u8
    ensures told { (maps : List HeldMap) → O.holds openings.old maps → O.is_honest openings.new
        → AnswersTogether question maps (telling O.failures S.Sink openings.old openings.new out.old out.new result) }
    ensures keeps { KeepsMaps O.holds O.is_honest O.is_open openings.old openings.new }
    ensures bound { result ≤ 1 }
{
    let count = openings.count();
    ask_in_turn(alloc, openings, count, question, out)
}

/// Compares what all of the stores hold with a file, as `verify_parts` does so many of them, and answers the exit status.
pub fn verify_named<K: Audited + Drop, O: Several<K>, F: FileBytes, S: Sink>(
    alloc: Global,
    openings: &mut O,
    file: &mut F,
    depth: Depth,
    out: &mut S,
) -> u8
    ensures told { (maps : List HeldMap) → O.holds openings.old maps → O.is_honest openings.new
        → VerifiesParts depth (F.bytes file.old) maps (telling O.failures S.Sink openings.old openings.new out.old out.new result) }
    ensures exact { (maps : List HeldMap) → O.holds openings.old maps → O.is_honest openings.new → result ≡ 0
        → IfSome (F.bytes file.old) (λ bytes. HoldFile depth bytes maps) }
    ensures shown { O.is_honest openings.new → depth ≡ Depth.Elements → HaveTables K.BlobReader K.has_tables (O.lies openings.old) → result ≡ 0
        → IfSome (F.bytes file.old) (λ bytes. ShowTogether (O.lies openings.old) (ShowsExtents K.has_rows K.layout K.trees (Some bytes)) (O.many openings.old) bytes) }
    ensures keeps { KeepsMaps O.holds O.is_honest O.is_open openings.old openings.new }
    ensures bound { result ≤ 1 }
{
    let count = openings.count();
    verify_parts(alloc, openings, count, file, depth, out)
}

/// Copies what all of the stores hold into another, as `merge_all` does so many of them, and answers the exit status.
pub fn merge_named<F: BlobReader + Drop, O: Several<F>, T: BlobKeeper, S: Sink>(
    alloc: Global,
    openings: &mut O,
    into: &mut T,
    out: &mut S,
) -> u8
    ensures union { (maps : List HeldMap) (held : HeldMap) → O.holds openings.old maps → O.is_honest openings.new → T.holds into.old held → T.is_honest into.new
        → result ≡ 0 → (after : HeldMap) × IsMergeOf maps held after × T.holds into.new after }
    ensures kept { (maps : List HeldMap) (held : HeldMap) → O.holds openings.old maps → O.is_honest openings.new → T.holds into.old held → T.is_honest into.new
        → T.is_open into.new → (after : HeldMap) × TakesOf maps held after × T.holds into.new after }
    ensures stays { NeverLoses T.BlobReader into.old into.new }
    ensures merges { HasMerged O.holds O.is_honest O.failures T.BlobReader S.Sink openings.old openings.new (O.many openings.old) into.old into.new out.old out.new result }
    ensures keeps { KeepsMaps O.holds O.is_honest O.is_open openings.old openings.new }
    ensures bound { result ≤ 1 }
{
    let count = openings.count();
    merge_all(alloc, openings, count, into, out)
}
