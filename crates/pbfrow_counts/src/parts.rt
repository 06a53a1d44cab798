//! The elements of the map whose parts several stores hold, counted part after part.

ghost use Rattle.std.specs.Prelude.{◌≤◌, Bool, List, IfErr, OnOk};
ghost use Rattle.std.specs.FinMap.{entries};
ghost use Rattle.osm_rows.specs.Held.{HeldMap};
ghost use Rattle.osm_parts.specs.Opening.{OnlyOpens};
ghost use Rattle.osm_parts.specs.Parts.{AreParts};
ghost use Rattle.osm_parts.specs.Reading.{AreRead, IsPart};
ghost use Rattle.pbfrow_counts.specs.Counting.{CountHasCause, CountsMore, IsOfMap, elements_of};

use crate::blobs::count_blobs;
use crate::elements::ElementCounts;
use crate::fault::CountFault;
use osm_parts::{Openings, Part};
use osm_rows::BlobReader;
use std::alloc::Global;

/// Counts the elements of the blobs of a part, whose store is opened and closed.
fn count_part<K: BlobReader + Drop, O: Openings<K>>(
    alloc: Global,
    openings: &mut O,
    part: &Part,
    counts: &mut ElementCounts,
) -> Result<(), CountFault>
    ensures held { (maps : List HeldMap) (asked : Bool) (run : HeldMap) → O.holds openings.old maps → O.is_honest openings.new → IsPart maps asked part.now run
        → OnOk result (CountsMore counts.old (elements_of (entries run)) counts.new) }
    ensures own { (maps : List HeldMap) (asked : Bool) (run : HeldMap) → O.holds openings.old maps → O.is_honest openings.new → IsPart maps asked part.now run
        → IfErr result IsOfMap }
    ensures opens { OnlyOpens O.holds O.is_honest O.is_open openings.old result openings.new }
    ensures cause { IfErr result (CountHasCause (O.failures openings.old) (O.failures openings.new)) }
    ensures counted { O.failures openings.old ≤ O.failures openings.new }
{
    let mut store = openings.open(part.place)?;
    let answer = count_blobs(alloc, &mut store, &part.extents, counts);
    openings.close(store);
    answer
}

/// Counts all elements that the stores of these parts hold, beside those that were counted before, up to the first fault:
/// those of one store that holds all of their blobs, each once. `parts` are what `read_parts` has read of these stores. For
/// each run its store is opened once more, one after the other, and what it holds stays.
///
/// Where the stores hold maps, an error is that of an opening or a read that has failed, or refused memory; `Miscounted`
/// comes only over other rows.
pub fn count_parts<K: BlobReader + Drop, O: Openings<K>>(
    alloc: Global,
    openings: &mut O,
    parts: &[Part],
    counts: &mut ElementCounts,
) -> Result<(), CountFault>
    ensures held { (maps : List HeldMap) (asked : Bool) (whole : HeldMap) → O.holds openings.old maps → O.is_honest openings.new → (read : AreRead maps asked parts.now) → AreParts read.ordered whole
        → OnOk result (CountsMore counts.old (elements_of (entries whole)) counts.new) }
    ensures own { (maps : List HeldMap) (asked : Bool) → O.holds openings.old maps → O.is_honest openings.new → AreRead maps asked parts.now
        → IfErr result IsOfMap }
    ensures opens { OnlyOpens O.holds O.is_honest O.is_open openings.old result openings.new }
    ensures cause { IfErr result (CountHasCause (O.failures openings.old) (O.failures openings.new)) }
    ensures counted { O.failures openings.old ≤ O.failures openings.new }
{
    for part in parts {
        count_part(alloc, openings, part, counts)?;
    }
    Ok(())
}
