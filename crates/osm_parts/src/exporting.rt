//! Exports of the map whose parts several stores hold.

ghost use Rattle.std.specs.Prelude.{◌≡◌, ◌≤◌, Bool, true, false, List, OnOk, IfErr};
ghost use Rattle.std.specs.FinMap.{entries};
ghost use Rattle.std.specs.List.{list_any};
ghost use Rattle.osm_rows.specs.Held.{HeldMap};
ghost use Rattle.osm_rows.specs.Keeping.{extents_of};
ghost use Rattle.osm_import.specs.ExportCauses.{ExportHasCause, ExportIsOwn, WriteHasCause};
ghost use Rattle.osm_import.specs.Exports.{IsExport, IsUnbegun, size_of};
ghost use Rattle.osm_import.specs.Gaps.{Tiles};
ghost use Rattle.osm_import.specs.Walks.{Walks};
ghost use Rattle.osm_parts.specs.Opening.{OnlyOpens};
ghost use Rattle.osm_parts.specs.Parts.{AreParts, entries_in};
ghost use Rattle.osm_parts.specs.Reading.{IsPart, AreEach, AreRead};
ghost use Rattle.osm_parts.specs.Unions.{IsPbfOfParts};

use crate::openings::Openings;
use crate::reading::extents_of_parts;
use crate::runs::Part;
use osm_import::{BlobStep, Blocks, ExportFault, Lines, export_refusal, write_blobs, write_header};
use osm_rows::BlobReader;
use osm_value::Sink;
use std::alloc::Global;

/// Takes the step at each blob of a part, whose store is opened and closed.
fn write_part<K: BlobReader + Drop, O: Openings<K>, S: Sink, W: BlobStep<S>>(
    alloc: Global,
    openings: &mut O,
    part: &Part,
    step: &W,
    out: &mut S,
) -> Result<(), ExportFault>
    ensures wrote { (maps : List HeldMap) (asked : Bool) (run : HeldMap) → O.holds openings.old maps → O.is_honest openings.new → IsPart maps asked part.now run
        → Walks W.writes (S.written out.old) (entries run) (S.written out.new) result }
    ensures opens { OnlyOpens O.holds O.is_honest O.is_open openings.old result openings.new }
    ensures own { (maps : List HeldMap) → O.holds openings.old maps → O.is_honest openings.new → ExportIsOwn result }
    ensures cause { ExportHasCause (O.failures openings.old) (O.failures openings.new) (S.has_failed out.new) result }
    ensures counted { O.failures openings.old ≤ O.failures openings.new }
{
    let mut store = openings.open(part.place)?;
    let answer = write_blobs(alloc, &mut store, &part.extents, step, out);
    openings.close(store);
    answer
}

/// Takes the step at each blob of the parts, one part after the other, up to the first fault.
fn write_in_turn<K: BlobReader + Drop, O: Openings<K>, S: Sink, W: BlobStep<S>>(
    alloc: Global,
    openings: &mut O,
    parts: &[Part],
    step: &W,
    out: &mut S,
) -> Result<(), ExportFault>
    ensures wrote { (maps : List HeldMap) (asked : Bool) (ordered : List HeldMap) → O.holds openings.old maps → O.is_honest openings.new → AreEach maps asked parts.now ordered
        → Walks W.writes (S.written out.old) (entries_in ordered) (S.written out.new) result }
    ensures opens { OnlyOpens O.holds O.is_honest O.is_open openings.old result openings.new }
    ensures own { (maps : List HeldMap) → O.holds openings.old maps → O.is_honest openings.new → ExportIsOwn result }
    ensures cause { ExportHasCause (O.failures openings.old) (O.failures openings.new) (S.has_failed out.new) result }
    ensures counted { O.failures openings.old ≤ O.failures openings.new }
{
    for part in parts {
        write_part(alloc, openings, part, step, out)?;
    }
    Ok(())
}

/// Why the parts together don't tile the size, which is their greatest end where none is given. A partial export isn't
/// refused for that.
fn refuse_untiled(
    alloc: Global,
    parts: &[Part],
    size: Option<u64>,
    partial: bool,
) -> Result<(), ExportFault>
    ensures tiled { (maps : List HeldMap) (asked : Bool) (whole : HeldMap) (read : AreRead maps asked parts.now) → AreParts read.ordered whole → partial ≡ false
        → OnOk result (Tiles whole (size_of size (extents_of whole))) }
    ensures refused { (maps : List HeldMap) (asked : Bool) (whole : HeldMap) (read : AreRead maps asked parts.now) → AreParts read.ordered whole
        → IfErr result (IsUnbegun whole (size_of size (extents_of whole)) partial) }
    ensures cause { WriteHasCause false result }
{
    if partial {
        return Ok(());
    }
    let extents = extents_of_parts(alloc, parts)?;
    match export_refusal(&extents, size) {
        Some(fault) => Err(fault),
        None => Ok(()),
    }
}

/// Whether an element of one of these stores has a flag of visibility.
fn have_history(parts: &[Part]) -> bool
    ensures { result ≡ list_any (λ part. part.history) parts.now }
{
    parts.iter().any(|part| part.history)
}

/// Writes the lines of all that the stores of these parts hold, by offset and position: what `export_lines` writes of one
/// store that holds all of their blobs, each once, with the same refusals, before any byte. `parts` are what `read_parts`
/// has read of these stores. For each run its store is opened once more, one after the other, and what it holds stays.
///
/// After `WriteFailed` a front of the text went out, and after `Store` the lines of the blobs before; it is also the answer
/// where a store isn't opened. After `Miscounted`, which never comes over stores that hold maps, it is the lines of the
/// blobs before, too.
pub fn export_parts_as_lines<K: BlobReader + Drop, O: Openings<K>, S: Sink>(
    alloc: Global,
    openings: &mut O,
    parts: &[Part],
    size: Option<u64>,
    partial: bool,
    out: &mut S,
) -> Result<(), ExportFault>
    ensures export { (maps : List HeldMap) (asked : Bool) (whole : HeldMap) → O.holds openings.old maps → O.is_honest openings.new → (read : AreRead maps asked parts.now) → AreParts read.ordered whole
        → IsExport whole (size_of size (extents_of whole)) partial (S.written out.old) (S.written out.new) result }
    ensures opens { OnlyOpens O.holds O.is_honest O.is_open openings.old result openings.new }
    ensures own { (maps : List HeldMap) → O.holds openings.old maps → O.is_honest openings.new → ExportIsOwn result }
    ensures cause { ExportHasCause (O.failures openings.old) (O.failures openings.new) (S.has_failed out.new) result }
{
    refuse_untiled(alloc, parts, size, partial)?;
    write_in_turn(alloc, openings, parts, &Lines, out)
}

/// Writes all that the stores of these parts hold as one PBF file: what `export_pbf` writes of one store that holds all of
/// their blobs, each once, with the same refusals, before any byte. `parts` are what `read_parts` has read of these stores
/// with `asks_history`. For each run its store is opened once more, one after the other, and what it holds stays.
///
/// After `BlockTooLarge` the frames before the element that is too large went out, and after `WriteFailed` and `Store` a
/// front of what was to be written.
pub fn export_parts_as_pbf<K: BlobReader + Drop, O: Openings<K>, S: Sink>(
    alloc: Global,
    openings: &mut O,
    parts: &[Part],
    size: Option<u64>,
    partial: bool,
    out: &mut S,
) -> Result<(), ExportFault>
    ensures export { (maps : List HeldMap) (whole : HeldMap) → O.holds openings.old maps → O.is_honest openings.new → (read : AreRead maps true parts.now) → AreParts read.ordered whole
        → IsPbfOfParts maps whole (size_of size (extents_of whole)) partial (S.written out.old) (S.written out.new) result }
    ensures opens { OnlyOpens O.holds O.is_honest O.is_open openings.old result openings.new }
    ensures own { (maps : List HeldMap) → O.holds openings.old maps → O.is_honest openings.new → ExportIsOwn result }
    ensures cause { ExportHasCause (O.failures openings.old) (O.failures openings.new) (S.has_failed out.new) result }
{
    refuse_untiled(alloc, parts, size, partial)?;
    write_header(alloc, have_history(parts), out)?;
    write_in_turn(alloc, openings, parts, &Blocks, out)
}
