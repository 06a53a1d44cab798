//! The export as lines.

ghost use Rattle.std.specs.Prelude.{ℕ, List, OnOk, OnErr, IsTrue, length};
ghost use Rattle.std.specs.Io.KnownBytes.{Appends};
ghost use Rattle.osm_value.specs.Sink.{AppendsFront};
ghost use Rattle.osm_rows.specs.Held.{HeldMap};
ghost use Rattle.osm_rows.specs.Calls.{OfHeld};
ghost use Rattle.osm_rows.specs.Keeping.{extents_of};
ghost use Rattle.osm_import.specs.Gaps.{Tiles};
ghost use Rattle.osm_import.specs.Files.{IsFile, IsHeldOfFile};
ghost use Rattle.osm_import.specs.Exports.{lines_of, WritesLines, WritesFile, IsExport, IsAskedFor, size_of};
ghost use Rattle.osm_import.specs.ExportCauses.{ExportHasCause, ExportIsOwn, ExportTells};
ghost use Rattle.osm_import.specs.Stores.{Rereads};

use super::ExportFault;
use super::blobs::{BlobStep, extents_to_export, write_blobs};
use osm_rows::BlobReader;
use osm_value::{Element, LineFault, Sink, write_line};
use std::alloc::Global;

fn write_lines<S: Sink>(elements: &[Element], out: &mut S) -> Result<(), LineFault>
    ensures lines { OnOk result (Appends (S.written out.old) (S.written out.new) (lines_of elements.now)) }
    ensures front { OnErr result (AppendsFront (S.written out.old) (S.written out.new) (lines_of elements.now)) }
    ensures failed { OnErr result (IsTrue (S.has_failed out.new)) }
{
    for element in elements {
        write_line(element, out)?;
    }
    Ok(())
}

/// Writes each blob as the lines of its elements: a line for each, in order.
#[derive(Clone, Copy)]
pub struct Lines;

impl<S: Sink> BlobStep<S> for Lines {
    ghost writes = { WritesLines };

    fn write(&self, _alloc: Global, elements: &[Element], out: &mut S) -> Result<(), ExportFault> {
        match write_lines(elements, out) {
            Ok(()) => Ok(()),
            Err(_) => Err(ExportFault::WriteFailed),
        }
    }
}

/// Writes the lines of all held elements, by offset and position. What is held stays.
///
/// Unless `partial`, it is refused before any byte where what is held doesn't tile the size, which is the greatest held
/// end where none is given: with `Incomplete` and the first gap, or (0, 0) where nothing is held and the size is 0; else
/// with `PastEnd` and the greatest held end, where that is past the size. After `WriteFailed` a front of the text went
/// out, and after `Store` the lines of the blobs before; none, unless `partial`, where what is held doesn't tile the size.
/// So it is after `Miscounted`, which never comes over a store that holds a map.
///
/// Over a map that tiles a file and holds the entries of that file alone it isn't refused, with the file's size or with
/// none, and at `Ok` it has written the lines of exactly the file's elements, in file order.
pub fn export_lines<K: BlobReader, S: Sink>(
    alloc: Global,
    keeper: &mut K,
    size: Option<u64>,
    partial: bool,
    out: &mut S,
) -> Result<(), ExportFault>
    ensures export { OfHeld K.BlobReader keeper.old keeper.new (λ held. IsExport held (size_of size (extents_of held)) partial (S.written out.old) (S.written out.new) result) }

    // Over a map that tiles a file, with its size or with none, it isn't refused, and writes the lines of the file's elements.
    ensures one_file { (held : HeldMap) (file : List ℕ) (frames : List (List ℕ)) → K.holds keeper.old held → K.is_honest keeper.new
        → IsFile file frames → IsHeldOfFile frames held → Tiles held (length file) → IsAskedFor size (length file) → WritesFile frames (S.written out.old) (S.written out.new) result }

    ensures rereads { Rereads K.BlobReader keeper.old result keeper.new }
    ensures own { OfHeld K.BlobReader keeper.old keeper.new (λ _. ExportIsOwn result) }
    ensures cause { ExportHasCause (K.failures keeper.old) (K.failures keeper.new) (S.has_failed out.new) result }
    ensures told { ExportTells (K.failures keeper.old) (K.failures keeper.new) result }
{
    let extents = extents_to_export(alloc, keeper, size, partial)?;
    write_blobs(alloc, keeper, &extents, &Lines, out)
}
