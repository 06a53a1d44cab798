//! The export as a PBF file.

ghost use Rattle.std.specs.Prelude.{◌≢◌, ◌≤◌, ℕ, List, length};
ghost use Rattle.pbf_frame.specs.declared.kind.Kind.TheVariants.{Other};
ghost use Rattle.pbf_frame.specs.Write.{frame_bytes, type_name_of};
ghost use Rattle.osm_rows.specs.Held.{HeldMap};
ghost use Rattle.osm_rows.specs.Calls.{OfHeld};
ghost use Rattle.osm_rows.specs.Keeping.{extents_of};
ghost use Rattle.osm_import.specs.Gaps.{Tiles};
ghost use Rattle.osm_import.specs.Files.{IsFile, IsHeldOfFile};
ghost use Rattle.osm_import.specs.Exports.{WritesBlob, IsAskedFor, size_of};
ghost use Rattle.osm_import.specs.ExportCauses.{ExportHasCause, ExportIsOwn, ExportTells, WriteHasCause};
ghost use Rattle.osm_import.specs.Pbf.{header_frame, WritesBlocks, WritesPbfFile, IsPbfExport};
ghost use Rattle.osm_import.specs.Stores.{Rereads};

use super::ExportFault;
use super::blobs::{BlobStep, extents_to_export, write_blobs};
use osm_rows::{BlobReader, StoreFault};
use osm_value::{Element, Sink, put};
use osm_write::{BlobCutter, WriteFault, encode_header};
use pbf_frame::{Kind, MAX_RAW, write_frame};
use std::alloc::Global;

/// Writes the frame of this kind with this raw payload.
fn write_payload<S: Sink>(
    alloc: Global,
    kind: Kind,
    payload: &[u8],
    out: &mut S,
) -> Result<(), ExportFault>
    requires known { kind ≢ Other }
    requires small { length payload.now ≤ MAX_RAW }
    ensures wrote { WritesBlob (S.written out.old) (frame_bytes (type_name_of kind) payload.now) (S.written out.new) result }
    ensures cause { WriteHasCause (S.has_failed out.new) result }
{
    let mut frame = Vec::new(alloc);
    match write_frame(kind, payload, &mut frame) {
        Ok(()) => {}
        Err(_) => return Err(ExportFault::Store(StoreFault::Memory)),
    }
    put(out, &frame);
    if out.failed() {
        return Err(ExportFault::WriteFailed);
    }
    Ok(())
}

/// Writes the frame of a header, with the feature `HistoricalInformation` where there is history. A front of it went out
/// after `WriteFailed`, and nothing after `Store`, which is `Memory`.
pub fn write_header<S: Sink>(alloc: Global, history: bool, out: &mut S) -> Result<(), ExportFault>
    ensures wrote { WritesBlob (S.written out.old) (header_frame history) (S.written out.new) result }
    ensures cause { WriteHasCause (S.has_failed out.new) result }
{
    match encode_header(alloc, history) {
        Ok(block) => write_payload(alloc, Kind::OsmHeader, &block, out),
        Err(_) => Err(ExportFault::Store(StoreFault::Memory)),
    }
}

/// Writes the frames of the blocks that these elements are cut into.
fn write_blocks<S: Sink>(
    alloc: Global,
    elements: &[Element],
    out: &mut S,
) -> Result<(), ExportFault>
    ensures wrote { WritesBlocks (S.written out.old) elements.now (S.written out.new) result }
    ensures cause { WriteHasCause (S.has_failed out.new) result }
{
    let mut cutter = BlobCutter::new(alloc, elements);
    loop {
        let block = match cutter.next() {
            Ok(Some(block)) => block,
            Ok(None) => return Ok(()),
            Err(WriteFault::BlockTooLarge) => return Err(ExportFault::BlockTooLarge),
            Err(WriteFault::Memory) => return Err(ExportFault::Store(StoreFault::Memory)),
        };
        write_payload(alloc, Kind::OsmData, &block, out)?;
    }
}

/// Writes each blob as the frames of the blocks that `BlobCutter` gives for its elements.
#[derive(Clone, Copy)]
pub struct Blocks;

impl<S: Sink> BlobStep<S> for Blocks {
    ghost writes = { WritesBlocks };

    fn write(&self, alloc: Global, elements: &[Element], out: &mut S) -> Result<(), ExportFault> {
        write_blocks(alloc, elements, out)
    }
}

/// Writes all held elements as a PBF file: a header frame, and then, for each held blob by offset, the frames of the
/// blocks that `BlobCutter` gives for its elements. Where an element has a flag of visibility, the header has the feature
/// `HistoricalInformation`. What is held stays.
///
/// It is refused as `export_lines` is, before any byte; unless `partial`, a map that doesn't tile the size gets no byte
/// before `Store` either. `BlockTooLarge` comes where halving a blob's elements comes to one whose block alone has more
/// than 33,554,431 bytes: the frames before that element went out. Over one map this and `Ok` never come both: an
/// element that is too large alone, but lies in a block that isn't, is no fault. After `WriteFailed` and `Store` a
/// front of what was to be written went out; after `Miscounted`, which never comes over a store that holds a map, the
/// frames of the blobs before.
///
/// Over a map that tiles a file and holds the entries of that file alone it isn't refused, with the file's size or with
/// none, and at `Ok` it has written a file: one of the same elements, in the same order, where that is 2^62 bytes at
/// most.
pub fn export_pbf<K: BlobReader, S: Sink>(
    alloc: Global,
    keeper: &mut K,
    size: Option<u64>,
    partial: bool,
    out: &mut S,
) -> Result<(), ExportFault>
    ensures export { OfHeld K.BlobReader keeper.old keeper.new (λ held. IsPbfExport held (size_of size (extents_of held)) partial (S.written out.old) (S.written out.new) result) }

    // Over a map that tiles a file, with its size or with none, it isn't refused, and writes a file of the same elements.
    ensures one_file { (held : HeldMap) (file : List ℕ) (frames : List (List ℕ)) → K.holds keeper.old held → K.is_honest keeper.new
        → IsFile file frames → IsHeldOfFile frames held → Tiles held (length file) → IsAskedFor size (length file) → WritesPbfFile frames (S.written out.old) (S.written out.new) result }

    ensures rereads { Rereads K.BlobReader keeper.old result keeper.new }
    ensures own { OfHeld K.BlobReader keeper.old keeper.new (λ _. ExportIsOwn result) }
    ensures cause { ExportHasCause (K.failures keeper.old) (K.failures keeper.new) (S.has_failed out.new) result }
    ensures told { ExportTells (K.failures keeper.old) (K.failures keeper.new) result }
{
    let extents = extents_to_export(alloc, keeper, size, partial)?;
    let history = keeper.history(alloc)?;
    write_header(alloc, history, out)?;
    write_blobs(alloc, keeper, &extents, &Blocks, out)
}
