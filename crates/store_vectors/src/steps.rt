//! Tests as tables: the calls of a store one after the other, each with what it has to answer.

use crate::deliveries::{deliveries_of, exported};
use crate::fixtures::{
    EXTRA, FILE_BYTES, Frame, HEADER, HELD_HEADER, HELD_NODES, HELD_TAGGED, LINES, NODES, NOTHING,
    PLACED_EXTRA, PLACED_HEADER, PLACED_NODES, PLACED_WAYS, RELATION, RELATION_AT_137,
    TAGGED_LINES, THREE_WAYS, TWO_NODES, WAY, WAY_AT_203, WRITTEN_HEADER,
};
use crate::memory::{BodiesInMemory, NewStore, TablesInMemory, TreesInMemory};
use osm_block::read_block;
use osm_import::{
    Answer, ExportFault, ImportStop, Inlet, Summary, Told, deliver, deliver_all, gaps,
    import_stream,
};
use osm_rows::{BlobKeeper, BlobReader, Extent, StoreFault};
use osm_value::{Element, Form, MemberKind, Outlet, write_line};
use std::alloc::Global;
use std::io::Read;
use std::test::Fail;

/// A call of a store, and behind its arguments what it has to answer.
pub enum Step {
    /// Goes on with a new store, which holds nothing.
    NewStore,
    /// Each later statement may take so many steps; None is no limit.
    LimitSteps(Option<u64>),
    /// A frame is delivered at an offset.
    Deliver(u64, &'static [u8], Answer),
    /// These are delivered in turn.
    DeliverAll(&'static [Frame<'static>], &'static [Answer]),
    /// The elements of a block are put where the extent says.
    Put(Extent, &'static [u8], Result<(), StoreFault>),
    /// The bytes of the file of two frames between two places are imported from 0, so many blobs at most. Behind the
    /// outcome stand the lines that are written.
    Import((usize, usize), u32, Result<Summary, ImportStop>, &'static [u8]),
    /// So many calls have answered a fault.
    Failures(u64),
    /// These are all extents.
    Extents(&'static [Extent]),
    /// A read of all extents is answered by a fault.
    NoExtents(StoreFault),
    /// These share a byte with those from the first offset to the second.
    Touching(u64, u64, &'static [Extent]),
    /// These are the gaps in a file of so many bytes.
    Gaps(u64, &'static [(u64, u64)]),
    /// The lines of the elements of the blob at an offset.
    Loads(u64, &'static [u8]),
    /// The lines of the elements of a kind and id, each behind the offset of its blob and its position there.
    Finds(MemberKind, i64, &'static [u8]),
    /// Whether any held element has a flag of visibility.
    History(bool),
    /// An export of the file, of this size where one is given, as lines: its pieces.
    Lines(Option<u64>, &'static [&'static [u8]]),
    /// An export as lines of whatever is held.
    PartialLines(&'static [&'static [u8]]),
    /// An export of the file as PBF.
    Pbf(Option<u64>, &'static [&'static [u8]]),
    /// An export as PBF of whatever is held.
    PartialPbf(&'static [&'static [u8]]),
    /// Exports of the file, as lines and as PBF, write nothing.
    NoExport(Option<u64>, ExportFault),
    /// The file of two frames is held and nothing else, and exports give it back as lines and as PBF.
    HoldsTheFile,
}

/// The deliveries with which most tests begin.
pub const STORE_HEADER: Step = Step::Deliver(0, HEADER, Answer::Stored(0));

pub const STORE_NODES: Step = Step::Deliver(47, NODES, Answer::Stored(2));

/// Behind the file.
pub const STORE_EXTRA: Step = Step::Deliver(84, EXTRA, Answer::Stored(0));

/// The same blobs, put without their frames.
pub const PUT_HEADER: Step = Step::Put(PLACED_HEADER, NOTHING, Ok(()));

pub const PUT_NODES: Step = Step::Put(PLACED_NODES, TWO_NODES, Ok(()));

pub const PUT_EXTRA: Step = Step::Put(PLACED_EXTRA, NOTHING, Ok(()));

/// Header and nodes, three ways, and behind them relation 9, and way 7 over four nodes.
pub const FIVE_BLOBS: &[Step] = &[
    PUT_HEADER,
    PUT_NODES,
    Step::Put(PLACED_WAYS, THREE_WAYS, Ok(())),
    Step::Put(RELATION_AT_137, RELATION, Ok(())),
    Step::Put(WAY_AT_203, WAY, Ok(())),
];

impl Step {
    /// Makes the call, and says whether it is answered as it has to be.
    pub fn is_met<K: NewStore>(&self, alloc: Global, store: &mut K) -> Result<bool, StoreFault> {
        match *self {
            Step::NewStore => {
                *store = K::new_store(alloc)?;
                Ok(true)
            }
            Step::LimitSteps(limit) => {
                store.limit_steps(limit);
                Ok(true)
            }
            Step::Deliver(off, bytes, answer) => Ok(deliver(alloc, store, off, bytes) == answer),
            Step::DeliverAll(frames, answers) => {
                let deliveries = deliveries_of(alloc, frames)?;
                let found = deliver_all(alloc, store, &deliveries)?;
                Ok(found.as_slice() == answers)
            }
            Step::Put(extent, block, answer) => Ok(
                put_block(alloc, store, &extent, block) == answer,
            ),
            Step::Import(part, max_blobs, outcome, lines) => {
                Ok(imports(alloc, store, part, max_blobs, outcome, lines))
            }
            _ => self.is_read(alloc, store),
        }
    }

    /// The same of the calls that read what is held.
    pub fn is_read<K: BlobReader>(&self, alloc: Global, store: &mut K) -> Result<bool, StoreFault> {
        match *self {
            Step::Failures(count) => Ok(store.failures() == count),
            Step::Extents(extents) => Ok(store.extents(alloc)?.as_slice() == extents),
            Step::NoExtents(fault) => {
                Ok(matches!(store.extents(alloc), Err(found) if found == fault))
            }
            Step::Touching(from, to, extents) => touches(alloc, store, from, to, extents),
            Step::Gaps(size, ranges) => Ok(gaps(alloc, store, size)?.as_slice() == ranges),
            Step::Loads(off, lines) => loads(alloc, store, off, lines),
            Step::Finds(kind, id, lines) => finds(alloc, store, kind, id, lines),
            Step::History(answer) => Ok(store.history(alloc)? == answer),
            _ => self.is_exported(alloc, store),
        }
    }

    /// The same of exports.
    fn is_exported<K: BlobReader>(&self, alloc: Global, store: &mut K) -> Result<bool, StoreFault> {
        match *self {
            Step::Lines(size, pieces) => Ok(exports(alloc, store, Form::Lines, size, pieces)),
            Step::Pbf(size, pieces) => Ok(exports(alloc, store, Form::Pbf, size, pieces)),
            Step::PartialLines(pieces) => Ok(exports_partially(alloc, store, Form::Lines, pieces)),
            Step::PartialPbf(pieces) => Ok(exports_partially(alloc, store, Form::Pbf, pieces)),
            Step::NoExport(size, fault) => Ok(
                refuses(alloc, store, Form::Lines, size, fault)
                    && refuses(alloc, store, Form::Pbf, size, fault),
            ),
            Step::HoldsTheFile => holds_the_file(alloc, store),
            _ => Ok(false),
        }
    }
}

/// Puts the elements of a block where the extent says. `NotThisStore(None)` where the block or the extent is none.
pub fn put_block<K: BlobKeeper>(
    alloc: Global,
    store: &mut K,
    extent: &Extent,
    block: &[u8],
) -> Result<(), StoreFault> {
    let Ok(elements) = read_block(alloc, block) else {
        return Err(StoreFault::NotThisStore(None));
    };
    let (off, fin) = (extent.off, extent.fin);
    if off >= fin || fin > 1 << 62 {
        return Err(StoreFault::NotThisStore(None));
    }
    store.put(alloc, off, fin, &extent.digest, extent.kind, &elements)
}

/// Imports what a reader gives, from 0 and at most so many blobs: the outcome, and the lines that are written, one for each blob.
pub fn import<K: BlobKeeper, R: Read + Drop>(
    alloc: Global,
    store: &mut K,
    reader: R,
    max_blobs: u32,
) -> (Result<Summary, ImportStop>, Vec<u8>) {
    let mut source = Inlet::new(reader);
    let mut out = Outlet::new(Vec::new(alloc));
    let outcome = import_stream(
        alloc,
        store,
        &mut source,
        0,
        max_blobs,
        &Told::All,
        &mut out,
    );
    (outcome, out.into_inner())
}

fn imports<K: BlobKeeper>(
    alloc: Global,
    store: &mut K,
    part: (usize, usize),
    max_blobs: u32,
    wanted: Result<Summary, ImportStop>,
    wanted_lines: &[u8],
) -> bool {
    let Some(bytes) = FILE_BYTES.get(part.0..part.1) else {
        return false;
    };
    let (outcome, lines) = import(alloc, store, bytes, max_blobs);
    outcome == wanted && lines.as_slice() == wanted_lines
}

fn touches<K: BlobReader>(
    alloc: Global,
    store: &mut K,
    from: u64,
    to: u64,
    extents: &[Extent],
) -> Result<bool, StoreFault> {
    if from >= to || to > 1 << 62 {
        return Ok(false);
    }
    let found = store.extents_touching(alloc, from, to)?;
    Ok(found.as_slice() == extents)
}

fn loads<K: BlobReader>(
    alloc: Global,
    store: &mut K,
    off: u64,
    lines: &[u8],
) -> Result<bool, StoreFault> {
    Ok(loaded_lines(alloc, store, off)?.as_slice() == lines)
}

/// The lines of the elements that are loaded of the blob at an offset.
pub fn loaded_lines<K: BlobReader>(
    alloc: Global,
    store: &mut K,
    off: u64,
) -> Result<Vec<u8>, StoreFault> {
    let loaded = store.load(alloc, off)?;
    let Some(elements) = loaded.elements(alloc)? else {
        return Err(StoreFault::NotThisStore(None));
    };
    let mut out = Outlet::new(Vec::new(alloc));
    for element in &elements {
        if write_line(element, &mut out).is_err() {
            return Err(StoreFault::Memory);
        }
    }
    Ok(out.into_inner())
}

fn finds<K: BlobReader>(
    alloc: Global,
    store: &mut K,
    kind: MemberKind,
    id: i64,
    lines: &[u8],
) -> Result<bool, StoreFault> {
    Ok(found_lines(alloc, store, kind, id)?.as_slice() == lines)
}

/// The lines of the elements of this kind and id, each behind its blob's offset and its position.
pub fn found_lines<K: BlobReader>(
    alloc: Global,
    store: &mut K,
    kind: MemberKind,
    id: i64,
) -> Result<Vec<u8>, StoreFault> {
    let found = store.find(alloc, kind, id)?;
    let matches = found.matches(alloc)?;
    Ok(match_lines(alloc, &matches)?)
}

/// The lines of these elements, each behind its blob's offset and its position.
fn match_lines(alloc: Global, matches: &[(u64, u64, Element)]) -> Result<Vec<u8>, StoreFault> {
    let mut lines = Vec::new(alloc);
    for found in matches {
        let place = format!(in alloc; "{} {} ", found.0, found.1)?;
        lines.extend_from_slice(place.as_bytes())?;
        let mut out = Outlet::new(Vec::new(alloc));
        if write_line(&found.2, &mut out).is_err() {
            return Err(StoreFault::Memory);
        }
        lines.extend_from_slice(&out.into_inner())?;
    }
    Ok(lines)
}

fn exports<K: BlobReader>(
    alloc: Global,
    store: &mut K,
    form: Form,
    size: Option<u64>,
    pieces: &[&[u8]],
) -> bool {
    let (result, bytes) = exported(alloc, store, form, size, false);
    result == Ok(()) && are_joined(&bytes, pieces)
}

fn exports_partially<K: BlobReader>(
    alloc: Global,
    store: &mut K,
    form: Form,
    pieces: &[&[u8]],
) -> bool {
    let (result, bytes) = exported(alloc, store, form, None, true);
    result == Ok(()) && are_joined(&bytes, pieces)
}

fn refuses<K: BlobReader>(
    alloc: Global,
    store: &mut K,
    form: Form,
    size: Option<u64>,
    fault: ExportFault,
) -> bool {
    let (result, bytes) = exported(alloc, store, form, size, false);
    result == Err(fault) && bytes.is_empty()
}

pub fn holds_the_file<K: BlobReader>(alloc: Global, store: &mut K) -> Result<bool, StoreFault> {
    let extents = store.extents(alloc)?;
    Ok(
        extents.as_slice() == [HELD_HEADER, HELD_NODES].as_slice()
            && exports(alloc, store, Form::Lines, Some(84), &[LINES])
            && exports(alloc, store, Form::Pbf, Some(84), &[WRITTEN_HEADER, NODES]),
    )
}

/// Whether the file of three frames is held and nothing else, and an export gives its lines.
pub fn holds_the_tagged_file<K: BlobReader>(
    alloc: Global,
    store: &mut K,
) -> Result<bool, StoreFault> {
    let extents = store.extents(alloc)?;
    Ok(
        extents.as_slice() == [HELD_HEADER, HELD_NODES, HELD_TAGGED].as_slice()
            && exports(alloc, store, Form::Lines, None, &[LINES, TAGGED_LINES]),
    )
}

/// Whether the bytes are these pieces, one behind the other.
pub fn are_joined(bytes: &[u8], pieces: &[&[u8]]) -> bool {
    let mut rest = bytes;
    for piece in pieces {
        match rest.strip_prefix(*piece) {
            Some(left) => rest = left,
            None => return false,
        }
    }
    rest.is_empty()
}

/// Takes the steps in turn over a new store, which is handed back. A step that isn't met is named by its number, from 0.
pub fn followed<K: NewStore>(alloc: Global, layout: &str, steps: &[Step]) -> Result<K, Fail> {
    let mut store = K::new_store(alloc)?;
    for (number, step) in steps.iter().enumerate() {
        let outcome = step.is_met(alloc, &mut store);
        if outcome != Ok(true) {
            return Err(Fail::new(format_args!("step {number} over {layout}: {outcome:?}")));
        }
    }
    Ok(store)
}

/// Takes the steps in turn over a new store of each layout.
pub fn over_both_layouts(alloc: Global, steps: &[Step]) -> Result<(), Fail> {
    followed::<BodiesInMemory>(alloc, "bodies", steps)?;
    followed::<TablesInMemory>(alloc, "tables", steps)?;
    Ok(())
}

/// The same below SQL.
fn over_trees(alloc: Global, steps: &[Step]) -> Result<(), Fail> {
    followed::<TreesInMemory>(alloc, "trees", steps)?;
    Ok(())
}

/// Takes the steps in turn over a new store of each layout, and over one that is read and written below SQL.
pub fn over_all_stores(alloc: Global, steps: &[Step]) -> Result<(), Fail> {
    over_both_layouts(alloc, steps)?;
    over_trees(alloc, steps)
}
