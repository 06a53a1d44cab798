//! What a delivery is: a good blob, or its first fault.

ghost use Rattle.std.specs.Prelude.{◌≡◌, ℕ, List, [], length, Some, Ok, IfOk, IfErr, OnOk, MatchOption};
ghost use Rattle.pbf_frame.specs.Frame.{Found, whole_at};
ghost use Rattle.pbf_frame.specs.View.{found};
ghost use Rattle.pbf_frame.specs.declared.kind.Kind.TheVariants.{OsmHeader, OsmData};
ghost use Rattle.osm_reading.specs.Good.{IsGood, HasElements, HasHeader};
ghost use Rattle.osm_reading.specs.ExamineFaults.{examine_number_of, examine_name_of};
ghost use Rattle.osm_reading.specs.Bad.{IsFinding, CanStand, IsMisplaced, IsBadBlob, IsBlobFinding};

use crate::fault::Fault;
use osm_block::{BlockError, HeaderBlock, read_block, read_header_block};
use osm_value::Element;
use pbf_frame::{Frame, FrameFault, Kind, MAX_OFFSET, raw, whole_frame};
use std::alloc::Global;
use thiserror::Error;

/// Why a delivery isn't found good: its first fault, or that memory was refused.
#[derive(Clone, Copy, Debug, PartialEq, Eq, Error)]
pub enum ExamineFault {
    #[error("{0}")]
    Bad(Fault),
    #[error("memory was refused")]
    Memory,
}

impl ExamineFault {
    /// The number that this fault has in every message of the program: that of the delivery's fault, or 65.
    pub fn number(self) -> u8
        ensures { result ≡ examine_number_of self }
    {
        match self {
            ExamineFault::Bad(fault) => fault.number(),
            ExamineFault::Memory => 65,
        }
    }

    /// The name that this fault has in every message of the program: that of the delivery's fault, or `Memory`.
    pub fn name(self) -> &'static str
        ensures { result.now ≡ examine_name_of self }
    {
        match self {
            ExamineFault::Bad(fault) => fault.name(),
            ExamineFault::Memory => "Memory",
        }
    }
}

/// A good delivery: the kind of its frame, how many bytes the frame has, its elements, whose texts lie in it, and its
/// header block, where it is an OSMHeader.
#[derive(Debug, Drop)]
pub struct Good<'a> {
    pub kind: Kind,
    /// In bytes: that of the delivery, at most 33,685,507.
    pub length: u64,
    /// In the order of the block; none where the blob isn't an OSMData.
    pub elements: Vec<Element<'a>>,
    pub header: Option<HeaderBlock<'a>>,
}

/// What a blob without a fault holds: elements, or a header block.
#[derive(Drop)]
struct Content<'a> {
    elements: Vec<Element<'a>>,
    header: Option<HeaderBlock<'a>>,
}

/// Why a frame of this kind and length may not stand at this offset.
fn placing_fault(off: u64, kind: Kind, length: u64) -> Option<Fault>
    ensures { MatchOption result (CanStand off kind length) (IsMisplaced off kind length) }
{
    if off > MAX_OFFSET || length > MAX_OFFSET - off {
        return Some(Fault::Frame(FrameFault::OffsetTooLarge));
    }
    match kind {
        Kind::OsmHeader if off != 0 => Some(Fault::HeaderNotFirst),
        Kind::OsmData | Kind::Other if off == 0 => Some(Fault::NoHeaderFirst),
        _ => None,
    }
}

/// The header block in the blob of an OSMHeader.
fn read_header(blob: &[u8]) -> Result<HeaderBlock<'_>, Fault>
    ensures ok { OnOk result (HasElements OsmHeader blob.now []) }
    ensures header { IfOk result (λ header. HasHeader OsmHeader blob.now (Some header)) }
    ensures err { IfErr result (IsBadBlob OsmHeader blob.now) }
{
    let block = match raw(blob) {
        Ok(block) => block,
        Err(fault) => return Err(Fault::Blob(fault)),
    };
    match read_header_block(block) {
        Ok(header) => Ok(header),
        Err(fault) => Err(Fault::Header(fault)),
    }
}

/// The elements of the blob of an OSMData.
fn read_data(alloc: Global, blob: &[u8]) -> Result<Vec<Element<'_>>, ExamineFault>
    ensures ok { IfOk result (λ es. HasElements OsmData blob.now es.items) }
    ensures err { IfErr result (IsBlobFinding OsmData blob.now) }
{
    let block = match raw(blob) {
        Ok(block) => block,
        Err(fault) => return Err(ExamineFault::Bad(Fault::Blob(fault))),
    };
    match read_block(alloc, block) {
        Ok(elements) => Ok(elements),
        Err(BlockError::Fault(fault)) => Err(ExamineFault::Bad(Fault::Block(fault))),
        Err(BlockError::Memory) => Err(ExamineFault::Memory),
    }
}

/// What a blob of this kind holds.
fn read_content(alloc: Global, kind: Kind, blob: &[u8]) -> Result<Content<'_>, ExamineFault>
    ensures ok { IfOk result (λ content. HasElements kind blob.now content.elements.items) }
    ensures header { IfOk result (λ content. HasHeader kind blob.now content.header) }
    ensures err { IfErr result (IsBlobFinding kind blob.now) }
{
    match kind {
        Kind::OsmData => Ok(Content {
            elements: read_data(alloc, blob)?,
            header: None,
        }),
        Kind::Other => Ok(Content {
            elements: Vec::new(alloc),
            header: None,
        }),
        Kind::OsmHeader => match read_header(blob) {
            Ok(header) => Ok(Content {
                elements: Vec::new(alloc),
                header: Some(header),
            }),
            Err(fault) => Err(ExamineFault::Bad(fault)),
        },
    }
}

/// What `examine` says of the bytes that are this frame, at the offset `off` in bytes: its kind, length, elements and
/// header block, or the first fault of its place, of its blob and of the block in it, or `Memory`.
pub fn examine_frame<'a>(
    alloc: Global,
    off: u64,
    frame: &Frame<'a>,
) -> Result<Good<'a>, ExamineFault>
    ensures good { (bytes : List ℕ) → whole_at bytes ≡ Ok (found frame.now) → IfOk result (λ good. IsGood off bytes good.kind good.elements.items) }
    ensures length { (bytes : List ℕ) → whole_at bytes ≡ Ok (found frame.now) → IfOk result (λ good. good.length ≡ length bytes) }
    ensures header { IfOk result (λ good. HasHeader frame.now.kind frame.now.blob.now good.header) }
    ensures bad { (bytes : List ℕ) → whole_at bytes ≡ Ok (found frame.now) → IfErr result (IsFinding off bytes) }
{
    if let Some(fault) = placing_fault(off, frame.kind, frame.length) {
        return Err(ExamineFault::Bad(fault));
    }
    match read_content(alloc, frame.kind, frame.blob) {
        Ok(content) => Ok(Good {
            kind: frame.kind,
            length: frame.length,
            elements: content.elements,
            header: content.header,
        }),
        Err(fault) => Err(fault),
    }
}

/// The kind, the length, the elements and the header block of a good delivery at the offset `off`, in bytes, or its
/// first fault.
///
/// A delivery is good where the bytes are one whole frame that ends at 2^62 at most and stands at offset 0 exactly
/// where it is an OSMHeader; where an OSMHeader's header block has no fault; and where an OSMData's block says these
/// elements. The blob of another type isn't read.
///
/// `Bad` has the first fault that stands, in this order: of the frame, with bytes behind it too; of its place, which is
/// an end above 2^62, then an OSMHeader behind offset 0 or another type at offset 0; of the blob; of the block in it.
/// `Memory` stands in place of any of these where memory was refused, and says nothing of the delivery.
pub fn examine(alloc: Global, off: u64, bytes: &[u8]) -> Result<Good<'_>, ExamineFault>
    ensures good { IfOk result (λ good. IsGood off bytes.now good.kind good.elements.items) }
    ensures length { IfOk result (λ good. good.length ≡ length bytes.now) }
    ensures header { (frame : Found) → whole_at bytes.now ≡ Ok frame → IfOk result (λ good. HasHeader frame.kind frame.blob good.header) }
    ensures bad { IfErr result (IsFinding off bytes.now) }
{
    match whole_frame(bytes) {
        Ok(frame) => examine_frame(alloc, off, &frame),
        Err(fault) => Err(ExamineFault::Bad(Fault::Frame(fault))),
    }
}
