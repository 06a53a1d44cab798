//! Header blocks: which features a file needs, which area it covers, and who wrote it.

ghost use Rattle.std.specs.Prelude.{◌≡◌, map, true, IfOk, option_map};
ghost use Rattle.std.specs.List.{list_all};
ghost use Rattle.std.specs.Option.{option_copied};
ghost use Rattle.std.specs.Str.{is_utf8};
ghost use Rattle.pbf_wire.specs.Readings.{fields, each, sub, int64, last, is_there};
ghost use Rattle.osm_block.specs.declared.fields.TheConstants.{HEADER_REQUIRED_FEATURES, HEADER_OPTIONAL_FEATURES};
ghost use Rattle.osm_block.specs.declared.header.fault.HeaderFault.TheVariants as faults;
ghost use Rattle.osm_block.specs.HeaderBlock.{HeaderValue, Answers, header_value, header_fault, first, wire_phase, box_of, side, last_text, are_texts, is_known, unknown_feature};

use crate::fields::{
    BBOX_BOTTOM, BBOX_LEFT, BBOX_RIGHT, BBOX_TOP, HEADER_BBOX, HEADER_OPTIONAL_FEATURES,
    HEADER_REPLICATION_BASE_URL, HEADER_REPLICATION_SEQUENCE_NUMBER, HEADER_REPLICATION_TIMESTAMP,
    HEADER_REQUIRED_FEATURES, HEADER_SOURCE, HEADER_WRITINGPROGRAM,
};
use crate::payloads::{last_number, wire_of};
use payloads::Payloads;
use pbf_wire::{WireFault, unzigzag};
use std::marker::Model;

mod fault;
mod payloads;
mod texts;

pub use fault::HeaderFault;
pub use texts::Texts;

/// The sides of an area, in nanodegrees, any numbers of 64 bits: whether they lie on the globe or are in order isn't
/// tested (osmformat.proto, HeaderBBox).
#[derive(Clone, Copy, Debug, PartialEq, Eq)]
pub struct BBox {
    /// The least longitude.
    pub left: i64,
    /// The greatest longitude.
    pub right: i64,
    /// The greatest latitude.
    pub top: i64,
    /// The least latitude.
    pub bottom: i64,
}

/// A header block whose required features are all known (osmformat.proto, HeaderBlock). Its texts are UTF-8 and slices
/// of its bytes. No getter takes memory; what the block doesn't have is None.
#[derive(Debug, Drop)]
pub struct HeaderBlock<'a> {
    bytes: &'a [u8],
    bbox: Option<BBox>,
    program: Option<&'a str>,
    source: Option<&'a str>,
    timestamp: Option<i64>,
    sequence: Option<i64>,
    url: Option<&'a str>,
}

impl<'a> Model for HeaderBlock<'a> {
    ghost Value = { HeaderValue };

    ghost view = { λ h. record {
      bbox = h.bbox;
      required = each (fields h.bytes.now) HEADER_REQUIRED_FEATURES;
      optional = each (fields h.bytes.now) HEADER_OPTIONAL_FEATURES;
      program = option_copied h.program;
      source = option_copied h.source;
      timestamp = h.timestamp;
      sequence = h.sequence;
      url = option_copied h.url;
    } };

    ghost invariant = { λ h. (list_all is_utf8 (each (fields h.bytes.now) HEADER_REQUIRED_FEATURES) ≡ true) × (list_all is_utf8 (each (fields h.bytes.now) HEADER_OPTIONAL_FEATURES) ≡ true) };
}

impl<'a> HeaderBlock<'a> {
    ghost use Rattle.osm_block.specs.HeaderTexts.{texts_left};

    /// The area that the file covers, its sides in nanodegrees. Where the block has several boxes, they are read as one
    /// message, each side from the last box that has it.
    pub fn bbox(&self) -> Option<BBox>
        ensures { result ≡ self.now.bbox }
    {
        self.bbox
    }

    /// The features that a reader needs, in the order of the block: each is `OsmSchema-V0.6`, `DenseNodes` or
    /// `HistoricalInformation`.
    pub fn required(&self) -> Texts<'a>
        ensures { texts_left result ≡ self.now.required }
    {
        Texts::new(self.bytes, HEADER_REQUIRED_FEATURES)
    }

    /// The features that a reader may use, in the order of the block. They are any texts.
    pub fn optional(&self) -> Texts<'a>
        ensures { texts_left result ≡ self.now.optional }
    {
        Texts::new(self.bytes, HEADER_OPTIONAL_FEATURES)
    }

    /// The program that wrote the file: the last `writingprogram`.
    pub fn program(&self) -> Option<&'a str>
        ensures { option_copied result ≡ self.now.program }
    {
        self.program
    }

    /// Where the data comes from: the last `source`.
    pub fn source(&self) -> Option<&'a str>
        ensures { option_copied result ≡ self.now.source }
    {
        self.source
    }

    /// When the database was in the state that the file shows, in seconds since 1970, any number of 64 bits: the last
    /// `osmosis_replication_timestamp`.
    pub fn timestamp(&self) -> Option<i64>
        ensures { result ≡ self.now.timestamp }
    {
        self.timestamp
    }

    /// The number of that state in the row of replications, any number of 64 bits: the last
    /// `osmosis_replication_sequence_number`.
    pub fn sequence(&self) -> Option<i64>
        ensures { result ≡ self.now.sequence }
    {
        self.sequence
    }

    /// Where later states are to be had: the last `osmosis_replication_base_url`.
    pub fn url(&self) -> Option<&'a str>
        ensures { option_copied result ≡ self.now.url }
    {
        self.url
    }
}

/// The first wire fault of the boxes.
fn wire_of_boxes(bytes: &[u8]) -> Option<WireFault>
    ensures { option_map faults.HeaderBlockWire result ≡ first (map wire_phase (each (fields bytes.now) HEADER_BBOX)) }
{
    for payload in Payloads::new(bytes, HEADER_BBOX) {
        if let Some(fault) = wire_of(payload) {
            return Some(fault);
        }
    }
    None
}

fn has_box(bytes: &[u8]) -> bool
    ensures { result ≡ is_there (each (fields bytes.now) HEADER_BBOX) }
{
    Payloads::new(bytes, HEADER_BBOX).next().is_some()
}

/// One side of the box that all payloads make together.
fn side(bytes: &[u8], number: u32) -> Option<i64>
    ensures { result ≡ side (sub (fields bytes.now) HEADER_BBOX) number }
{
    let mut last = None;
    for payload in Payloads::new(bytes, HEADER_BBOX) {
        last = last_number(payload, number, last);
    }
    match last {
        Some(number) => Some(unzigzag(number)),
        None => None,
    }
}

/// The box, where all its sides are there.
fn bbox_of(bytes: &[u8]) -> Option<BBox>
    ensures { result ≡ box_of (sub (fields bytes.now) HEADER_BBOX) }
{
    Some(BBox {
        left: side(bytes, BBOX_LEFT)?,
        right: side(bytes, BBOX_RIGHT)?,
        top: side(bytes, BBOX_TOP)?,
        bottom: side(bytes, BBOX_BOTTOM)?,
    })
}

fn is_utf8(bytes: &[u8]) -> bool
    ensures { result ≡ is_utf8 bytes.now }
{
    simdutf8::is_utf8(bytes)
}

/// Whether all payloads of the fields `number` are UTF-8.
fn are_utf8(bytes: &[u8], number: u32) -> bool
    ensures { result ≡ list_all is_utf8 (each (fields bytes.now) number) }
{
    for payload in Payloads::new(bytes, number) {
        if !is_utf8(payload) {
            return false;
        }
    }
    true
}

fn are_texts(bytes: &[u8]) -> bool
    ensures { result ≡ are_texts (fields bytes.now) }
{
    let features = are_utf8(bytes, HEADER_REQUIRED_FEATURES)
        & are_utf8(bytes, HEADER_OPTIONAL_FEATURES);
    let origins = are_utf8(bytes, HEADER_WRITINGPROGRAM)
        & are_utf8(bytes, HEADER_SOURCE)
        & are_utf8(bytes, HEADER_REPLICATION_BASE_URL);
    features & origins
}

fn is_known(feature: &str) -> bool
    ensures { result ≡ is_known feature.now }
{
    feature == "OsmSchema-V0.6" || feature == "DenseNodes" || feature == "HistoricalInformation"
}

/// The index of the first required feature that isn't known, among the required ones.
fn unknown_feature(bytes: &[u8]) -> Option<usize>
    requires { list_all is_utf8 (each (fields bytes.now) HEADER_REQUIRED_FEATURES) ≡ true }
    ensures { result ≡ unknown_feature (each (fields bytes.now) HEADER_REQUIRED_FEATURES) }
{
    Texts::new(bytes, HEADER_REQUIRED_FEATURES).position(|feature| !is_known(feature))
}

/// The last text of the fields `number`.
fn last_text(bytes: &[u8], number: u32) -> Option<&str>
    requires { list_all is_utf8 (each (fields bytes.now) number) ≡ true }
    ensures { option_copied result ≡ last_text (fields bytes.now) number }
{
    let mut last = None;
    for text in Texts::new(bytes, number) {
        last = Some(text);
    }
    last
}

/// The last number of the fields `number`.
fn last_int(bytes: &[u8], number: u32) -> Option<i64>
    ensures { result ≡ option_map int64 (last (fields bytes.now) number) }
{
    match last_number(bytes, number, None) {
        Some(number) => Some(number.cast_signed()),
        None => None,
    }
}

/// Reads a header block, and refuses one whose required features aren't all known: `OsmSchema-V0.6`, `DenseNodes` and
/// `HistoricalInformation` (osmformat.proto, HeaderBlock). Texts are slices of `bytes`, and no memory is taken.
///
/// The fault is the first in the order of the numbers: `HeaderBlockWire` where the block or a box is no field list;
/// `BBoxIncomplete` where there is a box and a side is missing; `HeaderTextNotUtf8` where a feature, the program, the
/// source or the URL is no UTF-8; `UnknownFeature` with the first such feature's index among the required ones, from 0.
#[tactic(auto, unfolding(crate::specs::HeaderBlock::header_fault))]
pub fn read_header_block(bytes: &[u8]) -> Result<HeaderBlock<'_>, HeaderFault>
    // It is refused exactly where a fault applies, with the first.
    ensures fault { Answers (header_fault bytes.now) result }
    ensures parts { IfOk result (λ h. h ≡ header_value (fields bytes.now)) }
{
    if let Some(fault) = wire_of(bytes) {
        return Err(HeaderFault::HeaderBlockWire(fault));
    }
    if let Some(fault) = wire_of_boxes(bytes) {
        return Err(HeaderFault::HeaderBlockWire(fault));
    }
    let bbox = bbox_of(bytes);
    if has_box(bytes) & bbox.is_none() {
        return Err(HeaderFault::BBoxIncomplete);
    }
    if !are_texts(bytes) {
        return Err(HeaderFault::HeaderTextNotUtf8);
    }
    if let Some(index) = unknown_feature(bytes) {
        return Err(HeaderFault::UnknownFeature(index));
    }
    Ok(HeaderBlock {
        bytes,
        bbox,
        program: last_text(bytes, HEADER_WRITINGPROGRAM),
        source: last_text(bytes, HEADER_SOURCE),
        timestamp: last_int(bytes, HEADER_REPLICATION_TIMESTAMP),
        sequence: last_int(bytes, HEADER_REPLICATION_SEQUENCE_NUMBER),
        url: last_text(bytes, HEADER_REPLICATION_BASE_URL),
    })
}
