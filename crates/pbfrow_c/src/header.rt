//! Header blocks: their numbers and texts.

ghost use Rattle.std.specs.Prelude.{◌≡◌, ◌++◌, IfNone, IfOk, IfSome, OnOk, length, map};
ghost use Rattle.std.specs.Option.{option_copied};
ghost use Rattle.pbf_wire.specs.Readings.{fields};
ghost use Rattle.osm_block.specs.HeaderBlock.{header_fault, header_value, number_of};
ghost use Rattle.osm_block.specs.HeaderTexts.{texts_left};
ghost use Rattle.osm_columns.specs.Lists.{joined};
ghost use Rattle.pbfrow_c.specs.Header.{IsTold, listed, texts_of, values_of};

use osm_block::{BBox, HeaderBlock, Texts, read_header_block};
use osm_columns::{TextColumn, put_texts, text_bytes_of, texts_fit};
use std::alloc::{AllocError, Global};

/// What a header block says (osmformat.proto, HeaderBlock), but for its texts.
#[repr(C)]
#[derive(Drop)]
pub struct HeaderValues {
    /// The least longitude of the area, in nanodegrees; 0 without `has_bbox`, as are the other three.
    pub left: i64,
    /// The greatest longitude.
    pub right: i64,
    /// The greatest latitude.
    pub top: i64,
    /// The least latitude.
    pub bottom: i64,
    /// When the database was in the state that the file shows, in seconds since 1970; 0 without `has_timestamp`.
    pub timestamp: i64,
    /// The number of that state in the row of replications; 0 without `has_sequence`.
    pub sequence: i64,
    /// How many required features there are: those that a reader needs.
    pub required: u64,
    /// How many optional features there are: those that a reader may use.
    pub optional: u64,
    /// How many texts there are in all: the features, the program, the source and the URL.
    pub texts: u64,
    /// How many bytes the texts have together.
    pub text_bytes: u64,
    /// 1 where there is an area, else 0.
    pub has_bbox: u8,
    /// 1 where there is an osmosis_replication_timestamp, else 0.
    pub has_timestamp: u8,
    /// 1 where there is an osmosis_replication_sequence_number, else 0.
    pub has_sequence: u8,
    /// 1 where the writing program is told, else 0.
    pub has_program: u8,
    /// 1 where the source is told, else 0.
    pub has_source: u8,
    /// 1 where there is an osmosis_replication_base_url, else 0.
    pub has_url: u8,
}

/// What is told where there is no area.
const NO_BOX: BBox = BBox {
    left: 0,
    right: 0,
    top: 0,
    bottom: 0,
};

/// Memory was refused.
const MEMORY: u8 = 65;

/// Not all texts have room in the arrays.
const NO_ROOM: u8 = 72;

/// Appends the texts.
fn push_all<'a>(texts: Texts<'a>, out: &mut Vec<&'a str>) -> Result<(), AllocError>
    ensures { OnOk result (map (λ t. t.now) out.new.items ≡ map (λ t. t.now) out.old.items ++ texts_left texts.entry) }
{
    for text in texts {
        out.push(text)?;
    }
    Ok(())
}

/// Appends the text, if it is there.
fn push_there<'a>(text: Option<&'a str>, out: &mut Vec<&'a str>) -> Result<(), AllocError>
    ensures { OnOk result (map (λ t. t.now) out.new.items ≡ map (λ t. t.now) out.old.items ++ listed (option_copied text.entry)) }
{
    if let Some(text) = text {
        out.push(text)?;
    }
    Ok(())
}

/// The texts of a header block, in the order in which they are told.
fn texts_of<'a>(alloc: Global, header: &HeaderBlock<'a>) -> Result<Vec<&'a str>, AllocError>
    ensures { IfOk result (λ texts. map (λ t. t.now) texts.items ≡ texts_of header.now) }
{
    let mut texts = Vec::new(alloc);
    push_all(header.required(), &mut texts)?;
    push_all(header.optional(), &mut texts)?;
    push_there(header.program(), &mut texts)?;
    push_there(header.source(), &mut texts)?;
    push_there(header.url(), &mut texts)?;
    Ok(texts)
}

/// The numbers of a header block with so many texts, and bytes in them.
fn values_of(header: &HeaderBlock, texts: u64, text_bytes: u64) -> HeaderValues
    requires texts { texts ≡ length (texts_of header.now) }
    requires text_bytes { text_bytes ≡ length (joined (texts_of header.now)) }
    ensures { result ≡ values_of header.now }
{
    let bbox = header.bbox().unwrap_or(NO_BOX);
    HeaderValues {
        left: bbox.left,
        right: bbox.right,
        top: bbox.top,
        bottom: bbox.bottom,
        timestamp: header.timestamp().unwrap_or(0),
        sequence: header.sequence().unwrap_or(0),
        required: header.required().count() as u64,
        optional: header.optional().count() as u64,
        texts,
        text_bytes,
        has_bbox: u8::from(header.bbox().is_some()),
        has_timestamp: u8::from(header.timestamp().is_some()),
        has_sequence: u8::from(header.sequence().is_some()),
        has_program: u8::from(header.program().is_some()),
        has_source: u8::from(header.source().is_some()),
        has_url: u8::from(header.url().is_some()),
    }
}

/// What a header block says. `block` is the payload of an OSMHeader.
///
/// `texts` gets the required features, the optional ones, and then, each only where it is there, the writing program,
/// the source and the URL of the replications. Behind them the arrays stay as they were.
///
/// The status is 0; or 72 where an array is too short for the texts: then `header` says how long the arrays have to be,
/// and none of them is written to; or, with nothing written, the number of the header block's fault, 30 to 33, or 65
/// where memory was refused.
#[unsafe(no_mangle)]
pub extern "C" fn pbfrow_header_block(
    alloc: Global,
    block: &[u8],
    header: &mut HeaderValues,
    texts: &mut TextColumn,
) -> u8
    ensures fault { IfSome (header_fault block.now) (λ fault. (result ≡ number_of fault) × (header.new ≡ header.old) × (texts.new ≡ texts.old)) }
    ensures told { IfNone (header_fault block.now) (IsTold (header_value (fields block.now)) header.old header.new texts.old texts.new result) }
{
    let found = match read_header_block(block) {
        Ok(found) => found,
        Err(fault) => return fault.number(),
    };
    let Ok(all) = texts_of(alloc, &found) else {
        return MEMORY;
    };
    let Some(bytes) = text_bytes_of(&all) else {
        return MEMORY;
    };
    let count = all.len() as u64;
    *header = values_of(&found, count, bytes);
    if !texts_fit(count, bytes, texts) {
        return NO_ROOM;
    }
    put_texts(&all, texts);
    0
}
