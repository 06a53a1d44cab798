//! Where the payload of a blob lies.

ghost use Rattle.std.specs.Prelude.{◌≡◌, ◌≤◌, ◌+◌, IfOk, IfErr, IfSome, length, take, drop, option_map};
ghost use Rattle.pbf_wire.specs.Fault.{ReturnsReading};
ghost use Rattle.pbf_wire.specs.Field.{view};
ghost use Rattle.pbf_wire.specs.Readings.{bytes_of, fields, last, last_bytes};
ghost use Rattle.pbf_frame.specs.Frame as frames;
ghost use Rattle.pbf_frame.specs.Blob.{raw_at};
ghost use Rattle.pbf_frame.specs.View.{found};
ghost use Rattle.pbfrow_c.specs.Blob.{Read, TellsPayload, field_of, finding_at, frame_from, later_place, number_of_compression, number_of_kind, payload_in, span, status_at, status_of};

use pbf_frame::{BlobFault, Compression, Frame, FrameFault, Kind, MAX_OFFSET, raw, read_frame};
use pbf_wire::{Field, Fields, Value, next_field};

/// A blob, as the frame at the front of a buffer holds it.
#[repr(C)]
#[derive(Drop)]
pub struct BlobAt {
    /// How long the whole frame is, in bytes: the next one begins behind it.
    pub length: u64,
    /// Where the payload begins, in bytes from the front of the frame: the raw one, or with status 21 the compressed one.
    /// 0 where no payload is told.
    pub payload_at: u64,
    /// How long the payload is there, in bytes; 0 where none is told.
    pub payload_length: u64,
    /// With status 21, how long the payload is once it is decompressed, in bytes, as the blob says; 0 where it doesn't.
    pub raw_size: u64,
    /// 0 for OSMHeader, 1 for OSMData, 2 for any other type.
    pub kind: u8,
    /// With status 21, how the payload is compressed: 1 zlib, 2 lzma, 3 bzip2, 4 lz4, 5 zstd; else 0.
    pub compression: u8,
}

/// What is told of a payload, as `BlobAt` has it.
#[derive(Clone, Copy)]
struct Payload {
    at: u64,
    length: u64,
    raw_size: u64,
    compression: u8,
}

/// Where bytes lie in others, in bytes from the front.
#[derive(Clone, Copy)]
struct Place {
    at: usize,
    length: usize,
}

/// What is told where there is no payload.
const NO_PAYLOAD: Payload = Payload {
    at: 0,
    length: 0,
    raw_size: 0,
    compression: 0,
};

/// At offset 0 stands no OSMHeader.
const NO_HEADER_FIRST: u8 = 61;

/// An OSMHeader stands behind offset 0.
const HEADER_NOT_FIRST: u8 = 62;

/// The fields of a Blob (fileformat.proto).
const RAW: u32 = 1;

const RAW_SIZE: u32 = 2;

/// The number that a caller is told of this kind.
fn number_of_kind(kind: Kind) -> u8
    ensures { result ≡ number_of_kind kind }
{
    match kind {
        Kind::OsmHeader => 0,
        Kind::OsmData => 1,
        Kind::Other => 2,
    }
}

/// The number that a caller is told of this compression.
fn number_of_compression(compression: Compression) -> u8
    ensures { result ≡ number_of_compression compression }
{
    match compression {
        Compression::Zlib => 1,
        Compression::Lzma => 2,
        Compression::Bzip2 => 3,
        Compression::Lz4 => 4,
        Compression::Zstd => 5,
    }
}

/// The field of a Blob with the data that is compressed so.
fn field_of(compression: Compression) -> u32
    ensures { result ≡ field_of compression }
{
    match compression {
        Compression::Zlib => 3,
        Compression::Lzma => 4,
        Compression::Bzip2 => 5,
        Compression::Lz4 => 6,
        Compression::Zstd => 7,
    }
}

/// Where the bytes of this field lie, which ends before `end`, if it is a field `number` of wire type 2; else the place
/// before.
fn later_place(field: &Field, end: usize, number: u32, before: Option<Place>) -> Option<Place>
    requires { IfSome (bytes_of (view field.now).content) (λ bytes. length bytes ≤ end) }
    ensures { result ≡ later_place (view field.now) end number before }
{
    match field.value {
        Value::Bytes(bytes) if field.number == number => Some(Place {
            at: end - bytes.len(),
            length: bytes.len(),
        }),
        _ => before,
    }
}

/// Where the bytes of the last field `number` of wire type 2 lie in a message.
fn last_place(message: &[u8], number: u32) -> Option<Place>
    ensures within { IfSome result (λ p. p.at + p.length ≤ length message.now) }
    ensures exact { option_map (λ p. span p.at p.length message.now) result ≡ last_bytes (fields message.now) number }
{
    let mut last = None;
    let mut at = 0;
    'fields: loop {
        match next_field(message, at) {
            Ok(Some((field, next))) => {
                last = later_place(&field, next, number, last);
                at = next;
            }
            Ok(None) => return last,
            Err(_) => return last,
        }
    }
}

/// The number in the last field `number` of wire type 0 of a message.
fn last_number(message: &[u8], number: u32) -> Option<u64>
    ensures { result ≡ last (fields message.now) number }
{
    let mut last = None;
    for field in Fields::new(message) {
        let Ok(field) = field else {
            return last;
        };
        match field.value {
            Value::Number(value) if field.number == number => last = Some(value),
            _ => {}
        }
    }
    last
}

/// Where the bytes of the last field `number` of wire type 2 lie in a frame whose blob begins at `from`.
fn place_in(frame: &[u8], from: usize, number: u32) -> Option<Place>
    requires { from ≤ length frame.now }
    ensures within { IfSome result (λ p. p.at + p.length ≤ length frame.now) }
    ensures exact { option_map (λ p. span p.at p.length frame.now) result ≡ last_bytes (fields (drop from frame.now)) number }
{
    let place = last_place(&frame[from..], number)?;
    Some(Place {
        at: from + place.at,
        length: place.length,
    })
}

/// What is told of the payload at this place.
fn payload_at(place: Option<Place>, raw_size: u64, compression: u8) -> Payload
    ensures { IfSome place (λ p. result ≡ record { at = p.at; length = p.length; raw_size = raw_size; compression = compression }) }
{
    match place {
        Some(place) => Payload {
            at: place.at as u64,
            length: place.length as u64,
            raw_size,
            compression,
        },
        None => NO_PAYLOAD,
    }
}

/// The status of the blob that begins at `from` in its frame, and what is told of its payload.
fn read_blob(frame: &[u8], from: usize) -> (u8, Payload)
    requires { from ≤ length frame.now }
    ensures status { result.0 ≡ status_of (Read (raw_at (drop from frame.now))) }
    ensures payload { TellsPayload (Read (raw_at (drop from frame.now))) (fields (drop from frame.now)) frame.now result.1 }
{
    let blob = &frame[from..];
    match raw(blob) {
        Ok(_) => (0, payload_at(place_in(frame, from, RAW), 0, 0)),
        Err(BlobFault::Compressed(compression)) => {
            let place = place_in(frame, from, field_of(compression));
            let raw_size = last_number(blob, RAW_SIZE).unwrap_or(0);
            let payload = payload_at(place, raw_size, number_of_compression(compression));
            (BlobFault::Compressed(compression).number(), payload)
        }
        Err(fault) => (fault.number(), NO_PAYLOAD),
    }
}

/// The status of the blob in a frame of this kind at this offset, and what is told of its payload.
fn find_blob(frame: &[u8], from: usize, kind: Kind, offset: u64) -> (u8, Payload)
    requires { from ≤ length frame.now }
    ensures status { result.0 ≡ status_of (finding_at offset kind (drop from frame.now)) }
    ensures payload { TellsPayload (finding_at offset kind (drop from frame.now)) (fields (drop from frame.now)) frame.now result.1 }
{
    match kind {
        Kind::OsmHeader if offset != 0 => (HEADER_NOT_FIRST, NO_PAYLOAD),
        Kind::OsmData | Kind::Other if offset == 0 => (NO_HEADER_FIRST, NO_PAYLOAD),
        Kind::OsmHeader | Kind::OsmData => read_blob(frame, from),
        Kind::Other => (0, NO_PAYLOAD),
    }
}

/// The frame at the front of the bytes, which stand at this offset of their file.
fn frame_from(bytes: &[u8], offset: u64) -> Result<Frame<'_>, FrameFault>
    ensures within { IfOk result (λ f. f.length ≤ length bytes.now) }
    ensures frame { IfOk result (λ f. frames.Frame f.type_name.now f.blob.now (take f.length bytes.now)) }
    ensures exact { ReturnsReading found result (frame_from offset bytes.now) }
{
    let frame = read_frame(bytes)?;
    if offset > MAX_OFFSET || frame.length > MAX_OFFSET - offset {
        return Err(FrameFault::OffsetTooLarge);
    }
    Ok(frame)
}

/// The blob of the frame at the front of the bytes, which stand at `offset` in their file.
///
/// The status is the first of these that applies. Nothing is written where it is the number of the frame's fault: 10 to
/// 14 and 16 to 18, or 60 where the frame would end above 2^62. Else `blob` is written, and a reader may go on behind
/// it: 61 where no OSMHeader stands at offset 0; 62 where an OSMHeader stands behind it; 0 for a blob of another type,
/// which isn't read and whose payload isn't told; 20 where the blob is no field list; 21 where its data is compressed,
/// also where raw data stands beside it; 22 where it has no data; 23 where the raw data has more than 33,554,431 bytes;
/// 0 for raw data. A payload is told with 21 and with 0 alone. No memory is taken.
#[unsafe(no_mangle)]
pub extern "C" fn pbfrow_blob_at(bytes: &[u8], offset: u64, blob: &mut BlobAt) -> u8
    ensures status { result ≡ status_at offset bytes.now }
    ensures kept { IfErr (frame_from offset bytes.now) (λ _. blob.new ≡ blob.old) }
    ensures frame { IfOk (frame_from offset bytes.now) (λ f. (blob.new.length ≡ f.len) × (blob.new.kind ≡ number_of_kind f.kind)) }
    ensures payload { IfOk (frame_from offset bytes.now) (λ f. TellsPayload (finding_at offset f.kind f.blob) (fields f.blob) (take f.len bytes.now) (payload_in blob.new)) }
{
    match frame_from(bytes, offset) {
        Ok(frame) => {
            let length = frame.length as usize;
            let (status, payload) = find_blob(
                &bytes[..length],
                length - frame.blob.len(),
                frame.kind,
                offset,
            );
            *blob = BlobAt {
                length: frame.length,
                payload_at: payload.at,
                payload_length: payload.length,
                raw_size: payload.raw_size,
                kind: number_of_kind(frame.kind),
                compression: payload.compression,
            };
            status
        }
        Err(fault) => fault.number(),
    }
}
