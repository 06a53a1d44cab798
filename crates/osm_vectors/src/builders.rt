//! Blob messages and frames of any size.

ghost use Rattle.std.specs.Prelude.{◌≡◌, ◌≤◌, IfOk, length, replicate};
ghost use Rattle.osm_vectors.specs.Builders.{framed};
ghost use Rattle.pbf_frame.specs.Write.{blob_bytes};

use pbf_wire::{Field, Value, write_field};
use std::alloc::{AllocError, Global};

/// A Blob message whose raw data are so many zero bytes, which may be more than a reader takes.
pub fn blob_of_length(alloc: Global, len: usize) -> Result<Vec<u8>, AllocError>
    ensures { IfOk result (λ blob. blob.items ≡ blob_bytes (replicate len 0)) }
{
    let raw = vec![in alloc; 0; len]?;
    let mut blob = Vec::new(alloc);
    write_field(
        &Field {
            number: 1,
            value: Value::Bytes(&raw),
        },
        &mut blob,
    )?;
    Ok(blob)
}

/// The frame of this type around a blob, which needn't be a Blob message.
pub fn frame_around(alloc: Global, type_name: &[u8], blob: &[u8]) -> Result<Vec<u8>, AllocError>
    requires short { length type_name.now ≤ 255 }
    requires small { length blob.now ≤ 33619968 }
    ensures { IfOk result (λ frame. frame.items ≡ framed type_name.now blob.now) }
{
    let mut header = Vec::new(alloc);
    write_field(
        &Field {
            number: 1,
            value: Value::Bytes(type_name),
        },
        &mut header,
    )?;
    write_field(
        &Field {
            number: 3,
            value: Value::Number(blob.len() as u64),
        },
        &mut header,
    )?;
    let mut frame = Vec::new(alloc);
    frame.extend_from_slice(&(header.len() as u32).to_be_bytes())?;
    frame.extend_from_slice(&header)?;
    frame.extend_from_slice(blob)?;
    Ok(frame)
}
