//! The header block.

ghost use Rattle.std.specs.Prelude.{◌≡◌, ◌++◌, IfOk, OnOk, None};
ghost use Rattle.std.specs.List.{flat_map};
ghost use Rattle.osm_block.specs.HeaderBlock.{header_fault, header_value};
ghost use Rattle.pbf_wire.specs.Readings.{fields};
ghost use Rattle.osm_write.specs.Canon.{bytes_field};
ghost use Rattle.osm_write.specs.Header.{features, header_block, written_value};

use crate::append::append_bytes;
use osm_block::fields::{HEADER_REQUIRED_FEATURES, HEADER_WRITINGPROGRAM};
use std::alloc::{AllocError, Global};

fn append_features(history: bool, out: &mut Vec<u8>) -> Result<(), AllocError>
    ensures { OnOk result (out.new.items ≡ out.old.items ++ flat_map (bytes_field HEADER_REQUIRED_FEATURES) (features history)) }
{
    append_bytes(HEADER_REQUIRED_FEATURES, b"OsmSchema-V0.6", out)?;
    append_bytes(HEADER_REQUIRED_FEATURES, b"DenseNodes", out)?;
    if history {
        append_bytes(HEADER_REQUIRED_FEATURES, b"HistoricalInformation", out)
    } else {
        Ok(())
    }
}

/// The header block of a file: the required features `OsmSchema-V0.6` and `DenseNodes`, with
/// `history` `HistoricalInformation` too, and the writing program `pbfrow`, and nothing else
/// (osmformat.proto, HeaderBlock). It is 37 bytes long, or 60 with `history`, and
/// `read_header_block` finds no fault in it.
///
/// `history` is for a file in which an element has a flag of visibility: readers that know nothing
/// of the flag refuse it then. The one error is that memory was refused.
pub fn encode_header(alloc: Global, history: bool) -> Result<Vec<u8>, AllocError>
    ensures exact { IfOk result (λ v. v.items ≡ header_block history) }
    ensures read_back { IfOk result (λ v. header_fault v.items ≡ None) }
    ensures says { IfOk result (λ v. header_value (fields v.items) ≡ written_value history) }
{
    let mut out = Vec::new(alloc);
    append_features(history, &mut out)?;
    append_bytes(HEADER_WRITINGPROGRAM, b"pbfrow", &mut out)?;
    Ok(out)
}
