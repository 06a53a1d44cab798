//! Dense nodes.

ghost use Rattle.std.specs.Prelude.{◌∷◌, [], map, OnOk, ⊤};
ghost use Rattle.std.specs.List.{flat_map};
ghost use Rattle.pbf_wire.specs.Readings.{fields};
ghost use Rattle.osm_block.specs.Message.{Dense, dense_message};
ghost use Rattle.osm_block.specs.Dense.{AreArraysOf, AreReady, dense_message_of};
ghost use Rattle.osm_block.specs.Fields.{context_of};
ghost use Rattle.osm_block.specs.Phases.{Gives, first, dense_phases, message_phases};
ghost use Rattle.osm_block.specs.Reads.{Appended};

use crate::fault::{BlockError, BlockFault};
use crate::scale::Scale;
use crate::tags::check_tags;
pub use arrays::DenseArrays;
use arrays::{all_users, arrays_in_range, arrays_of, lengths_fit};
use fields::{DenseFields, read_fields};
use nodes::nodes_of;
use osm_value::Element;
use std::alloc::Global;

mod arrays;
mod fields;
mod nodes;
mod tags;

/// The arrays of the message, each of them tested.
fn ready_arrays(
    alloc: Global,
    scale: &Scale,
    dense: &DenseFields,
) -> Result<DenseArrays, BlockError>
    ensures { Gives (λ c. AreReady (context_of scale.now) c × AreArraysOf c (dense_message_of dense.now)) (first (dense_phases (context_of scale.now) (dense_message_of dense.now))) result }
{
    if !lengths_fit(dense) {
        return Err(BlockError::Fault(BlockFault::LengthsDiffer));
    }
    let arrays = arrays_of(alloc, dense)?;
    if !arrays_in_range(scale, &arrays) {
        return Err(BlockError::Fault(BlockFault::OutOfRange));
    }
    let texts = scale.table.len();
    check_tags(&arrays.keys_vals, arrays.ids.len(), texts)?;
    if !all_users(&arrays.users, texts) {
        return Err(BlockError::Fault(BlockFault::BadIndex));
    }
    Ok(arrays)
}

/// The arrays of the message that the payloads together are, each of them tested.
pub(crate) fn read_arrays<'a>(
    alloc: Global,
    scale: &Scale<'a>,
    payloads: &[&'a [u8]],
) -> Result<DenseArrays, BlockError>
    ensures { Gives (λ c. AreReady (context_of scale.now) c × AreArraysOf c (dense_message (flat_map fields (map (λ p. p.now) payloads.now)))) (first (message_phases (context_of scale.now) (Dense (map (λ p. p.now) payloads.now)))) result }
{
    let mut dense = DenseFields::new(alloc);
    read_fields(alloc, payloads, &mut dense)?;
    ready_arrays(alloc, scale, &dense)
}

/// Appends the nodes that the payloads together encode.
pub(crate) fn read_dense<'a>(
    alloc: Global,
    scale: &Scale<'a>,
    payloads: &[&'a [u8]],
    out: &mut Vec<Element<'a>>,
) -> Result<(), BlockError>
    ensures phase { Gives (λ _. ⊤) (first (message_phases (context_of scale.now) (Dense (map (λ p. p.now) payloads.now)))) result }
    ensures read { OnOk result (Appended (context_of scale.now) out.old.items out.new.items (Dense (map (λ p. p.now) payloads.now) ∷ [])) }
{
    if payloads.is_empty() {
        return Ok(());
    }
    let arrays = read_arrays(alloc, scale, payloads)?;
    nodes_of(alloc, scale, &arrays, out)?;
    Ok(())
}
