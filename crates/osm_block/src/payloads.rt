//! What a message reads from its payloads.

ghost use Rattle.std.specs.Prelude.{◌≡◌, map, ◌++◌, OnOk, ⊤, ◌%◌, ◌^◌};
ghost use Rattle.std.specs.List.{flat_map};
ghost use Rattle.pbf_wire.specs.FieldList.{last_or};
ghost use Rattle.pbf_wire.specs.Readings.{fields, wire, fitting, number_of, each};
ghost use Rattle.osm_block.specs.FieldsLeft.{first_there};
ghost use Rattle.osm_block.specs.Phases.{Gives, first, wire_phases};

use crate::fault::BlockError;
use pbf_wire::{Fields, Message, Value, WireFault};
use std::alloc::AllocError;

/// Why a payload is no field list.
pub(crate) fn wire_of(payload: &[u8]) -> Option<WireFault>
    ensures { result ≡ wire payload.now }
{
    Message::new(payload).err()
}

/// The last number of the field `number`, or the one before.
pub(crate) fn last_number(payload: &[u8], number: u32, before: Option<u64>) -> Option<u64>
    ensures { result ≡ last_or before (fitting number_of number (fields payload.now)) }
{
    let mut last = before;
    for field in Fields::new(payload) {
        let Ok(field) = field else {
            return last;
        };
        match field.value {
            Value::Number(value) if field.number == number => last = Some(value),
            _ => {}
        }
    }
    last
}

/// Appends the payloads of the fields `number`.
pub(crate) fn each<'a>(
    payload: &'a [u8],
    number: u32,
    out: &mut Vec<&'a [u8]>,
) -> Result<(), AllocError>
    ensures { OnOk result (map (λ p. p.now) out.new.items ≡ map (λ p. p.now) out.old.items ++ each (fields payload.now) number) }
{
    for field in Fields::new(payload) {
        let Ok(field) = field else {
            return Ok(());
        };
        match field.value {
            Value::Bytes(value) if field.number == number => out.push(value)?,
            _ => {}
        }
    }
    Ok(())
}

/// The first wire fault of the payloads.
pub(crate) fn first_wire(payloads: &[&[u8]]) -> Option<WireFault>
    ensures { result ≡ first_there (map wire (map (λ p. p.now) payloads.now)) }
{
    for payload in payloads {
        if let Some(fault) = wire_of(payload) {
            return Some(fault);
        }
    }
    None
}

/// Refuses payloads that aren't all field lists.
pub(crate) fn check_all(payloads: &[&[u8]]) -> Result<(), BlockError>
    ensures { Gives (λ _. ⊤) (first (wire_phases (map wire (map (λ p. p.now) payloads.now)))) result }
{
    match first_wire(payloads) {
        None => Ok(()),
        Some(fault) => Err(BlockError::from(fault)),
    }
}

/// Appends the payloads of the fields `number` in all payloads.
pub(crate) fn each_of_all<'a>(
    payloads: &[&'a [u8]],
    number: u32,
    out: &mut Vec<&'a [u8]>,
) -> Result<(), AllocError>
    ensures { OnOk result (map (λ p. p.now) out.new.items ≡ map (λ p. p.now) out.old.items ++ each (flat_map fields (map (λ p. p.now) payloads.now)) number) }
{
    for payload in payloads {
        each(payload, number, out)?;
    }
    Ok(())
}

/// Keeps the low 32 bits of each number.
pub(crate) fn low_32(numbers: &mut [u64])
    ensures { numbers.new ≡ map (λ n. n % 2 ^ 32) numbers.old }
{
    for number in numbers.iter_mut() {
        *number %= 1 << 32;
    }
}
