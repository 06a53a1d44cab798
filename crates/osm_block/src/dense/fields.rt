//! The arrays of dense nodes, as they stand in the message.

ghost use Rattle.std.specs.Prelude.{◌≡◌, ◌++◌, map, OnOk, ⊤};
ghost use Rattle.std.specs.List.{flat_map};
ghost use Rattle.std.specs.Option.{option_or};
ghost use Rattle.pbf_wire.specs.Readings.{fields, packed, each, nums};
ghost use Rattle.osm_block.specs.Message.{Dense, dense_message, wires};
ghost use Rattle.osm_block.specs.FieldsLeft.{first_there};
ghost use Rattle.osm_block.specs.Dense.{dense_message_of};
ghost use Rattle.osm_block.specs.DenseFieldsRead.{ArrayRead, ArrayRead32, DenseInfoRead};
ghost use Rattle.osm_block.specs.Phases.{Gives, first, wire_phases};

use crate::fault::{BlockError, BlockFault};
use crate::fields::{
    DENSE_DENSEINFO, DENSE_ID, DENSE_KEYS_VALS, DENSE_LAT, DENSE_LON, DENSEINFO_CHANGESET,
    DENSEINFO_TIMESTAMP, DENSEINFO_UID, DENSEINFO_USER_SID, DENSEINFO_VERSION, DENSEINFO_VISIBLE,
};
use crate::number_array::NumberArray;
use crate::payloads::{each_of_all, first_wire, low_32};
use pbf_wire::{Fields, WireFault};
use std::alloc::{AllocError, Global};

/// The arrays of a DenseInfo. They are read into again for each message.
#[derive(Drop)]
pub struct DenseInfoFields {
    pub versions: NumberArray,
    pub timestamps: NumberArray,
    pub changesets: NumberArray,
    pub uids: NumberArray,
    pub users: NumberArray,
    pub visible: NumberArray,
}

/// The arrays of a message of dense nodes. They are read into again for each message.
#[derive(Drop)]
pub struct DenseFields {
    pub ids: NumberArray,
    pub lats: NumberArray,
    pub lons: NumberArray,
    pub keys_vals: NumberArray,
    pub info: DenseInfoFields,
}

impl DenseInfoFields {
    fn new(alloc: Global) -> DenseInfoFields {
        DenseInfoFields {
            versions: NumberArray::new(alloc),
            timestamps: NumberArray::new(alloc),
            changesets: NumberArray::new(alloc),
            uids: NumberArray::new(alloc),
            users: NumberArray::new(alloc),
            visible: NumberArray::new(alloc),
        }
    }

    /// The first fault of the arrays, by field number.
    fn fault(&self) -> Option<WireFault>
        ensures { result ≡ option_or self.now.versions.fault (option_or self.now.timestamps.fault (option_or self.now.changesets.fault (option_or self.now.uids.fault (option_or self.now.users.fault self.now.visible.fault)))) }
    {
        let users = self.users.fault.or(self.visible.fault);
        let changes = self.changesets.fault.or(self.uids.fault.or(users));
        let times = self.timestamps.fault.or(changes);
        self.versions.fault.or(times)
    }
}

impl DenseFields {
    pub(crate) fn new(alloc: Global) -> DenseFields {
        DenseFields {
            ids: NumberArray::new(alloc),
            lats: NumberArray::new(alloc),
            lons: NumberArray::new(alloc),
            keys_vals: NumberArray::new(alloc),
            info: DenseInfoFields::new(alloc),
        }
    }

    /// The first fault of the arrays outside the DenseInfo, by field number.
    fn fault(&self) -> Option<WireFault>
        ensures { result ≡ option_or self.now.ids.fault (option_or self.now.lats.fault (option_or self.now.lons.fault self.now.keys_vals.fault)) }
    {
        let others = self.lats.fault.or(self.lons.fault.or(self.keys_vals.fault));
        self.ids.fault.or(others)
    }
}

/// Appends the numbers of the fields `number` of one payload to the array.
fn take_fields(payload: &[u8], number: u32, array: &mut NumberArray) -> Result<(), AllocError>
    ensures numbers { OnOk result (array.new.numbers.items ≡ array.old.numbers.items ++ nums (fields payload.now) number) }
    ensures fault { OnOk result (array.new.fault ≡ option_or array.old.fault (first_there (map packed (each (fields payload.now) number)))) }
{
    for field in Fields::new(payload) {
        let Ok(field) = field else {
            return Ok(());
        };
        if field.number == number {
            array.take(field.value)?;
        }
    }
    Ok(())
}

/// Reads the numbers of the fields `number` of all payloads.
fn read_array(payloads: &[&[u8]], number: u32, array: &mut NumberArray) -> Result<(), AllocError>
    ensures { OnOk result (ArrayRead array.new number (flat_map fields (map (λ p. p.now) payloads.now))) }
{
    array.clear();
    for payload in payloads {
        take_fields(payload, number, array)?;
    }
    Ok(())
}

/// The same of numbers of 32 bits.
fn read_array_32(payloads: &[&[u8]], number: u32, array: &mut NumberArray) -> Result<(), AllocError>
    ensures { OnOk result (ArrayRead32 array.new number (flat_map fields (map (λ p. p.now) payloads.now))) }
{
    read_array(payloads, number, array)?;
    low_32(&mut array.numbers);
    Ok(())
}

/// Reads the arrays of the DenseInfo that the payloads are.
fn read_infos(payloads: &[&[u8]], info: &mut DenseInfoFields) -> Result<(), AllocError>
    ensures { OnOk result (DenseInfoRead info.new (flat_map fields (map (λ p. p.now) payloads.now))) }
{
    read_array(payloads, DENSEINFO_VERSION, &mut info.versions)?;
    read_array(payloads, DENSEINFO_TIMESTAMP, &mut info.timestamps)?;
    read_array(payloads, DENSEINFO_CHANGESET, &mut info.changesets)?;
    read_array_32(payloads, DENSEINFO_UID, &mut info.uids)?;
    read_array_32(payloads, DENSEINFO_USER_SID, &mut info.users)?;
    read_array(payloads, DENSEINFO_VISIBLE, &mut info.visible)?;
    Ok(())
}

/// Reads the arrays of the message that the payloads are, or answers the first fault of its wire.
pub(crate) fn read_fields<'a>(
    alloc: Global,
    payloads: &[&'a [u8]],
    dense: &mut DenseFields,
) -> Result<(), BlockError>
    ensures phase { Gives (λ _. ⊤) (first (wire_phases (wires (Dense (map (λ p. p.now) payloads.now))))) result }
    ensures read { OnOk result (dense_message_of dense.new ≡ dense_message (flat_map fields (map (λ p. p.now) payloads.now))) }
{
    let mut infos = Vec::new(alloc);
    each_of_all(payloads, DENSE_DENSEINFO, &mut infos)?;
    read_array(payloads, DENSE_ID, &mut dense.ids)?;
    read_array(payloads, DENSE_LAT, &mut dense.lats)?;
    read_array(payloads, DENSE_LON, &mut dense.lons)?;
    read_array(payloads, DENSE_KEYS_VALS, &mut dense.keys_vals)?;
    read_infos(&infos, &mut dense.info)?;
    let wires = first_wire(payloads).or(first_wire(&infos));
    match wires.or(dense.fault()).or(dense.info.fault()) {
        Some(fault) => Err(BlockError::Fault(BlockFault::BlockWire(fault))),
        None => Ok(()),
    }
}
