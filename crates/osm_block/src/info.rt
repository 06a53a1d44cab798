//! The Info of an element.

ghost use Rattle.std.specs.Prelude.{◌≡◌, None, Some, map, true, option_map, option_copied, unwrap_or, nat_lt, length, ◌%◌, ◌^◌};
ghost use Rattle.std.specs.Option.{option_or};
ghost use Rattle.pbf_wire.specs.Readings.{fields, wire, int32, int64, uint32};
ghost use Rattle.osm_value.specs.Ranges.{is_wide, passes};
ghost use Rattle.osm_block.specs.Message.{boolean};
ghost use Rattle.osm_block.specs.FieldsLeft.{info_after, no_info};
ghost use Rattle.osm_block.specs.Block.{text_at, time, version as version_of, InfoOf};
ghost use Rattle.osm_block.specs.Fields.{context_of, info_message_of};
ghost use Rattle.osm_block.specs.Phases.{info_in_range};

use crate::fields::{
    INFO_CHANGESET, INFO_TIMESTAMP, INFO_UID, INFO_USER_SID, INFO_VERSION, INFO_VISIBLE,
};
use crate::ranges::{optional_time, optional_uid, optional_version, optional_wide};
use crate::scale::Scale;
use osm_value::Info;
use pbf_wire::{Fields, Value, WireFault, to_i32};

/// The numbers of an Info as they stand there; the last of each counts.
#[derive(Clone, Copy)]
pub struct InfoNumbers {
    pub version: Option<u64>,
    pub timestamp: Option<u64>,
    pub changeset: Option<u64>,
    pub uid: Option<u64>,
    pub user_sid: Option<u64>,
    pub visible: Option<u64>,
}

/// The numbers that the payloads of an Info give together, and their first fault.
#[derive(Drop)]
pub struct InfoFields {
    pub numbers: InfoNumbers,
    pub fault: Option<WireFault>,
}

const NO_NUMBERS: InfoNumbers = InfoNumbers {
    version: None,
    timestamp: None,
    changeset: None,
    uid: None,
    user_sid: None,
    visible: None,
};

impl InfoFields {
    pub(crate) fn new() -> InfoFields
        ensures numbers { result.numbers ≡ no_info }
        ensures fault { result.fault ≡ None }
    {
        InfoFields {
            numbers: NO_NUMBERS,
            fault: None,
        }
    }

    /// Reads one more payload.
    pub(crate) fn take(&mut self, payload: &[u8])
        ensures numbers { self.new.numbers ≡ info_after self.old.numbers (fields payload.now) }
        ensures fault { self.new.fault ≡ option_or self.old.fault (wire payload.now) }
    {
        let fault = read_info_numbers(payload, &mut self.numbers);
        self.fault = self.fault.or(fault);
    }
}

/// Reads a payload of an Info over what stood before it, up to its first fault, which it answers.
fn read_info_numbers(payload: &[u8], info: &mut InfoNumbers) -> Option<WireFault>
    ensures fault { result ≡ wire payload.now }
    ensures numbers { info.new ≡ info_after info.old (fields payload.now) }
{
    for field in Fields::new(payload) {
        let field = match field {
            Ok(field) => field,
            Err(fault) => return Some(fault),
        };
        match (field.number, field.value) {
            (INFO_VERSION, Value::Number(number)) => info.version = Some(number),
            (INFO_TIMESTAMP, Value::Number(number)) => info.timestamp = Some(number),
            (INFO_CHANGESET, Value::Number(number)) => info.changeset = Some(number),
            (INFO_UID, Value::Number(number)) => info.uid = Some(number),
            (INFO_USER_SID, Value::Number(number)) => info.user_sid = Some(number),
            (INFO_VISIBLE, Value::Number(number)) => info.visible = Some(number),
            _ => {}
        }
    }
    None
}

pub(crate) fn optional_i64(number: Option<u64>) -> Option<i64>
    ensures { result ≡ option_map int64 number }
{
    match number {
        None => None,
        Some(number) => Some(number.cast_signed()),
    }
}

pub(crate) fn optional_i32(number: Option<u64>) -> Option<i32>
    ensures { result ≡ option_map int32 number }
{
    match number {
        None => None,
        Some(number) => Some(to_i32(number)),
    }
}

/// A bool is true where its number isn't 0.
fn optional_bool(number: Option<u64>) -> Option<bool>
    ensures { result ≡ option_map boolean number }
{
    match number {
        None => None,
        Some(number) => Some(number != 0),
    }
}

/// Whether the numbers are in their ranges.
pub(crate) fn info_in_range(scale: &Scale, info: &InfoNumbers) -> bool
    ensures { result ≡ info_in_range (context_of scale.now) (info_message_of info.now) }
{
    let version = optional_version(optional_i32(info.version));
    let time = optional_time(scale.date_granularity, optional_i64(info.timestamp));
    let changeset = optional_wide(optional_i64(info.changeset));
    let uid = optional_uid(optional_i32(info.uid));
    version & time & changeset & uid
}

/// Whether a table of that many texts has the user.
pub(crate) fn user_fits(texts: usize, index: Option<u64>) -> bool
    ensures { result ≡ passes (λ i. nat_lt (i % 2 ^ 32) texts) index }
{
    match index {
        None => true,
        Some(index) => index % (1 << 32) < texts as u64,
    }
}

/// The version, of which -1 says nothing.
fn version_of(version: Option<u64>) -> Option<i32>
    ensures { result ≡ unwrap_or (option_map version_of (option_map int32 version)) None }
{
    match optional_i32(version) {
        Some(-1) => None,
        other => other,
    }
}

fn time_of(date_granularity: i32, units: Option<u64>) -> Option<i64>
    requires { passes (λ t. is_wide (time date_granularity t)) (option_map int64 units) ≡ true }
    ensures { result ≡ option_map (time date_granularity) (option_map int64 units) }
{
    match optional_i64(units) {
        None => None,
        Some(units) => Some(units * i64::from(date_granularity)),
    }
}

fn user_of<'a>(table: &[&'a str], index: Option<u64>) -> Option<&'a str>
    requires { passes (λ i. nat_lt (i % 2 ^ 32) (length table.now)) index ≡ true }
    ensures { option_map Some (option_copied result) ≡ option_map (λ i. text_at (map (λ t. t.now) table.now) (uint32 i)) index }
{
    match index {
        None => None,
        Some(index) => Some(table[(index % (1 << 32)) as usize]),
    }
}

/// What the message says, where its numbers are in their ranges and its user in the table.
pub(crate) fn info_of<'a>(scale: &Scale<'a>, info: &InfoNumbers) -> Info<'a>
    requires in_range { info_in_range (context_of scale.now) (info_message_of info.now) ≡ true }
    requires in_table { passes (λ i. nat_lt (i % 2 ^ 32) (length scale.now.table.items)) info.now.user_sid ≡ true }
    ensures { InfoOf (context_of scale.now) result (info_message_of info.now) }
{
    let version = version_of(info.version);
    let time = time_of(scale.date_granularity, info.timestamp);
    let user = user_of(&scale.table, info.user_sid);
    Info::new(
        version,
        time,
        optional_i64(info.changeset),
        optional_i32(info.uid),
        user,
        optional_bool(info.visible),
    )
}
