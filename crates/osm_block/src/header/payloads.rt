//! The payloads of one field number.

ghost use Rattle.std.specs.Prelude.{◌≡◌};

use pbf_wire::{Fields, Value};

/// The payloads of the fields of one number, in order. It ends before a wire fault.
#[derive(Debug, Drop)]
pub(super) struct Payloads<'a> {
    fields: Fields<'a>,
    number: u32,
}

impl<'a> Payloads<'a> {
    ghost use Rattle.pbf_wire.specs.Readings.{fields, each};
    ghost use Rattle.osm_block.specs.HeaderPayloads.{payloads_left};

    pub(super) fn new(bytes: &'a [u8], number: u32) -> Payloads<'a>
        ensures { payloads_left result ≡ each (fields bytes.now) number }
    {
        Payloads {
            fields: Fields::new(bytes),
            number,
        }
    }
}

impl<'a> Iterator for Payloads<'a> {
    ghost use Rattle.std.specs.Iterator.{YieldsFirstBy, item_count};
    ghost use Rattle.osm_block.specs.HeaderPayloads.{payloads_left};

    type Item = &'a [u8];

    ghost next_gives = { YieldsFirstBy (λ p. p.now) payloads_left };

    ghost remaining = { item_count payloads_left };

    fn next(&mut self) -> Option<&'a [u8]> {
        while let Some(field) = self.fields.next() {
            let field = match field {
                Ok(field) => field,
                Err(_) => return None,
            };
            match field.value {
                Value::Bytes(payload) if field.number == self.number => return Some(payload),
                _ => {}
            }
        }
        None
    }
}
