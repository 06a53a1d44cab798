//! The texts of one field of a header block.

ghost use Rattle.std.specs.Prelude.{◌≡◌, true};
ghost use Rattle.std.specs.List.{list_all};
ghost use Rattle.std.specs.Str.{is_utf8};
ghost use Rattle.osm_block.specs.HeaderPayloads.{payloads_left};

use super::payloads::Payloads;

/// The texts of one field of a header block, in order, lent from its bytes. It takes no memory.
#[derive(Debug, Drop)]
pub struct Texts<'a> {
    payloads: Payloads<'a>,
    ghost are_utf8: { list_all is_utf8 (payloads_left payloads) ≡ true },
}

impl<'a> Texts<'a> {
    ghost use Rattle.pbf_wire.specs.Readings.{fields, each};
    ghost use Rattle.osm_block.specs.HeaderTexts.{texts_left};

    pub(super) fn new(bytes: &'a [u8], number: u32) -> Texts<'a>
        requires { list_all is_utf8 (each (fields bytes.now) number) ≡ true }
        ensures { texts_left result ≡ each (fields bytes.now) number }
    {
        Texts {
            payloads: Payloads::new(bytes, number),
        }
    }
}

impl<'a> Iterator for Texts<'a> {
    ghost use Rattle.std.specs.Iterator.{YieldsFirstBy, item_count};
    ghost use Rattle.osm_block.specs.HeaderTexts.{texts_left};

    type Item = &'a str;

    ghost next_gives = { YieldsFirstBy (λ t. t.now) texts_left };

    ghost remaining = { item_count texts_left };

    fn next(&mut self) -> Option<&'a str> {
        let payload = self.payloads.next()?;
        match simdutf8::compat::from_utf8(payload) {
            Ok(text) => Some(text),
            Err(_) => None,
        }
    }
}
