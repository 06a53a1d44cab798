//! The fields that the messages of nodes, ways and relations begin with.

ghost use Rattle.std.specs.Prelude.{◌≡◌, ◌&&◌, ◌∷◌, List, OnOk};
ghost use Rattle.std.specs.List.{list_all};
ghost use Rattle.std.specs.Option.{option_or};
ghost use Rattle.pbf_wire.specs.Field.{Entry, view};
ghost use Rattle.osm_value.specs.Ranges.{is_wide};
ghost use Rattle.osm_block.specs.FieldsLeft.{ElementLeft, indexes_in};
ghost use Rattle.osm_block.specs.Fields.{context_of, info_message_of};
ghost use Rattle.osm_block.specs.Phases.{info_in_range};

use crate::fields::{ELEMENT_ID, ELEMENT_INFO, ELEMENT_KEYS, ELEMENT_VALS};
use crate::info::{InfoFields, info_in_range, user_fits};
use crate::number_array::NumberArray;
use crate::ranges::{all_indexes, all_wide};
use crate::scale::Scale;
use osm_value::wide_in_range;
use pbf_wire::{Field, Value, WireFault};
use std::alloc::{AllocError, Global};

/// What Node, Way and Relation begin with, as it stands in the message.
#[derive(Drop)]
pub struct ElementFields {
    pub id: Option<u64>,
    pub keys: NumberArray,
    pub vals: NumberArray,
    pub info: InfoFields,
}

impl ElementFields {
    pub(crate) fn new(alloc: Global) -> ElementFields {
        ElementFields {
            id: None,
            keys: NumberArray::new(alloc),
            vals: NumberArray::new(alloc),
            info: InfoFields::new(),
        }
    }

    /// Begins another message.
    pub(crate) fn clear(&mut self)
        ensures { (fs : List Entry) → ElementLeft self.new fs fs }
    {
        self.id = None;
        self.keys.clear();
        self.vals.clear();
        self.info = InfoFields::new();
    }

    /// Reads one more field of the message.
    #[inline(always)]
    pub(crate) fn take(&mut self, field: Field) -> Result<(), AllocError>
        ensures { OnOk result ((rest whole : List Entry) → ElementLeft self.old (view field.entry ∷ rest) whole → ElementLeft self.new rest whole) }
    {
        match (field.number, field.value) {
            (ELEMENT_ID, Value::Number(number)) => self.id = Some(number),
            (ELEMENT_KEYS, value) => self.keys.take(value)?,
            (ELEMENT_VALS, value) => self.vals.take(value)?,
            (ELEMENT_INFO, Value::Bytes(info)) => self.info.take(info),
            _ => {}
        }
        Ok(())
    }

    /// The first fault of the payloads that these were read from: those of the Info, and then by field number. `others` is
    /// that of the arrays behind them.
    pub(crate) fn fault(&self, others: Option<WireFault>) -> Option<WireFault>
        ensures { result ≡ option_or self.now.info.fault (option_or self.now.keys.fault (option_or self.now.vals.fault others)) }
    {
        let arrays = self.keys.fault.or(self.vals.fault.or(others));
        self.info.fault.or(arrays)
    }

    /// Whether the id, the ids that it refers to and the numbers of the Info are in their ranges.
    pub(crate) fn ids_in_range(&self, scale: &Scale, id: i64, others: &[i64]) -> bool
        ensures { result ≡ (is_wide id && list_all is_wide others.now && info_in_range (context_of scale.now) (info_message_of self.now.info.numbers)) }
    {
        wide_in_range(id) & all_wide(others) & info_in_range(scale, &self.info.numbers)
    }

    /// Whether a table of that many texts has the tags and the user.
    pub(crate) fn indexes_fit(&self, texts: usize) -> bool
        ensures { result ≡ indexes_in texts self.now.keys.numbers.items self.now.vals.numbers.items self.now.info.numbers.user_sid }
    {
        all_indexes(&self.keys.numbers, texts)
            & all_indexes(&self.vals.numbers, texts)
            & user_fits(texts, self.info.numbers.user_sid)
    }
}
