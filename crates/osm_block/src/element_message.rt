//! Messages that encode one element each: nodes, ways and relations.

ghost use Rattle.std.specs.Prelude.{◌≡◌, ◌∷◌, [], ◌++◌, ℕ, List, map, ⊤, OnOk};
ghost use Rattle.std.specs.List.{flat_map};
ghost use Rattle.pbf_wire.specs.Field.{Entry, view};
ghost use Rattle.pbf_wire.specs.Readings.{fields, wire, each};
ghost use Rattle.osm_block.specs.declared.fields.TheConstants.{ELEMENT_INFO, ELEMENT_KEYS, ELEMENT_VALS};
ghost use Rattle.osm_block.specs.Message.{Message, arrays, wires, wires_with};
ghost use Rattle.osm_block.specs.Block.{MessageOf};
ghost use Rattle.osm_block.specs.Fields.{context_of};
ghost use Rattle.osm_block.specs.FieldsLeft.{first_there};
ghost use Rattle.osm_block.specs.Phases.{Gives, first, message_phases, phases_after_wire, wire_phases};
ghost use Rattle.osm_block.specs.Reads.{Appended};

use crate::fault::BlockError;
use crate::scale::Scale;
use osm_value::Element;
use pbf_wire::{Field, Fields, WireFault};
use std::alloc::{AllocError, Global};

/// What such a message is read into, again for each one.
pub(crate) trait ElementMessage {
    /// The message that a payload is.
    ghost message: { List ℕ → Message };

    /// The numbers of the arrays that it has besides its tags.
    ghost own: { List ℕ };

    /// With what the rest of the fields add, it is what all fields say.
    ghost left: { Self → List Entry → List Entry → Type 0 };

    /// Begins another message.
    fn clear(&mut self)
        ensures { (fs : List Entry) → left self.new fs fs };

    /// Reads one more field of the message.
    fn take(&mut self, field: Field) -> Result<(), AllocError>
        ensures { OnOk result ((rest whole : List Entry) → left self.old (view field.entry ∷ rest) whole → left self.new rest whole) };

    /// The first fault of the payloads that it was read from: those of the Info, and then by field number.
    fn fault(&self) -> Option<WireFault>
        ensures { (fs : List Entry) → left self.now [] fs → result ≡ first_there (map wire (each fs ELEMENT_INFO) ++ arrays (ELEMENT_KEYS ∷ ELEMENT_VALS ∷ own) fs) };

    /// The element that the message encodes.
    fn element<'a>(&self, alloc: Global, scale: &Scale<'a>) -> Result<Element<'a>, BlockError>
        ensures { (p : List ℕ) → left self.now [] (fields p) → Gives (λ e. MessageOf (context_of scale.now) (e ∷ []) (message p)) (first (phases_after_wire (context_of scale.now) (message p))) result };

    ghost is_wired: { (p : List ℕ) → wires (message p) ≡ wires_with (ELEMENT_KEYS ∷ ELEMENT_VALS ∷ own) p };
}

/// Reads the message, or answers the first fault of its wire: that of its own payload before those of the payloads in it.
fn read_message<M: ElementMessage>(payload: &[u8], message: &mut M) -> Result<(), BlockError>
    ensures phase { Gives (λ _. ⊤) (first (wire_phases (wires (M.message payload.now)))) result }
    ensures read { OnOk result (M.left message.new [] (fields payload.now)) }
{
    message.clear();
    for field in Fields::new(payload) {
        let field = field?;
        message.take(field)?;
    }
    match message.fault() {
        None => Ok(()),
        Some(fault) => Err(BlockError::from(fault)),
    }
}

/// The element that a payload encodes.
fn read_element<'a, M: ElementMessage>(
    alloc: Global,
    scale: &Scale<'a>,
    payload: &'a [u8],
    message: &mut M,
) -> Result<Element<'a>, BlockError>
    ensures { Gives (λ e. MessageOf (context_of scale.now) (e ∷ []) (M.message payload.now)) (first (message_phases (context_of scale.now) (M.message payload.now))) result }
{
    read_message(payload, message)?;
    message.element(alloc, scale)
}

/// Appends the elements of the payloads.
pub(crate) fn read_elements<'a, M: ElementMessage>(
    alloc: Global,
    scale: &Scale<'a>,
    payloads: &[&'a [u8]],
    message: &mut M,
    out: &mut Vec<Element<'a>>,
) -> Result<(), BlockError>
    ensures phase { Gives (λ _. ⊤) (first (flat_map (message_phases (context_of scale.now)) (map M.message (map (λ p. p.now) payloads.now)))) result }
    ensures read { OnOk result (Appended (context_of scale.now) out.old.items out.new.items (map M.message (map (λ p. p.now) payloads.now))) }
{
    for payload in payloads {
        let element = read_element(alloc, scale, payload, message)?;
        out.push(element)?;
    }
    Ok(())
}
