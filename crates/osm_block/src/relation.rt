//! Relations.

ghost use Rattle.std.specs.Prelude.{◌≡◌, ◌&&◌, ◌==◌, ◌∷◌, [], map, length, not, true, is_some, Some};
ghost use Rattle.std.specs.List.{list_all};
ghost use Rattle.pbf_wire.specs.Readings.{int32};
ghost use Rattle.osm_value.specs.declared.element.Element.TheVariants as elements;
ghost use Rattle.osm_value.specs.Ranges.{is_wide};
ghost use Rattle.osm_value.specs.Value.{RelationValue};
ghost use Rattle.osm_block.specs.Block.{RelationOf, kind, text_at};
ghost use Rattle.osm_block.specs.FieldsLeft.{indexes_in};
ghost use Rattle.osm_block.specs.Texts.{is_text};
ghost use Rattle.osm_block.specs.Members.{MembersAt};
ghost use Rattle.osm_block.specs.Fields.{context_of, relation_message_of};
ghost use Rattle.osm_block.specs.declared.fault.BlockFault.TheVariants as faults;
ghost use Rattle.osm_block.specs.Phases.{Gives, first, when, relation_phases, is_index};

use crate::deltas::absolute;
use crate::element_fields::ElementFields;
use crate::element_message::ElementMessage;
use crate::fault::{BlockError, BlockFault};
use crate::fields::{RELATION_MEMIDS, RELATION_ROLES_SID, RELATION_TYPES};
use crate::info::{info_of, optional_i64};
use crate::number_array::NumberArray;
use crate::scale::Scale;
use crate::tag_list::tags_of;
use osm_value::{Element, Member, MemberKind, Relation};
use pbf_wire::{Field, WireFault, to_i32};
use std::alloc::{AllocError, Global};

/// A relation's message as it stands there. It is read into again for each relation.
#[derive(Drop)]
pub struct RelationFields {
    pub element: ElementFields,
    pub roles: NumberArray,
    pub memids: NumberArray,
    pub types: NumberArray,
}

impl RelationFields {
    pub(crate) fn new(alloc: Global) -> RelationFields {
        RelationFields {
            element: ElementFields::new(alloc),
            roles: NumberArray::new(alloc),
            memids: NumberArray::new(alloc),
            types: NumberArray::new(alloc),
        }
    }
}

impl ElementMessage for RelationFields {
    ghost use Rattle.std.specs.Prelude.{refl};
    ghost use Rattle.osm_block.specs.declared.fields.TheConstants.{RELATION_MEMIDS, RELATION_ROLES_SID, RELATION_TYPES};
    ghost use Rattle.osm_block.specs.Message.{Relation};
    ghost use Rattle.osm_block.specs.FieldsLeft.{RelationLeft};

    ghost message = { Relation };

    ghost own = { RELATION_ROLES_SID ∷ RELATION_MEMIDS ∷ RELATION_TYPES ∷ [] };

    ghost left = { RelationLeft };

    ghost is_wired = { λ p. refl };

    fn clear(&mut self) {
        self.element.clear();
        self.roles.clear();
        self.memids.clear();
        self.types.clear();
    }

    #[inline(always)]
    fn take(&mut self, field: Field) -> Result<(), AllocError> {
        match field.number {
            RELATION_ROLES_SID => self.roles.take(field.value)?,
            RELATION_MEMIDS => self.memids.take(field.value)?,
            RELATION_TYPES => self.types.take(field.value)?,
            _ => self.element.take(field)?,
        }
        Ok(())
    }

    fn fault(&self) -> Option<WireFault> {
        let members = self.roles.fault.or(self.memids.fault.or(self.types.fault));
        self.element.fault(members)
    }

    fn element<'a>(&self, alloc: Global, scale: &Scale<'a>) -> Result<Element<'a>, BlockError> {
        relation_of(alloc, scale, self)
    }
}

fn lengths_fit(relation: &RelationFields) -> bool
    ensures { result ≡ (length relation.now.element.keys.numbers.items == length relation.now.element.vals.numbers.items && length relation.now.roles.numbers.items == length relation.now.memids.numbers.items && length relation.now.types.numbers.items == length relation.now.memids.numbers.items) }
{
    let tags = relation.element.keys.numbers.len() == relation.element.vals.numbers.len();
    let roles = relation.roles.numbers.len() == relation.memids.numbers.len();
    let types = relation.types.numbers.len() == relation.memids.numbers.len();
    tags & roles & types
}

/// Whether a table of that many texts has a role's index, a signed number of 32 bits.
fn role_fits(texts: usize, role: u64) -> bool
    ensures { result ≡ is_index texts (int32 role) }
{
    let index = to_i32(role);
    index >= 0 && (index as usize) < texts
}

fn all_roles(texts: usize, roles: &[u64]) -> bool
    ensures { result ≡ list_all (λ r. is_index texts (int32 r)) roles.now }
{
    roles.iter().all(|role| role_fits(texts, *role))
}

fn indexes_fit(texts: usize, relation: &RelationFields) -> bool
    ensures { result ≡ (indexes_in texts relation.now.element.keys.numbers.items relation.now.element.vals.numbers.items relation.now.element.info.numbers.user_sid && list_all (λ r. is_index texts (int32 r)) relation.now.roles.numbers.items) }
{
    relation.element.indexes_fit(texts) & all_roles(texts, &relation.roles.numbers)
}

fn kind_of(number: u64) -> Option<MemberKind>
    ensures { result ≡ kind (int32 number) }
{
    match to_i32(number) {
        0 => Some(MemberKind::Node),
        1 => Some(MemberKind::Way),
        2 => Some(MemberKind::Relation),
        _ => None,
    }
}

/// The text at a role's index.
fn role_of<'a>(table: &[&'a str], role: u64) -> &'a str
    requires { is_index (length table.now) (int32 role) ≡ true }
    ensures { Some result.now ≡ text_at (map (λ t. t.now) table.now) (int32 role) }
{
    let index = to_i32(role);
    table[index as usize]
}

/// The members, or the fault that a kind isn't known.
fn members_of<'a>(
    alloc: Global,
    table: &[&'a str],
    memids: &[i64],
    roles: &[u64],
    types: &[u64],
) -> Result<Vec<Member<'a>>, BlockError>
    requires texts { list_all is_text (map (λ t. t.now) table.now) ≡ true }
    requires ids { list_all is_wide memids.now ≡ true }
    requires roles { list_all (λ r. is_index (length table.now) (int32 r)) roles.now ≡ true }
    requires as_many_roles { length roles.now ≡ length memids.now }
    requires as_many_types { length types.now ≡ length memids.now }
    ensures { Gives (λ members. MembersAt (map (λ t. t.now) table.now) members.items memids.now (map int32 roles.now) (map int32 types.now)) (when (not (list_all (λ t. is_some (kind t)) (map int32 types.now))) faults.BadMemberType) result }
{
    let mut members = Vec::with_capacity(alloc, memids.len())?;
    for at in 0..memids.len() {
        let Some(kind) = kind_of(types[at]) else {
            return Err(BlockError::Fault(BlockFault::BadMemberType));
        };
        let role = role_of(table, roles[at]);
        members.push(Member::new(kind, memids[at], role))?;
    }
    Ok(members)
}

/// The relation that the message encodes.
fn relation_of<'a>(
    alloc: Global,
    scale: &Scale<'a>,
    relation: &RelationFields,
) -> Result<Element<'a>, BlockError>
    ensures { Gives (λ e. (r : RelationValue) × (e ∷ [] ≡ elements.Relation r ∷ []) × RelationOf (context_of scale.now) r (relation_message_of relation.now)) (first (relation_phases (context_of scale.now) (relation_message_of relation.now))) result }
{
    let element = &relation.element;
    let Some(id) = optional_i64(element.id) else {
        return Err(BlockError::Fault(BlockFault::Missing));
    };
    if !lengths_fit(relation) {
        return Err(BlockError::Fault(BlockFault::LengthsDiffer));
    }
    let memids = absolute(alloc, &relation.memids.numbers)?;
    if !element.ids_in_range(scale, id, &memids) {
        return Err(BlockError::Fault(BlockFault::OutOfRange));
    }
    let table: &[&'a str] = &scale.table;
    if !indexes_fit(table.len(), relation) {
        return Err(BlockError::Fault(BlockFault::BadIndex));
    }
    let roles = &relation.roles.numbers;
    let members = members_of(alloc, table, &memids, roles, &relation.types.numbers)?;
    let tags = tags_of(alloc, table, &element.keys.numbers, &element.vals.numbers)?;
    let info = &element.info.numbers;
    Ok(Element::Relation(Relation::new(id, members, tags, info_of(scale, info))))
}
