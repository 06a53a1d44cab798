//! Ways and relations, and what they share with each other.

ghost use Rattle.std.specs.Prelude.{◌≡◌, ◌++◌, OnOk, map};
ghost use Rattle.osm_write.specs.Scale.{view};
ghost use Rattle.osm_write.specs.Canon.{index_of, flag_number, number_field, optional, info_bytes, head_bytes, way_bytes, message_field, members_bytes, relation_bytes, number_of_kind};

use crate::append::{
    append_deltas, append_int, append_message, append_number, append_optional, append_packed,
};
use crate::info::{flag_number, uid_of, version_of};
use crate::scale::Scale;
use osm_block::fields::{
    ELEMENT_ID, ELEMENT_INFO, ELEMENT_KEYS, ELEMENT_VALS, INFO_CHANGESET, INFO_TIMESTAMP, INFO_UID,
    INFO_USER_SID, INFO_VERSION, INFO_VISIBLE, RELATION_MEMIDS, RELATION_ROLES_SID, RELATION_TYPES,
    WAY_REFS,
};
use osm_value::{Info, Member, MemberKind, Relation, Way};
use std::alloc::{AllocError, Global};

/// Vectors that are used again for each message.
#[derive(Drop)]
pub(crate) struct Scratch {
    pub(crate) array: Vec<u8>,
    pub(crate) info: Vec<u8>,
}

impl Scratch {
    pub(crate) fn new(alloc: Global) -> Scratch {
        Scratch {
            array: Vec::new(alloc),
            info: Vec::new(alloc),
        }
    }
}

fn append_user(scale: &Scale, info: &Info, out: &mut Vec<u8>) -> Result<(), AllocError>
    ensures { OnOk result (out.new.items ≡ out.old.items ++ optional (λ t. number_field INFO_USER_SID (index_of (view scale.now) t)) info.now.user) }
{
    match info.user() {
        Some(user) => append_number(INFO_USER_SID, scale.index_of(user), out),
        None => Ok(()),
    }
}

fn append_visible(info: &Info, out: &mut Vec<u8>) -> Result<(), AllocError>
    ensures { OnOk result (out.new.items ≡ out.old.items ++ optional (λ b. number_field INFO_VISIBLE (flag_number b)) info.now.visible) }
{
    match info.visible() {
        Some(flag) => append_number(INFO_VISIBLE, flag_number(flag), out),
        None => Ok(()),
    }
}

fn append_info(scale: &Scale, info: &Info, out: &mut Vec<u8>) -> Result<(), AllocError>
    ensures { OnOk result (out.new.items ≡ out.old.items ++ info_bytes (view scale.now) info.now) }
{
    append_optional(INFO_VERSION, version_of(info), out)?;
    append_optional(INFO_TIMESTAMP, scale.raw_time(info.time()), out)?;
    append_optional(INFO_CHANGESET, info.changeset(), out)?;
    append_optional(INFO_UID, uid_of(info), out)?;
    append_user(scale, info, out)?;
    append_visible(info, out)
}

fn append_info_message(
    scale: &Scale,
    info: &Info,
    bytes: &mut Vec<u8>,
    out: &mut Vec<u8>,
) -> Result<(), AllocError>
    ensures { OnOk result (out.new.items ≡ out.old.items ++ message_field ELEMENT_INFO (info_bytes (view scale.now) info.now)) }
{
    bytes.clear();
    append_info(scale, info, bytes)?;
    append_message(ELEMENT_INFO, bytes, out)
}

fn append_head(
    scale: &Scale,
    id: i64,
    tags: &[(&str, &str)],
    info: &Info,
    scratch: &mut Scratch,
    out: &mut Vec<u8>,
) -> Result<(), AllocError>
    ensures { OnOk result (out.new.items ≡ out.old.items ++ head_bytes (view scale.now) id (map (λ t. (t.0.now, t.1.now)) tags.now) info.now) }
{
    append_int(ELEMENT_ID, id, out)?;
    append_packed(
        ELEMENT_KEYS,
        tags,
        |tag| Some(scale.index_of(tag.0)),
        &mut scratch.array,
        out,
    )?;
    append_packed(
        ELEMENT_VALS,
        tags,
        |tag| Some(scale.index_of(tag.1)),
        &mut scratch.array,
        out,
    )?;
    append_info_message(scale, info, &mut scratch.info, out)
}

pub(crate) fn append_way(
    scale: &Scale,
    way: &Way,
    scratch: &mut Scratch,
    out: &mut Vec<u8>,
) -> Result<(), AllocError>
    ensures { OnOk result (out.new.items ≡ out.old.items ++ way_bytes (view scale.now) way.now) }
{
    append_head(scale, way.id(), way.tags(), way.info(), scratch, out)?;
    append_deltas(
        WAY_REFS,
        way.refs(),
        |id| Some(*id),
        &mut scratch.array,
        out,
    )
}

fn number_of_kind(kind: MemberKind) -> u64
    ensures { result ≡ number_of_kind kind }
{
    match kind {
        MemberKind::Node => 0,
        MemberKind::Way => 1,
        MemberKind::Relation => 2,
    }
}

fn append_members(
    scale: &Scale,
    members: &[Member],
    array: &mut Vec<u8>,
    out: &mut Vec<u8>,
) -> Result<(), AllocError>
    ensures { OnOk result (out.new.items ≡ out.old.items ++ members_bytes (view scale.now) members.now) }
{
    append_packed(
        RELATION_ROLES_SID,
        members,
        |member| Some(scale.index_of(member.role())),
        array,
        out,
    )?;
    append_deltas(
        RELATION_MEMIDS,
        members,
        |member| Some(member.id()),
        array,
        out,
    )?;
    append_packed(
        RELATION_TYPES,
        members,
        |member| Some(number_of_kind(member.kind())),
        array,
        out,
    )
}

pub(crate) fn append_relation(
    scale: &Scale,
    relation: &Relation,
    scratch: &mut Scratch,
    out: &mut Vec<u8>,
) -> Result<(), AllocError>
    ensures { OnOk result (out.new.items ≡ out.old.items ++ relation_bytes (view scale.now) relation.now) }
{
    append_head(
        scale,
        relation.id(),
        relation.tags(),
        relation.info(),
        scratch,
        out,
    )?;
    append_members(scale, relation.members(), &mut scratch.array, out)
}
