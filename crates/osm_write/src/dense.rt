//! Nodes as one message of packed arrays.

ghost use Rattle.std.specs.Prelude.{◌≡◌, ◌++◌, ◌∷◌, [], OnOk, map};
ghost use Rattle.std.specs.List.{flat_map, list_any};
ghost use Rattle.osm_value.specs.Value.{NodeValue};
ghost use Rattle.osm_write.specs.Scale.{view};
ghost use Rattle.osm_write.specs.Canon.{dense_bytes, dense_info_bytes, keys_vals_of, has_tags, tag_indexes, number, packed_field, message_field};

use crate::append::{append_deltas, append_message, append_packed};
use crate::info::{uid_of, version_number, visible_number};
use crate::scale::Scale;
use osm_block::fields::{
    DENSE_DENSEINFO, DENSE_ID, DENSE_KEYS_VALS, DENSE_LAT, DENSE_LON, DENSEINFO_CHANGESET,
    DENSEINFO_TIMESTAMP, DENSEINFO_UID, DENSEINFO_USER_SID, DENSEINFO_VERSION, DENSEINFO_VISIBLE,
};
use osm_value::Node;
use pbf_wire::write_number;
use std::alloc::{AllocError, Global};

fn any_tags(nodes: &[&Node]) -> bool
    ensures { result ≡ list_any has_tags (map (λ n. n.now) nodes.now) }
{
    for node in nodes {
        if !node.tags().is_empty() {
            return true;
        }
    }
    false
}

/// Writes the indexes of keys and values.
fn write_tags(scale: &Scale, tags: &[(&str, &str)], array: &mut Vec<u8>) -> Result<(), AllocError>
    ensures { OnOk result (array.new.items ≡ array.old.items ++ flat_map number (tag_indexes (view scale.now) (map (λ t. (t.0.now, t.1.now)) tags.now))) }
{
    for tag in tags {
        write_number(scale.index_of(tag.0), array)?;
        write_number(scale.index_of(tag.1), array)?;
    }
    Ok(())
}

/// Each node's pairs and a 0.
fn write_all_tags(scale: &Scale, nodes: &[&Node], array: &mut Vec<u8>) -> Result<(), AllocError>
    ensures { OnOk result (array.new.items ≡ array.old.items ++ flat_map number (flat_map (λ (n : NodeValue). tag_indexes (view scale.now) n.tags ++ 0 ∷ []) (map (λ n. n.now) nodes.now))) }
{
    for node in nodes {
        write_tags(scale, node.tags(), array)?;
        write_number(0, array)?;
    }
    Ok(())
}

fn write_keys_vals(scale: &Scale, nodes: &[&Node], array: &mut Vec<u8>) -> Result<(), AllocError>
    ensures { OnOk result (array.new.items ≡ flat_map number (keys_vals_of (view scale.now) (map (λ n. n.now) nodes.now))) }
{
    array.clear();
    if any_tags(nodes) {
        write_all_tags(scale, nodes, array)
    } else {
        Ok(())
    }
}

fn append_dense_info(
    scale: &Scale,
    nodes: &[&Node],
    array: &mut Vec<u8>,
    out: &mut Vec<u8>,
) -> Result<(), AllocError>
    ensures { OnOk result (out.new.items ≡ out.old.items ++ dense_info_bytes (view scale.now) (map (λ (n : NodeValue). n.info) (map (λ n. n.now) nodes.now))) }
{
    append_packed(
        DENSEINFO_VERSION,
        nodes,
        |node| version_number(node.info()),
        array,
        out,
    )?;
    append_deltas(
        DENSEINFO_TIMESTAMP,
        nodes,
        |node| scale.raw_time(node.info().time()),
        array,
        out,
    )?;
    append_deltas(
        DENSEINFO_CHANGESET,
        nodes,
        |node| node.info().changeset(),
        array,
        out,
    )?;
    append_deltas(DENSEINFO_UID, nodes, |node| uid_of(node.info()), array, out)?;
    append_deltas(
        DENSEINFO_USER_SID,
        nodes,
        |node| scale.index_of_user(node.info()),
        array,
        out,
    )?;
    append_packed(
        DENSEINFO_VISIBLE,
        nodes,
        |node| visible_number(node.info()),
        array,
        out,
    )
}

fn append_dense_info_message(
    alloc: Global,
    scale: &Scale,
    nodes: &[&Node],
    array: &mut Vec<u8>,
    out: &mut Vec<u8>,
) -> Result<(), AllocError>
    ensures { OnOk result (out.new.items ≡ out.old.items ++ message_field DENSE_DENSEINFO (dense_info_bytes (view scale.now) (map (λ (n : NodeValue). n.info) (map (λ n. n.now) nodes.now)))) }
{
    let mut message = Vec::new(alloc);
    append_dense_info(scale, nodes, array, &mut message)?;
    append_message(DENSE_DENSEINFO, &message, out)
}

fn append_keys_vals(
    scale: &Scale,
    nodes: &[&Node],
    array: &mut Vec<u8>,
    out: &mut Vec<u8>,
) -> Result<(), AllocError>
    ensures { OnOk result (out.new.items ≡ out.old.items ++ packed_field DENSE_KEYS_VALS (keys_vals_of (view scale.now) (map (λ n. n.now) nodes.now))) }
{
    write_keys_vals(scale, nodes, array)?;
    append_message(DENSE_KEYS_VALS, array, out)
}

pub(crate) fn append_dense(
    alloc: Global,
    scale: &Scale,
    nodes: &[&Node],
    array: &mut Vec<u8>,
    out: &mut Vec<u8>,
) -> Result<(), AllocError>
    ensures { OnOk result (out.new.items ≡ out.old.items ++ dense_bytes (view scale.now) (map (λ n. n.now) nodes.now)) }
{
    append_deltas(DENSE_ID, nodes, |node| Some(node.id()), array, out)?;
    append_dense_info_message(alloc, scale, nodes, array, out)?;
    append_deltas(
        DENSE_LAT,
        nodes,
        |node| Some(scale.raw_coordinate(node.lat())),
        array,
        out,
    )?;
    append_deltas(
        DENSE_LON,
        nodes,
        |node| Some(scale.raw_coordinate(node.lon())),
        array,
        out,
    )?;
    append_keys_vals(scale, nodes, array, out)
}
