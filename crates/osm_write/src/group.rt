//! The message of a group.

ghost use Rattle.std.specs.Prelude.{◌≡◌, ◌++◌, OnOk, IfOk, map};
ghost use Rattle.std.specs.List.{flat_map, filter_map};
ghost use Rattle.osm_write.specs.Scale.{view};
ghost use Rattle.osm_write.specs.Canon.{group_bytes, way_or_relation, node_of, dense_bytes, message_field};

use crate::append::{append_bytes, append_message};
use crate::dense::append_dense;
use crate::message::{Scratch, append_relation, append_way};
use crate::scale::Scale;
use osm_block::fields::{GROUP_DENSE, GROUP_RELATIONS, GROUP_WAYS};
use osm_value::{Element, Node};
use std::alloc::{AllocError, Global};

fn nodes_of<'s, 'a>(
    alloc: Global,
    elements: &'s [Element<'a>],
) -> Result<Vec<&'s Node<'a>>, AllocError>
    ensures { IfOk result (λ v. map (λ n. n.now) v.items ≡ filter_map node_of elements.now) }
{
    let mut nodes = Vec::new(alloc);
    for element in elements {
        if let Element::Node(node) = element {
            nodes.push(node)?;
        }
    }
    Ok(nodes)
}

fn append_nodes(
    alloc: Global,
    scale: &Scale,
    elements: &[Element],
    array: &mut Vec<u8>,
    out: &mut Vec<u8>,
) -> Result<(), AllocError>
    ensures { OnOk result (out.new.items ≡ out.old.items ++ message_field GROUP_DENSE (dense_bytes (view scale.now) (filter_map node_of elements.now))) }
{
    let nodes = nodes_of(alloc, elements)?;
    let mut message = Vec::new(alloc);
    append_dense(alloc, scale, &nodes, array, &mut message)?;
    append_message(GROUP_DENSE, &message, out)
}

/// A way or a relation with its number and length; nothing for a node.
fn append_element(
    scale: &Scale,
    element: &Element,
    scratch: &mut Scratch,
    message: &mut Vec<u8>,
    out: &mut Vec<u8>,
) -> Result<(), AllocError>
    ensures { OnOk result (out.new.items ≡ out.old.items ++ way_or_relation (view scale.now) element.now) }
{
    message.clear();
    match element {
        Element::Node(_) => Ok(()),
        Element::Way(way) => {
            append_way(scale, way, scratch, message)?;
            append_bytes(GROUP_WAYS, message, out)
        }
        Element::Relation(relation) => {
            append_relation(scale, relation, scratch, message)?;
            append_bytes(GROUP_RELATIONS, message, out)
        }
    }
}

fn append_elements(
    alloc: Global,
    scale: &Scale,
    elements: &[Element],
    scratch: &mut Scratch,
    out: &mut Vec<u8>,
) -> Result<(), AllocError>
    ensures { OnOk result (out.new.items ≡ out.old.items ++ flat_map (way_or_relation (view scale.now)) elements.now) }
{
    let mut message = Vec::new(alloc);
    for element in elements {
        append_element(scale, element, scratch, &mut message, out)?;
    }
    Ok(())
}

pub(crate) fn append_group(
    alloc: Global,
    scale: &Scale,
    elements: &[Element],
    scratch: &mut Scratch,
    out: &mut Vec<u8>,
) -> Result<(), AllocError>
    ensures { OnOk result (out.new.items ≡ out.old.items ++ group_bytes (view scale.now) elements.now) }
{
    append_nodes(alloc, scale, elements, &mut scratch.array, out)?;
    append_elements(alloc, scale, elements, scratch, out)
}
