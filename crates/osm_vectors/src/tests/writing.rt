//! Elements and the canonical blocks that they become.

use super::nothing_known;
use crate::vectors::*;
use osm_value::{Element, Info, Member, MemberKind, Node, Relation, Way, text_in_range};
use osm_write::{BlobCutter, WriteFault, encode_block, encode_header, encode_one};
use std::alloc::Global;
use std::test::*;

/// The canonical block of two nodes.
fn block_of(alloc: Global, first: Node, second: Node) -> Result<Vec<u8>, Fail> {
    let nodes = vec![in alloc; Element::Node(first), Element::Node(second)]?;
    Ok(encode_block(alloc, &nodes)?)
}

/// Two nodes of a file that the usual tools write.
#[test]
fn two_nodes(rt: HostRuntime) -> Result<(), Fail> {
    let alloc = rt.alloc();
    let one = Node::new(1, 1000, -100, vec![in alloc]?, nothing_known());
    let two = Node::new(2, 900, -100, vec![in alloc]?, nothing_known());
    let block = block_of(alloc, one, two)?;
    assert!(rt; block.as_slice() == TWO_NODES_BLOCK.as_slice());
    Ok(())
}

#[test]
fn no_elements(rt: HostRuntime) -> Result<(), Fail> {
    let block = encode_block(rt.alloc(), &[])?;
    assert!(rt; block.as_slice() == [0x0A, 0x02, 0x0A, 0x00].as_slice());
    Ok(())
}

#[test]
fn two_nodes_of_one_id(rt: HostRuntime) -> Result<(), Fail> {
    let alloc = rt.alloc();
    let one = Node::new(1, 0, 0, vec![in alloc]?, nothing_known());
    let two = Node::new(1, 0, 0, vec![in alloc]?, nothing_known());
    let block = block_of(alloc, one, two)?;
    assert!(rt; block.as_slice() == ONE_GROUP_BLOCK.as_slice());
    Ok(())
}

#[test]
fn greatest_and_least_id(rt: HostRuntime) -> Result<(), Fail> {
    let alloc = rt.alloc();
    let greatest = 4_611_686_018_427_387_903;
    let first = Node::new(greatest, 0, 0, vec![in alloc]?, nothing_known());
    let second = Node::new(-greatest, 0, 0, vec![in alloc]?, nothing_known());
    let block = block_of(alloc, first, second)?;
    assert!(rt; block.as_slice() == WIDEST_IDS_BLOCK.as_slice());
    Ok(())
}

/// Nodes with different fields of info stand in groups of their own.
#[test]
fn nodes_with_different_info(rt: HostRuntime) -> Result<(), Fail> {
    let alloc = rt.alloc();
    let info = Info::new(Some(3), None, None, None, None, None);
    let one = Node::new(1, 0, 0, vec![in alloc]?, info);
    let two = Node::new(2, 0, 0, vec![in alloc]?, nothing_known());
    let block = block_of(alloc, one, two)?;
    assert!(rt; block.as_slice() == VERSION_IN_ITS_GROUP_BLOCK.as_slice());
    Ok(())
}

/// Nothing but the flag of visibility.
fn flagged(flag: bool) -> Info<'static> {
    Info::new(None, None, None, None, None, Some(flag))
}

/// Nodes of which one has a flag of visibility stand in groups of their own; nodes with different flags do not.
#[test]
fn nodes_with_flags(rt: HostRuntime) -> Result<(), Fail> {
    let alloc = rt.alloc();
    let one = Node::new(1, 0, 0, vec![in alloc]?, flagged(true));
    let two = Node::new(2, 0, 0, vec![in alloc]?, flagged(false));
    let block = block_of(alloc, one, two)?;
    assert!(rt; block.as_slice() == DELETED_DENSE_NODE_BLOCK.as_slice());
    let one = Node::new(1, 0, 0, vec![in alloc]?, flagged(true));
    let two = Node::new(2, 0, 0, vec![in alloc]?, nothing_known());
    let block = block_of(alloc, one, two)?;
    let groups = [
        0x0A, 0x02, 0x0A, 0x00, 0x12, 0x10, 0x12, 0x0E, 0x0A, 0x01, 0x02, 0x2A, 0x03, 0x32, 0x01,
        0x01, 0x42, 0x01, 0x00, 0x4A, 0x01, 0x00, 0x12, 0x0B, 0x12, 0x09, 0x0A, 0x01, 0x04, 0x42,
        0x01, 0x00, 0x4A, 0x01, 0x00,
    ];
    assert!(rt; block.as_slice() == groups.as_slice());
    Ok(())
}

/// A relation whose second member has an empty role, which stands in the table.
#[test]
fn relation_with_an_empty_role(rt: HostRuntime) -> Result<(), Fail> {
    let alloc = rt.alloc();
    let outer = Member::new(MemberKind::Node, 1, "outer");
    let empty = Member::new(MemberKind::Way, -2, "");
    let relation = Relation::new(
        9,
        vec![in alloc; outer, empty]?,
        vec![in alloc; ("name", "a b,c")]?,
        nothing_known(),
    );
    let block = encode_one(alloc, &Element::Relation(relation))?;
    assert!(rt; block.as_slice() == RELATION_BLOCK.as_slice());
    Ok(())
}

/// A way with each field of info; its user id, -1, takes ten bytes.
#[test]
fn way_with_all_of_info(rt: HostRuntime) -> Result<(), Fail> {
    let alloc = rt.alloc();
    let info = Info::new(Some(2), Some(3000), Some(4), Some(-1), Some("u"), None);
    let way = Way::new(7, vec![in alloc]?, vec![in alloc]?, info);
    let block = encode_one(alloc, &Element::Way(way))?;
    assert!(rt; block.as_slice() == WAY_WITH_INFO_BLOCK.as_slice());
    Ok(())
}

#[test]
fn header(rt: HostRuntime) -> Result<(), Fail> {
    let block = encode_header(rt.alloc(), false)?;
    let expected = b"\x22\x0EOsmSchema-V0.6\x22\x0ADenseNodes\x82\x01\x06pbfrow";
    assert!(rt; block.as_slice() == expected.as_slice());
    let block = encode_header(rt.alloc(), true)?;
    let expected =
        b"\x22\x0EOsmSchema-V0.6\x22\x0ADenseNodes\x22\x15HistoricalInformation\x82\x01\x06pbfrow";
    assert!(rt; block.as_slice() == expected.as_slice());
    Ok(())
}

#[test]
fn faults(rt: HostRuntime) {
    assert!(rt; WriteFault::BlockTooLarge.number() == 53);
    assert!(rt; WriteFault::BlockTooLarge.name() == "BlockTooLarge");
    assert!(rt; WriteFault::Memory.number() == 65);
    assert!(rt; WriteFault::Memory.name() == "Memory");
}

/// So many bytes, all the same.
fn bytes_of(rt: &HostRuntime, byte: u8, len: usize) -> Result<Vec<u8>, Fail> {
    let piece = [byte; 4096];
    let mut bytes = Vec::new(rt.alloc());
    for _ in 0..len / 4096 + 1 {
        bytes.extend_from_slice(&piece)?;
    }
    bytes.truncate(len);
    Ok(bytes)
}

/// The node 1 at 0, 0 with this value of the key `a`; none where the bytes are no text.
fn tagged<'a>(rt: &HostRuntime, value: &'a [u8]) -> Result<Option<Element<'a>>, Fail> {
    let Ok(value) = std::str::from_utf8(value) else {
        return Ok(None);
    };
    if !text_in_range(value) {
        return Ok(None);
    }
    let tags = vec![in rt.alloc(); ("a", value)]?;
    Ok(Some(Element::Node(Node::new(1, 0, 0, tags, nothing_known()))))
}

/// How long the block of one node is whose value has so many bytes; None where it is too large.
fn len_with_value(rt: &HostRuntime, value: &[u8]) -> Result<Option<usize>, Fail> {
    let Some(element) = tagged(rt, value)? else {
        return Ok(None);
    };
    let elements = vec![in rt.alloc(); element]?;
    match encode_block(rt.alloc(), &elements) {
        Ok(block) => Ok(Some(block.len())),
        Err(WriteFault::BlockTooLarge) => Ok(None),
        Err(fault) => Err(fault)?,
    }
}

/// Beside the value stand 33 bytes, where its length takes four.
#[test]
fn blocks_up_to_the_limit(rt: HostRuntime) -> Result<(), Fail> {
    let value = bytes_of(&rt, b'b', 2_097_152)?;
    assert!(rt; len_with_value(&rt, &value)? == Some(2_097_185));
    let longest = bytes_of(&rt, b'b', 33_554_398)?;
    assert!(rt; len_with_value(&rt, &longest)? == Some(33_554_431));
    let too_long = bytes_of(&rt, b'b', 33_554_399)?;
    assert!(rt; len_with_value(&rt, &too_long)?.is_none());
    Ok(())
}

/// 8,000, 8,000 and 4,000 nodes: each takes three bytes, and the lengths of the three arrays, of
/// the message, the group and the table take the rest.
#[test]
fn cutter_of_many_nodes(rt: HostRuntime) -> Result<(), Fail> {
    let alloc = rt.alloc();
    let mut elements = Vec::new(alloc);
    for _ in 0..20_000 {
        let node = Node::new(1, 0, 0, vec![in alloc]?, nothing_known());
        elements.push(Element::Node(node))?;
    }
    let mut cutter = BlobCutter::new(alloc, &elements);
    for expected in [24_021, 24_021, 12_019] {
        let block = cutter.next()?;
        assert!(rt; block.map(|bytes| bytes.len()) == Some(expected));
    }
    assert!(rt; cutter.next()?.is_none());
    Ok(())
}

/// The first of three elements alone, since all three are too large; then the other two.
#[test]
fn cutter_of_large_nodes(rt: HostRuntime) -> Result<(), Fail> {
    let alloc = rt.alloc();
    let first = bytes_of(&rt, b'b', 15_000_000)?;
    let second = bytes_of(&rt, b'c', 15_000_000)?;
    let third = bytes_of(&rt, b'd', 15_000_000)?;
    let mut elements = Vec::new(alloc);
    for value in [&first, &second, &third] {
        if let Some(element) = tagged(&rt, value)? {
            elements.push(element)?;
        }
    }
    let mut cutter = BlobCutter::new(alloc, &elements);
    assert!(rt; cutter.next()?.map(|bytes| bytes.len()) == Some(15_000_033));
    assert!(rt; cutter.next()?.map(|bytes| bytes.len()) == Some(30_000_044));
    assert!(rt; cutter.next()?.is_none());
    Ok(())
}

#[test]
fn cutter_of_nothing(rt: HostRuntime) -> Result<(), Fail> {
    let mut cutter = BlobCutter::new(rt.alloc(), &[]);
    assert!(rt; cutter.next()?.is_none());
    Ok(())
}
