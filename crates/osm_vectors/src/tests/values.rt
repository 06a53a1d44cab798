//! Elements as values: their parts, and the ranges of these.

use super::nothing_known;
use osm_value::{
    Element, Info, Member, MemberKind, Node, Relation, Way, text_in_range, uid_in_range,
    version_in_range, wide_in_range,
};
use std::test::*;

#[test]
fn bounds_of_the_ranges(rt: HostRuntime) {
    let most = 4_611_686_018_427_387_903;
    assert!(rt; wide_in_range(most) && wide_in_range(-most) && wide_in_range(0));
    assert!(rt; !wide_in_range(most + 1) && !wide_in_range(-most - 1));
    assert!(rt; !wide_in_range(i64::MAX) && !wide_in_range(i64::MIN));
    assert!(rt; version_in_range(0) && version_in_range(2_147_483_647));
    assert!(rt; !version_in_range(-1) && !version_in_range(i32::MIN));
    assert!(rt; uid_in_range(-1) && uid_in_range(2_147_483_646));
    assert!(rt; !uid_in_range(-2) && !uid_in_range(2_147_483_647));
    assert!(rt; text_in_range("") && text_in_range("a\u{1}é"));
    assert!(rt; !text_in_range("\0") && !text_in_range("a\0b"));
}

#[test]
fn parts_of_a_node(rt: HostRuntime) -> Result<(), Fail> {
    let info = Info::new(Some(3), Some(-1), Some(8), Some(0), None, None);
    let node = Node::new(4, -5, 6, vec![in rt.alloc(); ("k", "v")]?, info);
    assert!(rt; node.id() == 4 && node.lat() == -5 && node.lon() == 6);
    assert!(rt; node.tags() == [("k", "v")].as_slice());
    let info = node.info();
    assert!(rt; info.version() == Some(3) && info.time() == Some(-1));
    assert!(rt; info.changeset() == Some(8) && info.uid() == Some(0));
    assert!(rt; info.user().is_none() && info.visible().is_none());
    let element = Element::Node(node);
    assert!(rt; element.kind() == MemberKind::Node && element.id() == 4);
    assert!(rt; element.tags() == [("k", "v")].as_slice());
    assert!(rt; element.info().version() == Some(3));
    Ok(())
}

/// A flag is told as it was given, or it is absent.
#[test]
fn flags_of_visibility(rt: HostRuntime) {
    for flag in [None, Some(false), Some(true)] {
        let info = Info::new(Some(2), None, None, None, Some("u"), flag);
        assert!(rt;
            info.visible() == flag && info.version() == Some(2) && info.user() == Some("u")
        );
    }
}

#[test]
fn parts_of_a_way(rt: HostRuntime) -> Result<(), Fail> {
    let info = Info::new(None, None, None, None, Some("me"), None);
    let way = Way::new(-1, vec![in rt.alloc(); 2, -3]?, vec![in rt.alloc()]?, info);
    assert!(rt; way.id() == -1 && way.tags().is_empty());
    assert!(rt; way.refs() == [2, -3].as_slice());
    assert!(rt; way.info().user() == Some("me"));
    let element = Element::Way(way);
    assert!(rt; element.kind() == MemberKind::Way && element.id() == -1);
    assert!(rt; element.tags().is_empty() && element.info().user() == Some("me"));
    Ok(())
}

#[test]
fn parts_of_a_relation(rt: HostRuntime) -> Result<(), Fail> {
    let member = Member::new(MemberKind::Relation, 8, "part");
    let members = vec![in rt.alloc(); member]?;
    let relation = Relation::new(7, members, vec![in rt.alloc()]?, nothing_known());
    assert!(rt; relation.id() == 7 && relation.tags().is_empty());
    assert!(rt; relation.info().version().is_none());
    assert_eq!(rt; relation.members().len(), 1);
    let member = &relation.members()[0];
    assert!(rt; member.kind() == MemberKind::Relation && member.id() == 8);
    assert!(rt; member.role() == "part");
    let element = Element::Relation(relation);
    assert!(rt; element.kind() == MemberKind::Relation && element.id() == 7);
    assert!(rt; element.tags().is_empty() && element.info().uid().is_none());
    Ok(())
}
