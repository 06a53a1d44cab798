use crate::vectors::{
    DELETED_DENSE_NODE_BLOCK, NODES_WITH_INFO_BLOCK, RELATION_BLOCK, TAGGED_NODES_BLOCK,
    TWO_NODES_BLOCK, WAY_BLOCK, WAY_WITH_INFO_BLOCK,
};
use osm_block::read_block_groups;
use osm_columns::{
    Columns, ElementColumns, MemberColumns, RefColumns, TagColumns, TextColumn, columns_fit,
    put_columns, put_texts, survey_of, text_bytes_of, texts_fit,
};
use std::alloc::Global;
use std::process::Abort;
use std::test::*;

/// The arrays of a caller: the columns of one element, of the vectors' longest lists and texts, and something behind each.
#[derive(Drop)]
struct Arrays {
    kinds: [u8; 2],
    ids: [i64; 2],
    lats: [i64; 2],
    lons: [i64; 2],
    versions: [i32; 2],
    times: [i64; 2],
    changesets: [i64; 2],
    uids: [i32; 2],
    users: [i32; 2],
    visible: [u8; 2],
    tag_ends: [u64; 2],
    keys: [i32; 2],
    values: [i32; 2],
    ref_ends: [u64; 2],
    member_ends: [u64; 2],
    member_kinds: [u8; 3],
    member_ids: [i64; 3],
    roles: [i32; 3],
    text_ends: [u64; 5],
    text_bytes: [u8; 17],
}

fn full() -> Arrays {
    Arrays {
        kinds: [77; 2],
        ids: [77; 2],
        lats: [77; 2],
        lons: [77; 2],
        versions: [77; 2],
        times: [77; 2],
        changesets: [77; 2],
        uids: [77; 2],
        users: [77; 2],
        visible: [77; 2],
        tag_ends: [77; 2],
        keys: [77; 2],
        values: [77; 2],
        ref_ends: [77; 2],
        member_ends: [77; 2],
        member_kinds: [77; 3],
        member_ids: [77; 3],
        roles: [77; 3],
        text_ends: [77; 5],
        text_bytes: [77; 17],
    }
}

/// Writes the columns of the block's elements into the arrays, if they have room; the references have an array of their own.
fn put_block<'a>(
    rt: &(impl Abort + Alloc<A = Global>),
    block: &[u8],
    refs: &'a mut [i64],
    arrays: &'a mut Arrays,
) -> Result<bool, Fail> {
    let groups = read_block_groups(rt.alloc(), block).expect(rt, "a block");
    let survey = survey_of(rt.alloc(), &groups)?;
    let mut columns = Columns {
        elements: ElementColumns {
            kinds: &mut arrays.kinds,
            ids: &mut arrays.ids,
            lats: &mut arrays.lats,
            lons: &mut arrays.lons,
            versions: &mut arrays.versions,
            times: &mut arrays.times,
            changesets: &mut arrays.changesets,
            uids: &mut arrays.uids,
            users: &mut arrays.users,
            visible: &mut arrays.visible,
        },
        tags: TagColumns {
            ends: &mut arrays.tag_ends,
            keys: &mut arrays.keys,
            values: &mut arrays.values,
        },
        refs: RefColumns {
            ends: &mut arrays.ref_ends,
            ids: refs,
        },
        members: MemberColumns {
            ends: &mut arrays.member_ends,
            kinds: &mut arrays.member_kinds,
            ids: &mut arrays.member_ids,
            roles: &mut arrays.roles,
        },
        texts: TextColumn {
            ends: &mut arrays.text_ends,
            bytes: &mut arrays.text_bytes,
        },
    };
    let room = columns_fit(&survey.counts, &columns);
    if room {
        put_columns(&groups, &survey, &mut columns);
    }
    Ok(room)
}

/// `w 7 () [v=2,t=3000,c=4,i=-1,u=u] {}`
#[test]
fn a_way_with_an_info(rt: HostRuntime) -> Result<(), Fail> {
    let mut arrays = full();
    let mut refs = [77; 5];
    assert!(rt; put_block(&rt, &WAY_WITH_INFO_BLOCK, &mut refs, &mut arrays)?);
    assert!(rt; arrays.kinds == [1, 77] && arrays.ids == [7, 77] && arrays.lats == [0, 77]);
    assert!(rt; arrays.versions == [2, 77] && arrays.times == [3000, 77]);
    assert!(rt; arrays.changesets == [4, 77] && arrays.uids == [-1, 77]);
    assert!(rt; arrays.users == [1, 77] && arrays.visible == [2, 77]);
    assert!(rt; arrays.tag_ends == [0, 77] && arrays.ref_ends == [0, 77]);
    assert!(rt; arrays.text_ends == [0, 1, 77, 77, 77] && arrays.text_bytes[0] == b'u');
    Ok(())
}

/// `w 7 (5,6,7,6) [] {a=b}`: what isn't there has the number that says so.
#[test]
fn a_way_with_references(rt: HostRuntime) -> Result<(), Fail> {
    let mut arrays = full();
    let mut refs = [77; 5];
    assert!(rt; put_block(&rt, &WAY_BLOCK, &mut refs, &mut arrays)?);
    assert!(rt; arrays.ref_ends == [4, 77] && refs == [5, 6, 7, 6, 77]);
    assert!(rt; arrays.tag_ends == [1, 77] && arrays.keys == [1, 77] && arrays.values == [2, 77]);
    assert!(rt; arrays.versions == [-1, 77] && arrays.times == [i64::MIN, 77]);
    assert!(rt; arrays.changesets == [i64::MIN, 77] && arrays.uids == [i32::MIN, 77]);
    assert!(rt; arrays.users == [-1, 77] && arrays.member_ends == [0, 77]);
    assert!(rt; arrays.text_ends == [0, 1, 2, 77, 77]);
    Ok(())
}

/// `r 9 (n1@outer,w-2@) [] {name=a%20b%2Cc}`: texts are in the order of the table, which begins with an empty one.
#[test]
fn a_relation(rt: HostRuntime) -> Result<(), Fail> {
    let mut arrays = full();
    let mut refs = [77; 5];
    assert!(rt; put_block(&rt, &RELATION_BLOCK, &mut refs, &mut arrays)?);
    assert!(rt; arrays.kinds == [2, 77] && arrays.member_ends == [2, 77]);
    assert!(rt; arrays.member_kinds == [0, 1, 77] && arrays.member_ids == [1, -2, 77]);
    assert!(rt; arrays.roles == [3, 0, 77] && arrays.keys == [1, 77] && arrays.values == [2, 77]);
    assert!(rt; arrays.text_ends == [0, 4, 9, 14, 77]);
    assert!(rt; arrays.text_bytes[..14] == b"namea b,couter"[..]);
    Ok(())
}

/// Dense nodes `n 1 0 0 [] {a=b}` and `n 2 0 0`: they say nothing but their ids, places and tags.
#[test]
fn tagged_dense_nodes(rt: HostRuntime) -> Result<(), Fail> {
    let mut arrays = full();
    let mut refs = [77; 1];
    assert!(rt; put_block(&rt, &TAGGED_NODES_BLOCK, &mut refs, &mut arrays)?);
    assert!(rt; arrays.kinds == [0, 0] && arrays.ids == [1, 2] && arrays.tag_ends == [1, 1]);
    assert!(rt; arrays.keys == [1, 77] && arrays.values == [2, 77]);
    assert!(rt; arrays.versions == [-1, -1] && arrays.times == [i64::MIN, i64::MIN]);
    assert!(rt; arrays.changesets == [i64::MIN, i64::MIN] && arrays.uids == [i32::MIN, i32::MIN]);
    assert!(rt; arrays.users == [-1, -1] && arrays.visible == [2, 2]);
    assert!(rt; arrays.ref_ends == [0, 0] && arrays.member_ends == [0, 0] && refs == [77]);
    assert!(rt; arrays.text_ends == [0, 1, 2, 77, 77] && arrays.text_bytes[..2] == b"ab"[..]);
    Ok(())
}

/// Dense nodes `n 1 0 0 [v=1,t=1000,c=5,i=7,u=u]` and `n 2 0 0 [v=2,t=2000,c=5,i=7,u=u]`.
#[test]
fn dense_nodes_with_infos(rt: HostRuntime) -> Result<(), Fail> {
    let mut arrays = full();
    let mut refs = [77; 1];
    assert!(rt; put_block(&rt, &NODES_WITH_INFO_BLOCK, &mut refs, &mut arrays)?);
    assert!(rt; arrays.versions == [1, 2] && arrays.times == [1000, 2000]);
    assert!(rt; arrays.changesets == [5, 5] && arrays.uids == [7, 7]);
    assert!(rt; arrays.users == [1, 1] && arrays.text_ends == [0, 1, 77, 77, 77]);
    Ok(())
}

/// Dense nodes at 1000, -100 and at 900, -100 nanodegrees; and two, of which the second is deleted.
#[test]
fn places_and_flags_of_dense_nodes(rt: HostRuntime) -> Result<(), Fail> {
    let mut arrays = full();
    let mut refs = [77; 1];
    assert!(rt; put_block(&rt, &TWO_NODES_BLOCK, &mut refs, &mut arrays)?);
    assert!(rt; arrays.lats == [1000, 900] && arrays.lons == [-100, -100]);
    assert!(rt; put_block(&rt, &DELETED_DENSE_NODE_BLOCK, &mut refs, &mut arrays)?);
    assert!(rt; arrays.visible == [1, 0]);
    Ok(())
}

/// An array that is too short by one stays as it was, and so do the others.
#[test]
fn no_room_for_the_references(rt: HostRuntime) -> Result<(), Fail> {
    let mut arrays = full();
    let mut refs = [77; 3];
    assert!(rt; !put_block(&rt, &WAY_BLOCK, &mut refs, &mut arrays)?);
    assert!(rt; arrays.ids == [77, 77] && refs == [77; 3] && arrays.text_ends == [77; 5]);
    Ok(())
}

#[test]
fn texts_alone(rt: HostRuntime) -> Result<(), Fail> {
    let texts = ["ab", "", "c"];
    let mut ends = [77; 4];
    let mut bytes = [77; 4];
    let mut column = TextColumn {
        ends: &mut ends,
        bytes: &mut bytes,
    };
    let count = text_bytes_of(&texts).unwrap_or(0);
    assert!(rt; count == 3 && !texts_fit(3, 5, &column));
    if texts_fit(3, count, &column) {
        put_texts(&texts, &mut column);
    }
    assert!(rt; ends == [2, 2, 3, 77] && bytes == [b'a', b'b', b'c', 77]);
    Ok(())
}
