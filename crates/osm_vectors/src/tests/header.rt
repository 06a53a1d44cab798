//! Header blocks, their parts and their faults.

use osm_block::{BBox, HeaderFault, read_header_block};
use pbf_wire::{WireFault, WireFaultKind};
use std::test::*;

fn wire(kind: WireFaultKind, at: usize) -> HeaderFault {
    HeaderFault::HeaderBlockWire(WireFault { kind, at })
}

#[test]
fn no_byte_has_nothing(rt: HostRuntime) {
    let header = read_header_block(&[]).expect(&rt, "no byte is a header block");
    assert!(rt; header.bbox().is_none());
    assert!(rt; header.required().next().is_none());
    assert!(rt; header.optional().next().is_none());
    assert!(rt; header.program().is_none() && header.source().is_none() && header.url().is_none());
    assert!(rt; header.timestamp().is_none() && header.sequence().is_none());
}

#[test]
fn known_features(rt: HostRuntime) {
    let bytes = b"\x22\x0EOsmSchema-V0.6\x22\x0ADenseNodes\x22\x15HistoricalInformation";
    let header = read_header_block(bytes).expect(&rt, "all three are known");
    let mut required = header.required();
    assert!(rt; required.next() == Some("OsmSchema-V0.6"));
    assert!(rt; required.next() == Some("DenseNodes"));
    assert!(rt; required.next() == Some("HistoricalInformation"));
    assert!(rt; required.next().is_none());
    assert!(rt; header.optional().next().is_none());
}

#[test]
fn every_part(rt: HostRuntime) {
    let bytes =
        b"\x22\x0ADenseNodes\x2A\x07Has_Aaa\x2A\x01b\x82\x01\x06pbfrow\x8A\x01\x01s\x80\x02\x05\x88\x02\xFF\xFF\xFF\xFF\xFF\xFF\xFF\xFF\xFF\x01\x92\x02\x01u";
    let header = read_header_block(bytes).expect(&rt, "the feature is known");
    let mut optional = header.optional();
    assert!(rt; optional.next() == Some("Has_Aaa"));
    assert!(rt; optional.next() == Some("b"));
    assert!(rt; optional.next().is_none());
    assert!(rt; header.program() == Some("pbfrow"));
    assert!(rt; header.source() == Some("s"));
    assert!(rt; header.timestamp() == Some(5));
    assert!(rt; header.sequence() == Some(-1));
    assert!(rt; header.url() == Some("u"));
}

#[test]
fn boxes(rt: HostRuntime) {
    let sides = BBox {
        left: -1,
        right: 1,
        top: 2,
        bottom: -2,
    };
    let whole = [0x0A, 0x08, 0x08, 0x01, 0x10, 0x02, 0x18, 0x04, 0x20, 0x03];
    let header = read_header_block(&whole).expect(&rt, "all sides are there");
    assert!(rt; header.bbox() == Some(sides));
    let halves = [
        0x0A, 0x04, 0x08, 0x01, 0x10, 0x02, 0x0A, 0x04, 0x18, 0x04, 0x20, 0x03,
    ];
    let header = read_header_block(&halves).expect(&rt, "all sides are there");
    assert!(rt; header.bbox() == Some(sides));
}

#[test]
fn a_timestamp_alone(rt: HostRuntime) {
    let header = read_header_block(&[0x80, 0x02, 0x05]).expect(&rt, "a timestamp alone");
    assert!(rt; header.timestamp() == Some(5));
}

#[test]
fn faults_of_headers(rt: HostRuntime) {
    let rows: [(&str, &[u8], HeaderFault); 7] = [
        (
            "a box with one side",
            &[0x0A, 0x02, 0x08, 0x02],
            HeaderFault::BBoxIncomplete,
        ),
        (
            "a box whose number is cut",
            &[0x0A, 0x01, 0x08],
            wire(WireFaultKind::NumberCut, 0),
        ),
        ("a group", &[0x0B], wire(WireFaultKind::BadWireType, 0)),
        (
            "a program that isn't UTF-8",
            &[0x82, 0x01, 0x01, 0xFF],
            HeaderFault::HeaderTextNotUtf8,
        ),
        (
            "an unknown feature",
            b"\x22\x03ABC",
            HeaderFault::UnknownFeature(0),
        ),
        (
            "an unknown feature behind another",
            b"\x22\x0ADenseNodes\x22\x03ABC",
            HeaderFault::UnknownFeature(1),
        ),
        (
            "an unknown feature behind all that are known",
            b"\x22\x0EOsmSchema-V0.6\x22\x0ADenseNodes\x22\x15HistoricalInformation\x22\x0FLocationsOnWays",
            HeaderFault::UnknownFeature(3),
        ),
    ];
    for (name, bytes, fault) in rows {
        assert!(rt; read_header_block(bytes).err() == Some(fault), "{name}");
    }
}

#[test]
fn numbers_and_names(rt: HostRuntime) {
    let rows = [
        (wire(WireFaultKind::NumberCut, 0), 30, "HeaderBlockWire"),
        (HeaderFault::BBoxIncomplete, 31, "BBoxIncomplete"),
        (HeaderFault::HeaderTextNotUtf8, 32, "HeaderTextNotUtf8"),
        (HeaderFault::UnknownFeature(0), 33, "UnknownFeature"),
    ];
    for (fault, number, name) in rows {
        assert!(rt; fault.number() == number && fault.name() == name, "{name}");
    }
}
