//! Numbers, fields and messages of the wire format: what is read, what is written, and what is refused.

use pbf_wire::{
    Field, Fields, Message, Value, WireFault, WireFaultKind, next_field, number_len, read_number,
    to_i32, unzigzag, write_field, write_number, zigzag,
};
use std::test::*;

fn fault(kind: WireFaultKind, at: usize) -> WireFault {
    WireFault { kind, at }
}

/// The number at the front of the bytes with how many bytes it takes, or why there is none.
#[test]
fn numbers(rt: HostRuntime) {
    let cut = Err(fault(WireFaultKind::NumberCut, 0));
    let too_long = Err(fault(WireFaultKind::NumberTooLong, 0));
    let rows: [(&str, &[u8], Result<(u64, usize), WireFault>); 6] = [
        ("300", &[0xAC, 0x02], Ok((300, 2))),
        ("a longer spelling of 0", &[0x80, 0x00], Ok((0, 2))),
        ("no byte", &[], cut),
        ("nine bytes without an end", &[0xFF; 9], cut),
        (
            "2^64 - 1",
            &[0xFF, 0xFF, 0xFF, 0xFF, 0xFF, 0xFF, 0xFF, 0xFF, 0xFF, 0x01],
            Ok((u64::MAX, 10)),
        ),
        (
            "a tenth byte above 1",
            &[0xFF, 0xFF, 0xFF, 0xFF, 0xFF, 0xFF, 0xFF, 0xFF, 0xFF, 0x02],
            too_long,
        ),
    ];
    for (name, bytes, expected) in rows {
        assert!(rt; read_number(bytes) == expected, "{name}");
    }
}

#[test]
fn low_32_bits(rt: HostRuntime) {
    assert_eq!(rt; to_i32(5), 5);
    assert_eq!(rt; to_i32(u64::MAX), -1);
    assert_eq!(rt; to_i32(0x1_8000_0000), i32::MIN);
}

#[test]
fn faults_of_fields(rt: HostRuntime) {
    let rows: [(&str, &[u8], WireFaultKind); 4] = [
        (
            "a payload of 2^64 - 1 bytes",
            &[
                0x0A, 0xFF, 0xFF, 0xFF, 0xFF, 0xFF, 0xFF, 0xFF, 0xFF, 0xFF, 0x01,
            ],
            WireFaultKind::FieldCut,
        ),
        ("a group", &[0x0B], WireFaultKind::BadWireType),
        ("field 0", &[0x00], WireFaultKind::BadFieldNumber),
        ("a cut value", &[0x08, 0x80], WireFaultKind::NumberCut),
    ];
    for (name, bytes, kind) in rows {
        assert!(rt;
            next_field(bytes, 0).err() == Some(fault(kind, 0)),
            "{name}"
        );
    }
    assert!(rt; matches!(next_field(&[], 0), Ok(None)));
}

#[test]
fn fields_end_after_a_fault(rt: HostRuntime) {
    let mut fields = Fields::new(&[0x08, 0x05, 0x0B, 0x08, 0x05]);
    assert!(rt;
        matches!(
            fields.next(),
            Some(Ok(Field {
                number: 1,
                value: Value::Number(5)
            }))
        )
    );
    assert!(rt;
        matches!(
            fields.next(),
            Some(Err(WireFault {
                kind: WireFaultKind::BadWireType,
                at: 2
            }))
        )
    );
    assert!(rt; fields.next().is_none());
}

#[test]
fn numbers_and_names_of_faults(rt: HostRuntime) {
    let rows = [
        (WireFaultKind::NumberCut, 1, "NumberCut"),
        (WireFaultKind::NumberTooLong, 2, "NumberTooLong"),
        (WireFaultKind::BadFieldNumber, 3, "BadFieldNumber"),
        (WireFaultKind::BadWireType, 4, "BadWireType"),
        (WireFaultKind::FieldCut, 5, "FieldCut"),
    ];
    for (kind, number, name) in rows {
        assert!(rt; kind.number() == number && kind.name() == name, "{name}");
        let placed = fault(kind, 9);
        assert!(rt;
            placed.number() == number && placed.name() == name,
            "{name}"
        );
    }
}

/// The table of the Protocol Buffers encoding guide, "Signed Integers", and the ends of 64 bits.
#[test]
fn signed_numbers(rt: HostRuntime) {
    let rows = [
        (0_i64, 0_u64),
        (-1, 1),
        (1, 2),
        (-2, 3),
        (0x7FFF_FFFF, 0xFFFF_FFFE),
        (-0x8000_0000, 0xFFFF_FFFF),
        (i64::MAX, u64::MAX - 1),
        (i64::MIN, u64::MAX),
    ];
    for (signed, unsigned) in rows {
        assert!(rt; zigzag(signed) == unsigned, "{signed}");
        assert!(rt; unzigzag(unsigned) == signed, "{signed}");
    }
}

#[test]
fn lengths_of_numbers(rt: HostRuntime) {
    let rows = [
        (0_u64, 1_usize),
        (127, 1),
        (128, 2),
        (16_383, 2),
        (16_384, 3),
        (u64::MAX / 2, 9),
        (u64::MAX / 2 + 1, 10),
        (u64::MAX, 10),
    ];
    for (number, len) in rows {
        assert!(rt; number_len(number) == len, "{number}");
    }
}

/// 150 and -2 stand in the encoding guide, "Base 128 Varints" and "Signed Integers".
#[test]
fn written_numbers(rt: HostRuntime) -> Result<(), Fail> {
    let mut out = Vec::new(rt.alloc());
    for number in [0, 150, 300] {
        write_number(number, &mut out)?;
    }
    assert!(rt; out.as_slice() == [0x00, 0x96, 0x01, 0xAC, 0x02].as_slice());
    let mut out = Vec::new(rt.alloc());
    write_number(u64::MAX - 1, &mut out)?;
    assert!(rt;
        out.as_slice() == [0xFE, 0xFF, 0xFF, 0xFF, 0xFF, 0xFF, 0xFF, 0xFF, 0xFF, 0x01].as_slice()
    );
    Ok(())
}

fn is_same(left: Value, right: Value) -> bool {
    match (left, right) {
        (Value::Number(left), Value::Number(right)) => left == right,
        (Value::Fixed64(left), Value::Fixed64(right)) => left == right,
        (Value::Bytes(left), Value::Bytes(right)) => left == right,
        (Value::Fixed32(left), Value::Fixed32(right)) => left == right,
        _ => false,
    }
}

/// The number and the text stand in the encoding guide, "A Simple Message" and "Length-Delimited Records". What is
/// written is read again.
#[test]
fn written_fields(rt: HostRuntime) -> Result<(), Fail> {
    let fields = [
        (1, Value::Number(150)),
        (2, Value::Bytes(b"testing")),
        (3, Value::Fixed64([1, 2, 3, 4, 5, 6, 7, 8])),
        (4, Value::Fixed32([1, 2, 3, 4])),
    ];
    let mut out = Vec::new(rt.alloc());
    for (number, value) in fields {
        assert!(rt; number > 0 && number < 16);
        write_field(&Field { number, value }, &mut out)?;
    }
    let expected = [
        0x08, 0x96, 0x01, 0x12, 0x07, 0x74, 0x65, 0x73, 0x74, 0x69, 0x6E, 0x67, 0x19, 1, 2, 3, 4,
        5, 6, 7, 8, 0x25, 1, 2, 3, 4,
    ];
    assert!(rt; out.as_slice() == expected.as_slice());
    let mut read = Fields::new(&out);
    for (number, value) in fields {
        assert!(rt;
            matches!(read.next(), Some(Ok(field)) if field.number == number && is_same(field.value, value)),
            "{number}"
        );
    }
    assert!(rt; read.next().is_none());
    Ok(())
}

/// Of a scalar field the last occurrence counts, and one under another wire type counts for nothing.
#[test]
fn last_values(rt: HostRuntime) -> Result<(), Fail> {
    let bytes = [0x08, 0x05, 0x08, 0x07, 0x0A, 0x01, 0x61, 0x12, 0x00];
    let message = Message::new(&bytes)?;
    assert!(rt; message.last_number(1) == Some(7));
    assert!(rt; message.last_number(2) == None);
    assert!(rt; matches!(message.last_bytes(1), Some(b"a")));
    assert!(rt; matches!(message.last_bytes(2), Some([])));
    assert!(rt; message.has_bytes(2) && !message.has_bytes(3));
    let cut = Message::new(&bytes[..6]).err();
    assert!(rt; cut == Some(fault(WireFaultKind::FieldCut, 4)));
    Ok(())
}

/// Where memory is refused, the vector stays as it was.
#[test]
fn refused_memory(rt: HostRuntime) {
    let mut out = Vec::new(rt.alloc());
    match write_number(300, &mut out) {
        Ok(()) => assert!(rt; out.len() == 2),
        Err(_) => assert!(rt; out.is_empty()),
    }
    let held = out.len();
    let field = Field {
        number: 1,
        value: Value::Bytes(&[7; 100]),
    };
    match write_field(&field, &mut out) {
        Ok(()) => assert!(rt; out.len() > held),
        Err(_) => assert!(rt; out.len() == held),
    }
}
