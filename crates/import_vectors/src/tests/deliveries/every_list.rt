//! Every list of up to four deliveries, against a small program that keeps the blobs that it has stored in a list.

use osm_block::BlockFault;
use osm_import::{Answer, Conflict, Fault, gaps};
use osm_rows::{BlobReader, Extent};
use osm_value::Form;
use pbf_wire::{WireFault, WireFaultKind};
use std::alloc::{AllocError, Global};
use std::process::Abort;
use std::test::*;
use store_vectors::deliveries::{answers_to, exported};
use store_vectors::fixtures::{CHANGED, CHANGED_LINES, EXTRA, Frame, HEADER, LINES, NODES};
use store_vectors::memory::{BodiesInMemory, NewStore, TablesInMemory, TreesInMemory};

/// A delivery: where its frame stands and ends, what it is answered with where nothing is held, and its lines.
#[derive(Drop)]
struct Choice<'a> {
    off: u64,
    fin: u64,
    bytes: &'a [u8],
    alone: Answer,
    lines: &'a [u8],
}

/// The data frame whose last number is cut: it says no elements.
const CUT: [u8; 37] = [
    0x00, 0x00, 0x00, 0x0B, 0x0A, 0x07, 0x4F, 0x53, 0x4D, 0x44, 0x61, 0x74, 0x61, 0x18, 0x16, 0x0A,
    0x14, 0x0A, 0x02, 0x0A, 0x00, 0x12, 0x0E, 0x12, 0x0C, 0x0A, 0x02, 0x02, 0x02, 0x42, 0x02, 0x14,
    0x01, 0x4A, 0x02, 0x01, 0x80,
];

/// The two frames of the file and one behind it; the data frame with another node; a frame that meets the second and
/// the third; and the data frame that is bad.
fn choices<'a>() -> [Choice<'a>; 6] {
    let cut = BlockFault::BlockWire(WireFault {
        kind: WireFaultKind::NumberCut,
        at: 1,
    });
    [
        make_choice(0, 47, HEADER, Answer::Stored(0), b""),
        make_choice(47, 84, NODES, Answer::Stored(2), LINES),
        make_choice(84, 100, EXTRA, Answer::Stored(0), b""),
        make_choice(47, 84, CHANGED, Answer::Stored(2), CHANGED_LINES),
        make_choice(75, 91, EXTRA, Answer::Stored(0), b""),
        make_choice(47, 84, &CUT, Answer::Bad(Fault::Block(cut)), b""),
    ]
}

fn make_choice<'a>(
    off: u64,
    fin: u64,
    bytes: &'a [u8],
    alone: Answer,
    lines: &'a [u8],
) -> Choice<'a> {
    Choice {
        off,
        fin,
        bytes,
        alone,
        lines,
    }
}

/// What a delivery is answered with where these are held.
fn answer_to(held: &[&Choice<'_>], choice: &Choice<'_>) -> Answer {
    if matches!(choice.alone, Answer::Bad(_)) {
        return choice.alone;
    }
    for other in held {
        if other.off == choice.off {
            if other.bytes == choice.bytes {
                return Answer::AlreadyHeld;
            }
            return Answer::Refused(Conflict::Differs);
        }
    }
    for other in held {
        if other.off < choice.fin && choice.off < other.fin {
            return Answer::Refused(Conflict::Overlap);
        }
    }
    choice.alone
}

fn is_held(held: &[&Choice<'_>], extent: &Extent) -> bool {
    for choice in held {
        if choice.off == extent.off && choice.fin == extent.fin {
            return choice.alone == Answer::Stored(extent.n);
        }
    }
    false
}

fn is_covered(held: &[&Choice<'_>], byte: u64) -> bool {
    for choice in held {
        if choice.off <= byte && byte < choice.fin {
            return true;
        }
    }
    false
}

fn is_in_a_gap(ranges: &[(u64, u64)], byte: u64) -> bool {
    for (from, to) in ranges {
        if *from <= byte && byte < *to {
            return true;
        }
    }
    false
}

/// The lines of what is held, by offset.
fn held_lines(alloc: Global, held: &[&Choice<'_>]) -> Result<Vec<u8>, AllocError> {
    let mut lines = Vec::new(alloc);
    for off in [0, 47, 75, 84] {
        for choice in held {
            if choice.off == off {
                lines.extend_from_slice(choice.lines)?;
            }
        }
    }
    Ok(lines)
}

fn frames_of<'a>(alloc: Global, chosen: &[&Choice<'a>]) -> Result<Vec<Frame<'a>>, AllocError> {
    let mut frames = Vec::new(alloc);
    for choice in chosen {
        frames.push((choice.off, choice.bytes))?;
    }
    Ok(frames)
}

/// The extents, the gaps in 100 bytes and the lines of a store that holds these.
fn check_held<K: NewStore, R: Abort>(
    rt: &R,
    alloc: Global,
    store: &mut K,
    held: &[&Choice<'_>],
) -> Result<(), Fail> {
    let extents = store.extents(alloc)?;
    assert!(rt; extents.len() == held.len());
    for extent in &extents {
        assert!(rt; is_held(held, extent));
    }
    let ranges = gaps(alloc, store, 100)?;
    for byte in 0..100 {
        assert!(rt; is_covered(held, byte) != is_in_a_gap(&ranges, byte));
    }
    let (result, lines) = exported(alloc, store, Form::Lines, None, true);
    assert!(rt; result == Ok(()));
    assert!(rt; lines.as_slice() == held_lines(alloc, held)?.as_slice());
    Ok(())
}

fn check_list<K: NewStore, R: Abort>(
    rt: &R,
    alloc: Global,
    chosen: &[&Choice<'_>],
) -> Result<(), Fail> {
    let frames = frames_of(alloc, chosen)?;
    let (answers, mut store) = answers_to::<K>(alloc, &frames)?;
    let mut held = Vec::new(alloc);
    let mut expected = Vec::new(alloc);
    for choice in chosen {
        let answer = answer_to(&held, choice);
        if let Answer::Stored(_) = answer {
            held.push(*choice)?;
        }
        expected.push(answer)?;
    }
    assert!(rt; answers.as_slice() == expected.as_slice());
    check_held(rt, alloc, &mut store, &held)
}

/// The list of the choices at these places.
fn check_places<K: NewStore, R: Abort>(
    rt: &R,
    alloc: Global,
    choices: &[Choice<'_>; 6],
    places: &[usize],
) -> Result<(), Fail> {
    let mut chosen = Vec::new(alloc);
    for place in places {
        chosen.push(choices.get(*place).ok_or("no such choice")?)?;
    }
    check_list::<K, _>(rt, alloc, &chosen)
}

fn every_list_of_up_to_four_of<K: NewStore, R: Abort + Alloc<A = Global>>(
    rt: &R,
) -> Result<(), Fail> {
    let alloc = rt.alloc();
    let choices = choices();
    for (length, lists) in [(0, 1), (1, 5), (2, 25), (3, 125), (4, 625)] {
        for number in 0..lists {
            let mut rest: usize = number;
            let mut places = Vec::new(alloc);
            for _ in 0..length {
                places.push(rest % 5)?;
                rest /= 5;
            }
            check_places::<K, _>(rt, alloc, &choices, &places)?;
        }
    }
    Ok(())
}

#[test]
fn every_list_of_up_to_four(rt: HostRuntime) -> Result<(), Fail> {
    every_list_of_up_to_four_of::<BodiesInMemory, _>(&rt)?;
    every_list_of_up_to_four_of::<TablesInMemory, _>(&rt)?;
    every_list_of_up_to_four_of::<TreesInMemory, _>(&rt)
}

/// A bad blob leaves what is held, whatever that is.
fn a_bad_blob_before_and_behind_of<K: NewStore, R: Abort + Alloc<A = Global>>(
    rt: &R,
) -> Result<(), Fail> {
    let alloc = rt.alloc();
    let choices = choices();
    for place in 0..5 {
        check_places::<K, _>(rt, alloc, &choices, &[place, 5])?;
        check_places::<K, _>(rt, alloc, &choices, &[5, place, 5])?;
    }
    Ok(())
}

#[test]
fn a_bad_blob_before_and_behind(rt: HostRuntime) -> Result<(), Fail> {
    a_bad_blob_before_and_behind_of::<BodiesInMemory, _>(&rt)?;
    a_bad_blob_before_and_behind_of::<TablesInMemory, _>(&rt)?;
    a_bad_blob_before_and_behind_of::<TreesInMemory, _>(&rt)
}
