//! Tests of what the commands have in common: names without a database, the progress line and the exit status.

use super::parts::part_of;
use super::stores::{Columns, NewStore};
use super::support::{Closed, TWO_NODES};
use osm_parts::{InTurn, OpensNamed};
use osm_rows::StoreFault;
use osm_value::{Form, Outlet, Sink};
use pbfrow_commands::report::refuse_store;
use pbfrow_databases::named::{ask_named, merge_named};
use pbfrow_databases::questions::goes_by_blobs;
use pbfrow_databases::starting::{most_bytes, start_of};
use pbfrow_terminal::ending::{FAULTY, end};
use pbfrow_terminal::meter::Meter;
use pbfrow_terminal::output::standard_output;
use pbfrow_terminal::tally::Tally;
use pbfrow_words::{Question, Start};
use std::alloc::Global;
use std::fs::File;
use std::io::BufWriter;
use std::test::*;

const STATUS: Question = Question::Status { size: None };

const COUNTS: Question = Question::Counts { size: None };

const LINES: Question = Question::Export {
    size: None,
    partial: false,
    form: Form::Lines,
};

/// What is written of a database that can't be opened.
const DISK: &[u8] = b"fault 65 Disk\n";

/// Opens a store of one of the two blobs of a file by its name.
#[derive(Drop)]
struct ByName {
    alloc: Global,
}

impl<K: NewStore> OpensNamed<K> for ByName {
    ghost lies = { λ opener name store. Unit {0} };

    fn open_named(&self, name: &str) -> Result<K, StoreFault> {
        let range = if name == "first" {
            (0, 47, 0)
        } else if name == "second" {
            (47, 84, 47)
        } else {
            return Err(StoreFault::Disk);
        };
        part_of(self.alloc, TWO_NODES, &[range]).ok_or(StoreFault::Disk)
    }
}

/// What the databases of these names answer, and the exit status.
fn answer_of<K: NewStore>(alloc: Global, names: &[&str], question: Question) -> (u8, Vec<u8>) {
    let mut databases = InTurn::<K, _>::new(ByName { alloc }, names);
    let mut out = Outlet::new(Vec::new(alloc));
    let status = ask_named::<K, _, _>(alloc, &mut databases, question, &mut out);
    (status, out.into_inner())
}

/// A name without a database ends each question with the line of its fault.
#[test]
fn questions_of_a_name_without_a_database(rt: HostRuntime) {
    for question in [STATUS, COUNTS, LINES] {
        let (status, told) = answer_of::<Columns>(rt.alloc(), &["second", "third"], question);
        assert_eq!(rt; status, FAULTY);
        assert!(rt; told.as_slice() == DISK);
    }
}

/// What a merge of the databases of these names writes, and the exit status.
fn merge_of<K: NewStore>(alloc: Global, names: &[&str], into: &mut K) -> (u8, Vec<u8>) {
    let mut databases = InTurn::<K, _>::new(ByName { alloc }, names);
    let mut out = Outlet::new(Vec::new(alloc));
    let status = merge_named::<K, _, _, _>(alloc, &mut databases, into, &mut out);
    (status, out.into_inner())
}

/// What was copied stays where a later name has no database, and the merge is begun again.
#[test]
fn databases_are_merged_by_their_names(rt: HostRuntime) -> Result<(), Fail> {
    let mut into = Columns::new_store(rt.alloc()).ok_or("a store")?;
    let (status, told) = merge_of(rt.alloc(), &["second", "third"], &mut into);
    assert_eq!(rt; status, FAULTY);
    let text = b"copied 1 held 0\nfault 65 Disk\n";
    assert!(rt; told.as_slice() == text.as_slice());
    let (status, told) = merge_of(rt.alloc(), &["second", "first"], &mut into);
    assert_eq!(rt; status, 0);
    let text = b"copied 0 held 1\ncopied 1 held 0\nblobs copied 1 held 1\n";
    assert!(rt; told.as_slice() == text.as_slice());
    Ok(())
}

/// Which questions have a progress line, and how many bytes one of an import goes by.
#[test]
fn what_progress_lines_go_by(rt: HostRuntime) {
    assert!(rt; goes_by_blobs(LINES));
    assert!(rt; goes_by_blobs(COUNTS));
    assert!(rt; !goes_by_blobs(STATUS));
    let skipped = start_of(Start::Skip(1_000));
    assert_eq!(rt; most_bytes(skipped, None), u64::MAX);
    assert_eq!(rt; most_bytes(skipped, Some(1_500)), 1_500);
    let placed = start_of(Start::At(1_000));
    assert_eq!(rt; most_bytes(placed, Some(1_500)), 500);
}

#[test]
fn counts_stop_at_the_greatest_number(rt: HostRuntime) {
    let tally = Tally::NONE.with_blob().with_blob().with_bytes(300);
    assert_eq!(rt; (tally.blobs, tally.bytes, tally.size), (2, 300, None));
    let most = tally.with_bytes(u64::MAX).with_size(70).with_size(60);
    assert_eq!(rt;
        (most.blobs, most.bytes, most.size),
        (2, u64::MAX, Some(70))
    );
    assert_eq!(rt; most.with_offset(40).bytes, 40);
    let told = most.with_offset(40).progress(2_000);
    assert_eq!(rt;
        (told.bytes, told.blobs, told.milliseconds, told.size),
        (40, 2, 2_000, Some(70))
    );
}

#[test]
fn the_line_is_due_each_fifth_of_a_second(rt: HostRuntime) {
    let tally = Tally::NONE;
    assert!(rt; !tally.is_due(999));
    assert!(rt; tally.is_due(1_000));
    let drawn = tally.with_line(1_000);
    assert!(rt; drawn.is_drawn);
    assert!(rt; !drawn.is_due(1_199));
    assert!(rt; drawn.is_due(1_200));
    let begun = drawn.with_output(b"n 1 10");
    assert!(rt; !begun.is_due(1_200));
    assert!(rt; !begun.with_output(b"").is_due(1_200));
    assert!(rt; begun.with_output(b"00 -100 [] {}\n").is_due(1_200));
    assert!(rt; !drawn.without_line().is_drawn);
}

#[test]
fn the_status_is_that_of_the_command_and_its_output(rt: HostRuntime) -> Result<(), Fail> {
    let meter = Meter::new(&rt, false);
    let null = File::open(&rt, "/dev/null").map_err(|_| "/dev/null")?;
    meter.measure(&null);
    meter.measure_part(&null, 0, 10);
    meter.erase();
    let held = BufWriter::new(rt.alloc(), Vec::new(rt.alloc())).map_err(|_| "a buffer")?;
    let mut out = Outlet::new(held);
    assert_eq!(rt; refuse_store(&mut out, StoreFault::Disk), FAULTY);
    assert_eq!(rt; end(&mut out, &meter, 0), 0);
    assert_eq!(rt; end(&mut out, &meter, FAULTY), FAULTY);
    let written = out.into_inner();
    assert!(rt; written.buffer().is_empty() && written.get_ref().as_slice() == DISK);
    // what a buffer holds back can't be written
    let closed = BufWriter::new(rt.alloc(), Closed).map_err(|_| "a buffer")?;
    let mut out = Outlet::new(closed);
    assert_eq!(rt; refuse_store(&mut out, StoreFault::Disk), FAULTY);
    assert_eq!(rt; end(&mut out, &meter, 0), FAULTY);
    let sound = match standard_output(&rt, &meter, None) {
        Ok(out) => !out.failed(),
        Err(_) => false,
    };
    assert!(rt; sound);
    Ok(())
}
