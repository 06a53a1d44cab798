//! The command `status --counts`, on one store or on several that hold blobs of one file: what `status` writes, and the
//! counts of the elements.

ghost use Rattle.std.specs.Prelude.{◌≡◌, ◌≤◌, ℕ, false, List, Option, IfOk, IfErr, length};
ghost use Rattle.osm_value.specs.Printing.{Prints};
ghost use Rattle.osm_rows.specs.Held.{HeldMap};
ghost use Rattle.osm_rows.specs.Calls.{OfHeld};
ghost use Rattle.osm_import.specs.Stores.{Rereads, Stays};
ghost use Rattle.osm_parts.specs.Opening.{KeepsMaps, OnlyOpens};
ghost use Rattle.osm_parts.specs.Parts.{AreParts};
ghost use Rattle.osm_parts.specs.Reading.{AreRead};
ghost use Rattle.pbfrow_counts.specs.Counting.{CountHasCause, IsOfMap};
ghost use Rattle.pbfrow_commands.specs.Counting.{IsCensus, TellsCounts, census_text, count_fault_line};
ghost use Rattle.pbfrow_commands.specs.InParts.{TellsParts};
ghost use Rattle.pbfrow_commands.specs.Status.{Tells};
ghost use Rattle.pbfrow_commands.specs.Telling.{telling};

use crate::parts::put_parts_fault;
use crate::report::put_store_fault;
use crate::status::{Holdings, holdings_of, put_counts, put_gaps};
use osm_parts::{Openings, Part, extents_of_parts, read_parts};
use osm_rows::BlobReader;
use osm_value::Sink;
use pbfrow_counts::{CountFault, ElementCounts, count_blobs, count_parts, put_element_counts};
use pbfrow_reading::report::put_fault_at;
use std::alloc::Global;

/// What is held, and the counts of its elements.
#[derive(Debug, Drop)]
struct Census {
    holdings: Holdings,
    counts: ElementCounts,
}

/// Writes the line of why elements weren't counted.
fn put_count_fault<S: Sink>(out: &mut S, fault: CountFault)
    ensures { Prints S.Sink out.old out.new (count_fault_line fault) }
{
    match fault {
        CountFault::Miscounted(off) => put_fault_at(out, fault.number(), fault.name(), off),
        CountFault::Store(fault) => put_store_fault(out, fault),
    }
}

/// Writes the lines of what is held and those of the counts, and answers the exit status: 0 if they were written, else 1.
fn put_census<S: Sink>(out: &mut S, census: &Census) -> u8
    ensures told { (held : HeldMap) (size : Option ℕ) → IsCensus held size census.now
        → Tells (census_text held census.now.holdings.gaps.items census.now.counts) (S.written out.old) (S.written out.new) (S.has_failed out.new) result }
    ensures bound { result ≤ 1 }
{
    let holdings = &census.holdings;
    put_gaps(out, &holdings.gaps);
    put_counts(
        out,
        holdings.blobs,
        holdings.end,
        holdings.gaps.len() as u64,
    );
    put_element_counts(out, &census.counts);
    if out.failed() { 1 } else { 0 }
}

/// What a store holds, and the counts of its elements.
fn take_census<K: BlobReader>(
    alloc: Global,
    store: &mut K,
    size: Option<u64>,
) -> Result<Census, CountFault>
    ensures told { OfHeld K.BlobReader store.old store.new (λ held. IfOk result (IsCensus held size)) }
    ensures own { OfHeld K.BlobReader store.old store.new (λ _. IfErr result IsOfMap) }
    ensures rereads { Rereads K.BlobReader store.old result store.new }
    ensures cause { IfErr result (CountHasCause (K.failures store.old) (K.failures store.new)) }
{
    let extents = store.extents(alloc)?;
    let holdings = holdings_of(alloc, &extents, size)?;
    let mut counts = ElementCounts::none();
    count_blobs(alloc, store, &extents, &mut counts)?;
    Ok(Census { holdings, counts })
}

/// Writes what `status` writes, and then how many nodes, ways and relations the store holds, how many tags and links these
/// have, and the times of the oldest and the newest of them; or the line of a fault of the store. That of 66 `NotThisStore`
/// with the offset of a blob that has other than as many elements as its row says never comes over a held map. Answers the
/// exit status: 0 if everything was written, and 1 if there was a fault or the output failed.
pub fn status_with_counts<K: BlobReader, S: Sink>(
    alloc: Global,
    store: &mut K,
    size: Option<u64>,
    out: &mut S,
) -> u8
    ensures told { OfHeld K.BlobReader store.old store.new (λ held. TellsCounts size held (telling K.failures S.Sink store.old store.new out.old out.new result)) }
    ensures stays { Stays K.BlobReader store.old store.new }
    ensures bound { result ≤ 1 }
{
    match take_census(alloc, store, size) {
        Ok(census) => put_census(out, &census),
        Err(fault) => {
            put_count_fault(out, fault);
            1
        }
    }
}

/// What the stores of these parts hold together, and the counts of its elements.
fn take_census_of_parts<K: BlobReader + Drop, O: Openings<K>>(
    alloc: Global,
    openings: &mut O,
    parts: &[Part],
    size: Option<u64>,
) -> Result<Census, CountFault>
    ensures told { (maps : List HeldMap) (whole : HeldMap) → O.holds openings.old maps → O.is_honest openings.new → (read : AreRead maps false parts.now) → AreParts read.ordered whole
        → IfOk result (IsCensus whole size) }
    ensures own { (maps : List HeldMap) → O.holds openings.old maps → O.is_honest openings.new → AreRead maps false parts.now → IfErr result IsOfMap }
    ensures opens { OnlyOpens O.holds O.is_honest O.is_open openings.old result openings.new }
    ensures cause { IfErr result (CountHasCause (O.failures openings.old) (O.failures openings.new)) }
{
    let extents = extents_of_parts(alloc, parts)?;
    let holdings = holdings_of(alloc, &extents, size)?;
    let mut counts = ElementCounts::none();
    count_parts(alloc, openings, parts, &mut counts)?;
    Ok(Census { holdings, counts })
}

/// Writes what `status_with_counts` writes of one store that holds the blobs of all `count` stores, each once; or the line
/// of a fault: those of `status_parts`. Each store is opened once for its extents, and then once for each run of its blobs,
/// one after the other. Answers the exit status: 0 if everything was written, and 1 if there was a fault or the output
/// failed. What the stores hold stays.
pub fn status_parts_with_counts<K: BlobReader + Drop, O: Openings<K>, S: Sink>(
    alloc: Global,
    openings: &mut O,
    count: u64,
    size: Option<u64>,
    out: &mut S,
) -> u8
    ensures told { (maps : List HeldMap) → O.holds openings.old maps → O.is_honest openings.new → length maps ≡ count
        → TellsParts (TellsCounts size) maps (telling O.failures S.Sink openings.old openings.new out.old out.new result) }
    ensures keeps { KeepsMaps O.holds O.is_honest O.is_open openings.old openings.new }
    ensures bound { result ≤ 1 }
{
    let parts = match read_parts(alloc, openings, count, false) {
        Ok(parts) => parts,
        Err(fault) => {
            put_parts_fault(out, fault);
            return 1;
        }
    };
    match take_census_of_parts(alloc, openings, &parts, size) {
        Ok(census) => put_census(out, &census),
        Err(fault) => {
            put_count_fault(out, fault);
            1
        }
    }
}
