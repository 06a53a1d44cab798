//! The command `merge`: what several stores hold is copied into one, store after store.

ghost use Rattle.std.specs.Prelude.{◌≡◌, ◌≤◌, [], ◌∷◌, ◌++◌, List, Ok, length};
ghost use Rattle.osm_value.specs.Printing.{Prints};
ghost use Rattle.osm_rows.specs.Held.{HeldMap};
ghost use Rattle.osm_import.specs.Stores.{Rereads};
ghost use Rattle.osm_import.specs.declared.copy.CopyCounts.{CopyCounts as CopyCountsValue};
ghost use Rattle.osm_parts.specs.Opening.{KeepsMaps, OnlyOpens};
ghost use Rattle.pbfrow_commands.specs.Copying.{CopiesStore, outcome_line, total_line, copy_status};
ghost use Rattle.pbfrow_commands.specs.Merging.{HasMerged, IsMergeOf, IsTotal, MergeHasCause, MergesAt, MergesStores, NeverLoses, TakesOf, merged_of, store_line, store_lines, total_of};

use crate::migrate::{put_copied, put_outcome};
use crate::report::put_store_fault;
use osm_import::{CopyCounts, CopyStop, copy_held};
use osm_parts::Openings;
use osm_rows::{BlobKeeper, BlobReader, StoreFault};
use osm_value::{Sink, put};
use std::alloc::Global;

/// Why a merge ends before its last store.
#[derive(Clone, Copy)]
enum MergeStop {
    /// A store couldn't be opened.
    Unopened(StoreFault),
    /// Its copy stopped.
    Stopped(CopyStop),
}

/// Copies the blobs that one store of a merge holds into the other, by offset, and writes how many were added and how
/// many were held already, or the line of the fault at which the copy stopped, with the offset of the blob. What the
/// other store held stays, and what `from` holds. Stores that hold blobs of one file may come in any order, and any blob
/// in several of them; a merge that stopped can be begun again.
pub fn merge_one<F: BlobReader, T: BlobKeeper, S: Sink>(
    alloc: Global,
    from: &mut F,
    into: &mut T,
    out: &mut S,
) -> Result<CopyCounts, CopyStop>
    ensures copies { CopiesStore F.BlobReader T.BlobReader from.old from.new into.old into.new result }
    ensures line { Prints S.Sink out.old out.new (outcome_line result) }
    ensures source { Rereads F.BlobReader from.old result from.new }
    ensures honest { T.is_honest into.new → T.is_honest into.old }
    ensures open_if { T.is_open into.new → T.is_open into.old }
{
    let outcome = copy_held(alloc, from, into);
    // the exit status is that of the whole merge
    let _status = put_outcome(out, outcome);
    outcome
}

/// Ends a merge: writes how many blobs were added and how many were held already, of all stores together, and answers
/// the exit status, 0 if the line was written, else 1.
pub fn end_merge<S: Sink>(out: &mut S, counts: CopyCounts) -> u8
    ensures line { Prints S.Sink out.old out.new (total_line counts) }
    ensures status { result ≡ copy_status (Ok counts) (S.has_failed out.new) }
    ensures bound { result ≤ 1 }
{
    put(out, b"blobs ");
    put_copied(out, counts);
    if out.failed() { 1 } else { 0 }
}

/// What the copy of one store is to the merge.
fn merge_outcome(outcome: Result<CopyCounts, CopyStop>) -> Result<CopyCounts, MergeStop>
    ensures { result ≡ merged_of outcome }
{
    match outcome {
        Ok(counts) => Ok(counts),
        Err(stop) => Err(MergeStop::Stopped(stop)),
    }
}

/// Copies what the store at a place holds, which is opened and closed again, and writes its line or that of a fault.
fn merge_at<F: BlobReader + Drop, O: Openings<F>, T: BlobKeeper, S: Sink>(
    alloc: Global,
    openings: &mut O,
    place: u64,
    into: &mut T,
    out: &mut S,
) -> Result<CopyCounts, MergeStop>
    ensures merges { MergesAt O.holds O.is_honest T.BlobReader openings.old openings.new place into.old into.new result }
    ensures line { Prints S.Sink out.old out.new (store_line result) }
    ensures opens { OnlyOpens O.holds O.is_honest O.is_open openings.old result openings.new }
    ensures cause { MergeHasCause (O.failures openings.old) (O.failures openings.new) (T.failures into.old) (T.failures into.new) result }
    ensures honest { T.is_honest into.new → T.is_honest into.old }
    ensures open_if { T.is_open into.new → T.is_open into.old }
    ensures counted { (O.failures openings.old ≤ O.failures openings.new) × (T.failures into.old ≤ T.failures into.new) }
{
    let mut store = match openings.open(place) {
        Ok(store) => store,
        Err(fault) => {
            put_store_fault(out, fault);
            return Err(MergeStop::Unopened(fault));
        }
    };
    let outcome = merge_one(alloc, &mut store, into, out);
    openings.close(store);
    merge_outcome(outcome)
}

/// The counts of more stores together. A sum stops at 2^64 - 1.
fn sum_of(total: CopyCounts, counts: CopyCounts) -> CopyCounts
    ensures { (so_far : List CopyCountsValue) → total ≡ total_of so_far → result ≡ total_of (so_far ++ counts ∷ []) }
{
    CopyCounts {
        copied: total.copied.saturating_add(counts.copied),
        held: total.held.saturating_add(counts.held),
    }
}

/// Copies what the stores at `count` places hold, one after the other and up to a fault, each with its line. Answers the
/// counts of all together.
fn merge_each<F: BlobReader + Drop, O: Openings<F>, T: BlobKeeper, S: Sink>(
    alloc: Global,
    openings: &mut O,
    count: u64,
    into: &mut T,
    out: &mut S,
) -> Result<CopyCounts, MergeStop>
    ensures merges { (counts : List CopyCountsValue) × MergesStores O.holds O.is_honest O.failures T.BlobReader openings.old openings.new count into.old into.new counts result
        × IsTotal counts result × Prints S.Sink out.old out.new (store_lines counts result) }
    ensures keeps { KeepsMaps O.holds O.is_honest O.is_open openings.old openings.new }
    ensures honest { T.is_honest into.new → T.is_honest into.old }
    ensures open_if { T.is_open into.new → T.is_open into.old }
{
    let mut total = CopyCounts { copied: 0, held: 0 };
    for place in 0..count {
        let counts = merge_at(alloc, openings, place, into, out)?;
        total = sum_of(total, counts);
    }
    Ok(total)
}

/// Copies the blobs that the stores at `count` places hold into another, by offset, each store opened, copied and closed in
/// turn. For each it writes how many blobs were added and how many were held already, and at the end how many of all
/// together. It ends early at a store that can't be opened, with the line of that fault, or at a copy that stops, with that
/// of `merge_one`. Answers the exit status: 0 if all were copied and the lines were written, else 1.
///
/// The stores may come in any order, and any blob in several of them. What each holds stays, and what the other held before,
/// whatever the status and whatever rows the stores have; a merge that ended early can be begun again.
pub fn merge_all<F: BlobReader + Drop, O: Openings<F>, T: BlobKeeper, S: Sink>(
    alloc: Global,
    openings: &mut O,
    count: u64,
    into: &mut T,
    out: &mut S,
) -> u8
    // At 0 the other store holds what it held and all blobs of all stores, and nothing else.
    ensures union { (maps : List HeldMap) (held : HeldMap) → O.holds openings.old maps → O.is_honest openings.new → length maps ≡ count → T.holds into.old held → T.is_honest into.new
        → result ≡ 0 → (after : HeldMap) × IsMergeOf maps held after × T.holds into.new after }

    // Whatever the status, what it held stays, and what is new is of these stores.
    ensures kept { (maps : List HeldMap) (held : HeldMap) → O.holds openings.old maps → O.is_honest openings.new → length maps ≡ count → T.holds into.old held → T.is_honest into.new
        → T.is_open into.new → (after : HeldMap) × TakesOf maps held after × T.holds into.new after }

    // What it held stays whatever these stores hold and give, also after a crash.
    ensures stays { NeverLoses T.BlobReader into.old into.new }

    // What it came to, and each line.
    ensures merges { HasMerged O.holds O.is_honest O.failures T.BlobReader S.Sink openings.old openings.new count into.old into.new out.old out.new result }

    // What the stores hold stays.
    ensures keeps { KeepsMaps O.holds O.is_honest O.is_open openings.old openings.new }
    ensures bound { result ≤ 1 }
{
    match merge_each(alloc, openings, count, into, out) {
        Ok(total) => end_merge(out, total),
        Err(_) => 1,
    }
}
