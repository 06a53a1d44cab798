//! The command `migrate`: what one store holds is copied into another.

ghost use Rattle.std.specs.Prelude.{◌≡◌, ◌≤◌, Result};
ghost use Rattle.osm_value.specs.Sink.{Wrote};
ghost use Rattle.osm_value.specs.Printing.{Prints};
ghost use Rattle.osm_rows.specs.Calls.{OfHeld};
ghost use Rattle.osm_rows.specs.Held.{HeldMap};
ghost use Rattle.osm_import.specs.Stores.{HoldsStill, Keeps, Stays};
ghost use Rattle.osm_import.specs.declared.copy.CopyCounts.{CopyCounts as CopyCountsValue};
ghost use Rattle.osm_import.specs.declared.copy.CopyStop.{CopyStop as CopyStopValue};
ghost use Rattle.pbfrow_commands.specs.Copying.{CopiesStore, copied_line, outcome_line, copy_status};

use osm_import::{CopyCounts, CopyStop, copy_held};
use osm_rows::{BlobKeeper, BlobReader};
use osm_value::{Sink, put};
use pbfrow_reading::check::put_total;
use pbfrow_reading::report::put_fault_at;
use std::alloc::Global;

/// Writes `copied COPIED held HELD`.
pub(crate) fn put_copied<S: Sink>(out: &mut S, counts: CopyCounts)
    ensures { Prints S.Sink out.old out.new (copied_line counts) }
{
    put_total(out, b"copied ", counts.copied);
    put_total(out, b" held ", counts.held);
    put(out, b"\n");
}

/// Writes the line of what a copy came to, and answers the exit status.
pub(crate) fn put_outcome<S: Sink>(out: &mut S, outcome: Result<CopyCounts, CopyStop>) -> u8
    ensures line { Prints S.Sink out.old out.new (outcome_line outcome) }
    ensures status { result ≡ copy_status outcome (S.has_failed out.new) }
    ensures bound { result ≤ 1 }
{
    match outcome {
        Ok(counts) => {
            put_copied(out, counts);
            if out.failed() { 1 } else { 0 }
        }
        Err(stop) => {
            put_fault_at(out, stop.fault.number(), stop.fault.name(), stop.off);
            1
        }
    }
}

/// Copies the blobs that one store holds into another, by offset, and writes how many were added and how many were held
/// already, or the line of the fault at which the copy stopped, with the offset of the blob. What the other store held
/// stays, and what `from` holds. Answers the exit status: 0 if all were copied and the line was written, else 1. A copy
/// that stopped can be begun again.
pub fn migrate<F: BlobReader, T: BlobKeeper, S: Sink>(
    alloc: Global,
    from: &mut F,
    to: &mut T,
    out: &mut S,
) -> u8
    ensures copies { (outcome : Result CopyCountsValue CopyStopValue) × CopiesStore F.BlobReader T.BlobReader from.old from.new to.old to.new outcome
        × Wrote (S.written out.old) (outcome_line outcome) (S.written out.new) (S.has_failed out.new) × (result ≡ copy_status outcome (S.has_failed out.new)) }

    // What the other store held stays whatever the first one holds and gives, also after a crash.
    ensures stays { OfHeld T.BlobReader to.old to.new (λ held. T.is_open to.new → HoldsStill T.BlobReader to.new held) }
    ensures left { OfHeld T.BlobReader to.old to.new (λ held. (left : HeldMap) → T.leaves to.new left → Keeps held left) }
    ensures source { Stays F.BlobReader from.old from.new }
    ensures bound { result ≤ 1 }
{
    let outcome = copy_held(alloc, from, to);
    put_outcome(out, outcome)
}
