//! The command `status`: the byte ranges that a store is missing.

ghost use Rattle.std.specs.Prelude.{◌≡◌, ◌≤◌, ℕ, Option, IfOk, IfErr};
ghost use Rattle.osm_value.specs.Printing.{Prints};
ghost use Rattle.osm_rows.specs.Held.{HeldMap, IsApart};
ghost use Rattle.osm_rows.specs.Calls.{OfHeld};
ghost use Rattle.osm_rows.specs.Keeping.{IsForeign, extents_of};
ghost use Rattle.osm_import.specs.Step.{HasCause};
ghost use Rattle.osm_import.specs.Stores.{Rereads, Stays};
ghost use Rattle.pbfrow_commands.specs.CommandLines.{counts_line, gap_line, gap_lines};
ghost use Rattle.pbfrow_commands.specs.Status.{IsSurvey, Tells, TellsStatus, status_text};
ghost use Rattle.pbfrow_commands.specs.Telling.{telling};

use crate::report::put_store_fault;
use osm_import::{gaps_between, greatest_end};
use osm_rows::{BlobReader, Extent, StoreFault};
use osm_value::{Sink, put, put_digits};
use pbfrow_reading::check::put_total;
use std::alloc::{AllocError, Global};

/// How many blobs a store holds, the greatest end of one, and the ranges that none covers.
#[derive(Debug, Drop)]
pub(crate) struct Holdings {
    pub(crate) blobs: u64,
    pub(crate) end: u64,
    pub(crate) gaps: Vec<(u64, u64)>,
}

/// What a map holds that has these extents, and the gaps up to the size, or up to the greatest end if no size is given.
pub(crate) fn holdings_of(
    alloc: Global,
    extents: &[Extent],
    size: Option<u64>,
) -> Result<Holdings, AllocError>
    ensures { (held : HeldMap) → IsApart held → extents.now ≡ extents_of held → IfOk result (IsSurvey held size) }
{
    let end = greatest_end(extents);
    let gaps = gaps_between(alloc, extents, size.unwrap_or(end))?;
    Ok(Holdings {
        blobs: extents.len() as u64,
        end,
        gaps,
    })
}

/// What a store holds.
fn survey<K: BlobReader>(
    alloc: Global,
    store: &mut K,
    size: Option<u64>,
) -> Result<Holdings, StoreFault>
    ensures told { OfHeld K.BlobReader store.old store.new (λ held. IfOk result (IsSurvey held size)) }
    ensures rereads { Rereads K.BlobReader store.old result store.new }
    ensures own { OfHeld K.BlobReader store.old store.new (λ _. IfErr result (λ fault. ¬ (IsForeign fault))) }
    ensures cause { IfErr result (HasCause (K.failures store.old) (K.failures store.new)) }
{
    let extents = store.extents(alloc)?;
    let holdings = holdings_of(alloc, &extents, size)?;
    Ok(holdings)
}

/// Writes `gap FROM TO`.
fn put_gap<S: Sink>(out: &mut S, from: u64, to: u64)
    ensures { Prints S.Sink out.old out.new (gap_line (from, to)) }
{
    put(out, b"gap ");
    put_digits(out, from);
    put(out, b" ");
    put_digits(out, to);
    put(out, b"\n");
}

/// Writes a line for each gap.
pub(crate) fn put_gaps<S: Sink>(out: &mut S, gaps: &[(u64, u64)])
    ensures { Prints S.Sink out.old out.new (gap_lines gaps.now) }
{
    for (from, to) in gaps {
        put_gap(out, *from, *to);
    }
}

/// Writes `blobs BLOBS end END gaps GAPS`.
pub(crate) fn put_counts<S: Sink>(out: &mut S, blobs: u64, end: u64, gaps: u64)
    ensures { Prints S.Sink out.old out.new (counts_line blobs end gaps) }
{
    put_total(out, b"blobs ", blobs);
    put_total(out, b" end ", end);
    put_total(out, b" gaps ", gaps);
    put(out, b"\n");
}

/// Writes the lines of what is held, and answers the exit status: 0 if they were written, else 1.
pub(crate) fn put_holdings<S: Sink>(out: &mut S, holdings: &Holdings) -> u8
    ensures told { (held : HeldMap) (size : Option ℕ) → IsSurvey held size holdings.now
        → Tells (status_text held holdings.now.gaps.items) (S.written out.old) (S.written out.new) (S.has_failed out.new) result }
    ensures bound { result ≤ 1 }
{
    put_gaps(out, &holdings.gaps);
    put_counts(
        out,
        holdings.blobs,
        holdings.end,
        holdings.gaps.len() as u64,
    );
    if out.failed() { 1 } else { 0 }
}

/// Writes a line for each range that no blob covers, up to the size in bytes or else the greatest held end, and finally
/// the counts; or the line of a fault of the store, which over a held map is never 66. Answers the exit status: 0 if everything was written, and 1 if there
/// was a fault or the output failed.
pub fn status<K: BlobReader, S: Sink>(
    alloc: Global,
    store: &mut K,
    size: Option<u64>,
    out: &mut S,
) -> u8
    ensures told { OfHeld K.BlobReader store.old store.new (λ held. TellsStatus size held (telling K.failures S.Sink store.old store.new out.old out.new result)) }
    ensures stays { Stays K.BlobReader store.old store.new }
    ensures bound { result ≤ 1 }
{
    match survey(alloc, store, size) {
        Ok(holdings) => put_holdings(out, &holdings),
        Err(fault) => {
            put_store_fault(out, fault);
            1
        }
    }
}
