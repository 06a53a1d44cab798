//! The command that copies a database into another: `migrate`.

ghost use Rattle.std.specs.Prelude.{◌≡◌, ◌≤◌, Result};
ghost use Rattle.osm_value.specs.Sink.{Wrote};
ghost use Rattle.osm_import.specs.Stores.{Stays};
ghost use Rattle.osm_import.specs.declared.copy.CopyCounts.{CopyCounts as CopyCountsValue};
ghost use Rattle.osm_import.specs.declared.copy.CopyStop.{CopyStop as CopyStopValue};
ghost use Rattle.pbfrow_commands.specs.Copying.{CopiesStore, copy_status, outcome_line};

use osm_databases::databases::{Databases, close, open_or_make, source_of_blocks};
use osm_rows::{BlobKeeper, BlobReader};
use osm_value::{Outlet, Sink};
use pbfrow_commands::metered::MeteredStore;
use pbfrow_commands::migrate::migrate;
use pbfrow_commands::report::refuse_store;
use pbfrow_reading::metered::MeteredOutput;
use pbfrow_terminal::meter::Meter;
use std::alloc::Global;
use std::io;
use std::io::Write;

/// Copies what a store holds into another, and answers the first and the exit status, as `migrate` does.
fn copy_store<F: BlobReader, T: BlobKeeper, S: Sink>(
    alloc: Global,
    from: F,
    to: &mut T,
    meter: &Meter,
    out: &mut S,
) -> (F, u8)
    ensures copies { (outcome : Result CopyCountsValue CopyStopValue) × CopiesStore F.BlobReader T.BlobReader from result.0 to.old to.new outcome
        × Wrote (S.written out.old) (outcome_line outcome) (S.written out.new) (S.has_failed out.new) × (result.1 ≡ copy_status outcome (S.has_failed out.new)) }
    ensures source { Stays F.BlobReader from result.0 }
    ensures bound { result.1 ≤ 1 }
{
    let mut metered = MeteredStore {
        store: from,
        watcher: meter,
    };
    let status = migrate(alloc, &mut metered, to, out);
    let MeteredStore { store, watcher: _ } = metered;
    (store, status)
}

/// Copies what a store holds into a database, and answers the exit status.
fn copy_into<D: Databases, F: BlobReader + Drop, W: Write>(
    rt: &HostRuntime,
    files: &D,
    from: F,
    database: &str,
    meter: &Meter,
    out: &mut Outlet<W>,
) -> u8
    ensures { result ≤ 1 }
{
    let mut store = match open_or_make(rt, files, database) {
        Ok(store) => store,
        Err(fault) => return refuse_store(out, fault),
    };
    let (_from, status) = copy_store(rt.alloc(), from, &mut store, meter, out);
    close(files, store);
    status
}

/// `migrate`: copies what a database that keeps elements as blocks holds, among those that are only asked, into one that keeps
/// them as rows, among those that are filled. Answers the exit status. Unless the first has a store of blocks, the other isn't
/// touched.
pub(crate) fn copy<A: Databases, D: Databases>(
    rt: &HostRuntime,
    asked: &A,
    filled: &D,
    old: &str,
    new: &str,
) -> u8
    ensures { result ≤ 1 }
{
    let meter = Meter::new(rt, true);
    let mut out = Outlet::new(MeteredOutput {
        writer: io::writer(rt),
        watcher: &meter,
    });
    let status = match source_of_blocks(rt, asked, old) {
        Ok(store) => copy_into(rt, filled, store, new, &meter, &mut out),
        Err(fault) => refuse_store(&mut out, fault),
    };
    meter.erase();
    status
}
