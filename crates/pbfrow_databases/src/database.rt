//! The commands on one database: they open it and write the answer to standard output.

ghost use Rattle.std.specs.Prelude.{◌<◌, ◌≤◌, IfSome};

use crate::questions::{Query, ask_one, goes_by_blobs};
use crate::starting::most_bytes;
use osm_databases::databases::{Databases, close, open_asked, open_or_make};
use osm_import::{Stop, Told};
use osm_value::Outlet;
use pbf_frame::MAX_OFFSET;
use pbfrow_commands::import::{Start, import, seek_start};
use pbfrow_commands::metered::{MeteredStore, MeteredTeller};
use pbfrow_commands::report::refuse_store;
use pbfrow_reading::metered::{MeteredOutput, MeteredReader};
use pbfrow_reading::report::{put_fault_at, refuse_memory};
use pbfrow_terminal::ending::{FAULTY, end};
use pbfrow_terminal::meter::Meter;
use pbfrow_terminal::output::standard_output;
use std::fs::File;
use std::io;
use std::io::LineWriter;

/// What of a file an import reads.
#[derive(Clone, Copy)]
pub(crate) struct Part {
    pub start: Start,
    /// The offset at which the input has to end, above that of the start and at most 2^62.
    pub to: Option<u64>,
}

/// `import`: imports a file, or a part of one, into a database, and answers the exit status. Of a file that can seek nothing but the
/// last byte before the start is read and dropped. If the file can't be opened, no database is made.
pub(crate) fn fill<D: Databases>(
    rt: &HostRuntime,
    files: &D,
    file: &str,
    database: &str,
    part: Part,
    told: Told,
) -> u8
    requires begins { part.start.at ≤ MAX_OFFSET }
    requires drops { part.start.dropped ≤ part.start.at }
    requires ends { IfSome part.to (λ n. (part.start.at < n) × (n ≤ MAX_OFFSET)) }
    ensures { result ≤ 1 }
{
    let meter = Meter::new(rt, true);
    let lines = MeteredOutput {
        writer: io::writer(rt),
        watcher: &meter,
    };
    // each line goes out before more is read
    let Ok(lines) = LineWriter::new(rt.alloc(), lines) else {
        return refuse_memory(&mut Outlet::new(io::writer(rt)), Some(part.start.at));
    };
    let mut out = Outlet::new(lines);
    let Ok(mut input) = File::open(rt, file) else {
        let fault = Stop::ReadFailed;
        put_fault_at(&mut out, fault.number(), fault.name(), part.start.at);
        return FAULTY;
    };
    let all = part.start.dropped;
    let start = seek_start(&mut input, part.start);
    meter.measure_part(&input, all - start.dropped, most_bytes(start, part.to));
    let reader = MeteredReader {
        reader: input,
        watcher: &meter,
    };
    let teller = MeteredTeller {
        teller: told,
        watcher: &meter,
    };
    let mut store = match open_or_make(rt, files, database) {
        Ok(store) => store,
        Err(fault) => return refuse_store(&mut out, fault),
    };
    let status = import(
        rt.alloc(),
        reader,
        &mut store,
        start,
        part.to,
        &teller,
        &mut out,
    );
    close(files, store);
    meter.erase();
    status
}

/// Asks a database, and answers the exit status. If there is no database, none is made.
pub(crate) fn ask<D: Databases>(rt: &HostRuntime, files: &D, database: &str, query: Query) -> u8
    ensures { result ≤ 1 }
{
    let by_blobs = match query {
        Query::Whole(question) => goes_by_blobs(question),
        Query::Element(..) => false,
    };
    let meter = Meter::new(rt, by_blobs);
    let mut out = match standard_output(rt, &meter, None) {
        Ok(out) => out,
        Err(status) => return status,
    };
    let status = match open_asked(rt, files, database) {
        Ok(store) if by_blobs => {
            let mut store = MeteredStore {
                store,
                watcher: &meter,
            };
            ask_one(rt.alloc(), &mut store, query, &mut out)
        }
        Ok(mut store) => ask_one(rt.alloc(), &mut store, query, &mut out),
        Err(fault) => refuse_store(&mut out, fault),
    };
    end(&mut out, &meter, status)
}
