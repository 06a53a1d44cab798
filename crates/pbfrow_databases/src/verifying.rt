//! The command that compares a PBF file and a database, or several that hold parts of it: `verify`.

ghost use Rattle.std.specs.Prelude.{◌≡◌, ◌≤◌, ℕ, List, IfSome};
ghost use Rattle.osm_rows.specs.Calls.{OfHeld};
ghost use Rattle.osm_import.specs.Files.{IsFile};
ghost use Rattle.osm_import.specs.Stores.{Stays};
ghost use Rattle.osm_verify.specs.Laws.{IsExact};
ghost use Rattle.osm_databases.specs.Found.{AreReadFrom};
ghost use Rattle.pbfrow_commands.specs.Verifying.{ShowsFile, VerifiesInput};

use crate::named::verify_named;
use osm_databases::databases::{CheckedDatabases, open_checked};
use osm_parts::{InTurn, OpensNamed};
use osm_rows::{Audited, StoreFault};
use osm_tree_audits::{Stray, stray_row};
use osm_trees::CheckedStore;
use osm_value::Outlet;
use osm_verify::Depth;
use pbfrow_commands::metered::MeteredFile;
use pbfrow_commands::report::refuse_store;
use pbfrow_commands::verify::verify;
use pbfrow_reading::input::refuse_input;
use pbfrow_reading::metered::MeteredReader;
use pbfrow_terminal::ending::end;
use pbfrow_terminal::meter::Meter;
use pbfrow_terminal::output::standard_output;
use sqlite_trees::store::Store;
use std::alloc::Global;
use std::fs::File;
use std::io::{Read, Write};

/// Says on standard error where a database has a row that belongs to no blob, if it has one: the fault for rows too many
/// doesn't. If a read fails nothing is said, and a line that can't be written is left out.
fn tell_of_stray<S: Store>(rt: &HostRuntime, name: &str, trees: &mut S) {
    if let Ok(Some(stray)) = stray_row(rt.alloc(), trees) {
        let Stray { table, off } = stray;
        let _written = eprintln!(rt;
            "pbfrow: {name}: a row of {table} at offset {off} belongs to no blob"
        );
    }
}

/// Compares what a reader gives with what a store holds, and answers the store, which was only read, and the exit status, as
/// `verify` does. The meter is told of each byte and blob.
fn compare_one<K: Audited, R: Read + Drop, W: Write>(
    alloc: Global,
    mut store: K,
    reader: R,
    depth: Depth,
    meter: &Meter,
    out: &mut Outlet<W>,
) -> (K, u8)
    ensures verified { OfHeld K.BlobReader store result.0 (λ held. VerifiesInput depth held (R.remaining reader) (W.contents out.old.writer) (W.contents out.new.writer) out.new.has_failed (K.failures store) (K.failures result.0) result.1) }
    // At 0 the input is a file of good blobs, and the store holds what an import of it comes to.
    ensures exact { OfHeld K.BlobReader store result.0 (λ held. result.1 ≡ 0
        → IfSome (R.remaining reader) (λ bytes. (frames : List (List ℕ)) × IsFile bytes frames × IsExact depth held frames)) }
    // At 0 by elements, whatever rows the tables have had, they are those that an import of the input writes.
    ensures shown { K.is_honest result.0 → K.has_tables store → depth ≡ Depth.Elements → result.1 ≡ 0
        → IfSome (R.remaining reader) (λ bytes. (frames : List (List ℕ)) × IsFile bytes frames × ShowsFile (K.has_rows (K.trees store)) K.layout (K.trees store) frames) }
    ensures stays { Stays K.BlobReader store result.0 }
    ensures bound { result.1 ≤ 1 }
{
    let mut input = MeteredReader {
        reader,
        watcher: meter,
    };
    let status = verify(alloc, &mut store, &mut input, depth, meter, out);
    (store, status)
}

/// Compares what a reader gives with a database, each page and index of which is checked as it is opened, and answers the
/// exit status.
fn compare_in<D: CheckedDatabases, R: Read + Drop, W: Write>(
    rt: &HostRuntime,
    files: &D,
    reader: R,
    database: &str,
    depth: Depth,
    meter: &Meter,
    out: &mut Outlet<W>,
) -> u8
    ensures { result ≤ 1 }
{
    let store = match open_checked(rt, files, database) {
        Ok(store) => store,
        Err(fault) => return refuse_store(out, fault),
    };
    let (store, status) = compare_one(rt.alloc(), store, reader, depth, meter, out);
    let mut trees = store.into_store();
    if status != 0 && depth == Depth::Elements {
        meter.erase();
        tell_of_stray(rt, database, &mut trees);
    }
    status
}

/// Opens databases, each page and index of which is checked.
#[derive(Drop)]
struct CheckedParts<'a, D> {
    rt: &'a HostRuntime,
    files: &'a D,
}

impl<D: CheckedDatabases> OpensNamed<CheckedStore<D::Trees>> for CheckedParts<'_, D> {
    ghost lies = { λ parts name store. AreReadFrom D.Trees.Store (D.gives parts.files.now name) store.trees.store };

    fn open_named(&self, name: &str) -> Result<CheckedStore<D::Trees>, StoreFault> {
        open_checked(self.rt, self.files, name)
    }
}

/// Compares a file with several databases that hold parts of it, and answers the exit status.
fn compare_parts<D: CheckedDatabases, W: Write>(
    rt: &HostRuntime,
    files: &D,
    file: File,
    names: &[&str],
    depth: Depth,
    meter: &Meter,
    out: &mut Outlet<W>,
) -> u8
    ensures { result ≤ 1 }
{
    let mut parts = InTurn::<CheckedStore<D::Trees>, _>::new(CheckedParts { rt, files }, names);
    let mut file = MeteredFile {
        file,
        watcher: meter,
    };
    verify_named::<CheckedStore<D::Trees>, _, _, _>(rt.alloc(), &mut parts, &mut file, depth, out)
}

/// Compares a file with a database, or with several that hold parts of it, and answers the exit status. No database is made.
pub(crate) fn compare_all<D: CheckedDatabases>(
    rt: &HostRuntime,
    files: &D,
    file: &str,
    names: &[&str],
    depth: Depth,
) -> u8
    ensures { result ≤ 1 }
{
    let meter = Meter::new(rt, true);
    let mut out = match standard_output(rt, &meter, Some(0)) {
        Ok(out) => out,
        Err(status) => return status,
    };
    let status = match File::open(rt, file) {
        Ok(file) => {
            meter.measure(&file);
            if names.len() == 1 {
                compare_in(rt, files, file, names[0], depth, &meter, &mut out)
            } else {
                compare_parts(rt, files, file, names, depth, &meter, &mut out)
            }
        }
        Err(_) => refuse_input(&mut out),
    };
    end(&mut out, &meter, status)
}
