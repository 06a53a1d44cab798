//! The command that copies several databases into one: `merge`.

ghost use Rattle.std.specs.Prelude.{◌≤◌};
ghost use Rattle.osm_databases.specs.Found.{AreFound};
ghost use Rattle.pbfrow_commands.specs.Merging.{NeverLoses};

use crate::named::merge_named;
use osm_databases::databases::{Databases, close, open_asked, open_or_make};
use osm_parts::{InTurn, OpensNamed};
use osm_rows::{BlobKeeper, StoreFault};
use osm_trees::TreeStore;
use osm_value::Outlet;
use pbfrow_commands::metered::MeteredStore;
use pbfrow_commands::report::refuse_store;
use pbfrow_reading::metered::MeteredOutput;
use pbfrow_terminal::meter::Meter;
use std::io;
use std::io::Write;

/// A store that tells the meter of its blobs.
type MeteredSource<'a, D> = MeteredStore<'a, TreeStore<<D as Databases>::Trees>, Meter<'a>>;

/// Opens databases, each of which tells the meter of its blobs.
#[derive(Drop)]
struct Sources<'a, D> {
    rt: &'a HostRuntime,
    files: &'a D,
    meter: &'a Meter<'a>,
}

impl<'a, D: Databases> OpensNamed<MeteredSource<'a, D>> for Sources<'a, D> {
    ghost lies = { λ sources name store. AreFound D.Trees.Store (D.gives sources.files.now name) store.store.store };

    fn open_named(&self, name: &str) -> Result<MeteredSource<'a, D>, StoreFault> {
        let store = open_asked(self.rt, self.files, name)?;
        Ok(MeteredStore {
            store,
            watcher: self.meter,
        })
    }
}

/// Copies what databases hold into a store, one after the other, up to a fault, and answers the exit status. Whatever they hold
/// and whatever the status, what the store held stays, also after a crash.
fn merge_from<D: Databases, T: BlobKeeper, W: Write>(
    rt: &HostRuntime,
    files: &D,
    names: &[&str],
    into: &mut T,
    meter: &Meter,
    out: &mut Outlet<W>,
) -> u8
    ensures stays { NeverLoses T.BlobReader into.old into.new }
    ensures bound { result ≤ 1 }
{
    let mut sources = InTurn::<MeteredSource<D>, _>::new(Sources { rt, files, meter }, names);
    merge_named::<MeteredSource<D>, _, _, _>(rt.alloc(), &mut sources, into, out)
}

/// `merge`: copies what databases hold, among those that are only asked, into one of those that are filled, which is made if it
/// is missing. Answers the exit status.
pub(crate) fn merge<A: Databases, D: Databases>(
    rt: &HostRuntime,
    asked: &A,
    filled: &D,
    into: &str,
    from: &[&str],
) -> u8
    ensures { result ≤ 1 }
{
    let meter = Meter::new(rt, true);
    let mut out = Outlet::new(MeteredOutput {
        writer: io::writer(rt),
        watcher: &meter,
    });
    let mut store = match open_or_make(rt, filled, into) {
        Ok(store) => store,
        Err(fault) => return refuse_store(&mut out, fault),
    };
    let status = merge_from(rt, asked, from, &mut store, &meter, &mut out);
    close(filled, store);
    meter.erase();
    status
}
