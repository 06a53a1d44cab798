//! The commands on several databases that hold parts of one file: `status` and `export`.

ghost use Rattle.std.specs.Prelude.{◌≤◌};
ghost use Rattle.osm_databases.specs.Found.{AreFound};

use crate::named::ask_named;
use crate::questions::goes_by_blobs;
use osm_databases::databases::{Databases, open_asked};
use osm_parts::{InTurn, OpensNamed};
use osm_rows::StoreFault;
use osm_trees::TreeStore;
use osm_value::Sink;
use pbfrow_commands::metered::MeteredStore;
use pbfrow_terminal::ending::end;
use pbfrow_terminal::meter::Meter;
use pbfrow_terminal::output::standard_output;
use pbfrow_words::Question;

/// A store that tells the meter of its blobs.
type MeteredPart<'a, D> = MeteredStore<'a, TreeStore<<D as Databases>::Trees>, Meter<'a>>;

/// Opens databases that are asked, each of which tells the meter of its blobs.
#[derive(Drop)]
struct Parts<'a, D> {
    rt: &'a HostRuntime,
    files: &'a D,
    meter: &'a Meter<'a>,
}

impl<'a, D: Databases> OpensNamed<MeteredPart<'a, D>> for Parts<'a, D> {
    ghost lies = { λ parts name store. AreFound D.Trees.Store (D.gives parts.files.now name) store.store.store };

    fn open_named(&self, name: &str) -> Result<MeteredPart<'a, D>, StoreFault> {
        let store = open_asked(self.rt, self.files, name)?;
        Ok(MeteredStore {
            store,
            watcher: self.meter,
        })
    }
}

/// Asks a question of several databases, each of which tells the meter of its blobs, and answers the exit status.
fn ask_from<D: Databases, S: Sink>(
    rt: &HostRuntime,
    files: &D,
    names: &[&str],
    question: Question,
    meter: &Meter,
    out: &mut S,
) -> u8
    ensures { result ≤ 1 }
{
    let mut parts = InTurn::<MeteredPart<D>, _>::new(Parts { rt, files, meter }, names);
    ask_named::<MeteredPart<D>, _, _>(rt.alloc(), &mut parts, question, out)
}

/// Asks a question of several databases, and answers the exit status. The meter is told of their blobs.
fn ask_metered<D: Databases>(
    rt: &HostRuntime,
    files: &D,
    names: &[&str],
    question: Question,
    meter: &Meter,
) -> u8
    ensures { result ≤ 1 }
{
    let mut out = match standard_output(rt, meter, None) {
        Ok(out) => out,
        Err(status) => return status,
    };
    let status = ask_from(rt, files, names, question, meter, &mut out);
    end(&mut out, meter, status)
}

/// Asks a question of several databases that hold parts of one file, and answers the exit status. None is made.
pub(crate) fn ask_parts<D: Databases>(
    rt: &HostRuntime,
    files: &D,
    names: &[&str],
    question: Question,
) -> u8
    ensures { result ≤ 1 }
{
    let meter = Meter::new(rt, goes_by_blobs(question));
    ask_metered(rt, files, names, question, &meter)
}
