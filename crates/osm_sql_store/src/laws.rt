//! What holds of stores over a connection.

ghost use Rattle.std.specs.Prelude.{◌≡◌, false, IsTrue};
ghost use Rattle.sqlite.specs.Held.{state};
ghost use Rattle.sqlite.specs.State.{HasCleanDisk};
ghost use Rattle.sqlite.specs.Steps.{over_memory};
ghost use Rattle.osm_sql_store.specs.Left.{AdoptsLeft, HoldsLeft, WhereLeft};

use crate::blob_store::BlobStore;
use crate::layout::SqlLayout;
use osm_rows::StoreFault;
use sqlite::{Alter, Connection, MemStore};

/// A connection that was opened over what a crash left of a store holds a map that the crash could leave.
pub fn holds_what_was_left<S: Alter, L: SqlLayout>(
    before: &BlobStore<S, L>,
    connection: &Connection<S>,
)
    ensures { WhereLeft L.LAYOUT (state S.Store before.now.connection) (state S.Store connection.now) (HoldsLeft L.LAYOUT (state S.Store before.now.connection) (state S.Store connection.now)) }
{
    let _stopped = before;
    let _opened = connection;
}

/// A store that is adopted over what a crash left of another holds a map that the crash could leave, and it isn't refused
/// as another store.
pub fn adopted_over_what_was_left<S: Alter, L: SqlLayout>(
    before: &BlobStore<S, L>,
    connection: Connection<S>,
) -> Result<BlobStore<S, L>, (StoreFault, Connection<S>)>
    requires { (state S.Store connection).in_transaction ≡ false }
    ensures { WhereLeft L.LAYOUT (state S.Store before.now.connection) (state S.Store connection) (AdoptsLeft L.LAYOUT S.Store (state S.Store before.now.connection) result) }
{
    holds_what_was_left(before, &connection);
    BlobStore::adopt(connection)
}

/// A store in memory stays usable: its disk returns what was written, and it is still open after any answer.
pub fn memory_goes_on<L: SqlLayout>(store: &BlobStore<MemStore, L>)
    ensures { HasCleanDisk (state over_memory store.now.connection) × IsTrue (state over_memory store.now.connection).is_open }
{
    let _asked = store;
}
