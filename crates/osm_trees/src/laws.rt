//! What holds of a connection, and so of its trees.

ghost use Rattle.std.specs.Prelude.{◌≡◌, false};
ghost use Rattle.sqlite_trees.specs.Objects.{catalog_tree};
ghost use Rattle.sqlite_catalog.specs.Listing.{Lists};
ghost use Rattle.sqlite.specs.Held.{state};
ghost use Rattle.osm_rows.specs.declared.schema.layout.Layout.{Layout};
ghost use Rattle.osm_rows.specs.declared.schema.layout.Layout.TheVariants.{Tables};
ghost use Rattle.osm_rows.specs.Schema.Tables.{table_schema};
ghost use Rattle.osm_rows.specs.Held.{HeldMap};
ghost use Rattle.osm_rows.specs.LayoutHolding.{Holds};
ghost use Rattle.osm_trees.specs.Below.{HoldsBelow, WhereOpenedOver};

use crate::tree_store::TreeStore;
use osm_rows::BlobReader;
use osm_rows::laws::holds_again;
use sqlite::{Alter, Connection, MemStore};
use sqlite_trees::store::Store;

/// What a connection holds, the trees of its store hold.
pub fn holds_below<S: Alter>(connection: &Connection<S>)
    ensures { (layout : Layout) (held : HeldMap) → Holds layout (state S.Store connection.now) held → (S.Store.view connection.now.store).is_broken ≡ false
        → HoldsBelow layout (S.Store.view connection.now.store) held }
{
    let _connection = connection;
}

/// A crash leaves of trees that hold a map what these list, whatever the user has beside a store's own.
pub fn a_crash_leaves_the_list<S: Store>(store: &TreeStore<S>)
    ensures { (held : HeldMap) → ⟦<TreeStore<S> as BlobReader>⟧.holds store.now held → ⟦<TreeStore<S> as BlobReader>⟧.lists store.now ((S.Store.view store.now.store).trees catalog_tree) }
{
    let _store = store;
}

/// A connection that was opened over the trees that a tree store has committed holds what the tree store holds, where its
/// list of objects is that of a store alone.
pub fn a_connection_holds_the_same<T: Store, S: Alter>(
    before: &TreeStore<T>,
    connection: &Connection<S>,
)
    ensures { (held : HeldMap) → HoldsBelow Tables (T.Store.view before.now.store) held → WhereOpenedOver (T.Store.view before.now.store).committed (state S.Store connection.now)
        (Lists ((T.Store.view before.now.store).committed catalog_tree) table_schema → Holds Tables (state S.Store connection.now) held) }
{
    let _before = before;
    holds_again(connection);
}

/// A store in memory stays usable: its trees are what was written, and it needn't be opened again after any answer. So what
/// `BlobReader` and `BlobKeeper` promise of a store that is usable holds of it whatever is answered.
pub fn memory_goes_on(store: &TreeStore<MemStore>)
    ensures { ⟦<TreeStore<MemStore> as BlobReader>⟧.is_honest store.now × ⟦<TreeStore<MemStore> as BlobReader>⟧.is_open store.now }
{
    let _asked = store;
}
