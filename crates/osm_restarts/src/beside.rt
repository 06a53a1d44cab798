//! That blobs can be put beside anything else that a database has, with any crash between.

ghost use Rattle.std.specs.Prelude.{◌≡◌, ◌<◌, ◌≤◌, ◌^◌, false, OnOk};
ghost use Rattle.pbf_frame.specs.declared.part.TheConstants.{MAX_OFFSET};
ghost use Rattle.sqlite_trees.specs.Objects.{catalog_tree};
ghost use Rattle.sqlite_trees.specs.View.{IsClean};
ghost use Rattle.sqlite_store.specs.FileStore.{view, recovers};
ghost use Rattle.osm_rows.specs.Rows.{placed};
ghost use Rattle.osm_openings.specs.Asked.{ListsAsAsked};
ghost use Rattle.osm_tree_writes.specs.Putting.{PutsBelow};
ghost use Rattle.osm_restarts.specs.Beside.{StandsBeside};
ghost use Rattle.osm_restarts.specs.Left.{MayBeOpened};

use crate::premise::what_is_left_may_be_opened;
use osm_rows::{Extent, StoreFault};
use osm_tree_writes::put_blob;
use osm_value::Element;
use sqlite_disk::Disk;
use sqlite_store::FileStore;
use std::alloc::Global;

/// A store as either opening gives it stands beside whatever else its database has.
pub fn an_opened_store_stands_beside_others<D: Disk>(store: &FileStore<D>)
    ensures { (view store.now).is_broken ≡ false → (view store.now).trees ≡ (view store.now).committed → ListsAsAsked ((view store.now).trees catalog_tree)
        → StandsBeside (view store.now) (recovers store.now) }
{
    let _store = store;
}

/// Puts a blob into a store that stands beside others, which it does again then, whatever is answered: so any number of blobs
/// can be put. Whatever a crash leaves of its files, during the put or after it, may be opened by the opening that looks at no
/// other page.
pub fn put_beside_others<D: Disk>(
    alloc: Global,
    store: &mut FileStore<D>,
    extent: &Extent,
    elements: &[Element],
) -> Result<(), StoreFault>
    requires bounds { (extent.now.off ≤ MAX_OFFSET) × (extent.now.fin ≤ MAX_OFFSET) × (extent.now.n < 2 ^ 63) }
    ensures added { IsClean (view store.new) → OnOk result (PutsBelow (view store.old).trees (view store.new).trees extent.now (placed extent.now.off 0 elements.now)) }
    ensures stands { StandsBeside (view store.old) (recovers store.old) → IsClean (view store.new) → StandsBeside (view store.new) (recovers store.new) }
    ensures opens { StandsBeside (view store.old) (recovers store.old) → MayBeOpened store.new }
{
    let answer = put_blob(alloc, store, extent, elements);
    what_is_left_may_be_opened(store);
    answer
}
