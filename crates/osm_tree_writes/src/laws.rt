//! What holds of the trees of a store.

ghost use Rattle.std.specs.Prelude.{◌≡◌, [], ◌∷◌, map};
ghost use Rattle.sqlite_trees.specs.Tree.{Trees};
ghost use Rattle.sqlite_schema.specs.Rules.{Obeys};
ghost use Rattle.osm_rows.specs.declared.schema.layout.Layout.TheVariants.{Tables};
ghost use Rattle.osm_rows.specs.Schema.Tables.{table_schema};
ghost use Rattle.osm_rows.specs.Held.{Blob, HeldMap};
ghost use Rattle.osm_rows.specs.Keeping.{extent_of, extents_of, with_blob};
ghost use Rattle.osm_rows.specs.LayoutHolding.{HoldElements};
ghost use Rattle.osm_rows.specs.Rows.{extent_row, placed, placed_in, version_row};
ghost use Rattle.osm_tree_writes.specs.Putting.{AreTables, CanTake, IsIndexedStore, PutsBelow, TreesHold};
ghost use Rattle.osm_rows.specs.declared.trees.TheConstants.{BLOBS, META};

/// Trees that have the rows of a map, and in each index an entry for each row, obey the schema of a store: each value has its
/// column's type, none is missing, and no key comes twice.
pub fn rows_of_a_map_obey_the_schema()
    ensures { (held : HeldMap) (db : Trees) → db META ≡ version_row Tables ∷ [] → db BLOBS ≡ map extent_row (extents_of held) → HoldElements Tables (placed_in held) db
        → AreTables db → IsIndexedStore db → Obeys table_schema db }
{}

/// Trees that hold a map, and to which the rows of a blob are added that the map can take, hold the map with the blob, and
/// obey the schema of a store, whatever else the database has beside them.
pub fn a_put_adds_the_blob()
    ensures { (held : HeldMap) (old new : Trees) (off : _) (blob : Blob) → CanTake held off blob
        → TreesHold Tables held old → PutsBelow old new (extent_of (off, blob)) (placed off 0 blob.elements) → TreesHold Tables (with_blob held off blob) new }
{}
