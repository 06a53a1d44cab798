//! What holds of the trees of a store.

ghost use Rattle.std.specs.Prelude.{◌≡◌, ℕ, ◌∷◌, []};
ghost use Rattle.sqlite_trees.specs.declared.store.Shape.TheVariants.{Table};
ghost use Rattle.sqlite_trees.specs.Tree.{Trees};
ghost use Rattle.sqlite_trees.specs.View.{IsShaped};
ghost use Rattle.osm_rows.specs.declared.schema.layout.Layout.TheVariants.{Tables};
ghost use Rattle.osm_rows.specs.Audit.{ShowsBlob, ShowsCounts, counts_of, elements_held};
ghost use Rattle.osm_rows.specs.Held.{Blob, HeldMap};
ghost use Rattle.osm_rows.specs.Keeping.{extent_of};
ghost use Rattle.osm_rows.specs.Rows.{version_row};
ghost use Rattle.osm_tree_writes.specs.Putting.{AreTables, IsIndexedStore};
ghost use Rattle.osm_tree_audits.specs.Auditing.{KeepsBlob, KeepsBlobs, KeepsMap};
ghost use Rattle.osm_rows.specs.declared.trees.TheConstants.{BLOBS, META};

/// Of rows at an offset that are kept as a put of a blob writes them, queries see the rows of this blob, and no others.
pub fn a_kept_blob_is_shown()
    ensures { (db : Trees) (off : ℕ) (blob : Blob) → KeepsBlob db (extent_of (off, blob)) blob.elements → ShowsBlob Tables db off blob }
{}

/// Where the rows at the offset of each blob of a map are kept, the tables have no more rows, and each index has one entry
/// for each row, the trees have the rows of the map alone and obey the schema of a store: each value has its column's type,
/// none is missing, and no key comes twice.
pub fn checked_trees_have_the_rows_of_the_map()
    ensures { (db : Trees) (held : HeldMap) → KeepsBlobs db held → ShowsCounts Tables db (counts_of (elements_held held))
        → db META ≡ version_row Tables ∷ [] → IsShaped Table (db BLOBS) → AreTables db → IsIndexedStore db → KeepsMap db held }
{}
