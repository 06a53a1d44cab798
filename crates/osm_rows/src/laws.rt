//! What holds of the definitions, over all maps and tables.

ghost use Rattle.std.specs.Prelude.{◌≡◌, ℕ, pos, negsuc, [], ◌∷◌, map, codes};
ghost use Rattle.std.specs.FinMap.{entries};
ghost use Rattle.std.specs.List.{AllByRecursion};
ghost use Rattle.sqlite.specs.declared.types.Value.TheVariants.{Int, Text as Words};
ghost use Rattle.sqlite.specs.Held.{state};
ghost use Rattle.sqlite.specs.State.{HasCleanDisk, IsLive, Opens};
ghost use Rattle.sqlite.specs.Tree.{Trees};
ghost use Rattle.osm_rows.specs.RowExamples.{a_node, a_way, a_relation, no_values, node_of_a_way, row_of_a_node};
ghost use Rattle.osm_rows.specs.TableRows.{element_rows, tag_rows, link_rows};
ghost use Rattle.osm_rows.specs.Audit.{ShowsBlob, ShowsCounts, ShowsMap, counts_of};
ghost use Rattle.osm_rows.specs.Held.{Blob, HeldMap};
ghost use Rattle.osm_rows.specs.LayoutHolding.{Holds, IsKept, TablesHold};

use crate::schema::Layout;
use sqlite::{Alter, Connection};

/// The rows of a map are those of no other map.
pub fn rows_of_one_map()
    ensures { (layout : Layout) (one other : HeldMap) (db : Trees) → IsKept layout one → IsKept layout other → TablesHold layout one db → TablesHold layout other db → one ≡ other }
{}

/// Where the rows at each offset of a map are those of its blob there, and no table has more rows than all these, queries
/// see the rows of the map and no others, whatever rows the tables had.
pub fn rows_of_all_blobs()
    ensures { (layout : Layout) (db : Trees) (held : HeldMap) → AllByRecursion (λ (entry : ℕ × Blob). ShowsBlob layout db entry.0 entry.1) (entries held)
        → ShowsCounts layout db (counts_of (map (λ (entry : ℕ × Blob). entry.1.elements) (entries held))) → ShowsMap layout db held }
{}

/// The rows of two nodes: their places, and nothing else.
pub fn rows_of_nodes()
    ensures { (off : ℕ) → element_rows ((off, 0, a_node (pos 1) (pos 1000) (negsuc 99)) ∷ (off, 1, a_node (pos 2) (pos 900) (negsuc 99)) ∷ [])
        ≡ row_of_a_node off 0 (pos 1) (pos 1000) (negsuc 99) ∷ row_of_a_node off 1 (pos 2) (pos 900) (negsuc 99) ∷ [] }
{}

/// The rows of a way's nodes: of kind 0, with an empty role.
pub fn rows_of_a_way()
    ensures { (off : ℕ) → link_rows ((off, 0, a_way) ∷ [])
        ≡ node_of_a_way off 0 (pos 5) ∷ node_of_a_way off 1 (pos 6) ∷ node_of_a_way off 2 (pos 7) ∷ node_of_a_way off 3 (pos 6) ∷ [] }
{}

/// The rows of a relation, of its tag and of its members.
pub fn rows_of_a_relation()
    ensures element { (off : ℕ) → element_rows ((off, 0, a_relation) ∷ []) ≡ (Int (pos off) ∷ Int (pos 0) ∷ Int (pos 2) ∷ Int (pos 9) ∷ no_values) ∷ [] }
    ensures tag { (off : ℕ) → tag_rows ((off, 0, a_relation) ∷ []) ≡ (Int (pos off) ∷ Int (pos 0) ∷ Int (pos 0) ∷ Words (codes "name") ∷ Words (codes "a b,c") ∷ []) ∷ [] }
    ensures links { (off : ℕ) → link_rows ((off, 0, a_relation) ∷ [])
        ≡ (Int (pos off) ∷ Int (pos 0) ∷ Int (pos 0) ∷ Int (pos 0) ∷ Int (pos 1) ∷ Words (codes "outer") ∷ [])
        ∷ (Int (pos off) ∷ Int (pos 0) ∷ Int (pos 1) ∷ Int (pos 1) ∷ Int (negsuc 1) ∷ Words [] ∷ []) ∷ [] }
{}

/// A connection that was opened over the rows of a map holds that map, also after a crash.
pub fn holds_again<S: Alter>(connection: &Connection<S>)
    ensures { HasCleanDisk (state S.Store connection.now) → Opens (state S.Store connection.now) → IsLive (state S.Store connection.now)
        → (layout : Layout) (held : HeldMap) → IsKept layout held → TablesHold layout held (state S.Store connection.now).now.trees → Holds layout (state S.Store connection.now) held }
{
    let _opened = connection;
}
