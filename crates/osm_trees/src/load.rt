//! What the rows of a blob, or of the elements of one kind and id, stand for.

ghost use Rattle.std.specs.Prelude.{◌≡◌, Some, false, filter, IfOk, MatchResult};
ghost use Rattle.std.specs.FinMap as map;
ghost use Rattle.sqlite_trees.specs.View.{IsClean};
ghost use Rattle.osm_rows.specs.declared.schema.layout.Layout.TheVariants.{Tables};
ghost use Rattle.osm_rows.specs.Held.{Blob, HeldMap};
ghost use Rattle.osm_rows.specs.Keeping.{IsForeign};
ghost use Rattle.osm_rows.specs.Load.Finding.{AreMatches};
ghost use Rattle.osm_rows.specs.Load.Loading.{HasRowsOf, IsInPlace};
ghost use Rattle.osm_rows.specs.Rows.{is_of, placed_in};
ghost use Rattle.osm_tree_audits.specs.Looking.{Looks};
ghost use Rattle.osm_trees.specs.Below.{HoldsBelow};

use crate::parts::{offset_key, parts_with};
use crate::search::found_rows;
use osm_rows::trees::{ELEMENT_KEY, ELEMENTS};
use osm_rows::{Found, Loaded, StoreFault};
use osm_tree_audits::rows_with;
use osm_value::MemberKind;
use pbf_frame::MAX_OFFSET;
use sqlite::Row;
use sqlite_trees::store::Store;
use std::alloc::Global;

/// The rows of the blob at this offset, at the positions 0, 1, 2, ..; none where no blob is held there.
pub(crate) fn load_blob<S: Store>(
    alloc: Global,
    store: &mut S,
    off: u64,
) -> Result<Loaded, StoreFault>
    ensures held { IsClean (S.Store.view store.new) → (held : HeldMap) → HoldsBelow Tables (S.Store.view store.old) held
        → MatchResult result (λ loaded. ((blob : Blob) → map.get held off ≡ Some blob → HasRowsOf loaded blob.elements) × ((S.Store.view store.new).is_broken ≡ false)) (λ fault. ¬ (IsForeign fault)) }
    ensures positions { IfOk result IsInPlace }
    ensures looks { Looks S.Store store.old store.new }
{
    // A held blob has bytes, and ends at `MAX_OFFSET` at most.
    if off >= MAX_OFFSET {
        return Loaded::from_tables(Vec::new(alloc), Vec::new(alloc), Vec::new(alloc));
    }
    let key = offset_key(alloc, off)?;
    let elements: Vec<Row> = rows_with(alloc, store, ELEMENT_KEY, ELEMENTS, 2, &key)?;
    let (tags, links) = parts_with(alloc, store, &key)?;
    Loaded::from_tables(elements, tags, links)
}

/// The rows of all held elements of this kind and id, by offset and position.
pub(crate) fn find_elements<S: Store>(
    alloc: Global,
    store: &mut S,
    kind: MemberKind,
    id: i64,
) -> Result<Found, StoreFault>
    ensures held { IsClean (S.Store.view store.new) → (held : HeldMap) → HoldsBelow Tables (S.Store.view store.old) held
        → MatchResult result (λ found. AreMatches found (filter (is_of kind id) (placed_in held)) × ((S.Store.view store.new).is_broken ≡ false)) (λ fault. ¬ (IsForeign fault)) }
    ensures looks { Looks S.Store store.old store.new }
{
    let (elements, tags, links) = found_rows(alloc, store, kind, id)?;
    Found::from_tables(alloc, elements, tags, links)
}
