//! The extents of the held blobs, read from the tree of their table.

ghost use Rattle.std.specs.Prelude.{◌≡◌, ◌<◌, ◌≤◌, ◌-◌, pos, false, List, [], ◌∷◌, map, filter, reverse, All, IfOk, OnOk, MatchResult};
ghost use Rattle.sqlite_value.specs.declared.value.Value.TheVariants.{Int};
ghost use Rattle.sqlite_trees.specs.View.{IsClean, IsQuiet};
ghost use Rattle.sqlite_exec.specs.Calls.{OnlyReads};
ghost use Rattle.osm_rows.specs.declared.keeper.Extent.{Extent as Held};
ghost use Rattle.osm_rows.specs.declared.schema.layout.Layout.{Layout};
ghost use Rattle.osm_rows.specs.Held.{HeldMap};
ghost use Rattle.osm_rows.specs.Keeping.{IsForeign, IsRange, AscendApart, extents_of, touches};
ghost use Rattle.osm_rows.specs.LayoutHolding.{IsKeptExtent};
ghost use Rattle.osm_rows.specs.Rows.{extent_row};
ghost use Rattle.osm_tree_audits.specs.Looking.{IsSound, Looks};
ghost use Rattle.osm_trees.specs.Below.{HoldsBelow};

use crate::row::extent_of;
use osm_rows::trees::BLOBS;
use osm_rows::{Extent, StoreFault, are_apart};
use osm_tree_writes::fault_of;
use pbf_frame::MAX_OFFSET;
use sqlite_trees::store::{Direction, Shape, Store};
use sqlite_value::row::Row;
use sqlite_value::value::ValueRef;
use std::alloc::{AllocError, Global};

/// The extents that the rows of the tree stand for.
fn read_extents<S: Store>(alloc: Global, store: &mut S) -> Result<Vec<Extent>, StoreFault>
    ensures rows { IsClean (S.Store.view store.new) → (extents : List Held) → All IsKeptExtent extents → (S.Store.view store.old).trees BLOBS ≡ map extent_row extents
        → MatchResult result (λ found. found.items ≡ extents) (λ fault. ¬ (IsForeign fault)) }
    ensures ranges { IfOk result (λ found. All IsRange found.items) }
    ensures sound { OnOk result (IsSound S.Store store.new) }
    ensures reads { IsClean (S.Store.view store.new) → (S.Store.view store.new).is_broken ≡ false → OnlyReads (S.Store.view store.old) (S.Store.view store.new) }
    ensures quiet { IsQuiet S.Store.view S.Store.faults S.Store.recovers S.Store.is_shielded store.old store.new }
{
    let mut row = Row::new(alloc);
    if let Err(error) = store.seek(0, BLOBS, &row, Direction::Forward) {
        return Err(fault_of(error));
    }
    let mut extents = Vec::new(alloc);
    'rows: for _ in 0..u64::MAX {
        match store.next(0, &mut row) {
            Ok(true) => {}
            Ok(false) => return Ok(extents),
            Err(error) => return Err(fault_of(error)),
        }
        let Some(extent) = extent_of(&row) else {
            return Err(StoreFault::NotThisStore(None));
        };
        extents.push(extent)?;
    }
    // No sound store has this many rows.
    Err(StoreFault::Memory)
}

/// All extents, ascending by their offsets.
pub(crate) fn all_extents<S: Store>(alloc: Global, store: &mut S) -> Result<Vec<Extent>, StoreFault>
    ensures held { IsClean (S.Store.view store.new) → (layout : Layout) (held : HeldMap) → HoldsBelow layout (S.Store.view store.old) held
        → MatchResult result (λ extents. (extents.items ≡ extents_of held) × ((S.Store.view store.new).is_broken ≡ false)) (λ fault. ¬ (IsForeign fault)) }
    ensures ranges { IfOk result (λ extents. All IsRange extents.items) }
    ensures apart { IfOk result (λ extents. AscendApart extents.items) }
    ensures looks { Looks S.Store store.old store.new }
{
    let extents = read_extents(alloc, store)?;
    if are_apart(&extents) {
        Ok(extents)
    } else {
        Err(StoreFault::NotThisStore(None))
    }
}

/// The key of a row that begins right below `to`.
fn key_below(alloc: Global, to: u64) -> Result<Row, AllocError>
    requires { (0 < to) × (to ≤ MAX_OFFSET) }
    ensures { IfOk result (λ key. key ≡ Int (pos (to - 1)) ∷ []) }
{
    let mut key = Row::new(alloc);
    key.push(ValueRef::Int((to - 1) as i64))?;
    Ok(key)
}

/// The extents that share a byte with `from..to`, descending by their offsets. They are read downward from `to`, as far as
/// the first one that ends at `from` or before: since extents don't meet, those below it end there too.
fn read_touched<S: Store>(
    alloc: Global,
    store: &mut S,
    from: u64,
    to: u64,
) -> Result<Vec<Extent>, StoreFault>
    requires { (from < to) × (to ≤ MAX_OFFSET) }
    ensures rows { IsClean (S.Store.view store.new) → (extents : List Held) → All IsKeptExtent extents → AscendApart extents → (S.Store.view store.old).trees BLOBS ≡ map extent_row extents
        → MatchResult result (λ found. found.items ≡ reverse (filter (touches from to) extents)) (λ fault. ¬ (IsForeign fault)) }
    ensures ranges { IfOk result (λ found. All IsRange found.items) }
    ensures sound { OnOk result (IsSound S.Store store.new) }
    ensures reads { IsClean (S.Store.view store.new) → (S.Store.view store.new).is_broken ≡ false → OnlyReads (S.Store.view store.old) (S.Store.view store.new) }
    ensures quiet { IsQuiet S.Store.view S.Store.faults S.Store.recovers S.Store.is_shielded store.old store.new }
{
    if store.shape(BLOBS) != Shape::Table {
        return Err(StoreFault::Disk);
    }
    let mut row = Row::new(alloc);
    let key = key_below(alloc, to)?;
    if let Err(error) = store.seek(0, BLOBS, &key, Direction::Backward) {
        return Err(fault_of(error));
    }
    let mut extents = Vec::new(alloc);
    'rows: for _ in 0..u64::MAX {
        match store.next(0, &mut row) {
            Ok(true) => {}
            Ok(false) => return Ok(extents),
            Err(error) => return Err(fault_of(error)),
        }
        let Some(extent) = extent_of(&row) else {
            return Err(StoreFault::NotThisStore(None));
        };
        if extent.fin <= from {
            return Ok(extents);
        }
        extents.push(extent)?;
    }
    // No sound store has this many rows.
    Err(StoreFault::Memory)
}

/// The extents that share a byte with `from..to`, ascending by their offsets. No more than one row beside theirs is read.
pub(crate) fn touched_extents<S: Store>(
    alloc: Global,
    store: &mut S,
    from: u64,
    to: u64,
) -> Result<Vec<Extent>, StoreFault>
    requires { (from < to) × (to ≤ MAX_OFFSET) }
    ensures held { IsClean (S.Store.view store.new) → (layout : Layout) (held : HeldMap) → HoldsBelow layout (S.Store.view store.old) held
        → MatchResult result (λ extents. (extents.items ≡ filter (touches from to) (extents_of held)) × ((S.Store.view store.new).is_broken ≡ false)) (λ fault. ¬ (IsForeign fault)) }
    ensures apart { IfOk result (λ extents. AscendApart extents.items) }
    ensures looks { Looks S.Store store.old store.new }
{
    let mut extents = read_touched(alloc, store, from, to)?;
    extents.reverse();
    if are_apart(&extents) {
        Ok(extents)
    } else {
        Err(StoreFault::NotThisStore(None))
    }
}
