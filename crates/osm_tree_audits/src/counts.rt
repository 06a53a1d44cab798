//! How many rows the tables of a store have.

ghost use Rattle.std.specs.Prelude.{◌≡◌, ◌↔◌, length, IsTrue, IfOk, IfErr, OnOk};
ghost use Rattle.sqlite_trees.specs.View.{IsClean};
ghost use Rattle.osm_rows.specs.Audit.{HasCount, ShowsCounts};
ghost use Rattle.osm_rows.specs.declared.schema.layout.Layout.TheVariants.{Tables};
ghost use Rattle.osm_rows.specs.Keeping.{IsForeign};
ghost use Rattle.osm_tree_audits.specs.Looking.{IsSound, Looks};
ghost use Rattle.osm_tree_audits.specs.Looks.{IsCount, IsLook};

use crate::look::Look;
use osm_rows::trees::BLOBS;
use osm_rows::{Counts, StoreFault};
use osm_tree_writes::fault_of;
use sqlite_trees::store::{Direction, Store};
use sqlite_value::row::Row;
use std::alloc::Global;

/// SQL counts fewer rows than this.
const MOST_ROWS: u64 = 9_223_372_036_854_775_807;

/// How many rows or entries a tree has.
pub(crate) fn count<S: Store>(alloc: Global, store: &mut S, tree: u32) -> Result<u64, StoreFault>
    ensures count { IfOk result (λ n. IsClean (S.Store.view store.new) → n ≡ length ((S.Store.view store.old).trees tree)) }
    ensures sound { OnOk result (IsSound S.Store store.new) }
    ensures ours { IfErr result (λ fault. ¬ (IsForeign fault)) }
    ensures looks { Looks S.Store store.old store.new }
{
    let mut row = Row::new(alloc);
    if let Err(error) = store.seek(0, tree, &row, Direction::Forward) {
        return Err(fault_of(error));
    }
    let mut count = 0u64;
    'rows: for _ in 0..u64::MAX {
        match store.next(0, &mut row) {
            Ok(true) => {}
            Ok(false) => return Ok(count),
            Err(error) => return Err(fault_of(error)),
        }
        count = count.checked_add(1).ok_or(StoreFault::Memory)?;
    }
    // No sound store has this many rows.
    Err(StoreFault::Memory)
}

/// Whether a number of rows is this one, and fewer than SQL can count.
fn is_count(rows: u64, expected: u64) -> bool
    ensures { IsTrue result ↔ IsCount rows expected }
{
    rows == expected && expected < MOST_ROWS
}

/// Whether a tree has so many rows, which are fewer than SQL can count.
fn has_count<S: Store>(
    alloc: Global,
    store: &mut S,
    tree: u32,
    expected: u64,
) -> Result<bool, StoreFault>
    ensures told { IfOk result (λ told. IsClean (S.Store.view store.new) → (IsTrue told ↔ HasCount ((S.Store.view store.old).trees tree) expected)) }
    ensures sound { OnOk result (IsSound S.Store store.new) }
    ensures ours { IfErr result (λ fault. ¬ (IsForeign fault)) }
    ensures looks { Looks S.Store store.old store.new }
{
    let found = count(alloc, store, tree)?;
    Ok(is_count(found, expected))
}

/// Whether the tables of elements, of tags and of links have so many rows, which are fewer than SQL can count.
fn has_inner_counts(look: &Look, counts: &Counts) -> bool
    ensures { IsTrue result ↔ IsCount look.now.elements.rows counts.now.elements × IsCount look.now.tags.rows counts.now.tags × IsCount look.now.links.rows counts.now.links }
{
    is_count(look.elements.rows, counts.elements)
        && is_count(look.tags.rows, counts.tags)
        && is_count(look.links.rows, counts.links)
}

/// Whether each table of a store has exactly so many rows, fewer than SQL can count. Of the rows nothing has to be known, but
/// what was seen of the tables of elements, of tags and of links as the indexes were checked (`look_at_indexes`): only the
/// rows of the table of blobs are counted here. No more than one is in memory. A fault is that of a read that has failed, or
/// `Memory`.
pub fn has_row_counts<S: Store>(
    alloc: Global,
    store: &mut S,
    look: &Look,
    counts: &Counts,
) -> Result<bool, StoreFault>
    ensures told { IsClean (S.Store.view store.new) → IsLook (S.Store.view store.old).trees look.now → IfOk result (λ told. IsTrue told ↔ ShowsCounts Tables (S.Store.view store.old).trees counts.now) }
    ensures sound { OnOk result (IsSound S.Store store.new) }
    ensures ours { IfErr result (λ fault. ¬ (IsForeign fault)) }
    ensures looks { Looks S.Store store.old store.new }
{
    if !has_count(alloc, store, BLOBS, counts.blobs)? {
        return Ok(false);
    }
    Ok(has_inner_counts(look, counts))
}
