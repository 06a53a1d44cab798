//! Whether the places of a blob's rows are free.

ghost use Rattle.std.specs.Prelude.{◌≡◌, ◌∷◌, [], ◌≤◌, pos, IfOk, OnOk};
ghost use Rattle.sqlite_value.specs.declared.value.Value.TheVariants.{Int};
ghost use Rattle.sqlite_trees.specs.View.{IsClean, IsRowidKey};
ghost use Rattle.sqlite_exec.specs.Calls.{OnlyReads};
ghost use Rattle.osm_tree_writes.specs.Harmless.{IsHarmless};

use crate::fault::fault_of;
use crate::layout::{ELEMENTS, IndexTree, LINKS, TAGS};
use osm_rows::StoreFault;
use pbf_frame::MAX_OFFSET;
use sqlite_trees::store::{Direction, Store};
use sqlite_value::keys::Order;
use sqlite_value::row::Row;
use sqlite_value::value::ValueRef;
use std::alloc::{AllocError, Global};
use std::cmp::Ordering;

/// The key of all rows at an offset.
fn offset_key(alloc: Global, off: u64) -> Result<Row, AllocError>
    requires { off ≤ MAX_OFFSET }
    ensures { IfOk result (λ key. key ≡ Int (pos off) ∷ []) }
{
    let mut key = Row::new(alloc);
    key.push(ValueRef::Int(off as i64))?;
    Ok(key)
}

/// Whether no entry of an index begins with this key.
fn has_none<S: Store>(
    alloc: Global,
    store: &mut S,
    index: IndexTree,
    key: &Row,
) -> Result<bool, StoreFault>
    requires { IsRowidKey key.now }
    ensures reads { OnOk result (IsClean (S.Store.view store.new) → OnlyReads (S.Store.view store.old) (S.Store.view store.new)) }
    ensures harmless { IsHarmless S.Store.view S.Store.faults S.Store.recovers S.Store.is_shielded store.old result store.new }
{
    let mut entry = Row::new(alloc);
    if let Err(error) = store.seek(0, index.tree, key, Direction::Forward) {
        return Err(fault_of(error));
    }
    match store.next(0, &mut entry) {
        Ok(true) => Ok(entry.cmp_prefix(Order::PLAIN, key) != Ordering::Equal),
        Ok(false) => Ok(true),
        Err(error) => Err(fault_of(error)),
    }
}

/// Whether no row of the tables of elements has this offset, as far as their primary keys tell: a row that another program put there
/// would have a key of a new one.
pub(crate) fn are_places_free<S: Store>(
    alloc: Global,
    store: &mut S,
    off: u64,
) -> Result<bool, StoreFault>
    requires { off ≤ MAX_OFFSET }
    ensures reads { OnOk result (IsClean (S.Store.view store.new) → OnlyReads (S.Store.view store.old) (S.Store.view store.new)) }
    ensures harmless { IsHarmless S.Store.view S.Store.faults S.Store.recovers S.Store.is_shielded store.old result store.new }
{
    let key = offset_key(alloc, off)?;
    let has_no_elements = has_none(alloc, store, ELEMENTS.key, &key)?;
    let has_no_tags = has_none(alloc, store, TAGS.key, &key)?;
    let has_no_links = has_none(alloc, store, LINKS.key, &key)?;
    Ok(has_no_elements && has_no_tags && has_no_links)
}
