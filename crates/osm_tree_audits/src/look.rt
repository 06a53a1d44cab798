//! A look at the indexes of a store: whether each has one entry for each row of its table, and no other, and what it tells of the
//! tables.

ghost use Rattle.std.specs.Prelude.{IfOk, IfErr, OnOk};
ghost use Rattle.sqlite_trees.specs.View.{IsClean};
ghost use Rattle.osm_rows.specs.Keeping.{IsForeign};
ghost use Rattle.osm_tree_writes.specs.Putting.{IsIndexedStore};
ghost use Rattle.osm_tree_audits.specs.Looking.{IsSound, Looks};
ghost use Rattle.osm_tree_audits.specs.Indexes.{IsWhole};
ghost use Rattle.osm_tree_audits.specs.Looks.{IsLook, MatchLooked};

use crate::indexes::{StoreIndex, counts_in_step, look_at, look_on};
use osm_rows::StoreFault;
use osm_rows::trees::{ELEMENT_BY_ID, ELEMENT_KEY, ELEMENTS, LINK_KEY, LINKS, TAG_KEY, TAGS};
use sqlite_trees::store::Store;
use sqlite_value::keys::Order;
use std::alloc::Global;

/// What was seen of a table as the index of its primary key was checked.
#[derive(Clone, Copy, Debug, PartialEq, Eq)]
pub struct TableLook {
    /// How many rows it has.
    pub rows: u64,
    /// The rows stand in the order of the primary key. If this is false, nothing is known of their order.
    pub in_order: bool,
}

/// What was seen of the tables of a store as its indexes were checked.
#[derive(Clone, Copy, Debug, PartialEq, Eq)]
pub struct Look {
    pub elements: TableLook,
    pub tags: TableLook,
    pub links: TableLook,
}

/// What a look at the indexes of a store tells.
#[derive(Clone, Copy, Debug, PartialEq, Eq)]
pub enum Looked {
    /// Each has one entry for each row of its table, and no other, and so much was seen of the tables.
    Whole(Look),
    /// The first of which that isn't so.
    Faulty(StoreIndex),
}

/// Looks at each index of a store: whether it has one entry for each row of its table, and no other; whatever rows there are. No
/// more than one row and its entry are in memory. A fault is that of a read that has failed, `Memory`, or `Disk` where the trees
/// have no such tables and indexes.
///
/// Where indexes are in the order of their table, one walk over it and one over each of them tell, side by side. One in another
/// order is walked again, while its next entry is that of the table's next row, else the entry is sought, and at last all
/// entries are counted.
pub fn look_at_indexes<S: Store>(alloc: Global, store: &mut S) -> Result<Looked, StoreFault>
    ensures told { IfOk result (λ looked. IsClean (S.Store.view store.new)
        → MatchLooked looked (λ look. IsIndexedStore (S.Store.view store.old).trees × IsLook (S.Store.view store.old).trees look) (λ index. ¬ (IsWhole (S.Store.view store.old).trees index))) }
    ensures sound { OnOk result (IsSound S.Store store.new) }
    ensures ours { IfErr result (λ fault. ¬ (IsForeign fault)) }
    ensures looks { Looks S.Store store.old store.new }
{
    let (by_key, by_id) = counts_in_step(
        alloc,
        store,
        ELEMENTS,
        ELEMENT_KEY,
        &[1, 2],
        ELEMENT_BY_ID,
        &[3, 4],
    )?;
    let Some(elements) = look_on(alloc, store, ELEMENTS, ELEMENT_KEY, &[1, 2], by_key)? else {
        return Ok(Looked::Faulty(StoreIndex::ElementKey));
    };
    let Some(tags) = look_at(alloc, store, TAGS, TAG_KEY, Order::PLAIN, &[1, 2, 3])? else {
        return Ok(Looked::Faulty(StoreIndex::TagKey));
    };
    let Some(links) = look_at(alloc, store, LINKS, LINK_KEY, Order::PLAIN, &[1, 2, 3])? else {
        return Ok(Looked::Faulty(StoreIndex::LinkKey));
    };
    let seen = look_on(alloc, store, ELEMENTS, ELEMENT_BY_ID, &[3, 4], by_id)?;
    if seen.is_none() {
        return Ok(Looked::Faulty(StoreIndex::ElementById));
    }
    Ok(Looked::Whole(Look {
        elements,
        tags,
        links,
    }))
}
