//! The trees of a table and of its indexes.

ghost use Rattle.std.specs.Prelude.{◌≡◌, ◌⊎◌, ◌↔◌, ◌<◌, ◌≤◌, ◌^◌, IsTrue};
ghost use Rattle.osm_tree_writes.specs.Appending.{IsIndexAt, IsTableAt, RiseFrom};

use osm_rows::trees::{self, TREES};
use sqlite_schema::schema::Index;
use sqlite_trees::store::{Shape, Store};
use sqlite_value::keys::Order;

/// An index of a table. Its entries ascend by their bytes.
#[derive(Clone, Copy, Debug)]
pub(crate) struct IndexTree {
    pub(crate) tree: u32,
    /// The place of its first column in a row, of which the rowid is place 0.
    pub(crate) first: usize,
    /// How many columns it has, which stand side by side in a row.
    pub(crate) width: usize,
}

/// A table of elements, of tags or of links.
#[derive(Clone, Copy, Debug)]
pub(crate) struct TableTree {
    pub(crate) tree: u32,
    /// The index of its primary key.
    pub(crate) key: IndexTree,
    /// The index by kind and id, if it has one.
    pub(crate) by_id: Option<IndexTree>,
}

pub(crate) const ELEMENTS: TableTree = TableTree {
    tree: trees::ELEMENTS,
    key: IndexTree {
        tree: trees::ELEMENT_KEY,
        first: 1,
        width: 2,
    },
    by_id: Some(IndexTree {
        tree: trees::ELEMENT_BY_ID,
        first: 3,
        width: 2,
    }),
};

pub(crate) const TAGS: TableTree = TableTree {
    tree: trees::TAGS,
    key: IndexTree {
        tree: trees::TAG_KEY,
        first: 1,
        width: 3,
    },
    by_id: None,
};

pub(crate) const LINKS: TableTree = TableTree {
    tree: trees::LINKS,
    key: IndexTree {
        tree: trees::LINK_KEY,
        first: 1,
        width: 3,
    },
    by_id: None,
};

/// Whether the trees have this index.
fn has_index<S: Store>(store: &S, index: IndexTree) -> bool
    ensures { IsTrue result ↔ IsIndexAt (S.Store.view store.now).shape index }
{
    store.shape(index.tree) == Shape::Index(Order::PLAIN)
}

/// Whether the trees have this table and its indexes.
pub(crate) fn has_table<S: Store>(store: &S, table: &TableTree) -> bool
    ensures { IsTrue result ↔ IsTableAt (S.Store.view store.now).shape table.now }
{
    let has_rest = match table.by_id {
        Some(index) => has_index(store, index),
        None => true,
    };
    has_rest && has_index(store, table.key) && store.shape(table.tree) == Shape::Table
}

/// Whether a tree is that of the table of elements, of tags or of links.
fn has_elements(table: u32) -> bool
    ensures { IsTrue result ↔ ((table ≡ 2) ⊎ ((table ≡ 4) ⊎ (table ≡ 6))) }
{
    table == trees::ELEMENTS || table == trees::TAGS || table == trees::LINKS
}

/// Whether the trees have this index that the user has added, from this number on and over a table of elements.
fn is_behind<S: Store>(store: &S, low: u64, index: &Index) -> bool
    ensures { IsTrue result ↔ ((low ≤ index.now.tree) × (index.now.tree < 2 ^ 32) × ((index.now.table ≡ 2) ⊎ ((index.now.table ≡ 4) ⊎ (index.now.table ≡ 6))) × ((S.Store.view store.now).shape index.now.tree ≡ Shape.Index index.now.order)) }
{
    let tree = index.tree;
    store.shape(tree) == Shape::Index(index.order)
        && u64::from(tree) >= low
        && has_elements(index.table)
}

/// Whether the trees have these indexes that the user has added, each behind those before and behind the trees of a
/// store, over tables of elements.
pub(crate) fn has_more<S: Store>(store: &S, more: &[Index]) -> bool
    ensures { IsTrue result ↔ RiseFrom (S.Store.view store.now).shape TREES more.now }
{
    let mut low = TREES;
    for index in more {
        if !is_behind(store, low, index) {
            return false;
        }
        low = u64::from(index.tree) + 1;
    }
    true
}
