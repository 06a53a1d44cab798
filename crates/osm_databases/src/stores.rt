//! The store that is made where a connection has none, and trees that take blobs or were checked.

ghost use Rattle.std.specs.Prelude.{◌≡◌, ◌≢◌, false, IfOk, IfSome};
ghost use Rattle.std.specs.FinMap.{empty};
ghost use Rattle.sqlite.specs.Held.{state};
ghost use Rattle.sqlite_trees.specs.View.{IsClean};
ghost use Rattle.osm_rows.specs.declared.schema.layout.Layout.TheVariants.{Tables};
ghost use Rattle.osm_sql_store.specs.Schema.Stages.{no_schema};
ghost use Rattle.sqlite_exec.specs.Calls.{OnlyReads};
ghost use Rattle.sqlite_trees.specs.Objects.{catalog_tree};
ghost use Rattle.osm_tree_writes.specs.Appending.{IsStoreAt, TakeBlobs};
ghost use Rattle.osm_tree_writes.specs.Putting.{IsIndexedStore};
ghost use Rattle.osm_tree_audits.specs.Looks.{IsLook};
ghost use Rattle.osm_trees.specs.Below.{HoldsBelow};
ghost use Rattle.osm_databases.specs.Checked.{HasWholeAdded, IsCheckedStore, IsOfVersion};
ghost use Rattle.osm_databases.specs.Found.{ListOnlyAStore};

use crate::reason::{Reason, Refusal};
use osm_old_store::BodyStore;
use osm_rows::StoreFault;
use osm_sql_store::TableStore;
use osm_tree_audits::{Look, Looked, faulty_added_index, look_at_indexes};
use osm_tree_writes::{plain_indexes, takes_blobs};
use osm_trees::{CheckedStore, TreeStore};
use sqlite::{Alter, Connection};
use sqlite_schema::schema::Index;
use sqlite_trees::store::Store;
use std::alloc::{AllocError, Global};

/// The version whose databases keep elements as blocks.
pub(crate) const BLOCKS: i64 = 1;

/// The trees of a store that is made in a database without tables. It holds no blob, and no object stands beside its own.
/// Where the database has a table, an index or a view, whosever it is, nothing is written, and the fault is
/// `NotThisStore(None)`; any other is that of `TableStore::create`.
pub fn make_store<S: Alter + Drop>(connection: Connection<S>) -> Result<TreeStore<S>, StoreFault>
    requires { (state S.Store connection).in_transaction ≡ false }
    ensures empty { IfOk result (λ trees. IsClean (S.Store.view trees.store) → HoldsBelow Tables (S.Store.view trees.store) empty) }
    ensures alone { IfOk result (λ trees. IsClean (S.Store.view trees.store) → ListOnlyAStore (S.Store.view trees.store) (S.Store.recovers trees.store)) }
    ensures bare { (state S.Store connection).now.schema ≢ no_schema → result ≡ Err (StoreFault.NotThisStore None) }
    ensures failures { IfOk result (λ trees. trees.failures ≡ 0) }
{
    let store = match TableStore::create(connection) {
        Ok(store) => store,
        Err((fault, _)) => return Err(fault),
    };
    let trees = store.into_connection().into_store();
    if trees.is_broken() {
        return Err(StoreFault::Disk);
    }
    Ok(TreeStore::new(trees))
}

/// The trees of a store that is made where a connection has no store and no table of anybody's, numbered as this program makes
/// them. A store that it has, of either version, is `NotThisStore` with that version, and nothing is written.
pub fn make_where_none<S: Alter + Drop>(
    connection: Connection<S>,
) -> Result<TreeStore<S>, StoreFault>
    requires { (state S.Store connection).in_transaction ≡ false }
    ensures empty { IfOk result (λ trees. IsClean (S.Store.view trees.store) → HoldsBelow Tables (S.Store.view trees.store) empty) }
    ensures alone { IfOk result (λ trees. IsClean (S.Store.view trees.store) → ListOnlyAStore (S.Store.view trees.store) (S.Store.recovers trees.store)) }
    ensures failures { IfOk result (λ trees. trees.failures ≡ 0) }
{
    let (fault, connection) = match BodyStore::adopt(connection) {
        Ok(_) => return Err(StoreFault::NotThisStore(Some(BLOCKS))),
        Err(refused) => refused,
    };
    if fault != StoreFault::NotThisStore(None) {
        return Err(fault);
    }
    make_store(connection)
}

/// The trees, if a put can keep all that the database has: each index added to a table of the store is one
/// of columns of the table of elements, of tags or of links (`osm_tree_writes::plain_index`), and no trigger is on one of
/// these tables. Where there is another index they are dropped, and SQL writes it. All else is left as it is. A fault is
/// `Memory`.
pub fn taking_blobs<S: Alter + Drop>(alloc: Global, trees: S) -> Result<Option<S>, Refusal>
    ensures same { IfOk result (λ found. IfSome found (λ kept. kept ≡ trees)) }
    ensures store { IfOk result (λ found. IfSome found (λ kept. IsStoreAt (S.Store.view kept).shape)) }
    ensures indexed { IfOk result (λ found. IfSome found (λ kept. IsClean (S.Store.view kept) → TakeBlobs (S.Store.view kept).shape ((S.Store.view kept).trees catalog_tree))) }
    ensures whole { IfOk result (λ found. IsClean (S.Store.view trees) → TakeBlobs (S.Store.view trees).shape ((S.Store.view trees).trees catalog_tree) → found ≡ Some trees) }
{
    let takes_blobs = takes_blobs(alloc, &trees)?;
    if takes_blobs {
        Ok(Some(trees))
    } else {
        Ok(None)
    }
}

/// The trees, if each index of the store has one entry for each row of its table, and no other, with what was seen of the tables
/// as the indexes were checked; they are dropped if not, and the fault is `Disk`. Of the rows nothing has to be known. Another
/// fault is that of a read that has failed, or `Memory`. No more than one row and its entry are in memory.
pub fn with_whole_indexes<S: Store + Drop>(
    alloc: Global,
    mut trees: S,
) -> Result<(S, Look), Refusal>
    ensures whole { IfOk result (λ kept. IsClean (S.Store.view kept.0) → IsIndexedStore (S.Store.view kept.0).trees × IsLook (S.Store.view kept.0).trees kept.1) }
    ensures reads { IfOk result (λ kept. IsClean (S.Store.view kept.0) → OnlyReads (S.Store.view trees) (S.Store.view kept.0) × ((S.Store.view kept.0).is_broken ≡ false)) }
{
    match look_at_indexes(alloc, &mut trees) {
        Ok(Looked::Whole(look)) => Ok((trees, look)),
        Ok(Looked::Faulty(index)) => Err(Refusal {
            fault: StoreFault::Disk,
            reason: Reason::Index(index),
        }),
        Err(fault) => Err(fault.into()),
    }
}

/// That an index which the user has added isn't whole.
fn faulty(alloc: Global, index: &Index) -> Result<Refusal, AllocError>
    ensures { IfOk result (λ refusal. refusal.fault ≡ StoreFault.Disk) }
{
    let name = String::from_utf8_lossy(alloc, index.name.as_slice())?;
    Ok(Refusal {
        fault: StoreFault::Disk,
        reason: Reason::AddedIndex(name),
    })
}

/// The trees, if a put keeps each index added to a table of the store (`taking_blobs`), and each of these
/// has one entry for each row of its table, and no other; they are dropped if not, and the fault is `Disk`. Of the rows
/// nothing has to be known. Another fault is that of a read that has failed, or `Memory`. No more than one row and its entry
/// are in memory.
pub fn with_whole_added_indexes<S: Alter + Drop>(alloc: Global, mut trees: S) -> Result<S, Refusal>
    ensures whole { IfOk result (λ kept. IsClean (S.Store.view kept) → HasWholeAdded (S.Store.view kept).trees) }
    ensures reads { IfOk result (λ kept. IsClean (S.Store.view kept) → OnlyReads (S.Store.view trees) (S.Store.view kept) × ((S.Store.view kept).is_broken ≡ false)) }
{
    let objects = trees.objects(alloc)?;
    let Some(indexes) = plain_indexes(alloc, objects.as_slice())? else {
        return Err(StoreFault::Disk.into());
    };
    match faulty_added_index(alloc, &mut trees, indexes.as_slice()) {
        Ok(None) => Ok(trees),
        Ok(Some(at)) => Err(faulty(alloc, &indexes[at])?),
        Err(fault) => Err(fault.into()),
    }
}

/// The store of trees that are those of a store of this version, if each of its indexes has one entry for each row of its
/// table, and no other, and so has each that the user has added, with what was seen of its tables. A fault is that of
/// `with_whole_indexes`, or of `with_whole_added_indexes`.
pub(crate) fn check_store<S: Alter + Drop>(
    alloc: Global,
    trees: S,
) -> Result<CheckedStore<S>, Refusal>
    ensures failures { IfOk result (λ reader. reader.trees.failures ≡ 0) }
    ensures reads { IfOk result (λ reader. IsClean (S.Store.view reader.trees.store) → OnlyReads (S.Store.view trees) (S.Store.view reader.trees.store)) }
    ensures checked { IfOk result (λ reader. IsClean (S.Store.view reader.trees.store) → (IsClean (S.Store.view trees) → IsOfVersion (S.Store.view trees)) → IsStoreAt (S.Store.view trees).shape
        → IsCheckedStore (S.Store.view reader.trees.store)) }
    ensures look { IfOk result (λ reader. IsClean (S.Store.view reader.trees.store) → IsLook (S.Store.view reader.trees.store).trees reader.look) }
    ensures added { IfOk result (λ reader. IsClean (S.Store.view reader.trees.store) → HasWholeAdded (S.Store.view reader.trees.store).trees) }
{
    let (whole, look) = with_whole_indexes(alloc, trees)?;
    let kept = with_whole_added_indexes(alloc, whole)?;
    Ok(CheckedStore::new(TreeStore::new(kept), look))
}
