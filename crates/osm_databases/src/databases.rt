//! Where databases are opened, to be asked or to take blobs, and closed again. Those that are asked and those that are filled
//! are different `Databases`, since the files of the first are read alone.
//!
//! A store that keeps elements in tables is opened by its trees, or not at all: what stands in the way is told on standard
//! error. SQL makes a store where there is none, and reads one that keeps elements as blocks, which is copied into another
//! database.

ghost use Rattle.std.specs.Prelude.{◌≡◌, ℕ, List, false, IfOk, IfSome};
ghost use Rattle.sqlite.specs.Held.{IsNew, state};
ghost use Rattle.sqlite_trees.specs.Objects.{catalog_tree};
ghost use Rattle.sqlite_trees.specs.View.{IsClean};
ghost use Rattle.osm_tree_audits.specs.Looks.{IsLook};
ghost use Rattle.osm_tree_writes.specs.Appending.{IsStoreAt, TakeBlobs};
ghost use Rattle.osm_databases.specs.Checked.{HasWholeAdded, IsCheckedStore, IsOfVersion};
ghost use Rattle.osm_databases.specs.Found.{AreFound, AreReadFrom, AreFoundOrMade, AreMade, AreMadeUnder};

use crate::reason::{Reason, tell, tell_fault, tell_of_obstruction, tell_refusal};
use crate::stores::{BLOCKS, check_store, make_where_none, taking_blobs};
use osm_old_store::BodyStore;
use osm_openings::{Obstacle, Obstruction, find_unkept};
use osm_rows::{StoreFault, TABLE_VERSION};
use osm_trees::{CheckedStore, TreeStore};
use sqlite::{Alter, Connection};

/// Where databases are opened and closed. Their trees are named, and not what they lie in: so all that is done with them
/// stands in generic code. Why a database can't be opened is told on standard error.
pub trait Databases {
    type Trees: Alter + Drop;

    /// What is known of the trees that lie under a name, by the bytes of the name.
    ghost gives: { Self → List ℕ → Self.Trees → Type 0 };

    /// What is known of the trees of a store that is made under a name.
    ghost makes: { Self → List ℕ → Self.Trees → Type 0 };

    /// The trees of a database of this version: the first of them are those of a store, and nothing is written that isn't
    /// committed. If it is anything else it is closed.
    fn trees(&self, rt: &HostRuntime, name: &str) -> Result<Option<Self::Trees>, StoreFault>
        ensures given { IfOk result (λ found. IfSome found (λ trees. gives self.now name.now trees)) }
        ensures version { IfOk result (λ found. IfSome found (λ trees. IsClean (Self.Trees.Store.view trees) → IsOfVersion (Self.Trees.Store.view trees))) };

    /// What stands in the way of a database whose trees aren't opened, if that can be told. Nothing of it is changed, and
    /// nothing is told on standard error.
    fn obstruction(&self, rt: &HostRuntime, name: &str) -> Option<Obstruction>;

    /// A database that is opened by SQL.
    fn connection(
        &self,
        rt: &HostRuntime,
        name: &str,
    ) -> Result<Connection<Self::Trees>, StoreFault>
        ensures { IfOk result IsNew };

    /// The store that is made under a name, where its database has no store and no table of anybody's. It holds no blob. Where
    /// none is made nothing is written, and why is told on standard error.
    fn make(&self, rt: &HostRuntime, name: &str) -> Result<TreeStore<Self::Trees>, StoreFault>
        ensures failures { IfOk result (λ store. store.failures ≡ 0) }
        ensures made { IfOk result (λ store. AreMadeUnder Self.Trees.Store (makes self.now name.now) store.store) };

    /// Closes a database. If it was written to, its log is copied into it; if that fails the log stays, and is read when the
    /// database is next opened.
    fn close(&self, trees: Self::Trees);
}

/// Databases of which each page can be checked as they are opened.
pub trait CheckedDatabases: Databases {
    /// The trees of a database of this version, each page and tree of which was checked: the first of them are those of a
    /// store, and nothing is written that isn't committed. If it is anything else it is closed.
    fn checked_trees(&self, rt: &HostRuntime, name: &str) -> Result<Option<Self::Trees>, StoreFault>
        ensures given { IfOk result (λ found. IfSome found (λ trees. Self.gives self.now name.now trees)) }
        ensures version { IfOk result (λ found. IfSome found (λ trees. IsClean (Self.Trees.Store.view trees) → IsOfVersion (Self.Trees.Store.view trees))) };
}

/// The fault of a database whose trees aren't opened and in whose way nothing is known to stand, once SQL has said this of its
/// version. It is told.
fn tell_version(rt: &HostRuntime, name: &str, fault: StoreFault) -> StoreFault {
    if fault == StoreFault::NotThisStore(Some(TABLE_VERSION)) {
        tell(rt, name, &Reason::Unlisted);
        return StoreFault::Disk;
    }
    tell_fault(rt, name, fault)
}

/// The store that is made where a connection has none (`make_where_none`). Why none is made is told.
pub fn make_or_tell<S: Alter + Drop>(
    rt: &HostRuntime,
    name: &str,
    connection: Connection<S>,
) -> Result<TreeStore<S>, StoreFault>
    requires { (state S.Store connection).in_transaction ≡ false }
    ensures failures { IfOk result (λ store. store.failures ≡ 0) }
    ensures made { IfOk result (λ store. AreMade S.Store store.store) }
{
    match make_where_none(connection) {
        Ok(store) => Ok(store),
        Err(fault) => Err(tell_version(rt, name, fault)),
    }
}

/// Refuses a database in whose way something stands, which is told.
fn refuse_obstructed<D: Databases>(
    rt: &HostRuntime,
    databases: &D,
    name: &str,
) -> Result<(), StoreFault> {
    match databases.obstruction(rt, name) {
        Some(found) => Err(tell_of_obstruction(rt, name, &found)),
        None => Ok(()),
    }
}

/// The same, unless what stands in the way is this obstacle.
fn refuse_all_but<D: Databases>(
    rt: &HostRuntime,
    databases: &D,
    name: &str,
    passed: Obstacle,
) -> Result<(), StoreFault> {
    let Some(found) = databases.obstruction(rt, name) else {
        return Ok(());
    };
    if found.obstacle == passed {
        return Ok(());
    }
    Err(tell_of_obstruction(rt, name, &found))
}

/// The store of blocks of a database, by SQL, which says of what version it is where that is another one.
fn adopted_blocks<D: Databases>(
    rt: &HostRuntime,
    databases: &D,
    name: &str,
) -> Result<BodyStore<D::Trees>, StoreFault>
    ensures { IfOk result (λ store. store.failures ≡ 0) }
{
    let connection = databases.connection(rt, name)?;
    match BodyStore::adopt(connection) {
        Ok(store) => Ok(store),
        Err((fault, _)) => Err(tell_version(rt, name, fault)),
    }
}

/// The same of a database whose trees aren't opened, unless something else stands in its way.
fn blocks_of<D: Databases>(
    rt: &HostRuntime,
    databases: &D,
    name: &str,
) -> Result<BodyStore<D::Trees>, StoreFault>
    ensures { IfOk result (λ store. store.failures ≡ 0) }
{
    refuse_all_but(rt, databases, name, Obstacle::FirstLayout)?;
    adopted_blocks(rt, databases, name)
}

/// The fault of a database whose trees aren't opened, which is told. Where nothing is known to stand in the way, SQL says of
/// what version it is: it is empty, or its table `meta` names another version, or it is damaged behind the list of its tables.
fn refusal<D: Databases>(rt: &HostRuntime, databases: &D, name: &str) -> StoreFault {
    if let Err(fault) = refuse_obstructed(rt, databases, name) {
        return fault;
    }
    match adopted_blocks(rt, databases, name) {
        Ok(_) => tell_fault(rt, name, StoreFault::NotThisStore(Some(BLOCKS))),
        Err(fault) => fault,
    }
}

/// The store of a database that is asked, if it has one of this version; it is read by its trees. Nothing is written.
///
/// Why it can't be opened is told on standard error. The fault is `NotThisStore` where it has no store of pbfrow's, or one of
/// another version. It is `Disk` where a table or the index by kind and id isn't as pbfrow makes it, where two objects have
/// one name, where a text isn't in UTF-8, and where it is damaged or its file can't be opened.
pub fn open_asked<D: Databases>(
    rt: &HostRuntime,
    databases: &D,
    name: &str,
) -> Result<TreeStore<D::Trees>, StoreFault>
    ensures failures { IfOk result (λ reader. reader.failures ≡ 0) }
    ensures found { IfOk result (λ reader. AreFound D.Trees.Store (D.gives databases.now name.now) reader.store) }
{
    match databases.trees(rt, name)? {
        Some(trees) => Ok(TreeStore::new(trees)),
        None => Err(refusal(rt, databases, name)),
    }
}

/// Refuses trees of which one table has a trigger, which whoever writes to it would have to run, or an index that a put doesn't
/// keep. That is told on standard error.
fn refuse_unkept<S: Alter>(rt: &HostRuntime, name: &str, trees: &S) -> Result<(), StoreFault> {
    let objects = trees.objects(rt.alloc())?;
    match find_unkept(rt.alloc(), objects.as_slice())? {
        Some(found) => Err(tell_of_obstruction(rt, name, &found)),
        None => Ok(()),
    }
}

/// The trees, if a put can keep all that the database has. What it can't keep is told.
fn keeping_all<S: Alter + Drop>(rt: &HostRuntime, name: &str, trees: S) -> Result<S, StoreFault>
    ensures same { IfOk result (λ kept. kept ≡ trees) }
    ensures store { IfOk result (λ kept. IsStoreAt (S.Store.view kept).shape) }
    ensures takes { IfOk result (λ kept. IsClean (S.Store.view kept) → TakeBlobs (S.Store.view kept).shape ((S.Store.view kept).trees catalog_tree)) }
{
    refuse_unkept(rt, name, &trees)?;
    match taking_blobs(rt.alloc(), trees) {
        Ok(Some(kept)) => Ok(kept),
        Ok(None) => Err(tell_fault(rt, name, StoreFault::Disk)),
        Err(refusal) => tell_refusal(rt, name, Err(refusal)),
    }
}

/// The fault of a database of which a page or a tree isn't sound, or whose trees aren't opened. It is told.
fn refusal_with_a_look<D: Databases>(rt: &HostRuntime, databases: &D, name: &str) -> StoreFault {
    let trees = match databases.trees(rt, name) {
        Ok(Some(trees)) => trees,
        Ok(None) => return refusal(rt, databases, name),
        Err(fault) => return fault,
    };
    if let Err(fault) = refuse_unkept(rt, name, &trees) {
        return fault;
    }
    tell(rt, name, &Reason::Unsound);
    StoreFault::Disk
}

/// The store of a database whose rows are to be compared, whatever these are. It is read by its trees: each page and each tree
/// is checked, and each index of the store has one entry for each row, and so has each added to its tables;
/// the store has what was seen of the tables at that. Nothing is written.
///
/// Why it can't be opened is told on standard error. The fault is one of those of `open_asked`; it is also `Disk` where one of its
/// tables has a trigger, or an index that a put doesn't keep, and where a page, a tree or an index isn't sound.
pub fn open_checked<D: CheckedDatabases>(
    rt: &HostRuntime,
    databases: &D,
    name: &str,
) -> Result<CheckedStore<D::Trees>, StoreFault>
    ensures failures { IfOk result (λ reader. reader.trees.failures ≡ 0) }
    ensures found { IfOk result (λ reader. AreReadFrom D.Trees.Store (D.gives databases.now name.now) reader.trees.store) }
    ensures checked { IfOk result (λ reader. IsClean (D.Trees.Store.view reader.trees.store) → IsCheckedStore (D.Trees.Store.view reader.trees.store)) }
    ensures look { IfOk result (λ reader. IsClean (D.Trees.Store.view reader.trees.store) → IsLook (D.Trees.Store.view reader.trees.store).trees reader.look) }
    ensures added { IfOk result (λ reader. IsClean (D.Trees.Store.view reader.trees.store) → HasWholeAdded (D.Trees.Store.view reader.trees.store).trees) }
{
    let found = databases.checked_trees(rt, name)?;
    let Some(trees) = found else {
        return Err(refusal_with_a_look(rt, databases, name));
    };
    let kept = keeping_all(rt, name, trees)?;
    let store = tell_refusal(rt, name, check_store(rt.alloc(), kept))?;
    Ok(store)
}

/// The store of a database that keeps elements as blocks, by SQL. Nothing is written. Why it can't be opened is told on
/// standard error. The fault is one of those of `open_asked`, but one that keeps them in tables is `NotThisStore` with its version;
/// it is also `Disk` where the database has a virtual table, or a trigger on one of the store's tables.
pub fn source_of_blocks<D: Databases>(
    rt: &HostRuntime,
    databases: &D,
    name: &str,
) -> Result<BodyStore<D::Trees>, StoreFault>
    ensures { IfOk result (λ store. store.failures ≡ 0) }
{
    if databases.trees(rt, name)?.is_some() {
        return Err(tell_fault(rt, name, StoreFault::NotThisStore(Some(TABLE_VERSION))));
    }
    blocks_of(rt, databases, name)
}

/// The store that is made in a database whose trees aren't opened, where it has no table of anybody's, or where the making of
/// one was interrupted. If something stands in the way nothing is written.
fn make_in<D: Databases>(
    rt: &HostRuntime,
    databases: &D,
    name: &str,
) -> Result<TreeStore<D::Trees>, StoreFault>
    ensures failures { IfOk result (λ store. store.failures ≡ 0) }
    ensures made { IfOk result (λ store. AreMadeUnder D.Trees.Store (D.makes databases.now name.now) store.store) }
{
    refuse_all_but(rt, databases, name, Obstacle::Unfinished)?;
    databases.make(rt, name)
}

/// The store of a database that is to take blobs, which is made if there is none; it is written by its trees. Where it is
/// refused nothing is written.
///
/// Why it can't be opened is told on standard error. The fault is one of those of `open_asked`; it is also `Disk` where one of its
/// tables has a trigger, or an index that a put doesn't keep.
pub fn open_or_make<D: Databases>(
    rt: &HostRuntime,
    databases: &D,
    name: &str,
) -> Result<TreeStore<D::Trees>, StoreFault>
    ensures failures { IfOk result (λ store. store.failures ≡ 0) }
    // it is the store that was found under this name, or one that was made under it and holds nothing
    ensures trees { IfOk result (λ store. AreFoundOrMade D.Trees.Store (D.gives databases.now name.now) (D.makes databases.now name.now) store.store) }
{
    match databases.trees(rt, name)? {
        Some(trees) => Ok(TreeStore::new(keeping_all(rt, name, trees)?)),
        None => make_in(rt, databases, name),
    }
}

/// Closes the database of a store that took blobs.
pub fn close<D: Databases>(databases: &D, store: TreeStore<D::Trees>) {
    databases.close(store.into_store());
}
