//! The files of this machine that a database lies in.

ghost use Rattle.std.specs.Prelude.{◌≡◌, IsTrue, IfOk, IfSome};
ghost use Rattle.std.specs.FinMap.{empty};
ghost use Rattle.sqlite_store.specs.FileStore.{view};
ghost use Rattle.sqlite_trees.specs.View.{IsClean};
ghost use Rattle.sqlite_wal.specs.Files.{image_at, seen_image};
ghost use Rattle.osm_rows.specs.declared.schema.layout.Layout.TheVariants.{Tables};
ghost use Rattle.osm_trees.specs.Below.{HoldsBelow};
ghost use Rattle.osm_openings.specs.Opened.{IsOpened};
ghost use Rattle.osm_openings.specs.Presumed.{ArePresumedTables};
ghost use Rattle.osm_databases.specs.Checked.{IsOfVersion};

use crate::databases::{CheckedDatabases, Databases, make_or_tell};
use crate::reason::{Reason, Refusal, tell_fault, tell_refusal};
use crate::trees::{
    FEW_PAGES, KeptPages, MANY_PAGES, checked_trees_in, close_files, connection_in, obstacle_in,
    trees_in,
};
use osm_openings::Obstruction;
use osm_rows::StoreFault;
use osm_trees::TreeStore;
use pbfrow_files::{
    OpenFault, ReadFile, ReadFrom, WriteFile, WriteFrom, open_to_read, open_to_write,
};
use sqlite::Connection;
use sqlite_disk::{Disk, Files, Start, Unknown};
use sqlite_store::FileStore;

/// Whether SQLite takes a name for that of a database in memory, or for a URI.
fn names_no_file(name: &str) -> bool {
    name == ":memory:" || name.starts_with("file:")
}

/// The log and the file of a database that held what `S` says, to be written. Those that are missing are made. Until the
/// database is closed, no other of these calls opens it.
pub fn files_to_write<S: Start>(
    rt: &HostRuntime,
    name: &str,
    start: S,
) -> Result<Files<WriteFrom<S>>, Refusal>
    ensures log { IfOk result (λ files. IsTrue (⟦<WriteFrom<S> as Disk>⟧.is_usable files.log)) }
    ensures db { IfOk result (λ files. IsTrue (⟦<WriteFrom<S> as Disk>⟧.is_usable files.db)) }
    ensures image { IfOk result (λ files. seen_image ⟦<WriteFrom<S> as Disk>⟧ files.log files.db ≡ image_at S.Start) }
{
    if names_no_file(name) {
        return Err(OpenFault::NotAFile.into());
    }
    match open_to_write(rt, name, start) {
        Ok(files) => Ok(files),
        // its folder, since a file would be made
        Err(OpenFault::Missing) => Err(Refusal {
            fault: StoreFault::Disk,
            reason: Reason::File(OpenFault::Missing),
        }),
        Err(fault) => Err(fault.into()),
    }
}

/// The same, to be read alone. None is made, and nothing is written.
pub fn files_to_read<S: Start>(
    rt: &HostRuntime,
    name: &str,
    start: S,
) -> Result<Files<ReadFrom<S>>, Refusal>
    ensures log { IfOk result (λ files. IsTrue (⟦<ReadFrom<S> as Disk>⟧.is_usable files.log)) }
    ensures db { IfOk result (λ files. IsTrue (⟦<ReadFrom<S> as Disk>⟧.is_usable files.db)) }
    ensures image { IfOk result (λ files. seen_image ⟦<ReadFrom<S> as Disk>⟧ files.log files.db ≡ image_at S.Start) }
{
    if names_no_file(name) {
        return Err(OpenFault::NotAFile.into());
    }
    match open_to_read(rt, name, start) {
        Ok(files) => Ok(files),
        Err(fault) => Err(fault.into()),
    }
}

/// The trees of the database of this name, to be written, if its files, which held what `S` says, are a database of this
/// version: at most these pages are kept in memory. That pages which aren't read are sound is presumed of those bytes. What a
/// crash leaves of a store meets that (law `what_is_left_may_be_opened` of `osm_restarts`), and so does an empty file.
pub fn trees_to_write<S: Start>(
    rt: &HostRuntime,
    name: &str,
    start: S,
    pages: KeptPages,
) -> Result<Option<FileStore<WriteFrom<S>>>, Refusal>
    requires { ArePresumedTables (image_at S.Start) }
    ensures version { IfOk result (λ found. IfSome found (λ store. IsClean (view store) → IsOfVersion (view store))) }
    ensures opened { IfOk result (λ found. IfSome found (λ store. IsClean (view store) → IsOpened (image_at S.Start) (view store))) }
{
    let files = files_to_write(rt, name, start)?;
    trees_in(rt, files, pages)
}

/// The same, to be read alone.
pub fn trees_to_read<S: Start>(
    rt: &HostRuntime,
    name: &str,
    start: S,
    pages: KeptPages,
) -> Result<Option<FileStore<ReadFrom<S>>>, Refusal>
    requires { ArePresumedTables (image_at S.Start) }
    ensures version { IfOk result (λ found. IfSome found (λ store. IsClean (view store) → IsOfVersion (view store))) }
    ensures opened { IfOk result (λ found. IfSome found (λ store. IsClean (view store) → IsOpened (image_at S.Start) (view store))) }
{
    let files = files_to_read(rt, name, start)?;
    trees_in(rt, files, pages)
}

/// The same, with a look at each page and each tree, so that nothing is presumed.
pub fn checked_trees_to_read<S: Start>(
    rt: &HostRuntime,
    name: &str,
    start: S,
    pages: KeptPages,
) -> Result<Option<FileStore<ReadFrom<S>>>, Refusal>
    ensures version { IfOk result (λ found. IfSome found (λ store. IsClean (view store) → IsOfVersion (view store))) }
    ensures opened { IfOk result (λ found. IfSome found (λ store. IsClean (view store) → IsOpened (image_at S.Start) (view store))) }
{
    let files = files_to_read(rt, name, start)?;
    checked_trees_in(rt, files, pages)
}

/// What stands in the way of opening a database by its trees, if that can be told.
fn obstruction_of(rt: &HostRuntime, name: &str) -> Option<Obstruction> {
    let files = files_to_read(rt, name, Unknown).ok()?;
    obstacle_in(rt, files)
}

/// The databases in files of this machine that take blobs. One that is missing is made.
#[derive(Clone, Copy)]
pub struct FilledFiles {
    /// How many pages of one are kept in memory.
    pub pages: KeptPages,
}

impl Databases for FilledFiles {
    type Trees = FileStore<WriteFile>;

    ghost gives = { λ _ _ trees. IsClean (view trees) → IsOpened (image_at ⟦<Unknown as Start>⟧) (view trees) };

    ghost makes = { λ _ _ trees. IsClean (view trees) → HoldsBelow Tables (view trees) empty };

    fn trees(
        &self,
        rt: &HostRuntime,
        name: &str,
    ) -> Result<Option<FileStore<WriteFile>>, StoreFault> {
        tell_refusal(rt, name, trees_to_write(rt, name, Unknown, self.pages))
    }

    fn obstruction(&self, rt: &HostRuntime, name: &str) -> Option<Obstruction> {
        obstruction_of(rt, name)
    }

    fn connection(
        &self,
        rt: &HostRuntime,
        name: &str,
    ) -> Result<Connection<FileStore<WriteFile>>, StoreFault> {
        let files = tell_refusal(rt, name, files_to_write(rt, name, Unknown))?;
        tell_refusal(rt, name, connection_in(rt, files, self.pages))
    }

    fn make(
        &self,
        rt: &HostRuntime,
        name: &str,
    ) -> Result<TreeStore<FileStore<WriteFile>>, StoreFault> {
        let connection = self.connection(rt, name)?;
        make_or_tell(rt, name, connection)
    }

    fn close(&self, trees: FileStore<WriteFile>) {
        close_files(trees)
    }
}

/// The databases in files of this machine that are only asked. None is made, and nothing is written to its files.
pub struct AskedFiles;

impl Databases for AskedFiles {
    type Trees = FileStore<ReadFile>;

    ghost gives = { λ _ _ trees. IsClean (view trees) → IsOpened (image_at ⟦<Unknown as Start>⟧) (view trees) };

    // they make none
    ghost makes = { λ _ _ _. ⊥ };

    fn trees(
        &self,
        rt: &HostRuntime,
        name: &str,
    ) -> Result<Option<FileStore<ReadFile>>, StoreFault> {
        tell_refusal(rt, name, trees_to_read(rt, name, Unknown, FEW_PAGES))
    }

    fn obstruction(&self, rt: &HostRuntime, name: &str) -> Option<Obstruction> {
        obstruction_of(rt, name)
    }

    fn connection(
        &self,
        rt: &HostRuntime,
        name: &str,
    ) -> Result<Connection<FileStore<ReadFile>>, StoreFault> {
        let files = tell_refusal(rt, name, files_to_read(rt, name, Unknown))?;
        tell_refusal(rt, name, connection_in(rt, files, MANY_PAGES))
    }

    fn make(
        &self,
        rt: &HostRuntime,
        name: &str,
    ) -> Result<TreeStore<FileStore<ReadFile>>, StoreFault> {
        Err(tell_fault(rt, name, StoreFault::NotThisStore(None)))
    }

    fn close(&self, _trees: FileStore<ReadFile>) {}
}

impl CheckedDatabases for AskedFiles {
    fn checked_trees(
        &self,
        rt: &HostRuntime,
        name: &str,
    ) -> Result<Option<FileStore<ReadFile>>, StoreFault> {
        tell_refusal(
            rt,
            name,
            checked_trees_to_read(rt, name, Unknown, MANY_PAGES),
        )
    }
}
