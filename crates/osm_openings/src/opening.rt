//! A database file, opened by the list of its trees alone, or with a look at each page and tree.

ghost use Rattle.std.specs.Prelude.{◌≡◌, None, length, map, false, IsTrue, IfOk, IfSome};
ghost use Rattle.sqlite_trees.specs.Objects.{catalog_tree};
ghost use Rattle.sqlite_store.specs.Catalog.{wanted_of};
ghost use Rattle.sqlite_store.specs.FileStore.{view, is_shielded, IsReady};
ghost use Rattle.sqlite_store.specs.Unopened.{files_of, state_of, wanted_by, AreUsable};
ghost use Rattle.sqlite_wal.specs.Files.{seen_image};
ghost use Rattle.sqlite_wal.specs.PageSize.{bytes_of};
ghost use Rattle.sqlite_wal.specs.Reads.{AreClean};
ghost use Rattle.osm_openings.specs.Asked.{AreAsAsked};
ghost use Rattle.osm_openings.specs.Catalog.{ListsFirst};
ghost use Rattle.osm_openings.specs.Presumed.{IsPresumed, NamesSize, ReadsRows, ReadsAs, Lists, trees_of};

use crate::catalog::{can_be_listed, others, root_orders, trees_of};
use sqlite_disk::{Disk, Files};
use sqlite_pager::{Options, Pager};
use sqlite_store::{FileStore, OpenError, Unopened};
use sqlite_trees::schema::Object;
use sqlite_value::keys::Order;
use sqlite_value::row::Row;
use sqlite_wal::{Error, PageSize, probe_first_page, probe_page_size};
use std::alloc::{AllocError, Global};

/// Bytes 20 to 23 of a database's header, where each of its pages ends in a sum of its bytes.
const WITH_SUMS: u32 = 0x0840_2020;

/// How many pages are kept in memory while the list of a database's objects is read.
const PAGES_OF_THE_LIST: usize = 16;

/// The same options, but with room for few pages: it costs time, and the files are opened again behind the list.
fn for_the_list(options: Options) -> Options {
    Options {
        cache_pages: PAGES_OF_THE_LIST,
        ..options
    }
}

/// The size of the pages of a database whose pages have no sums.
pub(crate) fn page_size<D: Disk>(
    alloc: Global,
    files: &mut Files<D>,
) -> Result<Option<PageSize>, AllocError>
    requires log { IsTrue (D.Disk.is_usable files.old.log) }
    requires db { IsTrue (D.Disk.is_usable files.old.db) }
    ensures log { IsTrue (D.Disk.is_usable files.new.log) }
    ensures db { IsTrue (D.Disk.is_usable files.new.db) }
    ensures same { IfOk result (λ found. IfSome found (λ _. seen_image D.Disk files.new.log files.new.db ≡ seen_image D.Disk files.old.log files.old.db)) }
    ensures named { IfOk result (λ found. IfSome found (λ size. AreClean D.Disk files.new.log files.new.db → NamesSize (seen_image D.Disk files.old.log files.old.db) (bytes_of size))) }
{
    let Ok(Some(size)) = probe_page_size(files) else {
        return Ok(None);
    };
    match probe_first_page(alloc, files, size) {
        Ok((b'S', reserved)) if reserved != WITH_SUMS => Ok(Some(size)),
        Ok(_) => Ok(None),
        Err(Error::OutOfMemory) => Err(AllocError),
        Err(_) => Ok(None),
    }
}

/// The files as they are before they are opened, with this list of their trees. Their pages end in no sums.
fn prepare<D: Disk + Drop>(
    alloc: Global,
    files: Files<D>,
    size: PageSize,
    options: Options,
    trees: &[Object<'_>],
) -> Result<Unopened<D>, AllocError>
    requires log { IsTrue (D.Disk.is_usable files.log) }
    requires db { IsTrue (D.Disk.is_usable files.db) }
    ensures files { IfOk result (λ it. files_of it ≡ (files.log, files.db)) }
    ensures usable { IfOk result AreUsable }
    ensures size { IfOk result (λ it. (state_of it).page_size ≡ bytes_of size) }
    ensures honest { IfOk result (λ it. IsTrue (state_of it).is_clean → AreClean D.Disk files.log files.db) }
    ensures trees { IfOk result (λ it. wanted_by it ≡ map wanted_of trees.now) }
{
    let pager = Pager::new(alloc, files, size, options)?;
    let unopened = Unopened::new(alloc, pager, trees)?;
    Ok(unopened)
}

/// What a failure to read means: memory was refused, or any other cause.
fn unread<T>(error: OpenError) -> Result<Option<T>, AllocError>
    ensures { IfOk result (λ found. found ≡ None) }
{
    match error {
        OpenError::OutOfMemory => Err(AllocError),
        _ => Ok(None),
    }
}

/// The rows of `sqlite_schema` that tell of other trees than those of these objects, or of texts alone, and the order of each
/// tree whose root page begins an index; none where no list of trees can be made of its rows.
fn read_rows<D: Disk>(
    alloc: Global,
    files: &mut Unopened<D>,
    objects: &[Object<'_>],
) -> Result<Option<(Vec<Row>, Vec<Option<Order>>)>, AllocError>
    requires { AreUsable files.old }
    ensures usable { IfOk result (λ found. IfSome found (λ _. AreUsable files.new)) }
    ensures len { IfOk result (λ found. IfSome found (λ read. length read.1.items ≡ length read.0.items)) }
    ensures read { IfOk result (λ found. IfSome found (λ read. IsTrue (state_of files.new).is_clean → ReadsRows objects.now files.old files.new read.0.items read.1.items)) }
{
    let entries = match files.read_catalog() {
        Ok(entries) => entries,
        Err(error) => return unread(error),
    };
    let rows = others(alloc, objects, entries.as_slice())?;
    if !can_be_listed(objects, rows.as_slice(), entries.as_slice()) {
        return Ok(None);
    }
    let roots = match files.index_roots(rows.as_slice()) {
        Ok(roots) => roots,
        Err(error) => return unread(error),
    };
    let orders = root_orders(alloc, entries.as_slice(), rows.as_slice(), roots.as_slice())?;
    Ok(Some((rows, orders)))
}

/// The files with the list of these objects, and of the trees of these rows behind them, if their texts are in UTF-8. Else they
/// are closed.
fn with_list<'a, D: Disk + Drop>(
    alloc: Global,
    files: Files<D>,
    size: PageSize,
    options: Options,
    objects: &'a [Object<'_>],
    rows: &'a [Row],
    roots: &[Option<Order>],
) -> Result<Option<Unopened<D>>, AllocError>
    requires log { IsTrue (D.Disk.is_usable files.log) }
    requires db { IsTrue (D.Disk.is_usable files.db) }
    requires same { length roots.now ≡ length rows.now }
    ensures files { IfOk result (λ found. IfSome found (λ it. files_of it ≡ (files.log, files.db))) }
    ensures usable { IfOk result (λ found. IfSome found AreUsable) }
    ensures size { IfOk result (λ found. IfSome found (λ it. (state_of it).page_size ≡ bytes_of size)) }
    ensures honest { IfOk result (λ found. IfSome found (λ it. IsTrue (state_of it).is_clean → AreClean D.Disk files.log files.db)) }
    ensures trees { IfOk result (λ found. IfSome found (λ it. wanted_by it ≡ trees_of objects.now rows.now roots.now)) }
{
    let Some(trees) = trees_of(alloc, objects, rows, roots)? else {
        return Ok(None);
    };
    let it = prepare(alloc, files, size, options, trees.as_slice())?;
    Ok(Some(it))
}

/// The files with the list of all their trees, these objects first, if such a list can be made of what they hold. If it can't,
/// they are closed.
fn list<D: Disk + Drop>(
    alloc: Global,
    mut files: Unopened<D>,
    size: PageSize,
    options: Options,
    objects: &[Object<'_>],
) -> Result<Option<Unopened<D>>, AllocError>
    requires usable { AreUsable files }
    requires sized { (state_of files).page_size ≡ bytes_of size }
    ensures usable { IfOk result (λ found. IfSome found AreUsable) }
    ensures lists { IfOk result (λ found. IfSome found (λ new. IsTrue (state_of new).is_clean → Lists objects.now files new)) }
{
    let Some((rows, roots)) = read_rows(alloc, &mut files, objects)? else {
        return Ok(None);
    };
    let both = files.close();
    let Some(new) = with_list(
        alloc,
        both,
        size,
        options,
        objects,
        rows.as_slice(),
        roots.as_slice(),
    )?
    else {
        return Ok(None);
    };
    Ok(Some(new))
}

/// The trees of the files, if they are a database that lists these objects, each of which has its place among them as its
/// number, whatever else it lists. If they aren't, the files are closed. No tree is read but the list: that the others are
/// sound is presumed.
pub(crate) fn open_listed<D: Disk + Drop>(
    alloc: Global,
    mut files: Files<D>,
    options: Options,
    objects: &[Object<'_>],
) -> Result<Option<FileStore<D>>, AllocError>
    requires log { IsTrue (D.Disk.is_usable files.log) }
    requires db { IsTrue (D.Disk.is_usable files.db) }
    requires presumed { IsPresumed objects.now (seen_image D.Disk files.log files.db) }
    ensures ready { IfOk result (λ found. IfSome found IsReady) }
    ensures plain { IfOk result (λ found. IfSome found (λ store. IsTrue (view store).is_clean → (view store).has_sums ≡ false)) }
    ensures listed { IfOk result (λ found. IfSome found (λ store. IsTrue (view store).is_clean → ListsFirst objects.now ((view store).trees catalog_tree))) }
    ensures reads { IfOk result (λ found. IfSome found (λ store. IsTrue (view store).is_clean → ReadsAs (seen_image D.Disk files.log files.db) (view store).trees)) }
    ensures asked { IfOk result (λ found. IfSome found (λ store. IsTrue (view store).is_clean → AreAsAsked (length objects.now) ((view store).trees catalog_tree))) }
{
    let Some(size) = page_size(alloc, &mut files)? else {
        return Ok(None);
    };
    let unlisted = prepare(alloc, files, size, for_the_list(options), &[])?;
    let Some(listed) = list(alloc, unlisted, size, options, objects)? else {
        return Ok(None);
    };
    match listed.open_trusted() {
        Ok(store) => Ok(Some(store)),
        Err((error, _)) => unread(error),
    }
}

/// The trees of the files, if they are a sound database that lists these objects, each of which has its place among them as
/// its number. If they aren't, the files are closed.
pub(crate) fn open_checked<D: Disk + Drop>(
    alloc: Global,
    mut files: Files<D>,
    options: Options,
    objects: &[Object<'_>],
) -> Result<Option<FileStore<D>>, AllocError>
    requires log { IsTrue (D.Disk.is_usable files.log) }
    requires db { IsTrue (D.Disk.is_usable files.db) }
    ensures ready { IfOk result (λ found. IfSome found IsReady) }
    ensures plain { IfOk result (λ found. IfSome found (λ store. IsTrue (view store).is_clean → (view store).has_sums ≡ false)) }
    ensures shielded { IfOk result (λ found. IfSome found (λ store. IsTrue (view store).is_clean → is_shielded store)) }
    ensures listed { IfOk result (λ found. IfSome found (λ store. IsTrue (view store).is_clean → ListsFirst objects.now ((view store).trees catalog_tree))) }
    ensures reads { IfOk result (λ found. IfSome found (λ store. IsTrue (view store).is_clean → ReadsAs (seen_image D.Disk files.log files.db) (view store).trees)) }
    ensures asked { IfOk result (λ found. IfSome found (λ store. IsTrue (view store).is_clean → AreAsAsked (length objects.now) ((view store).trees catalog_tree))) }
{
    let Some(size) = page_size(alloc, &mut files)? else {
        return Ok(None);
    };
    let unlisted = prepare(alloc, files, size, for_the_list(options), &[])?;
    let Some(listed) = list(alloc, unlisted, size, options, objects)? else {
        return Ok(None);
    };
    match listed.open() {
        Ok(store) => Ok(Some(store)),
        Err((error, _)) => unread(error),
    }
}
