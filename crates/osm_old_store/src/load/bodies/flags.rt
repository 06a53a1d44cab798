//! Whether any held element has a flag of visibility.

ghost use Rattle.std.specs.Prelude.{◌≡◌, Some};
ghost use Rattle.std.specs.FinMap.{get};
ghost use Rattle.std.specs.List.{list_any};
ghost use Rattle.sqlite.specs.Held.{state};
ghost use Rattle.osm_sql_store.specs.Load.Asking.{JustAsks};
ghost use Rattle.osm_sql_store.specs.Load.Telling.{TellsOf};
ghost use Rattle.osm_rows.specs.Flags.{has_flag, has_flags};
ghost use Rattle.osm_rows.specs.Held.{Blob, HeldMap};
ghost use Rattle.osm_rows.specs.Keeping.{extents_of};

use crate::load::bodies::load_bodies;
use osm_rows::{Extent, Layout, StoreFault};
use osm_sql_store::all_extents;
use osm_value::Element;
use sqlite::{Alter, Connection};
use std::alloc::Global;

/// Whether any of these elements has a flag.
fn any_flag(elements: &[Element]) -> bool
    ensures { result ≡ list_any has_flag elements.now }
{
    for element in elements {
        if element.info().visible().is_some() {
            return true;
        }
    }
    false
}

/// Whether any element of the blob at this offset has a flag.
fn any_flag_at<S: Alter>(
    alloc: Global,
    connection: &mut Connection<S>,
    off: u64,
) -> Result<bool, StoreFault>
    ensures held { (held : HeldMap) (blob : Blob) → get held off ≡ Some blob → TellsOf Layout.Bodies held (state S.Store connection.old) result (state S.Store connection.new) (λ found. found ≡ list_any has_flag blob.elements) }
    ensures asks { JustAsks (state S.Store connection.old) (state S.Store connection.new) }
{
    let loaded = load_bodies(alloc, connection, off)?;
    let Some(elements) = loaded.elements(alloc)? else {
        return Err(StoreFault::NotThisStore(None));
    };
    Ok(any_flag(&elements))
}

/// Whether any element of the blobs at these extents has a flag.
fn any_flag_among<S: Alter>(
    alloc: Global,
    connection: &mut Connection<S>,
    extents: &[Extent],
) -> Result<bool, StoreFault>
    ensures held { (held : HeldMap) → extents.now ≡ extents_of held → TellsOf Layout.Bodies held (state S.Store connection.old) result (state S.Store connection.new) (λ found. found ≡ has_flags held) }
    ensures asks { JustAsks (state S.Store connection.old) (state S.Store connection.new) }
{
    for extent in extents {
        if any_flag_at(alloc, connection, extent.off)? {
            return Ok(true);
        }
    }
    Ok(false)
}

/// Whether any held element has a flag. The blobs are read one after the other, up to the first that has an element with
/// a flag: their rows together may be more than fits into memory.
pub(crate) fn any_flag_in_bodies<S: Alter>(
    alloc: Global,
    connection: &mut Connection<S>,
) -> Result<bool, StoreFault>
    ensures held { (held : HeldMap) → TellsOf Layout.Bodies held (state S.Store connection.old) result (state S.Store connection.new) (λ found. found ≡ has_flags held) }
    ensures asks { JustAsks (state S.Store connection.old) (state S.Store connection.new) }
{
    let extents = all_extents(alloc, connection)?;
    any_flag_among(alloc, connection, &extents)
}
