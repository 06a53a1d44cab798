//! The elements of the held blobs, in the layout of tables.

mod flags;
mod rows;
mod search;

ghost use Rattle.std.specs.Prelude.{◌≡◌, Some, filter, IfOk};
ghost use Rattle.std.specs.FinMap as map;
ghost use Rattle.sqlite.specs.Held.{state};
ghost use Rattle.osm_sql_store.specs.Load.Asking.{JustAsks};
ghost use Rattle.osm_sql_store.specs.Load.Telling.{TellsOf};
ghost use Rattle.osm_rows.specs.Load.Finding.{AreMatches};
ghost use Rattle.osm_rows.specs.Held.{Blob, HeldMap};
ghost use Rattle.osm_rows.specs.Load.Loading.{HasRowsOf, IsInPlace};
ghost use Rattle.osm_rows.specs.Rows.{is_of, placed_in};

pub(crate) use flags::any_flag_in_tables;
use osm_rows::{ElementRows, Found, Layout, Loaded, StoreFault, TableRows};
use osm_value::MemberKind;
use pbf_frame::MAX_OFFSET;
use rows::load_table_rows;
use search::find_table_rows;
use sqlite::{Alter, Connection};
use std::alloc::Global;

/// The rows of the blob at this offset, at the positions 0, 1, 2, ..; none where no blob is held there.
pub(crate) fn load_tables<S: Alter>(
    alloc: Global,
    connection: &mut Connection<S>,
    off: u64,
) -> Result<Loaded, StoreFault>
    ensures held { (held : HeldMap) → TellsOf Layout.Tables held (state S.Store connection.old) result (state S.Store connection.new) (λ loaded. (blob : Blob) → map.get held off ≡ Some blob → HasRowsOf loaded blob.elements) }
    ensures positions { IfOk result IsInPlace }
    ensures asks { JustAsks (state S.Store connection.old) (state S.Store connection.new) }
{
    // A held blob has bytes, and ends at `MAX_OFFSET` at most.
    if off >= MAX_OFFSET {
        let rows = TableRows {
            elements: Vec::new(alloc),
            tags: Vec::new(alloc),
            links: Vec::new(alloc),
        };
        return Ok(Loaded {
            rows: ElementRows::Tables(rows),
        });
    }
    let TableRows {
        elements,
        tags,
        links,
    } = load_table_rows(alloc, connection, off)?;
    Loaded::from_tables(elements, tags, links)
}

/// The rows of all held elements of this kind and id, by offset and position.
pub(crate) fn find_tables<S: Alter>(
    alloc: Global,
    connection: &mut Connection<S>,
    kind: MemberKind,
    id: i64,
) -> Result<Found, StoreFault>
    ensures held { (held : HeldMap) → TellsOf Layout.Tables held (state S.Store connection.old) result (state S.Store connection.new) (λ found. AreMatches found (filter (is_of kind id) (placed_in held))) }
    ensures asks { JustAsks (state S.Store connection.old) (state S.Store connection.new) }
{
    let TableRows {
        elements,
        tags,
        links,
    } = find_table_rows(alloc, connection, kind, id)?;
    Found::from_tables(alloc, elements, tags, links)
}
