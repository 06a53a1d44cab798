//! The rows of the elements of one kind and id, in the layout of tables.

ghost use Rattle.std.specs.Prelude.{◌≡◌, pos, List, filter, map, MatchResult};
ghost use Rattle.std.specs.List.{AllByRecursion};
ghost use Rattle.sqlite.specs.Held.{state};
ghost use Rattle.osm_sql_store.specs.Load.Asking.{JustAsks};
ghost use Rattle.osm_sql_store.specs.Load.Telling.{TellsOf};
ghost use Rattle.osm_rows.specs.Load.TableParts.{IsAlone};
ghost use Rattle.osm_rows.specs.Load.TableAnswers.{AreRowsOf};
ghost use Rattle.osm_rows.specs.TableRows.{element_row, element_rows, tag_row, tag_rows, tags_at, link_row, link_rows, links_at};
ghost use Rattle.osm_rows.specs.Held.{HeldMap};
ghost use Rattle.osm_rows.specs.Rows.{Placed, is_of, placed_in};

use crate::load::asking::{answer, integer, number};
use crate::schema::sql::{FIND_ELEMENTS, SELECT_ITS_LINKS, SELECT_ITS_TAGS};
use osm_rows::unreadable::unread;
use osm_rows::{Layout, PartRow, StoreFault, TableRows, element_code};
use osm_value::MemberKind;
use sqlite::{Alter, Connection, Row};
use std::alloc::Global;

/// The place of a row's element: the offset of its blob and its position there.
fn place_of(row: &Row) -> Result<(i64, i64), StoreFault>
    ensures { (p : Placed) → row.now ≡ element_row p → MatchResult result (λ place. (place.0 ≡ pos p.0) × (place.1 ≡ pos p.1)) (λ fault. fault ≡ StoreFault.Memory) }
{
    let off: i64 = row.get(0).map_err(unread)?;
    let position: i64 = row.get(1).map_err(unread)?;
    Ok((off, position))
}

/// The rows of the tags and those of the links of a row's element.
fn parts_of<S: Alter>(
    alloc: Global,
    connection: &mut Connection<S>,
    row: &Row,
) -> Result<(Vec<PartRow>, Vec<PartRow>), StoreFault>
    ensures held { (held : HeldMap) (p : Placed) → row.now ≡ element_row p → IsAlone (placed_in held) p
        → TellsOf Layout.Tables held (state S.Store connection.old) result (state S.Store connection.new) (λ parts. (parts.0.items ≡ map tag_row (tags_at p)) × (parts.1.items ≡ map link_row (links_at p))) }
    ensures asks { JustAsks (state S.Store connection.old) (state S.Store connection.new) }
{
    let place = place_of(row)?;
    let tags = answer(
        connection,
        SELECT_ITS_TAGS,
        &[integer(place.0), integer(place.1)],
    )?;
    let links = answer(
        connection,
        SELECT_ITS_LINKS,
        &[integer(place.0), integer(place.1)],
    )?;
    Ok((PartRow::all(alloc, tags)?, PartRow::all(alloc, links)?))
}

/// The rows of the tags and those of the links of the elements of all rows, in their order.
fn all_parts<S: Alter>(
    alloc: Global,
    connection: &mut Connection<S>,
    elements: &[Row],
) -> Result<(Vec<PartRow>, Vec<PartRow>), StoreFault>
    ensures held { (held : HeldMap) (all : List Placed) → elements.now ≡ element_rows all → AllByRecursion (IsAlone (placed_in held)) all
        → TellsOf Layout.Tables held (state S.Store connection.old) result (state S.Store connection.new) (λ parts. (parts.0.items ≡ tag_rows all) × (parts.1.items ≡ link_rows all)) }
    ensures asks { JustAsks (state S.Store connection.old) (state S.Store connection.new) }
{
    let mut tags = Vec::new(alloc);
    let mut links = Vec::new(alloc);
    for row in elements {
        let (mut its_tags, mut its_links) = parts_of(alloc, connection, row)?;
        tags.append(&mut its_tags)?;
        links.append(&mut its_links)?;
    }
    Ok((tags, links))
}

/// The rows of all held elements of this kind and id, by offset and position.
pub(crate) fn find_table_rows<S: Alter>(
    alloc: Global,
    connection: &mut Connection<S>,
    kind: MemberKind,
    id: i64,
) -> Result<TableRows, StoreFault>
    ensures held { (held : HeldMap) → TellsOf Layout.Tables held (state S.Store connection.old) result (state S.Store connection.new) (λ rows. AreRowsOf rows (filter (is_of kind id) (placed_in held))) }
    ensures asks { JustAsks (state S.Store connection.old) (state S.Store connection.new) }
{
    let code = u64::from(element_code(kind));
    let elements = answer(connection, FIND_ELEMENTS, &[number(code), integer(id)])?;
    let (tags, links) = all_parts(alloc, connection, &elements)?;
    Ok(TableRows {
        elements,
        tags,
        links,
    })
}
