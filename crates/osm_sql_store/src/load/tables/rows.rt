//! The rows of one blob, in the layout of tables.

ghost use Rattle.std.specs.Prelude.{◌<◌, filter};
ghost use Rattle.sqlite.specs.Held.{state};
ghost use Rattle.osm_sql_store.specs.Load.Asking.{JustAsks};
ghost use Rattle.osm_sql_store.specs.Load.Telling.{TellsOf};
ghost use Rattle.osm_rows.specs.Load.TableAnswers.{AreRowsOf};
ghost use Rattle.osm_rows.specs.Held.{HeldMap};
ghost use Rattle.osm_rows.specs.Rows.{is_in, placed_in};

use crate::load::asking::{answer, number};
use crate::schema::sql::{SELECT_ELEMENTS, SELECT_LINKS, SELECT_TAGS};
use osm_rows::{Layout, PartRow, StoreFault, TableRows};
use pbf_frame::MAX_OFFSET;
use sqlite::{Alter, Connection};
use std::alloc::Global;

/// The rows of the blob at this offset; none where no blob is held there.
pub(crate) fn load_table_rows<S: Alter>(
    alloc: Global,
    connection: &mut Connection<S>,
    off: u64,
) -> Result<TableRows, StoreFault>
    requires { off < MAX_OFFSET }
    ensures held { (held : HeldMap) → TellsOf Layout.Tables held (state S.Store connection.old) result (state S.Store connection.new) (λ rows. AreRowsOf rows (filter (is_in off) (placed_in held))) }
    ensures asks { JustAsks (state S.Store connection.old) (state S.Store connection.new) }
{
    let elements = answer(connection, SELECT_ELEMENTS, &[number(off)])?;
    let tags = answer(connection, SELECT_TAGS, &[number(off)])?;
    let links = answer(connection, SELECT_LINKS, &[number(off)])?;
    Ok(TableRows {
        elements,
        tags: PartRow::all(alloc, tags)?,
        links: PartRow::all(alloc, links)?,
    })
}
