//! The elements of the held blobs.

mod flags;

ghost use Rattle.std.specs.Prelude.{◌≡◌, Some, filter, IfOk};
ghost use Rattle.std.specs.FinMap as map;
ghost use Rattle.sqlite.specs.Held.{state};
ghost use Rattle.osm_sql_store.specs.Load.Asking.{JustAsks};
ghost use Rattle.osm_sql_store.specs.Load.Telling.{TellsOf};
ghost use Rattle.osm_rows.specs.Load.Finding.{AreMatches};
ghost use Rattle.osm_rows.specs.Held.{Blob, HeldMap};
ghost use Rattle.osm_rows.specs.Load.Loading.{HasRowsOf, IsInPlace};
ghost use Rattle.osm_rows.specs.Rows.{is_of, placed_in};

use crate::schema::sql::{FIND_BODIES, SELECT_BODIES};
pub(crate) use flags::any_flag_in_bodies;
use osm_rows::{
    BodyRows, ElementRows, Found, Layout, Loaded, StoreFault, are_numbered, element_code,
};
use osm_sql_store::{answer, integer, number};
use osm_value::MemberKind;
use pbf_frame::MAX_OFFSET;
use sqlite::{Alter, Connection};
use std::alloc::Global;

/// The rows of the blob at this offset, at the positions 0, 1, 2, ..; none where no blob is held there.
pub(crate) fn load_bodies<S: Alter>(
    alloc: Global,
    connection: &mut Connection<S>,
    off: u64,
) -> Result<Loaded, StoreFault>
    ensures held { (held : HeldMap) → TellsOf Layout.Bodies held (state S.Store connection.old) result (state S.Store connection.new) (λ loaded. (blob : Blob) → map.get held off ≡ Some blob → HasRowsOf loaded blob.elements) }
    ensures positions { IfOk result IsInPlace }
    ensures asks { JustAsks (state S.Store connection.old) (state S.Store connection.new) }
{
    // A held blob has bytes, and ends at `MAX_OFFSET` at most.
    if off >= MAX_OFFSET {
        let bodies = BodyRows {
            rows: Vec::new(alloc),
        };
        return Ok(Loaded {
            rows: ElementRows::Bodies(bodies),
        });
    }
    let rows = answer(connection, SELECT_BODIES, &[number(off)])?;
    if !are_numbered(&rows, 1) {
        return Err(StoreFault::NotThisStore(None));
    }
    let bodies = BodyRows { rows };
    match bodies.check(alloc) {
        Ok(()) => Ok(Loaded {
            rows: ElementRows::Bodies(bodies),
        }),
        Err(fault) => Err(fault),
    }
}

/// The rows of all held elements of this kind and id, by offset and position.
pub(crate) fn find_bodies<S: Alter>(
    alloc: Global,
    connection: &mut Connection<S>,
    kind: MemberKind,
    id: i64,
) -> Result<Found, StoreFault>
    ensures held { (held : HeldMap) → TellsOf Layout.Bodies held (state S.Store connection.old) result (state S.Store connection.new) (λ found. AreMatches found (filter (is_of kind id) (placed_in held))) }
    ensures asks { JustAsks (state S.Store connection.old) (state S.Store connection.new) }
{
    let code = u64::from(element_code(kind));
    let rows = answer(connection, FIND_BODIES, &[number(code), integer(id)])?;
    let bodies = BodyRows { rows };
    match bodies.check(alloc) {
        Ok(()) => Ok(Found {
            rows: ElementRows::Bodies(bodies),
        }),
        Err(fault) => Err(fault),
    }
}
