//! The extents of the held blobs.

ghost use Rattle.std.specs.Prelude.{◌≡◌, ◌∷◌, [], ◌<◌, ◌≤◌, ℤ, pos, filter, Ok, List, IsTrue, MatchResult, IfOk, All};
ghost use Rattle.sqlite.specs.declared.types.Value.TheVariants.{Int};
ghost use Rattle.sqlite.specs.Order.{Row};
ghost use Rattle.sqlite.specs.State.{HasCleanDisk};
ghost use Rattle.sqlite.specs.Held.{state};
ghost use Rattle.osm_sql_store.specs.Load.Asking.{JustAsks};
ghost use Rattle.osm_sql_store.specs.Load.Telling.{TellsOf};
ghost use Rattle.osm_rows.specs.Held.{HeldMap};
ghost use Rattle.osm_rows.specs.LayoutHolding.{Holds};
ghost use Rattle.osm_rows.specs.Keeping.{IsForeign, IsRange, AscendApart, extents_of, touches};
ghost use Rattle.osm_sql_store.specs.Load.Starting.{IsStart};

use crate::load::asking::{answer, integer, number};
use crate::schema::sql::{SELECT_EXTENTS, SELECT_LAST_START, SELECT_TOUCHING};
use osm_rows::unreadable::unread;
use osm_rows::{Extent, Layout, StoreFault, read_apart};
use pbf_frame::MAX_OFFSET;
use sqlite::{Alter, Connection, Row};
use std::alloc::Global;

/// All extents, ascending by their offsets.
pub fn all_extents<S: Alter>(
    alloc: Global,
    connection: &mut Connection<S>,
) -> Result<Vec<Extent>, StoreFault>
    ensures held { HasCleanDisk (state S.Store connection.new) → (layout : Layout) (held : HeldMap) → Holds layout (state S.Store connection.old) held
        → MatchResult result (λ extents. (extents.items ≡ extents_of held) × IsTrue (state S.Store connection.new).is_open) (λ fault. ¬ (IsForeign fault)) }
    ensures ranges { IfOk result (λ extents. All IsRange extents.items) }
    ensures apart { IfOk result (λ extents. AscendApart extents.items) }
    ensures asks { JustAsks (state S.Store connection.old) (state S.Store connection.new) }
{
    let rows = answer(connection, SELECT_EXTENTS, &[])?;
    read_apart(alloc, &rows)
}

/// The offset that the first row shows; 0 where there is none.
fn first_offset(rows: &[Row]) -> Result<i64, StoreFault>
    ensures none { rows.now ≡ [] → result ≡ Ok (pos 0) }
    ensures first { (off : ℤ) (more : List Row) → rows.now ≡ (Int off ∷ []) ∷ more → MatchResult result (λ found. found ≡ off) (λ fault. fault ≡ StoreFault.Memory) }
{
    match rows.first() {
        Some(row) => row.get(0).map_err(unread),
        None => Ok(0),
    }
}

/// The offset of the last blob that starts at `from` or before. Since extents don't meet, those before it end there.
fn last_start<S: Alter>(connection: &mut Connection<S>, from: u64) -> Result<i64, StoreFault>
    requires { from ≤ MAX_OFFSET }
    ensures held { (layout : Layout) (held : HeldMap) → TellsOf layout held (state S.Store connection.old) result (state S.Store connection.new) (λ start. IsStart from (extents_of held) start) }
    ensures asks { JustAsks (state S.Store connection.old) (state S.Store connection.new) }
{
    let rows = answer(connection, SELECT_LAST_START, &[number(from)])?;
    first_offset(&rows)
}

/// The extents that share a byte with `from..to`, ascending by their offsets.
/// Both queries go by the primary key, so the time grows with the depth of its tree alone.
pub(crate) fn touched_extents<S: Alter>(
    alloc: Global,
    connection: &mut Connection<S>,
    from: u64,
    to: u64,
) -> Result<Vec<Extent>, StoreFault>
    requires { (from < to) × (to ≤ MAX_OFFSET) }
    ensures held { (layout : Layout) (held : HeldMap) → TellsOf layout held (state S.Store connection.old) result (state S.Store connection.new) (λ extents. extents.items ≡ filter (touches from to) (extents_of held)) }
    ensures apart { IfOk result (λ extents. AscendApart extents.items) }
    ensures asks { JustAsks (state S.Store connection.old) (state S.Store connection.new) }
{
    let start = last_start(connection, from)?;
    let bounds = [integer(start), number(to), number(from)];
    let rows = answer(connection, SELECT_TOUCHING, &bounds)?;
    read_apart(alloc, &rows)
}
