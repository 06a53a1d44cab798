//! The version of a store.

ghost use Rattle.std.specs.Prelude.{◌≡◌, ◌∷◌, [], ℤ, pos, MatchResult, IfOk, IfErr};
ghost use Rattle.sqlite.specs.declared.types.Value.TheVariants.{Int};
ghost use Rattle.sqlite.specs.Order.{Row, column};
ghost use Rattle.sqlite.specs.State.{HasCleanDisk};
ghost use Rattle.sqlite.specs.Held.{state};
ghost use Rattle.osm_sql_store.specs.Load.Asking.{JustAsks, NamesVersion};
ghost use Rattle.osm_sql_store.specs.Load.Telling.{TellsOf};
ghost use Rattle.osm_rows.specs.Faults.{NamesNoVersion};
ghost use Rattle.osm_rows.specs.Held.{HeldMap};
ghost use Rattle.osm_rows.specs.Schema.Layouts.{version_of};

use crate::load::ask;
use crate::schema::sql::SELECT_VERSION;
use osm_rows::unreadable::unread;
use osm_rows::{Layout, StoreFault, fault_over_unknown};
use sqlite::{Alter, Connection, Row};

/// The one version that the rows of `meta` name.
fn only_version(rows: &[Row]) -> Result<i64, StoreFault>
    ensures named { IfOk result (λ version. (row : Row) × (rows.now ≡ row ∷ []) × (column row 0 ≡ Int version)) }
    ensures unnamed { IfErr result NamesNoVersion }
    ensures found { (version : ℤ) → rows.now ≡ (Int version ∷ []) ∷ [] → MatchResult result (λ found. found ≡ version) (λ fault. fault ≡ StoreFault.Memory) }
{
    match rows {
        [row] => row.get(0).map_err(unread),
        _ => Err(StoreFault::NotThisStore(None)),
    }
}

/// The version that the table `meta` names; `NotThisStore` where there is no such table.
pub(crate) fn version<S: Alter>(connection: &mut Connection<S>) -> Result<i64, StoreFault>
    ensures held { (layout : Layout) (held : HeldMap) → TellsOf layout held (state S.Store connection.old) result (state S.Store connection.new) (λ found. found ≡ pos (version_of layout)) }
    ensures named { HasCleanDisk (state S.Store connection.new) → IfOk result (NamesVersion (state S.Store connection.old) (state S.Store connection.new)) }
    ensures unnamed { IfErr result NamesNoVersion }
    ensures asks { JustAsks (state S.Store connection.old) (state S.Store connection.new) }
{
    let rows = match ask(connection, SELECT_VERSION, &[]) {
        Ok(rows) => rows,
        Err(error) => return Err(fault_over_unknown(error)),
    };
    only_version(&rows)
}
