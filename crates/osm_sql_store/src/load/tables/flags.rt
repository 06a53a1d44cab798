//! Whether any held element has a flag of visibility, in the layout of tables.

ghost use Rattle.std.specs.Prelude.{◌≡◌};
ghost use Rattle.sqlite.specs.Held.{state};
ghost use Rattle.osm_sql_store.specs.Load.Asking.{JustAsks};
ghost use Rattle.osm_sql_store.specs.Load.Telling.{TellsOf};
ghost use Rattle.osm_rows.specs.Flags.{has_flags};
ghost use Rattle.osm_rows.specs.Held.{HeldMap};

use crate::load::asking::answer;
use crate::schema::sql::SELECT_FLAG;
use osm_rows::{Layout, StoreFault};
use sqlite::{Alter, Connection};

/// Whether any held element has a flag. The query ends at the first that it meets.
pub(crate) fn any_flag_in_tables<S: Alter>(
    connection: &mut Connection<S>,
) -> Result<bool, StoreFault>
    ensures held { (held : HeldMap) → TellsOf Layout.Tables held (state S.Store connection.old) result (state S.Store connection.new) (λ found. found ≡ has_flags held) }
    ensures asks { JustAsks (state S.Store connection.old) (state S.Store connection.new) }
{
    let rows = answer(connection, SELECT_FLAG, &[])?;
    Ok(!rows.is_empty())
}
