//! What holds of the rows of an earlier version.

ghost use Rattle.sqlite.specs.Tree.{Trees};
ghost use Rattle.osm_old_store.specs.EarlierRows as earlier;
ghost use Rattle.osm_rows.specs.Held.{HeldMap};
ghost use Rattle.osm_rows.specs.LayoutHolding.{IsKept, TablesHold};

use osm_rows::Layout;

/// What was stored before flags of visibility were read and written holds the same map: in either layout the rows that the
/// map stood for then are those that it stands for now.
pub fn earlier_rows_hold_the_same()
    ensures kept { (layout : Layout) (held : HeldMap) → earlier.IsKept layout held → IsKept layout held }
    ensures same { (layout : Layout) (held : HeldMap) (db : Trees) → earlier.IsKept layout held → earlier.TablesHold layout held db → TablesHold layout held db }
{}
