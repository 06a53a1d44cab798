//! Whether any held element has a flag of visibility.

ghost use Rattle.std.specs.Prelude.{◌≡◌, false, IfOk, IfErr, OnOk, MatchResult};
ghost use Rattle.std.specs.List.{list_any};
ghost use Rattle.sqlite_trees.specs.View.{IsClean, IsQuiet};
ghost use Rattle.sqlite_exec.specs.Calls.{OnlyReads};
ghost use Rattle.osm_rows.specs.declared.schema.layout.Layout.TheVariants.{Tables};
ghost use Rattle.osm_rows.specs.Flags.{has_flags};
ghost use Rattle.osm_rows.specs.Held.{HeldMap};
ghost use Rattle.osm_rows.specs.Keeping.{IsForeign};
ghost use Rattle.osm_tree_audits.specs.Looking.{IsSound, Looks};
ghost use Rattle.osm_trees.specs.Below.{HoldsBelow, is_flagged};

use osm_rows::StoreFault;
use osm_rows::trees::ELEMENTS;
use osm_tree_writes::fault_of;
use sqlite_trees::store::{Direction, Store};
use sqlite_value::row::Row;
use sqlite_value::value::ValueRef;
use std::alloc::Global;

/// Whether a row of the table of elements has a flag.
fn is_flagged(row: &Row) -> bool
    ensures { result ≡ is_flagged row.now }
{
    matches!(row.get(12), ValueRef::Int(_))
}

/// Whether any row of the table of elements has a flag. The walk ends at the first that has one.
fn meets_flag<S: Store>(alloc: Global, store: &mut S) -> Result<bool, StoreFault>
    ensures found { IfOk result (λ found. IsClean (S.Store.view store.new) → found ≡ list_any is_flagged ((S.Store.view store.old).trees ELEMENTS)) }
    ensures sound { OnOk result (IsSound S.Store store.new) }
    ensures reads { IsClean (S.Store.view store.new) → (S.Store.view store.new).is_broken ≡ false → OnlyReads (S.Store.view store.old) (S.Store.view store.new) }
    ensures ours { IfErr result (λ fault. ¬ (IsForeign fault)) }
    ensures quiet { IsQuiet S.Store.view S.Store.faults S.Store.recovers S.Store.is_shielded store.old store.new }
{
    let mut row = Row::new(alloc);
    if let Err(error) = store.seek(0, ELEMENTS, &row, Direction::Forward) {
        return Err(fault_of(error));
    }
    'rows: for _ in 0..u64::MAX {
        match store.next(0, &mut row) {
            Ok(true) => {}
            Ok(false) => return Ok(false),
            Err(error) => return Err(fault_of(error)),
        }
        if is_flagged(&row) {
            return Ok(true);
        }
    }
    // No sound store has this many rows.
    Err(StoreFault::Memory)
}

/// Whether any held element has a flag.
pub(crate) fn any_flag<S: Store>(alloc: Global, store: &mut S) -> Result<bool, StoreFault>
    ensures held { IsClean (S.Store.view store.new) → (held : HeldMap) → HoldsBelow Tables (S.Store.view store.old) held
        → MatchResult result (λ found. (found ≡ has_flags held) × ((S.Store.view store.new).is_broken ≡ false)) (λ fault. ¬ (IsForeign fault)) }
    ensures looks { Looks S.Store store.old store.new }
{
    meets_flag(alloc, store)
}
