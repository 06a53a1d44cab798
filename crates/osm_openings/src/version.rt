//! The one row of a table.

ghost use Rattle.std.specs.Prelude.{◌≡◌, ◌∷◌, [], false, IsSome, IsTrue, IfOk};
ghost use Rattle.sqlite_trees.specs.View.{IsClean, IsQuiet};
ghost use Rattle.sqlite_exec.specs.Calls.{OnlyReads};
ghost use Rattle.sqlite_exec.specs.Loops.{left_of};

use sqlite_trees::error::StoreError;
use sqlite_trees::store::{Direction, Store};
use sqlite_value::row::Row;
use std::alloc::{AllocError, Global};

/// What a failure of the trees means: memory was refused, or any other cause.
fn unread(error: StoreError) -> Result<bool, AllocError>
    ensures { IfOk result (λ found. found ≡ false) }
{
    match error {
        StoreError::OutOfMemory => Err(AllocError),
        _ => Ok(false),
    }
}

/// Whether the next row of the cursor 0 is this one.
fn next_is<S: Store>(alloc: Global, store: &mut S, row: &Row) -> Result<bool, AllocError>
    requires { IsSome ((S.Store.view store.old).cursors 0) }
    ensures next { IfOk result (λ found. IsTrue found → IsClean (S.Store.view store.new) → left_of (S.Store.view store.old) 0 ≡ row.now ∷ left_of (S.Store.view store.new) 0) }
    ensures reads { IfOk result (λ found. IsTrue found → IsClean (S.Store.view store.new) → OnlyReads (S.Store.view store.old) (S.Store.view store.new) × ((S.Store.view store.new).is_broken ≡ false)) }
    ensures live { IfOk result (λ found. IsTrue found → IsSome ((S.Store.view store.new).cursors 0)) }
    ensures quiet { IsQuiet S.Store.view S.Store.faults S.Store.recovers S.Store.is_shielded store.old store.new }
{
    let mut next = Row::new(alloc);
    match store.next(0, &mut next) {
        Ok(true) => Ok(next.is_same(row)),
        Ok(false) => Ok(false),
        Err(error) => unread(error),
    }
}

/// Whether the cursor 0 has come to its end.
fn has_ended<S: Store>(alloc: Global, store: &mut S) -> Result<bool, AllocError>
    requires { IsSome ((S.Store.view store.old).cursors 0) }
    ensures ended { IfOk result (λ found. IsTrue found → IsClean (S.Store.view store.new) → left_of (S.Store.view store.old) 0 ≡ []) }
    ensures reads { IfOk result (λ found. IsTrue found → IsClean (S.Store.view store.new) → OnlyReads (S.Store.view store.old) (S.Store.view store.new) × ((S.Store.view store.new).is_broken ≡ false)) }
    ensures quiet { IsQuiet S.Store.view S.Store.faults S.Store.recovers S.Store.is_shielded store.old store.new }
{
    let mut next = Row::new(alloc);
    match store.next(0, &mut next) {
        Ok(more) => Ok(!more),
        Err(error) => unread(error),
    }
}

/// Whether a table has this row alone. Where it has, the trees are as they were.
pub(crate) fn has_only<S: Store>(
    alloc: Global,
    store: &mut S,
    table: u32,
    row: &Row,
) -> Result<bool, AllocError>
    ensures only { IfOk result (λ found. IsTrue found → IsClean (S.Store.view store.new) → (S.Store.view store.old).trees table ≡ row.now ∷ []) }
    ensures reads { IfOk result (λ found. IsTrue found → IsClean (S.Store.view store.new) → OnlyReads (S.Store.view store.old) (S.Store.view store.new) × ((S.Store.view store.new).is_broken ≡ false)) }
    ensures quiet { IsQuiet S.Store.view S.Store.faults S.Store.recovers S.Store.is_shielded store.old store.new }
{
    if let Err(error) = store.seek(0, table, &Row::new(alloc), Direction::Forward) {
        return unread(error);
    }
    if next_is(alloc, store, row)? {
        has_ended(alloc, store)
    } else {
        Ok(false)
    }
}
