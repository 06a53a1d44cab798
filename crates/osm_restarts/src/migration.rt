//! The copy of a store of the first layout into one of the second.

ghost use Rattle.osm_rows.specs.Calls.{OfHeld};
ghost use Rattle.osm_import.specs.Copies.{Copies, CrashLeavesSome, CopyHasCause, IsOwnCopy};
ghost use Rattle.osm_import.specs.Stores.{KeepsHeld, Rereads};
ghost use Rattle.osm_restarts.specs.TwoStores.{OfBoth};

use osm_import::{CopyCounts, CopyStop, copy_held};
use osm_old_store::BodyStore;
use osm_rows::BlobReader;
use osm_sql_store::TableStore;
use sqlite::Alter;
use std::alloc::Global;

/// Why a migration stops, and the offset of the blob that was being copied then; 0 where none was reached.
pub type MigrateFault = CopyStop;

/// Copies the blobs of a store that keeps each element as a row with a block into one that users can query, by offset:
/// what `copy_held` says of these two stores. What the new store held stays, and what the old one holds; a blob whose
/// offset is held there with the same digest is counted and left, so that a migration that stopped can be begun again.
///
/// At `Ok` the new store holds what it held and, at each offset that was free, the blob of the old one. Else it stopped at
/// `off`, and the blobs below are held: `Refused` comes with `Differs` where `off` is held with another digest, and with
/// `Overlap` where it is free and the blob's extent meets a held one; `Spoiled` comes where the old store's rows aren't
/// those of the blob that was put there; `Store` comes where a call of either store has failed or memory was refused. A
/// crash leaves what was held with the blobs below some offset; after `Ok`, all of them. Whatever rows the old store has,
/// what the new one held stays, also after a crash.
pub fn migrate<S: Alter + Drop, T: Alter + Drop>(
    alloc: Global,
    old: &mut BodyStore<S>,
    new: &mut TableStore<T>,
) -> Result<CopyCounts, MigrateFault>
    ensures copies { OfBoth ⟦<BodyStore<S> as BlobReader>⟧ ⟦<TableStore<T> as BlobReader>⟧ old.old old.new new.old new.new
        (λ source held. Copies (⟦<TableStore<T> as BlobReader>⟧.is_open new.new) (⟦<TableStore<T> as BlobReader>⟧.holds new.new) source held result) }

    // What a crash may leave now.
    ensures crash { OfBoth ⟦<BodyStore<S> as BlobReader>⟧ ⟦<TableStore<T> as BlobReader>⟧ old.old old.new new.old new.new
        (λ source held. CrashLeavesSome (⟦<TableStore<T> as BlobReader>⟧.leaves new.new) source held result) }

    // What the new store held stays, whatever the old one holds and gives.
    ensures kept { OfHeld ⟦<TableStore<T> as BlobReader>⟧ new.old new.new (λ held. KeepsHeld ⟦<TableStore<T> as BlobReader>⟧ new.new result held) }
    ensures whole { OfHeld ⟦<TableStore<T> as BlobReader>⟧ new.old new.new (λ _. ⟦<TableStore<T> as BlobReader>⟧.leaves_a_map new.new) }

    // What the old store holds stays, at `Ok` whatever else is known of it, and a crash leaves what it could leave before.
    ensures source { Rereads ⟦<BodyStore<S> as BlobReader>⟧ old.old result old.new }

    // Why a fault is answered.
    ensures own { OfBoth ⟦<BodyStore<S> as BlobReader>⟧ ⟦<TableStore<T> as BlobReader>⟧ old.old old.new new.old new.new (λ _ _. IsOwnCopy result) }
    ensures cause { CopyHasCause old.old.failures old.new.failures new.old.failures new.new.failures result }
{
    copy_held(alloc, old, new)
}
