//! One frame of a file and the rows that a store's tables have at its offset, whatever rows these are.

ghost use Rattle.std.specs.Prelude.{◌≡◌, ◌↔◌, ◌≤◌, IsTrue, IfOk, IfErr};
ghost use Rattle.osm_rows.specs.Audit.{AreCountable, ShowsCounts, counts_of, elements_held};
ghost use Rattle.osm_rows.specs.Calls.{KeepsTables, OfHeld};
ghost use Rattle.osm_rows.specs.Keeping.{IsForeign};
ghost use Rattle.osm_reading.specs.Good.{IsGood};
ghost use Rattle.osm_import.specs.Step.{HasCause};
ghost use Rattle.osm_import.specs.Stores.{Rereads};
ghost use Rattle.osm_verify.specs.Agreements.{IsSame};
ghost use Rattle.osm_verify.specs.Audits.{TellsFrame};
ghost use Rattle.osm_verify.specs.declared.comparing.Depth.TheVariants.{Elements};

use osm_import::Good;
use osm_rows::{Audited, Counts, StoreFault};
use osm_value::laws::elements_in_range;
use sha2::{Digest, Sha256};
use std::alloc::Global;

/// Whether the rows that a store's tables have at the offset `off`, in bytes, of a file are those that an import of the good
/// frame there, of these bytes, writes, and no others. What is held stays.
///
/// Of the rows nothing has to be known, but the tables have to be those of a store, and their indexes, where rows are found by
/// them, whole (`has_tables`). An error is that of a read of the store
/// that has failed, or `Memory` where memory was refused. Over an honest disk, where the store holds a map, it is never
/// `NotThisStore`.
pub fn has_frame<K: Audited>(
    alloc: Global,
    store: &mut K,
    off: u64,
    bytes: &[u8],
    good: &Good<'_>,
) -> Result<bool, StoreFault>
    requires { IsGood off bytes.now good.now.kind good.now.elements.items }
    // and if they are, queries see them
    ensures told { K.is_honest store.new → K.has_tables store.old
        → IfOk result (TellsFrame (K.has_rows (K.trees store.old) off) K.layout (K.trees store.old) off bytes.now good.now.elements.items) }
    // over a held map, it is whether the map has the frame's blob there
    ensures held { OfHeld K.BlobReader store.old store.new (λ held. IfOk result (λ told. IsTrue told ↔ IsSame Elements held off bytes.now)) }
    ensures same { KeepsTables K.BlobReader store.old store.new }
    ensures rereads { Rereads K.BlobReader store.old result store.new }
    ensures own { OfHeld K.BlobReader store.old store.new (λ _. IfErr result (λ fault. ¬ (IsForeign fault))) }
    ensures cause { IfErr result (HasCause (K.failures store.old) (K.failures store.new)) }
    ensures counted { K.failures store.old ≤ K.failures store.new }
{
    elements_in_range(&good.elements);
    let fin = off + bytes.len() as u64;
    let digest = Sha256::digest(bytes);
    store.has_blob(alloc, off, fin, &digest, good.kind, &good.elements)
}

/// Whether each table has exactly so many rows, or SQL can't count so many, as on no disk. What is held stays.
///
/// Of the rows nothing has to be known (`has_tables`). An error is that of a read of the store that has failed, or `Memory`
/// where memory was refused. Over an honest disk, where the store holds a map, it is never `NotThisStore`.
pub fn has_rows<K: Audited>(alloc: Global, store: &mut K, rows: &Counts) -> Result<bool, StoreFault>
    // the tables of a held map have as many rows as the map
    ensures held { OfHeld K.BlobReader store.old store.new (λ held. rows.now ≡ counts_of (elements_held held) → IfOk result IsTrue) }
    ensures shown { K.is_honest store.new → AreCountable rows.now
        → IfOk result (λ told. K.is_open store.new × (K.has_tables store.old → (IsTrue told ↔ ShowsCounts K.layout (K.trees store.old) rows.now))) }
    ensures same { KeepsTables K.BlobReader store.old store.new }
    ensures rereads { Rereads K.BlobReader store.old result store.new }
    ensures own { OfHeld K.BlobReader store.old store.new (λ _. IfErr result (λ fault. ¬ (IsForeign fault))) }
    ensures cause { IfErr result (HasCause (K.failures store.old) (K.failures store.new)) }
    ensures counted { K.failures store.old ≤ K.failures store.new }
{
    if !rows.are_countable() {
        return Ok(true);
    }
    store.has_counts(alloc, rows)
}
