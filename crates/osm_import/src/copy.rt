//! Copies of held blobs from one store into another.

ghost use Rattle.std.specs.Prelude.{◌≡◌, ◌⊎◌, length, All, IfOk, IfErr, MatchResult};
ghost use Rattle.osm_rows.specs.Held.{Blob, HaveFewTexts};
ghost use Rattle.osm_rows.specs.Keeping.{IsRange, extents_of};
ghost use Rattle.osm_rows.specs.Load.Loading.{HasRowsOf};
ghost use Rattle.osm_rows.specs.declared.fault.StoreFault.TheVariants.{Memory};
ghost use Rattle.osm_import.specs.declared.copy.CopyFault.TheVariants.{Spoiled, Store};
ghost use Rattle.osm_import.specs.CopyFaults.{copy_number_of, copy_name_of};
ghost use Rattle.osm_import.specs.Stores.{CopiesAll, CopiesOne};

use crate::answer::Conflict;
use crate::few_texts::have_few_texts;
use crate::place::{Place, place_of};
use osm_rows::{BlobKeeper, BlobReader, Extent, Loaded, StoreFault};
use osm_value::Element;
use std::alloc::{AllocError, Global};
use thiserror::Error;

/// Why a copy stops.
#[derive(Clone, Copy, Debug, PartialEq, Eq, Error)]
pub enum CopyFault {
    /// What the other store holds is in the blob's way.
    #[error("{0}")]
    Refused(Conflict),
    /// The first store's rows aren't those of the blob that was put there: there are other than as many elements of it as
    /// its row says, a row is of no element, or one uses more texts than any that a store is given. Nothing of it is copied.
    #[error("the rows aren't those of the blob that was put there")]
    Spoiled,
    /// A call of either store has failed, or memory was refused.
    #[error("{0}")]
    Store(StoreFault),
}

impl CopyFault {
    /// The number that this fault has in every message of the program.
    pub fn number(self) -> u8
        ensures { result ≡ copy_number_of self }
    {
        match self {
            CopyFault::Refused(conflict) => conflict.number(),
            CopyFault::Spoiled => 66,
            CopyFault::Store(fault) => fault.number(),
        }
    }

    /// The name that this fault has in every message of the program.
    pub fn name(self) -> &'static str
        ensures { result.now ≡ copy_name_of self }
    {
        match self {
            CopyFault::Refused(conflict) => conflict.name(),
            CopyFault::Spoiled => "NotThisStore",
            CopyFault::Store(fault) => fault.name(),
        }
    }
}

impl From<StoreFault> for CopyFault {
    ghost from_gives = { λ fault e. e ≡ Store fault };

    fn from(fault: StoreFault) -> CopyFault {
        CopyFault::Store(fault)
    }
}

impl From<AllocError> for CopyFault {
    ghost from_gives = { λ _ e. e ≡ Store Memory };

    fn from(_: AllocError) -> CopyFault {
        CopyFault::Store(StoreFault::Memory)
    }
}

/// Why a copy stops, and the offset of the blob that was being copied then; 0 where the extents weren't read yet.
#[derive(Clone, Copy, Debug, PartialEq, Eq, Error)]
#[error("{fault} (at {off})")]
pub struct CopyStop {
    pub fault: CopyFault,
    pub off: u64,
}

/// How many blobs a copy met: those that it added, and those that were held already.
#[derive(Clone, Copy, Debug, PartialEq, Eq)]
pub struct CopyCounts {
    pub copied: u64,
    pub held: u64,
}

/// What a copy did with a blob.
#[derive(Clone, Copy, Debug, PartialEq, Eq)]
pub enum BlobCopy {
    /// The other store holds it now.
    Added,
    /// The other store held one with its digest at its offset.
    AlreadyHeld,
}

/// The elements that were loaded, if they are as many as the extent says, and each uses as few texts as `put` asks for.
fn complete_elements<'a>(
    alloc: Global,
    loaded: &'a Loaded,
    extent: &Extent,
) -> Result<Vec<Element<'a>>, CopyFault>
    ensures complete { IfOk result (λ elements. (length elements.items ≡ extent.now.n) × HaveFewTexts elements.items) }
    ensures held { (blob : Blob) → HasRowsOf loaded.now blob.elements → HaveFewTexts blob.elements → extent.now.n ≡ length blob.elements
        → MatchResult result (λ elements. elements.items ≡ blob.elements) (λ fault. fault ≡ Store Memory) }
    ensures fault { IfErr result (λ fault. (fault ≡ Spoiled) ⊎ (fault ≡ Store Memory)) }
{
    let Some(elements) = loaded.elements(alloc)? else {
        return Err(CopyFault::Spoiled);
    };
    if elements.len() as u64 != extent.n {
        return Err(CopyFault::Spoiled);
    }
    let few = have_few_texts(alloc, &elements)?;
    if !few {
        return Err(CopyFault::Spoiled);
    }
    Ok(elements)
}

/// Copies the blob at an extent of the first store, unless the other holds its offset with its digest. The digest comes
/// first, so that a blob that is held costs no reading of its rows.
fn copy_blob<F: BlobReader, T: BlobKeeper>(
    alloc: Global,
    from: &mut F,
    to: &mut T,
    extent: &Extent,
) -> Result<BlobCopy, CopyFault>
    requires { IsRange extent.now }
    ensures { CopiesOne F.BlobReader T.BlobReader from.old from.new to.old to.new (extent.now, result) }
{
    let place = place_of(alloc, to, extent.off, extent.fin, &extent.digest)?;
    match place {
        Place::Held => return Ok(BlobCopy::AlreadyHeld),
        Place::Taken(conflict) => return Err(CopyFault::Refused(conflict)),
        Place::Free => {}
    }
    let loaded = from.load(alloc, extent.off)?;
    let elements = complete_elements(alloc, &loaded, extent)?;
    match to.put(
        alloc,
        extent.off,
        extent.fin,
        &extent.digest,
        extent.kind,
        &elements,
    ) {
        Ok(()) => Ok(BlobCopy::Added),
        Err(fault) => Err(CopyFault::Store(fault)),
    }
}

/// Copies the blobs at these extents, which are all of the first store.
fn copy_blobs<F: BlobReader, T: BlobKeeper>(
    alloc: Global,
    from: &mut F,
    to: &mut T,
    extents: &[Extent],
) -> Result<CopyCounts, CopyStop>
    requires { All IsRange extents.now }
    ensures { CopiesAll F.BlobReader T.BlobReader (λ source. F.holds from.old source × (extents.now ≡ extents_of source)) from.old from.new to.old to.new result }
{
    let mut copied = 0;
    let mut held = 0;
    for extent in extents {
        let answer = match copy_blob(alloc, from, to, extent) {
            Ok(answer) => answer,
            Err(fault) => {
                return Err(CopyStop {
                    fault,
                    off: extent.off,
                });
            }
        };
        match answer {
            BlobCopy::Added => copied += 1,
            BlobCopy::AlreadyHeld => held += 1,
        }
    }
    Ok(CopyCounts { copied, held })
}

/// Copies the blobs that one store holds into another, by offset: the extents of all and the rows of one are in memory. A
/// blob whose offset is held there with the same digest is counted and left, so that a copy that stopped can be begun
/// again. What `from` holds stays.
///
/// At `Ok` the other store holds what it held and, at each offset that was free, the blob of the first. Else it stopped
/// at `off`, and holds what it held and, at each free offset below, the blob of the first. `Refused` comes with `Differs`
/// where `off` is held with another digest, and with `Overlap` where it is free and the blob's extent meets a held one;
/// `Spoiled` comes where the first store, which then holds no map, has other than as many elements of the blob as its row
/// says, a row of no element, or one of more texts than any that was put, before anything of it is copied; `Store` comes
/// where a call of either store has failed or memory was refused. A crash, and a `Store` after which the other store has to
/// be opened again, leave what was held with the blobs below some offset; a crash after `Ok` leaves all of them. Whatever
/// rows the first store has, what the other held stays, also after a crash.
pub fn copy_held<F: BlobReader, T: BlobKeeper>(
    alloc: Global,
    from: &mut F,
    to: &mut T,
) -> Result<CopyCounts, CopyStop>
    ensures { CopiesAll F.BlobReader T.BlobReader (F.holds from.old) from.old from.new to.old to.new result }
{
    let extents = match from.extents(alloc) {
        Ok(extents) => extents,
        Err(fault) => {
            return Err(CopyStop {
                fault: CopyFault::Store(fault),
                off: 0,
            });
        }
    };
    copy_blobs(alloc, from, to, &extents)
}
