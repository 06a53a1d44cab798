//! One delivery.

ghost use Rattle.osm_import.specs.Stores.{TakesOne};

use crate::answer::Answer;
use crate::place::{Place, place_of};
use osm_reading::{ExamineFault, examine};
use osm_rows::{BlobKeeper, StoreFault};
use sha2::{Digest, Sha256};
use std::alloc::Global;

/// Delivers bytes as the blob at the offset `off`, in bytes, of its file: one step of the held map.
///
/// The first that applies is answered: `Bad` with the first fault of the delivery; `AlreadyHeld` where the offset is
/// held with the frame's SHA-256; `Refused` with `Differs` where it is held with another, and with `Overlap` where the
/// frame's extent meets a held one; else `Stored` with the number of its elements, and the blob is held. In place of
/// any of these `Fault` may stand, where a call of the store has failed or memory was refused. All but `Stored` leave
/// what is held, a `Fault` where the store can go on. A crash during the call, and a `Fault` after which the store has
/// to be opened again, leave what was held, or that with this blob whole. A store that has to be opened again already
/// stores nothing, and a crash leaves what it could leave before. Where the store can go on, each answer but `Stored`
/// leaves the tables as they were, whatever rows they have.
pub fn deliver<K: BlobKeeper>(alloc: Global, keeper: &mut K, off: u64, bytes: &[u8]) -> Answer
    ensures { TakesOne K.BlobReader keeper.old keeper.new off bytes.now result }
{
    let good = match examine(alloc, off, bytes) {
        Ok(good) => good,
        Err(ExamineFault::Bad(fault)) => return Answer::Bad(fault),
        Err(ExamineFault::Memory) => return Answer::Fault(StoreFault::Memory),
    };
    let fin = off + bytes.len() as u64;
    let digest = Sha256::digest(bytes);
    let place = match place_of(alloc, keeper, off, fin, &digest) {
        Ok(place) => place,
        Err(fault) => return Answer::Fault(fault),
    };
    match place {
        Place::Held => return Answer::AlreadyHeld,
        Place::Taken(conflict) => return Answer::Refused(conflict),
        Place::Free => {}
    }
    match keeper.put(alloc, off, fin, &digest, good.kind, &good.elements) {
        Ok(()) => Answer::Stored(good.elements.len() as u64),
        Err(fault) => Answer::Fault(fault),
    }
}
