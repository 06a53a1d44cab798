//! Any list of deliveries.

ghost use Rattle.std.specs.Prelude.{◌≡◌, length, IfOk, OnErr, vec_len};
ghost use Rattle.osm_import.specs.Stores.{TakesAll};

use crate::answer::Answer;
use crate::delivery::deliver;
use osm_rows::BlobKeeper;
use std::alloc::{AllocError, Global};
use std::marker::Model;

/// Bytes that are delivered as the blob at an offset.
#[derive(Debug, Drop)]
pub struct Delivery<'a> {
    /// The offset in its file, in bytes.
    pub off: u64,
    pub bytes: &'a [u8],
}

impl<'a> Model for Delivery<'a> {
    ghost use Rattle.osm_import.specs.Deliveries.{DeliveryValue};

    ghost Value = { DeliveryValue };

    ghost view = { λ d. record { off = d.off; bytes = d.bytes.now } };
}

/// Delivers each in turn, and goes on after every answer. `Err` has changed nothing: the answers' memory is reserved
/// before the first delivery.
///
/// Over any list of deliveries of whole blobs of one file at their offsets, lost, repeated, reordered and broken off
/// at any call of the store, to a store that holds nothing or entries of that file alone, the store then holds exactly
/// the union: the entries that it held and those of the deliveries that were answered `Stored`, none of them twice.
/// Nothing is `Refused`. Where no answer is a `Fault`, all good deliveries are held.
///
/// This holds over an honest disk, where the store can go on at the end (no fault asks for it to be opened again) or no
/// answer is a `Fault`. A fault that asks for that shuts the store: nothing is stored behind it, and the next opening finds
/// the map after the answers before it, or that map with the blob of the delivery at fault. A crash now leaves the same,
/// or, where no fault has shut the store, the map after all answers.
pub fn deliver_all<K: BlobKeeper>(
    alloc: Global,
    keeper: &mut K,
    deliveries: &[Delivery<'_>],
) -> Result<Vec<Answer>, AllocError>
    ensures answered { IfOk result (λ answers. vec_len answers ≡ length deliveries.now) }
    // All that the deliveries have done, as that says clause by clause.
    ensures taken { IfOk result (λ answers. TakesAll K.BlobReader keeper.old keeper.new deliveries.now answers.items) }
    ensures err { OnErr result (keeper.new ≡ keeper.old) }
{
    let mut answers = Vec::with_capacity(alloc, deliveries.len())?;
    for delivery in deliveries {
        answers
            .push(deliver(alloc, keeper, delivery.off, delivery.bytes))
            .unwrap();
    }
    Ok(answers)
}
