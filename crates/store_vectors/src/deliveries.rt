//! Frames that are delivered to a store, and what exports of it write.

use crate::fixtures::Frame;
use crate::memory::NewStore;
use osm_import::{Answer, Delivery, ExportFault, deliver_all, export_lines, export_pbf};
use osm_rows::BlobReader;
use osm_value::{Form, Outlet, Sink};
use std::alloc::{AllocError, Global};
use std::test::Fail;

/// These frames as they are delivered.
pub fn deliveries_of<'a>(
    alloc: Global,
    frames: &[Frame<'a>],
) -> Result<Vec<Delivery<'a>>, AllocError> {
    let mut deliveries = Vec::new(alloc);
    for (off, bytes) in frames {
        let (off, bytes) = (*off, *bytes);
        deliveries.push(Delivery { off, bytes })?;
    }
    Ok(deliveries)
}

/// The answers to these frames, delivered to a new store, and the store.
pub fn answers_to<K: NewStore>(
    alloc: Global,
    frames: &[Frame<'_>],
) -> Result<(Vec<Answer>, K), Fail> {
    let mut store = K::new_store(alloc)?;
    let deliveries = deliveries_of(alloc, frames)?;
    let answers = deliver_all(alloc, &mut store, &deliveries)?;
    Ok((answers, store))
}

/// An export in this form.
pub fn export_as<K: BlobReader, S: Sink>(
    alloc: Global,
    store: &mut K,
    form: Form,
    size: Option<u64>,
    partial: bool,
    out: &mut S,
) -> Result<(), ExportFault> {
    match form {
        Form::Lines => export_lines(alloc, store, size, partial, out),
        Form::Pbf => export_pbf(alloc, store, size, partial, out),
    }
}

/// What an export answers, and what it has written.
pub fn exported<K: BlobReader>(
    alloc: Global,
    store: &mut K,
    form: Form,
    size: Option<u64>,
    partial: bool,
) -> (Result<(), ExportFault>, Vec<u8>) {
    let mut out = Outlet::new(Vec::new(alloc));
    let result = export_as(alloc, store, form, size, partial, &mut out);
    (result, out.into_inner())
}
