//! The arrays of dense nodes as absolute numbers.

ghost use Rattle.std.specs.Prelude.{◌≡◌, ◌&&◌, ◌||◌, nat_eq, length, map, not, IfOk};
ghost use Rattle.std.specs.List.{list_all};
ghost use Rattle.pbf_wire.specs.Readings.{int32, is_there};
ghost use Rattle.osm_value.specs.Ranges.{is_version, is_uid, passes};
ghost use Rattle.osm_block.specs.declared.fault.BlockFault.TheVariants as faults;
ghost use Rattle.osm_block.specs.Message.{boolean};
ghost use Rattle.osm_block.specs.Block.{version as version_of};
ghost use Rattle.osm_block.specs.Differences.{front_sums, fits_i64};
ghost use Rattle.osm_block.specs.Dense.{AreArraysOf, dense_message_of, arrays_in_range};
ghost use Rattle.osm_block.specs.Fields.{context_of};
ghost use Rattle.osm_block.specs.Phases.{Gives, when, same_length, dense_info_fits, deltas_of, is_index};

use super::fields::DenseFields;
use crate::deltas::absolute;
use crate::fault::BlockError;
use crate::number_array::NumberArray;
use crate::ranges::{all_coordinates, all_times, all_wide};
use crate::scale::Scale;
use osm_value::version_in_range;
use pbf_wire::to_i32;
use std::alloc::{AllocError, Global};

/// The absolute numbers of dense nodes, in the units of the block, and their flags: an array for each field, empty where
/// it says nothing.
#[derive(Drop)]
pub struct DenseArrays {
    pub ids: Vec<i64>,
    pub lats: Vec<i64>,
    pub lons: Vec<i64>,
    pub versions: Vec<i32>,
    pub timestamps: Vec<i64>,
    pub changesets: Vec<i64>,
    pub uids: Vec<i64>,
    pub users: Vec<i64>,
    pub visible: Vec<bool>,
    pub keys_vals: Vec<i32>,
}

fn is_there(array: &NumberArray) -> bool
    ensures { result ≡ is_there array.now.numbers.items }
{
    !array.numbers.is_empty()
}

/// Whether an array is empty or has that many numbers.
fn fits_count(array: &NumberArray, count: usize) -> bool
    ensures { result ≡ (not (is_there array.now.numbers.items) || nat_eq (length array.now.numbers.items) count) }
{
    let empty = !is_there(array);
    let whole = array.numbers.len() == count;
    empty | whole
}

/// Whether the arrays are as long as that of the ids, those of DenseInfo perhaps empty.
pub(crate) fn lengths_fit(dense: &DenseFields) -> bool
    ensures { result ≡ (same_length (dense_message_of dense.now).lat (dense_message_of dense.now).id && same_length (dense_message_of dense.now).lon (dense_message_of dense.now).id && dense_info_fits (dense_message_of dense.now).id (dense_message_of dense.now).info) }
{
    let count = dense.ids.numbers.len();
    let lats = dense.lats.numbers.len() == count;
    let lons = dense.lons.numbers.len() == count;
    let versions = fits_count(&dense.info.versions, count);
    let timestamps = fits_count(&dense.info.timestamps, count);
    let changesets = fits_count(&dense.info.changesets, count);
    let uids = fits_count(&dense.info.uids, count);
    let users = fits_count(&dense.info.users, count);
    let visible = fits_count(&dense.info.visible, count);
    lats & lons & (versions & timestamps & changesets & uids & users & visible)
}

/// The numbers of 32 bits that these are.
fn to_i32s(alloc: Global, numbers: &[u64]) -> Result<Vec<i32>, AllocError>
    ensures { IfOk result (λ v. v.items ≡ map int32 numbers.now) }
{
    numbers.iter().map(|number| to_i32(*number)).collect(alloc)
}

/// The flags that these are: one is set where its number isn't 0.
fn to_bools(alloc: Global, numbers: &[u64]) -> Result<Vec<bool>, AllocError>
    ensures { IfOk result (λ v. v.items ≡ map boolean numbers.now) }
{
    numbers.iter().map(|number| *number != 0).collect(alloc)
}

/// The absolute numbers of the arrays.
pub(crate) fn arrays_of(alloc: Global, dense: &DenseFields) -> Result<DenseArrays, BlockError>
    ensures { Gives (λ c. AreArraysOf c (dense_message_of dense.now)) (when (not (list_all (λ ds. list_all fits_i64 (front_sums ds)) (deltas_of (dense_message_of dense.now)))) faults.SumTooLarge) result }
{
    let ids = absolute(alloc, &dense.ids.numbers)?;
    let lats = absolute(alloc, &dense.lats.numbers)?;
    let lons = absolute(alloc, &dense.lons.numbers)?;
    let timestamps = absolute(alloc, &dense.info.timestamps.numbers)?;
    let changesets = absolute(alloc, &dense.info.changesets.numbers)?;
    let uids = absolute(alloc, &dense.info.uids.numbers)?;
    let users = absolute(alloc, &dense.info.users.numbers)?;
    let versions = to_i32s(alloc, &dense.info.versions.numbers)?;
    let visible = to_bools(alloc, &dense.info.visible.numbers)?;
    let keys_vals = to_i32s(alloc, &dense.keys_vals.numbers)?;
    Ok(DenseArrays {
        ids,
        lats,
        lons,
        versions,
        timestamps,
        changesets,
        uids,
        users,
        visible,
        keys_vals,
    })
}

fn version_fits(version: i32) -> bool
    ensures { result ≡ passes is_version (version_of version) }
{
    if version == -1 {
        true
    } else {
        version_in_range(version)
    }
}

fn uid_fits(uid: i64) -> bool
    ensures { result ≡ is_uid uid }
{
    (-1 <= uid) & (uid <= 2_147_483_646)
}

fn all_versions(versions: &[i32]) -> bool
    ensures { result ≡ list_all (λ v. passes is_version (version_of v)) versions.now }
{
    // None of these tests stops at the first number that fails, so that several are tested at once.
    let mut all = true;
    for version in versions {
        all &= version_fits(*version);
    }
    all
}

fn all_uids(uids: &[i64]) -> bool
    ensures { result ≡ list_all is_uid uids.now }
{
    let mut all = true;
    for uid in uids {
        all &= uid_fits(*uid);
    }
    all
}

/// Whether the numbers of the arrays are in their ranges.
pub(crate) fn arrays_in_range(scale: &Scale, arrays: &DenseArrays) -> bool
    ensures { result ≡ arrays_in_range (context_of scale.now) arrays.now }
{
    let lats = all_coordinates(scale.lat_offset, scale.granularity, &arrays.lats);
    let lons = all_coordinates(scale.lon_offset, scale.granularity, &arrays.lons);
    let times = all_times(scale.date_granularity, &arrays.timestamps);
    let changesets = all_wide(&arrays.changesets);
    let infos = all_versions(&arrays.versions) & times & changesets & all_uids(&arrays.uids);
    all_wide(&arrays.ids) & lats & lons & infos
}

fn is_user(index: i64, texts: usize) -> bool
    ensures { result ≡ is_index texts index }
{
    (index >= 0) & (index.cast_unsigned() < texts as u64)
}

/// Whether a table of that many texts has all of the users.
pub(crate) fn all_users(users: &[i64], texts: usize) -> bool
    ensures { result ≡ list_all (is_index texts) users.now }
{
    let mut all = true;
    for user in users {
        all &= is_user(*user, texts);
    }
    all
}
