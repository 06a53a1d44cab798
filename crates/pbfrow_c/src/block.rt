//! Blocks in columns.

ghost use Rattle.osm_block.specs.Phases.{Gives, fault};
ghost use Rattle.pbfrow_c.specs.Blocks.{IsReading, CountsAnswer, ColumnsAnswer};

use osm_block::{BlockError, BlockGroups, read_block_groups};
use osm_columns::{Columns, Counts, Survey, columns_fit, put_columns, survey_of};
use std::alloc::Global;

/// The number of the answer that an array is too short for its column.
const NO_ROOM: u8 = 72;

/// The groups of a block, and what has to be known before their columns are written.
#[derive(Drop)]
struct Reading<'a> {
    groups: BlockGroups<'a>,
    survey: Survey<'a>,
}

/// Reads a block. `Memory` is also answered where a column would have 2^64 items.
fn read<'a>(alloc: Global, block: &'a [u8]) -> Result<Reading<'a>, BlockError>
    ensures { Gives (IsReading block.now) (fault block.now) result }
{
    let groups = read_block_groups(alloc, block)?;
    let survey = survey_of(alloc, &groups)?;
    Ok(Reading { groups, survey })
}

/// How many elements a block has, and how long their columns are. `block` is the payload of an OSMData blob, raw.
///
/// The status is 0; or the number of the block's first fault, 40 to 52; or 65 where memory was refused. Where it isn't 0, nothing
/// is written.
#[unsafe(no_mangle)]
pub extern "C" fn pbfrow_block_counts(alloc: Global, block: &[u8], counts: &mut Counts) -> u8
    ensures { CountsAnswer block.now counts.old counts.new result }
{
    match read(alloc, block) {
        Ok(reading) => {
            *counts = reading.survey.counts;
            0
        }
        Err(error) => error.number(),
    }
}

/// The elements of a block in columns, from the first item of each array on, and how long these are. `block` is the payload of an
/// OSMData blob, raw. What is behind a column stays.
///
/// The status is 0; or 72 where an array is too short for its column: then the counts say how long the arrays have to be, and no
/// array is written to; or as that of `pbfrow_block_counts`, and then nothing is written.
#[unsafe(no_mangle)]
pub extern "C" fn pbfrow_block_columns(
    alloc: Global,
    block: &[u8],
    counts: &mut Counts,
    columns: &mut Columns,
) -> u8
    ensures { ColumnsAnswer block.now counts.old counts.new columns.old columns.new result }
{
    match read(alloc, block) {
        Ok(reading) => {
            let room = columns_fit(&reading.survey.counts, columns);
            if room {
                put_columns(&reading.groups, &reading.survey, columns);
            }
            *counts = reading.survey.counts;
            if room { 0 } else { NO_ROOM }
        }
        Err(error) => error.number(),
    }
}
