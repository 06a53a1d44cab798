//! Where an import begins, how much of its input it reads and which blobs it tells, and how much of each blob is compared, by
//! the words that were given.

ghost use Rattle.std.specs.Prelude.{◌≡◌, ◌<◌, ◌≤◌, IfSome, if◌then◌else◌};
ghost use Rattle.pbfrow_words.specs.Filling.{begins_at, drops};
ghost use Rattle.pbfrow_databases.specs.Starting.{most_bytes};

use osm_import::Told;
use osm_verify::Depth;
use pbfrow_commands::import::Start;

/// What an import drops of its input, and where what comes behind that stands in the file, in bytes.
pub fn start_of(start: pbfrow_words::Start) -> Start
    ensures dropped { result.dropped ≡ drops start }
    ensures at { result.at ≡ begins_at start }
    ensures before { result.dropped ≤ result.at }
{
    match start {
        pbfrow_words::Start::Skip(count) => Start {
            dropped: count,
            at: count,
        },
        pbfrow_words::Start::At(at) => Start { dropped: 0, at },
    }
}

/// How many bytes of its input an import reads at most: those that it drops, and those from its start to the offset at
/// which the input has to end, where there is one.
pub fn most_bytes(start: Start, to: Option<u64>) -> u64
    requires drops { start.dropped ≤ start.at }
    requires ends { IfSome to (λ n. start.at < n) }
    ensures { result ≡ most_bytes start.dropped start.at to }
{
    match to {
        None => u64::MAX,
        Some(to) => start.dropped + (to - start.at),
    }
}

/// Which blobs an import writes a line for: all, or only those that are bad or refused.
pub fn told_of(quiet: bool) -> Told
    ensures { result ≡ (if quiet then Told.Faults else Told.All) }
{
    if quiet { Told::Faults } else { Told::All }
}

/// How much of each blob is compared: its elements too, or its extent alone.
pub fn depth_of(elements: bool) -> Depth
    ensures { result ≡ (if elements then Depth.Elements else Depth.Extents) }
{
    if elements {
        Depth::Elements
    } else {
        Depth::Extents
    }
}
