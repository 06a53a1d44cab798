//! Numbers of an info, as wide as they are written.

ghost use Rattle.std.specs.Prelude.{◌≡◌, option_map};
ghost use Rattle.std.specs.Int.{w64, cast_unsigned};
ghost use Rattle.osm_write.specs.Arrays.{IsWideOrNone};
ghost use Rattle.osm_write.specs.Canon.{flag_number};

use osm_value::Info;

pub(crate) fn version_of(info: &Info) -> Option<i64>
    ensures { result ≡ info.now.version }
{
    info.version().map(i64::from)
}

#[tactic(auto, using(crate::proofs::Deltas::uid_is_wide))]
pub(crate) fn uid_of(info: &Info) -> Option<i64>
    ensures exact { result ≡ info.now.uid }
    ensures in_range { IsWideOrNone result }
{
    info.uid().map(i64::from)
}

/// The version as it is written: in two's complement.
pub(crate) fn version_number(info: &Info) -> Option<u64>
    ensures { result ≡ option_map (cast_unsigned w64) info.now.version }
{
    version_of(info).map(i64::cast_unsigned)
}

/// The flag of visibility as it is written.
pub(crate) fn visible_number(info: &Info) -> Option<u64>
    ensures { result ≡ option_map flag_number info.now.visible }
{
    info.visible().map(flag_number)
}

/// A flag as it is written.
pub(crate) fn flag_number(flag: bool) -> u64
    ensures { result ≡ flag_number flag }
{
    u64::from(flag)
}
