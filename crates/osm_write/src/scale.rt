//! What a block says for all its elements: its texts and its granularities.

ghost use Rattle.std.specs.Prelude.{◌≡◌, ◌<◌, ◌^◌, ◌-◌, pos, option_map};
ghost use Rattle.osm_value.specs.Ranges.{IsWide};
ghost use Rattle.osm_write.specs.Arrays.{IsWideOrNone};
ghost use Rattle.osm_write.specs.Canon.{index_of, raw_coordinate, times_of};
ghost use Rattle.osm_write.specs.Scale.{view};

use crate::texts::TextTable;
use osm_value::Info;

#[derive(Drop)]
pub(crate) struct Scale<'a> {
    pub(crate) texts: TextTable<'a>,
    /// All coordinates are divisible by 100.
    pub(crate) hundreds: bool,
    /// All times are divisible by 1000.
    pub(crate) thousands: bool,
}

impl<'a> Scale<'a> {
    pub(crate) fn index_of(&self, text: &str) -> u64
        ensures exact { result ≡ index_of (view self.now) text.now }
        ensures small { result < 2 ^ 62 - 1 }
    {
        self.texts.index_of(text) as u64 + 1
    }

    /// The index of the user, where one is known.
    pub(crate) fn index_of_user(&self, info: &Info) -> Option<i64>
        ensures exact { result ≡ option_map (λ t. pos (index_of (view self.now) t)) info.now.user }
        ensures in_range { IsWideOrNone result }
    {
        match info.user() {
            Some(user) => Some(self.index_of(user) as i64),
            None => None,
        }
    }

    /// The number that stands for a coordinate.
    pub(crate) fn raw_coordinate(&self, nanodegrees: i64) -> i64
        requires { IsWide nanodegrees }
        ensures exact { result ≡ raw_coordinate (view self.now) nanodegrees }
        ensures in_range { IsWide result }
    {
        if self.hundreds {
            nanodegrees / 100
        } else {
            nanodegrees
        }
    }

    /// The number that stands for a time.
    pub(crate) fn raw_time(&self, milliseconds: Option<i64>) -> Option<i64>
        requires { IsWideOrNone milliseconds }
        ensures exact { result ≡ times_of (view self.now) milliseconds }
        ensures in_range { IsWideOrNone result }
    {
        match milliseconds {
            Some(time) if self.thousands => Some(time / 1000),
            _ => milliseconds,
        }
    }
}
