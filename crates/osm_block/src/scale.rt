//! What a block says for all its elements.

ghost use Rattle.std.specs.Prelude.{map, IsTrue};
ghost use Rattle.std.specs.List.{list_all};
ghost use Rattle.osm_block.specs.Texts.{is_text};

/// The texts of a block, and the units of its coordinates and times.
#[derive(Drop)]
pub struct Scale<'a> {
    pub table: Vec<&'a str>,
    /// Nanodegrees.
    pub granularity: i32,
    /// Milliseconds.
    pub date_granularity: i32,
    /// Nanodegrees.
    pub lat_offset: i64,
    /// Nanodegrees.
    pub lon_offset: i64,
    ghost texts: { IsTrue (list_all is_text (map (λ t. t.now) table.items)) },
}
