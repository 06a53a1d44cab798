//! The numbers of a store's trees: its tables and their indexes.

/// The table of the layout's version.
pub const META: u32 = 0;

/// The table of blobs.
pub const BLOBS: u32 = 1;

/// The table of elements.
pub const ELEMENTS: u32 = 2;

/// The index of its primary key: offset and position.
pub const ELEMENT_KEY: u32 = 3;

/// The table of tags.
pub const TAGS: u32 = 4;

/// The index of its primary key: offset, position and number.
pub const TAG_KEY: u32 = 5;

/// The table of links.
pub const LINKS: u32 = 6;

/// The index of its primary key: offset, position and number.
pub const LINK_KEY: u32 = 7;

/// The index of elements by kind and id.
pub const ELEMENT_BY_ID: u32 = 8;

/// How many trees a store has. Those from this number on are the user's.
pub const TREES: u64 = 9;
