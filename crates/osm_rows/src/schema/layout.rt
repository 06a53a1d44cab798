//! The two ways in which a store keeps elements.

/// How a store keeps elements.
#[derive(Clone, Copy, Debug, PartialEq, Eq)]
pub enum Layout {
    /// Each is a row of one table, with a block of its own, its body.
    Bodies,
    /// Each is a row of numbers and texts, with further rows for its tags, and for its nodes or members.
    Tables,
}

/// The layout of all stores of a type.
pub trait StoreLayout {
    ghost use Rattle.osm_rows.specs.declared.schema.layout.Layout.{Layout};

    ghost LAYOUT: { Layout };

    /// How each store of this type keeps elements.
    const LAYOUT: Layout;
}

/// Each element is a row of numbers and texts, with further rows for its tags, and for its nodes or members.
pub struct Tables;

impl StoreLayout for Tables {
    ghost use Rattle.osm_rows.specs.declared.schema.layout.Layout.TheVariants as layouts;

    ghost LAYOUT = { layouts.Tables };

    const LAYOUT: Layout = Layout::Tables;
}
