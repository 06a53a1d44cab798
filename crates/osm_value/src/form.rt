//! The forms in which elements are exported.

/// The output format of an export: as lines of text, or as a new PBF file.
#[derive(Clone, Copy, Debug, PartialEq, Eq)]
pub enum Form {
    Lines,
    Pbf,
}
