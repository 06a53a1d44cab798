//! Elements in columns: arrays of a caller that hold one number for each element, tag, reference or member, and texts by their
//! indexes in a list of texts, as Arrow and numpy have them.
#![tactic(auto)]

mod columns;
mod counts;
mod dense_numbers;
mod dense_texts;
mod dictionary;
mod element_column;
mod end_column;
mod ends;
mod indexes;
mod items;
mod list_column;
mod lists;
mod numbers;
mod put;
mod tag_ends;
mod tally;
mod values;

pub use columns::{
    Columns, ElementColumns, MemberColumns, RefColumns, TagColumns, TextColumn, columns_fit,
    texts_fit,
};
pub use counts::{Counts, Survey, survey_of, text_bytes_of};
pub use indexes::TextIndexes;
pub use put::{put_columns, put_texts};
