//! Elements of OpenStreetMap as values: absolute numbers and texts inside their ranges, and their lines of text.
#![tactic(auto)]

mod element;
mod fault;
mod form;
pub mod laws;
mod line;
mod outlet;
mod pieces;
mod range;
mod sink;

pub use element::{Element, Info, Member, MemberKind, Node, Relation, Way};
pub use fault::LineFault;
pub use form::Form;
pub use line::write_line;
pub use outlet::Outlet;
pub use pieces::{put, put_digits, put_escaped, put_number};
pub use range::{text_in_range, uid_in_range, version_in_range, wide_in_range};
pub use sink::{Sink, SinkFailed};
