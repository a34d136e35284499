//! Lines of bytes, and the fields of a line in the plain form.
#![tactic(auto)]

mod law;
mod pieces;
mod plain;
mod space;

pub use law::{pieces_are_unique, pieces_give_the_bytes_back, pieces_have_no_line_feed};
pub use pieces::{next_piece, without_return};
pub use plain::plain_fields_ahead;
