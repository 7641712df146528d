//! The place of a token in a text: its line, its column, and its first bytes.
//!
//! The text comes in pieces from a reader, in one pass, and none of it is kept but the first bytes of the token. The
//! search takes O(bytes read) time and no memory. Lines, and columns in bytes, are numbered from 1; tokens from 0, and
//! they are those of [`auc_graph`].
//!
//! Proved: the place is that of the token in the whole text, and there is none exactly where the text has no such
//! token.
#![tactic(auto)]

mod cursor;
mod finding;
mod place;
mod search;

pub use place::{MOST_SHOWN, Place};
pub use search::{SearchFault, find_token};
