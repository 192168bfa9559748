// What a square of cells of one map shows, wherever it lies: one colour, or look closer.
//
// Read first: `find`, which finds the leaf that holds a code, and `Chart::ask`, which answers for a square anywhere about a map.
// Both promise the same whatever hint they are given; a hint only makes them faster.
#![tactic(auto)]

pub mod search;
pub mod seen;
pub mod square;

pub use search::{colour_in, find};
pub use seen::Seen;
pub use square::{Chart, Square, biased};
