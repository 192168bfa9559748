// Calls that look something up and write nothing: the check of a list, the colour of a cell, the neighbour of a block.
//
// Read first: specs/Lists.antt and specs/Neighbour.antt, and specs/Allowed.antt for when each answer is allowed; then `check`.
#![tactic(auto)]

mod lists;
mod neighbours;

pub use lists::{check, lookup};
pub use neighbours::{Direction, neighbour};
pub use tiling::Cell;
