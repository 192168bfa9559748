// From a raster to its list and back. A raster is one byte a cell, row by row.
//
// Read first: specs/Raster.antt; then `Raster` and `Sixteens`, the pictures of which a list is made, and `fill`, which makes the raster of a list.
#![tactic(auto)]

mod blocks;
mod listing;
#[cfg(test)]
mod tests;

pub use blocks::fill;
pub use listing::{Raster, Sixteens};
