// Tiles: the colours of a block of 256 cells, in the order of their codes.
//
// Where leaves are small, asking for a block and then for its quarters costs a search each time. A tile is decoded at once, leaf by
// leaf, since a leaf's cells stand together in the order of codes; a tile that lies across the blocks of a map is gathered from the four
// that it touches. The list of a block is then made from its tile, with no search at all.
//
// Read first: specs/Tile.antt; then `tile`, which decodes, and `Tile`, the picture of which the list is made.
#![tactic(auto)]

mod decoding;
mod listing;

pub use decoding::{LEVEL, decode, gather, put_steps, steps, store, tile};
pub use listing::Tile;
