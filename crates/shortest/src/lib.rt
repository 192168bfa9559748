// The shortest list of a picture: a block of one colour is one leaf, any other its four quarters in order.
//
// Whoever walks down a picture, over a raster or over maps, gets the parts of a block's four quarters, and `finish` makes the block of
// them. A quarter of one colour is not stored before it is known that the four do not merge: so no word past the final list is ever
// touched.
//
// Read first: specs/Shortest.antt, and specs/Demand.antt for what is proved of it; then `list`, which makes the list, and `finish`.
#![tactic(auto)]

ghost use Rattle.std.specs.Prelude.{◌≡◌, eqb, ◌+◌, ◌-◌, ◌^◌, ◌<◌, ◌≤◌};
ghost use Rattle.morton.specs.Power.{highest};
ghost use Rattle.shortest.specs.Part.{is_one, size_of, merge, joined};
ghost use Rattle.shortest.specs.Coded.{number_of};
ghost use Rattle.shortest.specs.Written.{filled, settled, finished, Fills, Settles, Finishes};

use morton::{Four, Spot};

mod lists;
mod walk;

pub use lists::{leaves, list, write};
pub use walk::{Look, Picture, count, count_step, put, put_step};

// What a block comes to: the colour of all of it, or the number of leaves of its shortest list.
#[derive(Clone, Copy, Debug, PartialEq, Eq)]
pub enum Part {
    Colour(u8),
    Leaves(u64),
}

impl Part {
    // The leaves that it comes to.
    #[tactic(auto, unfolding(crate::specs::Part::size_of))]
    pub fn size(self) -> u64
        ensures { result ≡ size_of (number_of self) }
    {
        match self {
            Part::Colour(_) => 1,
            Part::Leaves(leaves) => leaves,
        }
    }

    // Whether it is one colour.
    fn is_one(self) -> bool
        ensures { result ≡ is_one (number_of self) }
    {
        matches!(self, Part::Colour(_))
    }

    // Whether it is this colour. The derived equality would say so too, but to compare enum with enum branches at every block, and made
    // raster to list four times as slow.
    fn is_colour(self, colour: u8) -> bool
        ensures { result ≡ eqb (number_of self) colour }
    {
        match self {
            Part::Colour(own) => own == colour,
            Part::Leaves(_) => false,
        }
    }
}

// Whether four quarters are of one colour.
#[tactic(auto, unfolding(crate::specs::Part::merge))]
fn merge(parts: Four<Part>) -> bool
    ensures { result ≡ merge (number_of parts.nw) (number_of parts.ne) (number_of parts.sw) (number_of parts.se) }
{
    match parts.nw {
        Part::Colour(first) => {
            parts.ne.is_colour(first) & parts.sw.is_colour(first) & parts.se.is_colour(first)
        }
        Part::Leaves(_) => false,
    }
}

// The part of a block, from its quarters'.
pub fn joined(parts: Four<Part>) -> Part
    requires { size_of (number_of parts.nw) + size_of (number_of parts.ne) + size_of (number_of parts.sw) + size_of (number_of parts.se) ≤ 4 ^ highest }
    ensures { number_of result ≡ joined (number_of parts.nw) (number_of parts.ne) (number_of parts.sw) (number_of parts.se) }
{
    if merge(parts) {
        return parts.nw;
    }
    Part::Leaves(parts.nw.size() + parts.ne.size() + parts.sw.size() + parts.se.size())
}

// Stores a part that is one colour as the leaf of its block. The place goes beside the memory and not into a slice, here and below:
// what a quarter left is overwritten if the four merge, so a place moves back.
#[tactic(auto, unfolding(crate::specs::Part::size_of, crate::specs::Written::filled))]
pub fn fill(out: &mut [u64], at: u64, part: Part, block: Spot)
    requires { Fills out.old at (number_of part) block.code block.level }
    ensures { out.new ≡ filled out.old at (number_of part) block.code block.level }
{
    if let Part::Colour(colour) = part {
        let i = at as usize;
        out[i] = tiling::leaf(block, colour);
    }
}

// Stores those of a block's quarters that are of one colour, each at its place.
#[tactic(auto, using(crate::specs::Laws::Power::pow_pos))]
fn settle(out: &mut [u64], at: u64, parts: Four<Part>, block: Spot)
    requires { (0 < block.level) × Settles out.old at (number_of parts.nw) (number_of parts.ne) (number_of parts.sw) (number_of parts.se) block.code (block.level - 1) }
    ensures { out.new ≡ settled out.old at (number_of parts.nw) (number_of parts.ne) (number_of parts.sw) (number_of parts.se) block.code (block.level - 1) }
{
    let quarter = block.quarters();
    let ne = at + parts.nw.size();
    let sw = ne + parts.ne.size();
    let se = sw + parts.sw.size();
    fill(out, at, parts.nw, quarter.nw);
    fill(out, ne, parts.ne, quarter.ne);
    fill(out, sw, parts.sw, quarter.sw);
    fill(out, se, parts.se, quarter.se);
}

// The part of a block, from its quarters'. Unless the four merge, those of one colour are stored.
#[tactic(auto, using(crate::specs::Laws::Written::finished_one))]
pub fn finish(out: &mut [u64], at: u64, parts: Four<Part>, block: Spot) -> Part
    requires { (0 < block.level) × Finishes out.old at (number_of parts.nw) (number_of parts.ne) (number_of parts.sw) (number_of parts.se) block.code (block.level - 1) }
    ensures part { number_of result ≡ joined (number_of parts.nw) (number_of parts.ne) (number_of parts.sw) (number_of parts.se) }
    ensures left { out.new ≡ finished out.old at (number_of parts.nw) (number_of parts.ne) (number_of parts.sw) (number_of parts.se) block.code (block.level - 1) }
{
    let part = joined(parts);
    if part.is_one() {
        return part;
    }
    settle(out, at, parts, block);
    part
}
