// The neighbour of a block: the block of the same level one side away.
ghost use Rattle.std.specs.Prelude.{◌≡◌, ◌<◌, ◌≤◌, ◌^◌, pos, ◌+ℤ◌, ◌*ℤ◌, nat_abs};
ghost use Rattle.morton.specs.Power.{highest};
ghost use Rattle.refusal.specs.Read.{answered};
ghost use Rattle.lookups.specs.Neighbour.{is_block, southward, eastward, neighbour};

use refusal::Refusal;
use tiling::Cell;

// The eight directions, clockwise from north.
#[derive(Clone, Copy, Debug, PartialEq, Eq)]
pub enum Direction {
    North,
    NorthEast,
    East,
    SouthEast,
    South,
    SouthWest,
    West,
    NorthWest,
}

impl Direction {
    // How many sides away it leads, to the south and to the east.
    fn away(self) -> (i64, i64)
        ensures { result ≡ (southward self, eastward self) }
    {
        match self {
            Direction::North => (-1, 0),
            Direction::NorthEast => (-1, 1),
            Direction::East => (0, 1),
            Direction::SouthEast => (1, 1),
            Direction::South => (1, 0),
            Direction::SouthWest => (1, -1),
            Direction::West => (0, -1),
            Direction::NorthWest => (-1, -1),
        }
    }
}

// A row or a column, so many sides on; it may be negative.
#[tactic(auto, using(tiling::specs::Laws::Signed::abs_once, tiling::specs::Laws::Signed::abs_sum, tiling::specs::Laws::Signed::small_fits))]
fn stepped(v: u64, ways: i64, side: u64) -> i64
    requires { (v < 2 ^ 16) × (nat_abs ways ≤ 1) × (side ≤ 2 ^ highest) }
    ensures { result ≡ pos v +ℤ ways *ℤ pos side }
{
    v as i64 + ways * side as i64
}

// Whether a code and a level are those of a block of a square of size n, a number for the reason given at `tiling::LIMIT`.
// They are two numbers and no `morton::Spot`, since they are a block's only once this is answered.
fn is_block(n: u64, code: u64, level: u64) -> bool
    requires { n ≤ highest }
    ensures { result ≡ is_block n code level }
{
    if n < level {
        return false;
    }
    (code < morton::area(n)) & (code % morton::area(level) == 0)
}

// The code of the block of the same level one side away, in a square of size n.
#[tactic(auto, unfolding(crate::specs::Neighbour::neighbour))]
pub fn neighbour(n: u64, code: u64, level: u64, direction: Direction) -> Result<u64, Refusal>
    ensures { answered result ≡ neighbour n code level direction }
{
    tiling::sized(n, 0)?;
    if !is_block(n, code, level) {
        return Err(Refusal::BlockAddress);
    }
    let side = morton::side(level);
    let (southward, eastward) = direction.away();
    let row = stepped(morton::row_of(code), southward, side);
    let column = stepped(morton::column_of(code), eastward, side);
    let cell = Cell { row, column };
    if !tiling::inside(n, cell) {
        return Err(Refusal::Outside);
    }
    Ok(tiling::cell_code(n, cell))
}
