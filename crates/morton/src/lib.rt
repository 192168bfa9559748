// Cells, codes and blocks. A cell's Morton code interleaves the bits of its row and its column; a block of level L is a square of
// side 2 ^ L whose code is that of its upper left cell.
//
// Read first: `Spread::code_of`, `row_of`, `column_of` and `Block`. What they compute is defined in specs/Code.antt and specs/Block.antt.
#![tactic(auto)]

ghost use Rattle.std.specs.Prelude.{◌≡◌, ◌≤◌, ◌^◌};
ghost use Rattle.morton.specs.Code.{gathered, row_of, column_of, bits};
ghost use Rattle.morton.specs.Power.{Power, highest};

mod block;
mod spread;
mod table;

pub use block::{Block, Four, Spot};
pub use spread::Spread;

// The bits at the even places of a number of so many digits in base 4, brought together.
fn gather(digits: u64, k: u64) -> u64
    requires { digits ≤ bits }
    ensures { result ≡ gathered digits k }
{
    if digits == 0 {
        return 0;
    }
    2 * gather(digits - 1, k / 4) + k % 2
}

// The row of the cell whose code is k.
pub fn row_of(k: u64) -> u64
    ensures { result ≡ row_of k }
{
    gather(16, k / 2)
}

// The column of the cell whose code is k. It and `row_of` share `gather`, and are two names since a cell has a row and a column.
pub fn column_of(k: u64) -> u64
    ensures { result ≡ column_of k }
{
    gather(16, k)
}

// The side of a block of the level, in cells. It and `area` are a shift each: one function of both would be no shorter than either.
pub fn side(level: u64) -> u64
    requires { level ≤ highest }
    ensures { Power 2 level result }
{
    1u64 << level
}

// The number of cells of a block of the level.
pub fn area(level: u64) -> u64
    requires { level ≤ highest }
    ensures { Power 4 level result }
{
    1u64 << (2 * level)
}
