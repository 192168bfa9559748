// What a square of cells shows that lies within a map or beyond it.
ghost use Rattle.std.specs.Prelude.{◌≡◌, true, ◌+◌, ◌^◌, ◌<◌, ◌≤◌, nat_abs};
ghost use Rattle.morton.specs.Power.{highest};
ghost use Rattle.probe.specs.Biased.{bias, biased, reach, beyondb, cell_about};
ghost use Rattle.probe.specs.Seen.{Shows, Covers, Tells, Holds};
ghost use Rattle.probe.specs.Asked.{cell_at, Cell, Within, Across, About};

use super::seen::Seen;
use morton::{Block, Spread};
use tiling::Map;

// A cell beyond a map counts as WHITE.
pub const BEYOND: u8 = 0;

// What is added to a row or a column, so that it is a number from 0 on wherever a window may lie.
pub const BIAS: u64 = 262144;

// A square of side 2 ^ level, by the row and the column of its upper left cell.
#[derive(Clone, Copy, Debug, PartialEq, Eq)]
pub struct Square {
    pub row: u64,
    pub column: u64,
    pub level: u64,
}

// The square that a block is.
impl From<Block> for Square {
    ghost from_gives = { λ block square. square ≡ record { row = block.row; column = block.column; level = block.level } };

    fn from(block: Block) -> Square {
        Square {
            row: block.row,
            column: block.column,
            level: block.level,
        }
    }
}

// A map that is looked into, and the table by which its cells are coded.
#[derive(Clone, Copy, Debug, PartialEq, Eq)]
pub struct Chart<'a> {
    pub map: Map<'a>,
    pub table: &'a Spread,
}

// A row or a column that may be negative, biased: from here on rows and columns are natural numbers.
pub fn biased(v: i64) -> u64
    requires { nat_abs v ≤ reach }
    ensures { result ≡ biased v }
{
    (v + 262144) as u64
}

impl<'a> Chart<'a> {
    // Whether the aligned square of the level that holds a cell lies in one leaf of the colour.
    fn corner(&self, hint: usize, at: Square, colour: u8) -> bool
        requires { Cell self.now.map.n at.row at.column }
        ensures { result ≡ true → Covers (cell_at self.now.map.list.now) at.row at.column at.level colour }
    {
        let list = self.map.list;
        let w = list[super::search::find(list, self.table.code_of(at.row, at.column), hint)];
        if tiling::colour_of(w) != colour {
            return false;
        }
        at.level <= tiling::level_of(w)
    }

    // Whether a square has the colour of the aligned square that holds its upper left corner: the other three corners tell.
    // A right corner counts only if the column is no multiple of the side, a lower one only if the row is none.
    #[tactic(auto, using(crate::specs::Laws::Corners::two_rows, crate::specs::Laws::Corners::two_columns, crate::specs::Laws::Corners::four_corners))]
    fn across(&self, hint: usize, square: Square, colour: u8) -> bool
        requires { Across self.now.map.n self.now.map.list.now square.row square.column square.level colour }
        ensures { result ≡ true → Shows (cell_at self.now.map.list.now) square.row square.column square.level colour }
    {
        let side = morton::side(square.level);
        let (row, column) = (square.row, square.column);
        let bottom = row + (side - 1);
        let right = column + (side - 1);
        let sw = Square {
            row: bottom,
            ..square
        };
        let ne = Square {
            column: right,
            ..square
        };
        let se = Square { row: bottom, ..ne };
        if column % side == 0 {
            return self.corner(hint, sw, colour);
        }
        if self.corner(hint, ne, colour) {
            if row % side == 0 {
                return true;
            }
            if self.corner(hint, sw, colour) {
                return self.corner(hint, se, colour);
            }
            return false;
        }
        false
    }

    // What a square within the map shows.
    fn look(&self, hint: usize, square: Square) -> Seen
        requires { Within self.now.map.n square.row square.column square.level }
        ensures { Tells (cell_at self.now.map.list.now) square.row square.column square.level result }
    {
        let (row, column) = (square.row, square.column);
        let at = super::search::find(self.map.list, self.table.code_of(row, column), hint);
        let w = self.map.list[at];
        let colour = tiling::colour_of(w);
        let leaf_level = tiling::level_of(w);
        let leaf_side = morton::side(leaf_level);
        let side = morton::side(square.level);
        if (row % leaf_side + side <= leaf_side) & (column % leaf_side + side <= leaf_side) {
            return Seen::One(colour);
        }
        if leaf_level < square.level {
            return Seen::Mixed(at);
        }
        if self.across(at, square, colour) {
            return Seen::One(colour);
        }
        Seen::Mixed(at)
    }

    // Whether a square at a biased row and column lies wholly beyond the map. Inlined, so that asking it first costs no call.
    #[inline(always)]
    pub fn beyond(&self, square: Square) -> bool
        requires { (square.level ≤ highest) × (square.row < 2 ^ 21) × (square.column < 2 ^ 21) }
        ensures { result ≡ beyondb square.row square.column (2 ^ square.level) (bias + 2 ^ self.now.map.n) }
    {
        let side = morton::side(square.level);
        let end = BIAS + morton::side(self.map.n);
        let (row, column) = (square.row, square.column);
        (row + side <= BIAS) | (column + side <= BIAS) | (end <= row) | (end <= column)
    }

    // What a square anywhere about the map shows, at a biased row and column; nothing is known of it but a hint.
    fn look_about(&self, hint: usize, square: Square) -> Seen
        requires { About square.row square.column square.level }
        ensures { Tells (cell_about self.now.map.n self.now.map.list.now) square.row square.column square.level result }
    {
        if self.beyond(square) {
            return Seen::One(BEYOND);
        }
        let side = morton::side(square.level);
        let end = BIAS + morton::side(self.map.n);
        let (row, column) = (square.row, square.column);
        if (row < BIAS) | (column < BIAS) | (end < row + side) | (end < column + side) {
            return Seen::Mixed(hint);
        }
        let within = Square {
            row: row - BIAS,
            column: column - BIAS,
            ..square
        };
        self.look(hint, within)
    }

    // What a square anywhere about the map shows, at a biased row and column, unless it is known already.
    pub fn ask(&self, known: Seen, square: Square) -> Seen
        requires { About square.row square.column square.level × Holds (cell_about self.now.map.n self.now.map.list.now) square.row square.column square.level known }
        ensures { Tells (cell_about self.now.map.n self.now.map.list.now) square.row square.column square.level result }
    {
        match known {
            Seen::One(_) => known,
            Seen::Mixed(hint) => self.look_about(hint, square),
        }
    }
}
