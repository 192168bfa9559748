// From a map to a tile of it.
ghost use Rattle.std.specs.Prelude.{◌≡◌, ℕ, ◌+◌, ◌≤◌, ◌<◌, length, get_or};
ghost use Rattle.morton.specs.Code.{code};
ghost use Rattle.morton.specs.Power.{highest};
ghost use Rattle.tiling.specs.Leaf.{end_of, level_of};
ghost use Rattle.probe.specs.Biased.{cell_about};
ghost use Rattle.tiles.specs.Tile.{Stored, Tile, Steps, plain, codes};
ghost use Rattle.tiles.specs.Decoding.{Decodes, Aligned, About, last_of};

use morton::Spread;
use probe::square::{BEYOND, BIAS};
use probe::{Chart, Seen, Square};
use tiling::Map;

// The level of a tile; it has 16 cells a side, 256 in all.
pub const LEVEL: u64 = 4;

// Stores a colour at the places from one on and before another, of which there is often only one.
pub fn store(cells: &mut [u8], from: usize, to: usize, colour: u8)
    requires { (from ≤ to) × (to ≤ length cells.old) }
    ensures { Stored cells.old from to (plain colour) cells.new }
{
    if to == from + 1 {
        cells[from] = colour;
        return;
    }
    cells[from..to].fill(colour);
}

// Where a leaf's cells end among those of the 256 codes from one on, the first of which is at the place `from`.
fn last_of(w: u64, code: u64, from: usize) -> usize
    requires { (level_of w ≤ highest) × (code ≤ end_of w) × (from ≤ 1024) }
    ensures { result ≡ last_of w code from }
{
    let count = tiling::end_of(w) - code;
    if count < 256 {
        return from + count as usize;
    }
    from + 256
}

// Stores the colours of the 256 codes from one on, leaf by leaf. The loop ends by the place and not by the list, so an iterator over leaves
// would need a second test, and a proof that it does not end first. The place `from` stands beside the memory, which is no slice from there
// on: this public function promised what it does of any memory of up to 1,024 cells, and may ask no more.
pub fn decode(map: &Map, code: u64, hint: usize, cells: &mut [u8], from: usize)
    requires { Decodes map.now.n code from (length cells.old) }
    ensures { Stored cells.old from (from + 256) (codes map.now.list.now code from) cells.new }
{
    let end = from + 256;
    let mut at = probe::find(map.list, code, hint);
    let mut place = from;
    // the cells before place have their colours, and the next lies in the leaf at `at`
    while place < end {
        let w = map.list[at];
        let next = last_of(w, code, from);
        store(cells, place, next, tiling::colour_of(w));
        place = next;
        at += 1;
    }
}

// Stores the cells of the aligned block at a biased row and column, which may lie beyond the map. They are a slice and no array, since they
// are a quarter of a larger one: to make an array of a slice can fail, and here cannot.
fn block(chart: &Chart, hint: usize, row: u64, column: u64, cells: &mut [u8])
    requires { Aligned chart.now.map.n row column × (length cells.old ≡ 256) }
    ensures { Tile (cell_about chart.now.map.n chart.now.map.list.now) row column 256 cells.new }
{
    let square = Square {
        row,
        column,
        level: LEVEL,
    };
    if chart.beyond(square) {
        store(cells, 0, 256, BEYOND);
        return;
    }
    let code = chart.table.code_of(row - BIAS, column - BIAS);
    decode(&chart.map, code, hint, cells, 0);
}

// Decodes the square of two aligned blocks a side at a biased row and column.
fn decode_four(chart: &Chart, hint: usize, row: u64, column: u64, cells: &mut [u8; 1024])
    requires { Aligned chart.now.map.n row column × Aligned chart.now.map.n (row + 16) (column + 16) }
    ensures { Tile (cell_about chart.now.map.n chart.now.map.list.now) row column 1024 cells.new }
{
    block(chart, hint, row, column, &mut cells[..256]);
    block(chart, hint, row, column + 16, &mut cells[256..512]);
    block(chart, hint, row + 16, column, &mut cells[512..768]);
    block(chart, hint, row + 16, column + 16, &mut cells[768..]);
}

// Where each cell of a tile stands that lies so many rows and columns within four aligned blocks.
pub fn steps(row: u64, column: u64, table: &Spread) -> [u16; 256]
    requires { (row < 16) × (column < 16) }
    ensures { Steps row column result }
{
    let mut steps = [0; 256];
    put_steps(row, column, table, &mut steps);
    steps
}

// The same, in memory that is lent: a table that is answered is copied, by a call that the archive for C would need from outside.
#[tactic(auto, using(crate::specs::Laws::Codes::tile_cell_lem))]
pub fn put_steps(row: u64, column: u64, table: &Spread, steps: &mut [u16; 256])
    requires { (row < 16) × (column < 16) }
    ensures { Steps row column steps.new }
{
    // the steps before j are there
    for (j, step) in steps.iter_mut().enumerate() {
        let k = j as u64;
        let code = table.code_of(row + morton::row_of(k), column + morton::column_of(k));
        *step = code as u16;
    }
}

// Takes each cell from its place among others: a tile's from four blocks by the steps, a row of a raster from a tile by the codes.
pub fn gather(places: &[u16], from: &[u8], cells: &mut [u8])
    requires { (length places.now ≡ length cells.old) × ((j : ℕ) → j < length cells.old → get_or places.now j 0 < length from.now) }
    ensures { (j : ℕ) → j < length cells.old → get_or cells.new j 0 ≡ get_or from.now (get_or places.now j 0) 0 }
{
    // the cells before j are there
    for (j, cell) in cells.iter_mut().enumerate() {
        *cell = from[places[j] as usize];
    }
}

// Decodes the tile anywhere about a map, at a biased row and column: they name it, and no `Square`, whose level would always be a tile's.
pub fn tile(
    chart: &Chart,
    known: Seen,
    row: u64,
    column: u64,
    steps: &[u16; 256],
    cells: &mut [u8; 256],
)
    requires { About chart.now.map.n chart.now.map.list.now known row column steps.now }
    ensures { Tile (cell_about chart.now.map.n chart.now.map.list.now) row column 256 cells.new }
{
    let hint = match known {
        Seen::One(colour) => {
            store(cells, 0, 256, colour);
            return;
        }
        Seen::Mixed(hint) => hint,
    };
    let down = row % 16;
    let right = column % 16;
    if (down == 0) & (right == 0) {
        block(chart, hint, row, column, cells);
        return;
    }
    let mut four = [0; 1024];
    decode_four(chart, hint, row - down, column - right, &mut four);
    gather(steps, &four, cells);
}
