// One of the two maps, as it lies under the window.
ghost use Rattle.std.specs.Prelude.{◌≡◌, true, ◌+◌, ◌%◌, ◌^◌, ◌<◌};
ghost use Rattle.probe.specs.Seen.{Holds, Tells};
ghost use Rattle.probe.specs.Biased.{cell_about};
ghost use Rattle.tiles.specs.Tile.{Steps, Tile};
ghost use Rattle.tiles.specs.Decoding.{Serves};
ghost use Rattle.painter.specs.Windowed.{Windowed};

use morton::Block;
use probe::{Chart, Seen, Square};

// A map, where the window's first cell lies in it, at a biased row and column, and the steps of the window's tiles in it: the same for
// all of them, since they are a tile's side apart. They stand in memory that is lent, for a layer that held them would be copied with them.
#[derive(Clone, Copy, Debug, PartialEq, Eq)]
pub struct Layer<'a> {
    pub chart: Chart<'a>,
    pub row: u64,
    pub column: u64,
    pub steps: &'a [u16; 256],
    pub ghost near: { (row < 2 ^ 19) × (column < 2 ^ 19) },
    pub ghost stepped: { Steps (row % 16) (column % 16) steps.now },
}

impl<'a> Layer<'a> {
    pub fn new(chart: Chart<'a>, row: u64, column: u64, room: &'a mut [u16; 256]) -> Layer<'a>
        requires { (row < 2 ^ 19) × (column < 2 ^ 19) }
        ensures map { (result.chart.map.n ≡ chart.entry.map.n) × (result.chart.map.list.now ≡ chart.entry.map.list.now) }
        ensures place { (result.row ≡ row) × (result.column ≡ column) }
    {
        tiles::put_steps(row % 16, column % 16, chart.table, room);
        Layer {
            chart,
            row,
            column,
            steps: room,
        }
    }

    // What the map shows over a square of the window, unless it is known already.
    pub(crate) fn ask(&self, known: Seen, square: Square) -> Seen
        requires { Windowed square × Holds (cell_about self.now.chart.map.n self.now.chart.map.list.now) (self.now.row + square.row) (self.now.column + square.column) square.level known }
        ensures { Tells (cell_about self.now.chart.map.n self.now.chart.map.list.now) (self.now.row + square.row) (self.now.column + square.column) square.level result }
    {
        let about = Square {
            row: self.row + square.row,
            column: self.column + square.column,
            ..square
        };
        self.chart.ask(known, about)
    }

    // Whether the map can be painted by tiles: it is known over the block or at least as large as one.
    pub(crate) fn tiled(&self, known: Seen) -> bool
        ensures { result ≡ true → Serves self.now.chart.map.n known }
    {
        match known {
            Seen::One(_) => true,
            Seen::Mixed(_) => tiles::LEVEL <= self.chart.map.n,
        }
    }

    // The map's tile over a block of a tile's level.
    pub(crate) fn tile(&self, known: Seen, block: Block, cells: &mut [u8; 256])
        requires level { block.level ≡ 4 }
        requires known { Holds (cell_about self.now.chart.map.n self.now.chart.map.list.now) (self.now.row + block.row) (self.now.column + block.column) 4 known }
        requires large { Serves self.now.chart.map.n known }
        ensures { Tile (cell_about self.now.chart.map.n self.now.chart.map.list.now) (self.now.row + block.row) (self.now.column + block.column) 256 cells.new }
    {
        let (row, column) = (self.row + block.row, self.column + block.column);
        tiles::tile(&self.chart, known, row, column, self.steps, cells);
    }
}
