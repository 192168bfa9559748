// The raster of a list, block by block: a block that lies in one leaf is filled at once, a tile leaf by leaf, any other by its quarters.
ghost use Rattle.std.specs.Prelude.{◌≡◌, ℕ, ◌^◌, ◌<◌, length, get_or};
ghost use Rattle.probe.specs.Asked.{cell_at};
ghost use Rattle.rasters.specs.Raster.{raster_of};
ghost use Rattle.rasters.specs.Blocks.{Square, Rows, Order, alone, tile_cell};

use morton::{Block, Four, Spread};
use tiling::Map;

// The code of each cell of a tile, row by row: in memory that is lent, since a table that is answered is copied.
fn put_order(table: &Spread, order: &mut [u16; 256])
    ensures { Order order.new }
{
    // the codes of the cells before j are there
    for (j, place) in order.iter_mut().enumerate() {
        let k = j as u64;
        let code = table.code_of(k / 16, k % 16);
        *place = code as u16;
    }
}

// Fills the square of a block with a colour.
fn square(n: u64, cells: &mut [u8], block: Block, colour: u8)
    requires { Square n (length cells.old) block.row block.column block.level }
    ensures { Rows n (alone colour) block.row block.column (2 ^ block.level) (2 ^ block.level) cells.old cells.new }
{
    let width = morton::side(n);
    let side = morton::side(block.level);
    // the rows before it are filled
    for row in 0..side {
        let from = ((block.row + row) * width + block.column) as usize;
        tiles::store(cells, from, from + side as usize, colour);
    }
}

// A map that is written out, and the order of a tile's cells, which is made once and lent. The raster's memory is no field beside them: it is the
// caller's and goes down a recursion, and each contract, which names `cells` itself, would speak of it through the struct's borrow.
#[derive(Clone, Copy, Debug, PartialEq, Eq)]
struct Filler<'a> {
    map: Map<'a>,
    order: &'a [u16; 256],
    ghost rows: { Order order.now },
}

impl<'a> Filler<'a> {
    // Stores the tile of a block.
    fn put_tile(&self, tile: &[u8; 256], cells: &mut [u8], block: Block)
        requires { (block.level ≡ 4) × Square self.now.map.n (length cells.old) block.row block.column 4 }
        ensures { Rows self.now.map.n (tile_cell tile.now block.row block.column) block.row block.column 16 16 cells.old cells.new }
    {
        let width = morton::side(self.map.n);
        let order = self.order;
        // the rows before it are stored
        for row in 0..16 {
            let place = ((block.row + row) * width + block.column) as usize;
            let first = 16 * row as usize;
            let codes = &order[first..first + 16];
            tiles::gather(codes, tile, &mut cells[place..place + 16]);
        }
    }

    // Fills a tile with the colours of the map. Its first leaf is sought from a hint.
    fn fill_tile(&self, hint: usize, cells: &mut [u8], block: Block)
        requires { (block.level ≡ 4) × Square self.now.map.n (length cells.old) block.row block.column 4 }
        ensures { Rows self.now.map.n (cell_at self.now.map.list.now) block.row block.column 16 16 cells.old cells.new }
    {
        let mut tile = [0; 256];
        tiles::decode(&self.map, block.code, hint, &mut tile, 0);
        self.put_tile(&tile, cells, block);
    }

    // Fills a block with the colours of the map. Its first leaf is sought from a hint.
    #[tactic(auto, using(crate::specs::Laws::Blocks::walk_spans))]
    fn walk(&self, hint: usize, cells: &mut [u8], block: Block)
        requires { Square self.now.map.n (length cells.old) block.row block.column block.level }
        ensures { Rows self.now.map.n (cell_at self.now.map.list.now) block.row block.column (2 ^ block.level) (2 ^ block.level) cells.old cells.new }
    {
        let at = probe::find(self.map.list, block.code, hint);
        let w = self.map.list[at];
        if block.level <= tiling::level_of(w) {
            square(self.map.n, cells, block, tiling::colour_of(w));
            return;
        }
        if block.level == tiles::LEVEL {
            self.fill_tile(at, cells, block);
            return;
        }
        let Four { nw, ne, sw, se } = block.quarters();
        self.walk(at, cells, nw);
        self.walk(at, cells, ne);
        self.walk(at, cells, sw);
        self.walk(at, cells, se);
    }
}

// Fills a raster with the colours of a map.
pub fn fill(map: &Map, cells: &mut [u8])
    requires { length cells.old ≡ 4 ^ map.now.n }
    ensures { cells.new ≡ raster_of map.now.n map.now.list.now }
{
    let mut order = [0; 256];
    put_order(&Spread::new(), &mut order);
    let filler = Filler {
        map: *map,
        order: &order,
    };
    filler.walk(0, cells, Block::whole(map.n));
}
