// A raster as a picture, of which a list is made: four cells at a time, or sixteen.
ghost use Rattle.std.specs.Prelude.{◌≡◌, ℕ, ◌+◌, ◌<◌, ◌≤◌, get_or};
ghost use Rattle.morton.specs.Code.{code};
ghost use Rattle.tiling.specs.Leaf.{colours};
ghost use Rattle.shortest.specs.Coded.{number_of};
ghost use Rattle.rasters.specs.Raster.{pixel};
ghost use Rattle.rasters.specs.Listing.{Rastered, Pixel, Inside};

use morton::{Block, Four, Spot};
use shortest::{Look, Part, Picture};

// A map of size n, cell by cell.
#[derive(Clone, Copy, Debug, PartialEq, Eq)]
pub struct Raster<'a> {
    pub n: u64,
    pub cells: &'a [u8],
    pub ghost rastered: { Rastered n cells.now },
    pub ghost bytes: { (j : ℕ) → get_or cells.now j 0 < colours },
}

impl<'a> Raster<'a> {
    // The colour of the cell at row y and column x.
    fn cell(&self, y: u64, x: u64) -> u8
        requires { Pixel self.now.n y x }
        ensures { result ≡ pixel self.now.n self.now.cells.now (code y x) }
    {
        let i = (y * morton::side(self.n) + x) as usize;
        self.cells[i]
    }

    // The colours of a block of four cells.
    fn four(&self, block: Block) -> Four<Part>
        requires { (block.level ≡ 1) × Inside self.now.n block.row block.column block.level }
        ensures nw { number_of result.nw ≡ pixel self.now.n self.now.cells.now block.code }
        ensures ne { number_of result.ne ≡ pixel self.now.n self.now.cells.now (block.code + 1) }
        ensures sw { number_of result.sw ≡ pixel self.now.n self.now.cells.now (block.code + 2) }
        ensures se { number_of result.se ≡ pixel self.now.n self.now.cells.now (block.code + 3) }
    {
        let (y, x) = (block.row, block.column);
        Four {
            nw: Part::Colour(self.cell(y, x)),
            ne: Part::Colour(self.cell(y, x + 1)),
            sw: Part::Colour(self.cell(y + 1, x)),
            se: Part::Colour(self.cell(y + 1, x + 1)),
        }
    }
}

impl<'a> Picture for Raster<'a> {
    ghost use Rattle.std.specs.Prelude.{◌<◌};
    ghost use Rattle.rasters.specs.Laws.Pixel.{coloured, block_fits};

    type Block = Block;

    ghost colour_at = { λ r. pixel r.n r.cells.now };

    ghost code_of = { λ b. b.code };

    ghost level_of = { λ b. b.level };

    ghost Lies = { λ r b. Inside r.n b.row b.column b.level };

    ghost Small = { λ r b. (b.level ≡ 1) × Inside r.n b.row b.column b.level };

    ghost Opens = { λ r b. (0 < b.level) × Inside r.n b.row b.column b.level };

    fn spot(block: Block) -> Spot
        ensures { (result.code ≡ block.code) × (result.level ≡ block.level) }
    {
        Spot::from(block)
    }

    fn look(&self, block: Block) -> Look<Block> {
        match block.level {
            0 => Look::One(self.cell(block.row, block.column)),
            1 => Look::Small(block),
            _ => Look::Closer(block),
        }
    }

    fn count_small(&self, block: Block) -> Part {
        Fours { raster: *self }.count_small(block)
    }

    fn put_small(&self, block: Block, out: &mut [u64], at: u64) -> Part {
        Fours { raster: *self }.put_small(block, out, at)
    }

    fn quarters(&self, block: Block) -> Four<Block> {
        Sixteens { raster: *self }.quarters(block)
    }

    ghost coloured = { λ r b lies k. coloured r.n r.cells.now r.bytes k };

    ghost fits = { λ r b lies. block_fits b };
}

// A raster of which a list is made sixteen cells at a time: most blocks of a raster are as small, and cost no call so.
#[derive(Clone, Copy, Debug, PartialEq, Eq)]
pub struct Sixteens<'a> {
    pub raster: Raster<'a>,
}

impl<'a> Picture for Sixteens<'a> {
    ghost use Rattle.std.specs.Prelude.{◌<◌};
    ghost use Rattle.rasters.specs.Laws.Pixel.{coloured, block_fits};

    type Block = Block;

    ghost colour_at = { λ s. pixel s.raster.n s.raster.cells.now };

    ghost code_of = { λ b. b.code };

    ghost level_of = { λ b. b.level };

    ghost Lies = { λ s b. Inside s.raster.n b.row b.column b.level };

    ghost Small = { λ s b. (0 < b.level) × (b.level ≤ 2) × Inside s.raster.n b.row b.column b.level };

    ghost Opens = { λ s b. (0 < b.level) × Inside s.raster.n b.row b.column b.level };

    fn spot(block: Block) -> Spot
        ensures { (result.code ≡ block.code) × (result.level ≡ block.level) }
    {
        Spot::from(block)
    }

    fn look(&self, block: Block) -> Look<Block> {
        match block.level {
            0 => Look::One(self.raster.cell(block.row, block.column)),
            1 | 2 => Look::Small(block),
            _ => Look::Closer(block),
        }
    }

    // One step of the walk, over fours, of which none is looked at. Inlined, as the step is.
    #[inline(always)]
    fn count_small(&self, block: Block) -> Part {
        let fours = Fours {
            raster: self.raster,
        };
        if block.level == 1 {
            return fours.count_small(block);
        }
        shortest::count_step(&fours, sixteen(block))
    }

    #[inline(always)]
    fn put_small(&self, block: Block, out: &mut [u64], at: u64) -> Part {
        let fours = Fours {
            raster: self.raster,
        };
        if block.level == 1 {
            return fours.put_small(block, out, at);
        }
        shortest::put_step(&fours, sixteen(block), out, at)
    }

    fn quarters(&self, block: Block) -> Four<Block> {
        block.quarters()
    }

    ghost coloured = { λ s b lies k. coloured s.raster.n s.raster.cells.now s.raster.bytes k };

    ghost fits = { λ s b lies. block_fits b };
}

// A block of sixteen cells. Its level is written here, so that all that is computed from it is a constant.
#[inline(always)]
fn sixteen(block: Block) -> Block
    requires { block.level ≡ 2 }
    ensures { (result.code ≡ block.code) × (result.row ≡ block.row) × (result.column ≡ block.column) × (result.level ≡ block.level) }
{
    Block {
        code: block.code,
        row: block.row,
        column: block.column,
        level: 2,
    }
}

// A raster of which nothing but blocks of four cells is looked at, as the quarters of blocks of sixteen.
#[derive(Clone, Copy, Debug, PartialEq, Eq)]
struct Fours<'a> {
    raster: Raster<'a>,
}

impl<'a> Picture for Fours<'a> {
    ghost use Rattle.rasters.specs.Laws.Pixel.{coloured, block_fits};

    type Block = Block;

    ghost colour_at = { λ f. pixel f.raster.n f.raster.cells.now };

    ghost code_of = { λ b. b.code };

    ghost level_of = { λ b. b.level };

    ghost Lies = { λ f b. (b.level ≡ 1) × Inside f.raster.n b.row b.column b.level };

    ghost Small = { λ f b. (b.level ≡ 1) × Inside f.raster.n b.row b.column b.level };

    ghost Opens = { λ f b. (b.level ≡ 2) × Inside f.raster.n b.row b.column b.level };

    fn spot(block: Block) -> Spot
        ensures { (result.code ≡ block.code) × (result.level ≡ block.level) }
    {
        Spot::from(block)
    }

    fn look(&self, block: Block) -> Look<Block> {
        Look::Small(block)
    }

    // A tile has this line and that of `put_small` too: one line each over `joined` and `finish`, and a method that the trait provides
    // would ask a view for four cells as well.
    fn count_small(&self, block: Block) -> Part {
        shortest::joined(self.raster.four(block))
    }

    fn put_small(&self, block: Block, out: &mut [u64], at: u64) -> Part {
        shortest::finish(out, at, self.raster.four(block), Spot::from(block))
    }

    fn quarters(&self, block: Block) -> Four<Block> {
        Block::quarters(block)
    }

    ghost coloured = { λ f b lies k. coloured f.raster.n f.raster.cells.now f.raster.bytes k };

    ghost fits = { λ f b lies. block_fits b };
}
