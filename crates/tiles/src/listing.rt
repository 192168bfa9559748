// A tile as a picture, of which a list is made.
ghost use Rattle.std.specs.Prelude.{◌≡◌, true, ℕ, ◌+◌, ◌^◌, ◌<◌, ◌≤◌, get_or};
ghost use Rattle.morton.specs.Power.{highest};
ghost use Rattle.tiling.specs.Leaf.{colours};
ghost use Rattle.shortest.specs.Coded.{number_of};
ghost use Rattle.shortest.specs.Laws.Flat.{Flat};
ghost use Rattle.tiles.specs.Listing.{spots, Counts};

use morton::{Four, Spot};
use shortest::{Look, Part, Picture};

// The colours of a block of 256 codes, of which this is the first.
#[derive(Clone, Copy, Debug, PartialEq, Eq)]
pub struct Tile<'a> {
    pub cells: &'a [u8; 256],
    pub first: u64,
    pub ghost small: { first + 256 ≤ 4 ^ highest },
    pub ghost bytes: { (j : ℕ) → get_or cells.now j 0 < colours },
}

impl<'a> Tile<'a> {
    // The whole of it.
    pub fn whole(&self) -> Spot
        ensures { (result.code ≡ self.now.first) × (result.level ≡ 4) × Counts self.now.first result.code result.level }
    {
        Spot {
            code: self.first,
            level: super::LEVEL,
        }
    }

    // The colour of the cell at the code k.
    fn cell(&self, k: u64) -> u8
        requires { (self.now.first ≤ k) × (k < self.now.first + 256) }
        ensures { result ≡ spots self.now.cells.now self.now.first k }
    {
        let i = (k - self.first) as usize;
        self.cells[i]
    }

    // The colours of a block of four cells.
    fn four(&self, block: Spot) -> Four<Part>
        requires { (block.level ≡ 1) × Counts self.now.first block.code block.level }
        ensures nw { number_of result.nw ≡ spots self.now.cells.now self.now.first block.code }
        ensures ne { number_of result.ne ≡ spots self.now.cells.now self.now.first (block.code + 1) }
        ensures sw { number_of result.sw ≡ spots self.now.cells.now self.now.first (block.code + 2) }
        ensures se { number_of result.se ≡ spots self.now.cells.now self.now.first (block.code + 3) }
    {
        let k = block.code;
        Four {
            nw: Part::Colour(self.cell(k)),
            ne: Part::Colour(self.cell(k + 1)),
            sw: Part::Colour(self.cell(k + 2)),
            se: Part::Colour(self.cell(k + 3)),
        }
    }

    // Whether the cells of a block are all of one colour.
    fn alike(&self, block: Spot) -> bool
        requires { Counts self.now.first block.code block.level }
        ensures { result ≡ true → Flat (spots self.now.cells.now self.now.first) (spots self.now.cells.now self.now.first block.code) block.level block.code }
    {
        let from = (block.code - self.first) as usize;
        let to = from + morton::area(block.level) as usize;
        let cells = self.cells;
        let colour = cells[from];
        cells[from..to].iter().all(|cell| *cell == colour)
    }
}

impl<'a> Picture for Tile<'a> {
    ghost use Rattle.std.specs.Prelude.{◌-◌};
    ghost use Rattle.tiles.specs.Laws.Listing.{block_fits};

    type Block = Spot;

    ghost colour_at = { λ t. spots t.cells.now t.first };

    ghost code_of = { λ b. b.code };

    ghost level_of = { λ b. b.level };

    ghost Lies = { λ t b. Counts t.first b.code b.level };

    ghost Small = { λ t b. (b.level ≡ 1) × Counts t.first b.code b.level };

    ghost Opens = { λ t b. (1 < b.level) × Counts t.first b.code b.level };

    fn spot(block: Spot) -> Spot
        ensures { (result.code ≡ block.code) × (result.level ≡ block.level) }
    {
        block
    }

    fn look(&self, block: Spot) -> Look<Spot> {
        if block.level == 1 {
            return Look::Small(block);
        }
        if self.alike(block) {
            return Look::One(self.cell(block.code));
        }
        Look::Closer(block)
    }

    // A raster has this line and that of `put_small` too: one line each over `joined` and `finish`, and a method that the trait provides
    // would ask a view for four cells as well.
    fn count_small(&self, block: Spot) -> Part {
        shortest::joined(self.four(block))
    }

    fn put_small(&self, block: Spot, out: &mut [u64], at: u64) -> Part {
        shortest::finish(out, at, self.four(block), block)
    }

    fn quarters(&self, block: Spot) -> Four<Spot> {
        block.quarters()
    }

    ghost coloured = { λ t b lies k. t.bytes (k - t.first) };

    ghost fits = { λ t b lies. block_fits t.first b.code b.level lies };
}
