// Two maps under an operation, seen through a window.
ghost use Rattle.std.specs.Prelude.{◌≡◌, true, ◌≤◌};
ghost use Rattle.morton.specs.Power.{highest};

use super::layer::Layer;
use super::operations::Operation;
use morton::Block;
use probe::{Seen, Square};

// What is known of each map over a block.
#[derive(Clone, Copy, Debug, PartialEq, Eq)]
pub struct Known {
    pub first: Seen,
    pub second: Seen,
}

// A block of the window, and what is known of the maps over it.
#[derive(Clone, Copy, Debug, PartialEq, Eq)]
pub struct Glance {
    pub block: Block,
    pub known: Known,
}

impl Glance {
    // The whole of a window of size w, of which nothing is known.
    pub fn whole(w: u64) -> Glance
        requires { w ≤ highest }
        ensures block { (result.block.code ≡ 0) × (result.block.row ≡ 0) × (result.block.column ≡ 0) × (result.block.level ≡ w) }
        ensures known { (result.known.first ≡ Seen.Mixed 0) × (result.known.second ≡ Seen.Mixed 0) }
    {
        Glance {
            block: Block::whole(w),
            known: Known {
                first: Seen::Mixed(0),
                second: Seen::Mixed(0),
            },
        }
    }
}

// What is seen of a block: the colour that both maps show together, if it is one, and what is known of each from then on.
#[derive(Clone, Copy, Debug, PartialEq, Eq)]
pub struct Probe {
    pub all: Option<u8>,
    pub known: Known,
}

// Two maps, as they lie under the window, and the operation that puts them together.
#[derive(Clone, Copy, Debug, PartialEq, Eq)]
pub struct View<'a> {
    pub operation: Operation,
    pub first: Layer<'a>,
    pub second: Layer<'a>,
}

impl<'a> View<'a> {
    ghost use Rattle.painter.specs.Known.{told};
    ghost use Rattle.painter.specs.Windowed.{Windowed};
    ghost use Rattle.painter.specs.View.{cell_in, KnowsAt, ToldAt, KnowsOver, ToldOver, TiledOver};
    ghost use Rattle.tiles.specs.Tile.{Tile};

    // What both maps show together over a square. The second is asked only if what was known of it leaves the operation open.
    // Inlined, so that what it tells does not go through memory.
    #[inline(always)]
    pub fn shown(&self, known: Known, square: Square) -> Probe
        requires { Windowed square × KnowsAt self.now known square }
        ensures { ToldAt self.now square (told result.all) result.known }
    {
        let first = self.first.ask(known.first, square);
        if let Some(colour) = self.operation.joint(first, known.second) {
            let second = known.second;
            return Probe {
                all: Some(colour),
                known: Known { first, second },
            };
        }
        let second = self.second.ask(known.second, square);
        let all = self.operation.joint(first, second);
        Probe {
            all,
            known: Known { first, second },
        }
    }

    // The same over a block of the window.
    #[inline(always)]
    pub fn shown_over(&self, glance: Glance) -> Probe
        requires { KnowsOver self.now glance }
        ensures { ToldOver self.now glance.block (told result.all) result.known }
    {
        self.shown(glance.known, Square::from(glance.block))
    }

    // Whether a block is painted by a tile: it is one, and so can both maps be.
    pub fn tiled(&self, glance: Glance) -> bool
        ensures { result ≡ true → TiledOver self.now glance }
    {
        let first = self.first.tiled(glance.known.first);
        let second = self.second.tiled(glance.known.second);
        (glance.block.level == tiles::LEVEL) & first & second
    }

    // The tile of both maps together over a block of a tile's level.
    pub fn tile(&self, glance: Glance, cells: &mut [u8; 256])
        requires { KnowsOver self.now glance × TiledOver self.now glance }
        ensures { Tile (cell_in self.now) glance.block.row glance.block.column 256 cells.new }
    {
        self.first.tile(glance.known.first, glance.block, cells);
        let mut other = [0; 256];
        self.second
            .tile(glance.known.second, glance.block, &mut other);
        super::operations::combine(self.operation, cells, &other);
    }
}
