// Two maps under an operation as a picture, of which a list is made.
ghost use Rattle.std.specs.Prelude.{◌≡◌, ◌<◌};
ghost use Rattle.std.proofs.lemmas.List.Edits.{sets};
ghost use Rattle.shortest.specs.Part.{part};
ghost use Rattle.shortest.specs.Coded.{number_of};
ghost use Rattle.shortest.specs.Written.{inner, Placed};

use super::scene::{Glance, View};
use morton::{Four, Spot};
use shortest::{Look, Part, Picture};
use tiles::Tile;

impl<'a> View<'a> {
    ghost use Rattle.painter.specs.View.{picture_in, KnowsOver, TiledOver};
    ghost use Rattle.shortest.specs.Laws.Same.{Same};
    ghost use Rattle.tiles.specs.Listing.{spots};

    // The tile over a block, in cells that are lent for it.
    fn tile_over<'c>(&self, glance: Glance, cells: &'c mut [u8; 256]) -> Tile<'c>
        requires { KnowsOver self.now glance × TiledOver self.now glance }
        ensures { (result.first ≡ glance.block.code) × Same (spots result.cells.now result.first) (picture_in self.now) 4 glance.block.code }
    {
        self.tile(glance, cells);
        Tile {
            cells,
            first: glance.block.code,
        }
    }
}

impl<'a> Picture for View<'a> {
    ghost use Rattle.painter.specs.View.{picture_in, KnowsOver, TiledOver};
    ghost use Rattle.painter.specs.Laws.Views.{view_coloured, glance_fits};

    type Block = Glance;

    ghost colour_at = { picture_in };

    ghost code_of = { λ g. g.block.code };

    ghost level_of = { λ g. g.block.level };

    ghost Lies = { λ v g. KnowsOver v g };

    ghost Small = { λ v g. KnowsOver v g × TiledOver v g };

    ghost Opens = { λ v g. (0 < g.block.level) × KnowsOver v g };

    fn spot(glance: Glance) -> Spot
        ensures { (result.code ≡ glance.block.code) × (result.level ≡ glance.block.level) }
    {
        Spot::from(glance.block)
    }

    fn look(&self, glance: Glance) -> Look<Glance> {
        let seen = self.shown_over(glance);
        if let Some(colour) = seen.all {
            return Look::One(colour);
        }
        let closer = Glance {
            block: glance.block,
            known: seen.known,
        };
        if self.tiled(closer) {
            return Look::Small(closer);
        }
        Look::Closer(closer)
    }

    fn count_small(&self, glance: Glance) -> Part {
        let mut cells = [0; 256];
        let tile = self.tile_over(glance, &mut cells);
        shortest::count(&tile, tile.whole())
    }

    fn put_small(&self, glance: Glance, out: &mut [u64], at: u64) -> Part {
        let mut cells = [0; 256];
        let tile = self.tile_over(glance, &mut cells);
        shortest::put(&tile, tile.whole(), out, at)
    }

    fn quarters(&self, glance: Glance) -> Four<Glance> {
        let Four { nw, ne, sw, se } = glance.block.quarters();
        let known = glance.known;
        Four {
            nw: Glance { block: nw, known },
            ne: Glance { block: ne, known },
            sw: Glance { block: sw, known },
            se: Glance { block: se, known },
        }
    }

    ghost coloured = { λ v g lies k. view_coloured v k };

    ghost fits = { λ v g lies. glance_fits g.block };
}
