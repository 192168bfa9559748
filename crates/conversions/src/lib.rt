// The calls that convert: a raster to its shortest list, and a list to its raster. A raster is one byte a cell, row by row.
//
// Read first: specs/Rasters.antt, and specs/Allowed.antt for when each outcome is allowed; then `to_list`.
#![tactic(auto)]

ghost use Rattle.std.specs.Prelude.{◌≡◌, ◌^◌, ltb, eqb, not, length};
ghost use Rattle.refusal.specs.Answer.{gives, refuse_if};
ghost use Rattle.refusal.specs.Read.{answered};
ghost use Rattle.refusal.specs.Rules.{size, raster_length};
ghost use Rattle.tiling.specs.Map.{limit};
ghost use Rattle.shortest.specs.Outcome.{written, left};
ghost use Rattle.conversions.specs.Rasters.{raster_to_list, list_to_raster};

use morton::Block;
use rasters::{Raster, Sixteens};
use refusal::Refusal;
use tiling::Map;

// The number of cells of a map of size n, where a raster of this length has them.
fn whole(n: u64, length: usize) -> Result<u64, Refusal>
    ensures { answered result ≡ refuse_if (ltb limit n) size 0 (refuse_if (not (eqb length (4 ^ n))) raster_length 0 (gives (4 ^ n))) }
{
    tiling::sized(n, 0)?;
    let area = morton::area(n);
    if length as u64 != area {
        return Err(Refusal::RasterLength);
    }
    Ok(area)
}

// Writes the shortest list of a map of size n, given cell by cell, and counts its leaves.
#[tactic(auto, unfolding(crate::specs::Rasters::raster_to_list))]
pub fn to_list(n: u64, cells: &[u8], out: &mut [u64]) -> Result<u64, Refusal>
    ensures answered { answered result ≡ written (raster_to_list n cells.now (length out.old)) }
    ensures left { out.new ≡ left (raster_to_list n cells.now (length out.old)) out.old }
{
    whole(n, cells.len())?;
    let raster = Raster { n, cells };
    shortest::list(&Sixteens { raster }, Block::whole(n), out)
}

// Fills the raster of a map of size n, and counts its cells.
#[tactic(auto, unfolding(crate::specs::Rasters::list_to_raster))]
pub fn to_raster(n: u64, list: &[u64], cells: &mut [u8]) -> Result<u64, Refusal>
    ensures answered { answered result ≡ written (list_to_raster n list.now (length cells.old)) }
    ensures left { cells.new ≡ left (list_to_raster n list.now (length cells.old)) cells.old }
{
    let whole = whole(n, cells.len())?;
    let map = Map::judged(n, list).map_err(|i| Refusal::FirstList(i as u64))?;
    rasters::fill(&map, cells);
    Ok(whole)
}
