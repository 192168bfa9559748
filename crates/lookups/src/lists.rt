// Calls on one list: the check, and the colour of a cell.
ghost use Rattle.std.specs.Prelude.{◌≡◌, ℕ, ltb};
ghost use Rattle.refusal.specs.Answer.{Answer, refuse_if};
ghost use Rattle.refusal.specs.Judged.{unless, refuse_wrong};
ghost use Rattle.refusal.specs.Read.{answered};
ghost use Rattle.refusal.specs.Rules.{size, first_list};
ghost use Rattle.tiling.specs.Map.{limit};
ghost use Rattle.tiling.specs.Check.{checked};
ghost use Rattle.tiling.specs.Judged.{Gives};
ghost use Rattle.lookups.specs.Lists.{list_check, cell_lookup};

use refusal::Refusal;
use tiling::{Cell, Map};

// The first map of a call, of size n; its size and its list are judged.
fn first_map(n: u64, list: &[u64]) -> Result<Map<'_>, Refusal>
    ensures judged { (x : Answer ℕ) → unless result x ≡ refuse_if (ltb limit n) size 0 (refuse_wrong first_list (checked n list.now) x) }
    ensures map { Gives n list.now result }
{
    tiling::sized(n, 0)?;
    Map::judged(n, list).map_err(|i| Refusal::FirstList(i as u64))
}

// The number of leaves of a list that is well formed for a map of size n.
#[tactic(auto, unfolding(crate::specs::Lists::list_check))]
pub fn check(n: u64, list: &[u64]) -> Result<u64, Refusal>
    ensures { answered result ≡ list_check n list.now }
{
    let map = first_map(n, list)?;
    Ok(map.list.len() as u64)
}

// The colour of a cell of a map of size n.
#[tactic(auto, unfolding(crate::specs::Lists::cell_lookup))]
pub fn lookup(n: u64, list: &[u64], cell: Cell) -> Result<u8, Refusal>
    ensures { answered result ≡ cell_lookup n list.now cell.row cell.column }
{
    let map = first_map(n, list)?;
    if !tiling::inside(n, cell) {
        return Err(Refusal::Outside);
    }
    Ok(probe::colour_in(&map, cell))
}
