// The shortest list of a whole picture: counted, written, or refused if there is no room for it. The whole goes beside the picture and is
// not asked of it, since a view of two maps would hold its window's size for these three alone.
ghost use Rattle.std.specs.Prelude.{◌≡◌, ◌≤◌, ◌++◌, length, drop};
ghost use Rattle.refusal.specs.Read.{answered};
ghost use Rattle.shortest.specs.Shortest.{shortest};
ghost use Rattle.shortest.specs.Outcome.{fitting, written, left};

use super::fill;
use super::walk::{Picture, count, put};
use refusal::Refusal;

// The number of leaves of a picture's shortest list.
pub fn leaves<P: Picture>(picture: &P, whole: P::Block) -> u64
    requires { P.Lies picture.now whole × (P.code_of whole ≡ 0) }
    ensures { result ≡ length (shortest (P.colour_at picture.now) (P.level_of whole) 0) }
{
    count(picture, whole).size()
}

// Writes a picture's shortest list, for which there is room, and says how many leaves it has.
pub fn write<P: Picture>(picture: &P, whole: P::Block, out: &mut [u64]) -> u64
    requires { P.Lies picture.now whole × (P.code_of whole ≡ 0) × (length (shortest (P.colour_at picture.now) (P.level_of whole) 0) ≤ length out.old) }
    ensures counted { result ≡ length (shortest (P.colour_at picture.now) (P.level_of whole) 0) }
    ensures left { out.new ≡ shortest (P.colour_at picture.now) (P.level_of whole) 0 ++ drop (length (shortest (P.colour_at picture.now) (P.level_of whole) 0)) out.old }
{
    let part = put(picture, whole, out, 0);
    fill(out, 0, part, P::spot(whole));
    part.size()
}

// Writes a picture's shortest list and says how many leaves it has, or refuses that there is no room for it. Where 4 ^ n words or more are
// lent every list fits, and none is counted first.
pub fn list<P: Picture>(picture: &P, whole: P::Block, out: &mut [u64]) -> Result<u64, Refusal>
    requires { P.Lies picture.now whole × (P.code_of whole ≡ 0) }
    ensures answered { answered result ≡ written (fitting (shortest (P.colour_at picture.now) (P.level_of whole) 0) (length out.old)) }
    ensures left { out.new ≡ left (fitting (shortest (P.colour_at picture.now) (P.level_of whole) 0) (length out.old)) out.old }
{
    if (out.len() as u64) < morton::area(P::spot(whole).level) {
        let leaves = leaves(picture, whole);
        if (out.len() as u64) < leaves {
            return Err(Refusal::NoRoom(leaves));
        }
    }
    Ok(write(picture, whole, out))
}
