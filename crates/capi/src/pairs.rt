// The shift that a place gives, as a pair of numbers: dy, dx.
ghost use Rattle.std.specs.Prelude.{◌≡◌, cond, ltb, length};
ghost use Rattle.place.specs.Placing.{placed};
ghost use Rattle.capi.specs.Code.{unnamed, pair_coded, pair_left};

use super::codes;
use oboeridge::Place;

pub fn place(p: Place, shift: &mut [i64]) -> u64
    ensures answered { result ≡ cond (ltb (length shift.old) 2) unnamed (pair_coded (placed p)) }
    ensures left { shift.new ≡ cond (ltb (length shift.old) 2) shift.old (pair_left (placed p) shift.old) }
{
    if shift.len() < 2 {
        return codes::UNNAMED;
    }
    match oboeridge::placing(p) {
        Ok(s) => {
            shift[0] = s.dy;
            shift[1] = s.dx;
            0
        }
        Err(r) => codes::refused(r),
    }
}
