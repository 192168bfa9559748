// The leaf of a list in which a code lies. No entry is decoded but for its code.
ghost use Rattle.std.specs.Prelude.{◌≡◌, true, ◌≤◌};
ghost use Rattle.tiling.specs.Map.{inside, colour_in};
ghost use Rattle.probe.specs.Search.{Spans, Found, Between, After, Before};

use tiling::{Cell, Map};

// Its place, where it lies at or after one place and before another: the last leaf that does not begin past the code.
fn between(list: &[u64], code: u64, from: usize, to: usize) -> usize
    requires { Between list.now code from to }
    ensures { Found list.now code result }
{
    let ahead = list[from..to].partition_point(|w| tiling::code_of(*w) <= code);
    from + (ahead - 1)
}

// Its place, where it lies at or after one place: by steps that double, of which the library has no search.
fn after(list: &[u64], code: u64, from: usize) -> usize
    requires { After list.now code from }
    ensures { Found list.now code result }
{
    let mut lo = from;
    let mut step: usize = 1;
    // the leaf lies at or after lo
    while step < list.len() - lo {
        let next = lo + step;
        if code < tiling::code_of(list[next]) {
            return between(list, code, lo, next);
        }
        lo = next;
        step = step * 2;
    }
    between(list, code, lo, list.len())
}

// Its place, where it lies before one place: likewise. Steps and tests run the other way round, so the two share no more than `between`.
fn before(list: &[u64], code: u64, to: usize) -> usize
    requires { Before list.now code to }
    ensures { Found list.now code result }
{
    let mut hi = to;
    let mut step: usize = 1;
    // the leaf lies before hi
    while step < hi {
        let next = hi - step;
        if tiling::code_of(list[next]) <= code {
            return between(list, code, next, hi);
        }
        hi = next;
        step = step * 2;
    }
    between(list, code, 0, hi)
}

// The place of the leaf in which a code lies, sought from a hint: a place near it, or any number. The choice between `after`
// and `before` is by hand, since the library has no search from a hint.
pub fn find(list: &[u64], code: u64, hint: usize) -> usize
    requires { Spans list.now code }
    ensures { Found list.now code result }
{
    if list.len() <= hint {
        return between(list, code, 0, list.len());
    }
    if tiling::code_of(list[hint]) <= code {
        return after(list, code, hint);
    }
    before(list, code, hint)
}

// The colour of a cell of a map.
pub fn colour_in(map: &Map, cell: Cell) -> u8
    requires { inside map.now.n cell.row cell.column ≡ true }
    ensures { result ≡ colour_in map.now.n map.now.list.now cell.row cell.column }
{
    let list = map.list;
    let at = find(list, tiling::cell_code(map.n, cell), list.len());
    tiling::colour_of(list[at])
}
