// Lists of leaves. A map is a list of square blocks, each one word, that tile its square in code order: such a list is well formed.
//
// Read first: `check`, which judges a list; `leaf`, which makes a word. What they mean is defined in specs/Leaf.antt,
// specs/WellFormed.antt and specs/Check.antt, and what colour a map has at a cell in specs/Map.antt.
#![tactic(auto)]

ghost use Rattle.std.specs.Prelude.{◌≡◌, true, ◌<◌, ◌≤◌, ◌^◌, cond, ltb, nat_abs};
ghost use Rattle.morton.specs.Code.{code};
ghost use Rattle.morton.specs.Power.{highest};
ghost use Rattle.tiling.specs.Leaf.{leaf, code_of, level_of, colour_of, end_of};
ghost use Rattle.tiling.specs.Map.{limit, within, inside};
ghost use Rattle.tiling.specs.IsMap.{IsMap};
ghost use Rattle.tiling.specs.Check.{right_end, checked};

use morton::{Spot, Spread};
use refusal::Refusal;

// The largest size of a map. A size is a number and no type of its own: where a contract asks `n ≤ highest`, `sized`, a `Map` or the
// caller's own contract has just said so and the check finds it; a type would be taken apart at each `side` and `area` and definition.
pub const LIMIT: u64 = 12;

// A size above the limit is refused, with its number.
pub fn sized(n: u64, number: u64) -> Result<(), Refusal>
    ensures { result ≡ cond (ltb limit n) (Err (Refusal.Size number)) (Ok tt) }
{
    if LIMIT < n {
        return Err(Refusal::Size(number));
    }
    Ok(())
}

// The word of a leaf: a number and no struct, since lists of such words are what is kept, and lent by C.
pub fn leaf(block: Spot, colour: u8) -> u64
    requires { (block.code < 4 ^ highest) × (block.level ≤ highest) }
    ensures { result ≡ leaf block.code block.level colour }
{
    block.code * 65536 + block.level * 256 + colour as u64
}

// The code of a leaf's block.
pub fn code_of(w: u64) -> u64
    ensures { result ≡ code_of w }
{
    w / 65536
}

// The level of a leaf's block.
pub fn level_of(w: u64) -> u64
    ensures { result ≡ level_of w }
{
    w / 256 % 256
}

// The colour of a leaf.
pub fn colour_of(w: u64) -> u8
    ensures { result ≡ colour_of w }
{
    (w % 256) as u8
}

// The end of an entry: the first code past its block.
pub fn end_of(w: u64) -> u64
    requires { level_of w ≤ highest }
    ensures { result ≡ end_of w }
{
    code_of(w) + morton::area(level_of(w))
}

// Where the entry w ends, if it is right in a map of size n and area `whole` after entries that end at `end`.
fn right_end(n: u64, whole: u64, end: u64, w: u64) -> Option<u64>
    requires { (n ≤ highest) × (whole ≡ 4 ^ n) }
    ensures { result ≡ right_end n end w }
{
    let level = level_of(w);
    if n < level {
        return None;
    }
    let area = morton::area(level);
    if code_of(w) != end {
        return None;
    }
    if whole <= end {
        return None;
    }
    if end % area != 0 {
        return None;
    }
    Some(end + area)
}

// A map of size n: the list of its leaves, which is well formed.
#[derive(Clone, Copy, Debug, PartialEq, Eq)]
pub struct Map<'a> {
    pub n: u64,
    pub list: &'a [u64],
    pub ghost is: { IsMap n list.now },
}

impl<'a> Map<'a> {
    ghost use Rattle.tiling.specs.Judged.{Judges};

    // The map of size n, if the list is well formed for it; else what is wrong, as `check` says it: a position and no refusal, for that is
    // the first list's or the second's, which the caller knows.
    #[tactic(auto, using(crate::specs::Laws::Check::tiles_formed))]
    pub fn judged(n: u64, list: &'a [u64]) -> Result<Map<'a>, usize>
        requires { n ≤ highest }
        ensures { Judges n list.now result }
    {
        check(n, list)?;
        Ok(Map { n, list })
    }
}

// The check of a list for a map of size n. What is wrong is the position of the first wrong entry, or the length if the list stops short.
pub fn check(n: u64, list: &[u64]) -> Result<(), usize>
    requires { n ≤ highest }
    ensures { result ≡ checked n list.now }
{
    let whole = morton::area(n);
    let mut end: u64 = 0;
    // the entries before i are right, and end at `end`
    for (i, w) in list.iter().enumerate() {
        end = right_end(n, whole, end, *w).ok_or(i)?;
    }
    if end == whole {
        Ok(())
    } else {
        Err(list.len())
    }
}

// A cell, by its row from the north and its column from the west, which may be negative.
#[derive(Clone, Copy, Debug, PartialEq, Eq)]
pub struct Cell {
    pub row: i64,
    pub column: i64,
}

// Whether a row or a column lies within a square of size n.
fn within(n: u64, v: i64) -> bool
    requires { n ≤ highest }
    ensures { result ≡ within n v }
{
    if v < 0 {
        return false;
    }
    (v as u64) < morton::side(n)
}

// Whether a cell lies within a square of size n.
pub fn inside(n: u64, cell: Cell) -> bool
    requires { n ≤ highest }
    ensures { result ≡ inside n cell.row cell.column }
{
    within(n, cell.row) & within(n, cell.column)
}

// The code of a cell of a square of size n.
pub fn cell_code(n: u64, cell: Cell) -> u64
    requires { (n ≤ highest) × (inside n cell.row cell.column ≡ true) }
    ensures { result ≡ code (nat_abs cell.row) (nat_abs cell.column) }
{
    let spread = Spread::new();
    spread.code_of(cell.row as u64, cell.column as u64)
}
