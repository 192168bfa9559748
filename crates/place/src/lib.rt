// Placing: where the second map's upper left cell lies, in the first map's rows and columns. Rows grow southward, columns eastward.
#![tactic(auto)]

ghost use Rattle.std.specs.Prelude.{ℕ, ◌≡◌, ◌≤◌, pos, ◌<ℤ◌, ◌+◌, cond, unsigned_abs};
ghost use Rattle.std.specs.Result.{IfOk, IfErr};
ghost use Rattle.refusal.specs.Read.{answered};
ghost use Rattle.place.specs.Placing.{reach, in1024ths, cell_side, exact, far, offsets, between, reading, on_ground, placed};
ghost use Rattle.place.specs.Laws.Readings.{Within};

use refusal::Refusal;

// A ground reference: the north and the east of a map's north-west corner, and the side of its cells.
#[derive(Clone, Copy, Debug, PartialEq)]
pub struct Ground {
    pub north: f64,
    pub east: f64,
    pub cell: f64,
}

// A place: a row and a column in cells, or the first map's ground reference and the second's.
#[derive(Clone, Copy, Debug, PartialEq)]
pub enum Place {
    Cells(i64, i64),
    OnGround(Ground, Ground),
}

// So many rows down and so many columns to the right.
#[derive(Clone, Copy, Debug, PartialEq, Eq)]
pub struct Shift {
    pub dy: i64,
    pub dx: i64,
}

// A ground reference in 1024ths.
#[derive(Clone, Copy, Debug, PartialEq, Eq)]
pub struct Reading {
    pub north: i64,
    pub east: i64,
    pub cell: i64,
}

// A usable ground number in 1024ths. The product is exact, and the comparison tells whether the cast cut anything off.
pub fn scaled(x: f64) -> Option<i64>
    ensures { result ≡ in1024ths x }
{
    if x >= -16777216.0 {
        if x <= 16777216.0 {
            let s = x * 1024.0;
            let n = std::num::truncating_f64_to_i64(s);
            if std::num::nearest_i64_to_f64(n) == s {
                return Some(n);
            }
        }
    }
    None
}

// A cell side is above zero as well.
#[tactic(auto, unfolding(crate::specs::Placing::cell_side))]
pub fn side(x: f64) -> Option<i64>
    ensures { result ≡ cell_side x }
{
    scaled(x).filter(|n| *n > 0)
}

// A ground reference, or a refusal with the number of its first that is not usable: its three count from `first` on.
#[tactic(auto, using(crate::specs::Laws::Readings::no_cell), unfolding(crate::specs::Placing::reading))]
fn read(g: Ground, first: u64) -> Result<Reading, Refusal>
    requires { first ≤ 3 }
    ensures read { IfOk result (λ a. reading g ≡ Ok a) }
    ensures refused { IfErr result (λ r. (k : ℕ) × (reading g ≡ Err k) × (r ≡ Refusal.GroundNumber (k + first))) }
{
    let north = scaled(g.north).ok_or(Refusal::GroundNumber(first))?;
    let east = scaled(g.east).ok_or(Refusal::GroundNumber(first + 1))?;
    let cell = side(g.cell).ok_or(Refusal::GroundNumber(first + 2))?;
    Ok(Reading { north, east, cell })
}

// How many times c goes into z, where it does so without a rest.
#[tactic(auto, using(crate::proofs::Quotient::whole_times, crate::specs::Laws::Integers::exact_no))]
pub fn times(z: i64, c: i64) -> Option<i64>
    requires { pos 0 <ℤ c }
    ensures { result ≡ exact z c }
{
    if z % c == 0 { Some(z / c) } else { None }
}

// Whether an offset is outside -65,536 .. 65,536.
pub fn far(z: i64) -> bool
    ensures { result ≡ far z }
{
    z.unsigned_abs() > 65536
}

// An offset or an origin that is too far is refused, with its number.
pub fn near(z: i64, number: u64) -> Result<(), Refusal>
    ensures { result ≡ cond (far z) (Err (Refusal.Offset number)) (Ok tt) }
{
    if far(z) {
        return Err(Refusal::Offset(number));
    }
    Ok(())
}

#[tactic(auto, unfolding(crate::specs::Placing::offsets))]
fn offset(dy: i64, dx: i64) -> Result<Shift, Refusal>
    ensures { answered result ≡ offsets dy dx }
{
    near(dy, 0)?;
    near(dx, 1)?;
    Ok(Shift { dy, dx })
}

// The shift between two references that are read: north falls as rows grow, east grows with columns.
#[tactic(auto, using(crate::specs::Laws::Integers::same_no, crate::specs::Laws::Integers::same_yes), unfolding(crate::specs::Placing::between))]
fn measured(a: Reading, b: Reading) -> Result<Shift, Refusal>
    requires first_within { Within (Ok a) }
    requires second_within { (unsigned_abs b.north ≤ reach) × (unsigned_abs b.east ≤ reach) }
    ensures { answered result ≡ between a b }
{
    if a.cell != b.cell {
        return Err(Refusal::CellSides);
    }
    let dy = times(a.north - b.north, a.cell).ok_or(Refusal::PartOfACell(0))?;
    let dx = times(b.east - a.east, a.cell).ok_or(Refusal::PartOfACell(1))?;
    offset(dy, dx)
}

#[tactic(auto, using(crate::specs::Laws::Readings::within), unfolding(crate::specs::Placing::on_ground))]
fn on_ground(first: Ground, second: Ground) -> Result<Shift, Refusal>
    ensures { answered result ≡ on_ground first second }
{
    let a = read(first, 0)?;
    let b = read(second, 3)?;
    measured(a, b)
}

// The shift that a place gives.
#[tactic(auto, unfolding(crate::specs::Placing::placed))]
pub fn placing(p: Place) -> Result<Shift, Refusal>
    ensures { answered result ≡ placed p }
{
    match p {
        Place::Cells(dy, dx) => offset(dy, dx),
        Place::OnGround(first, second) => on_ground(first, second),
    }
}
