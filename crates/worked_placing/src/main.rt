// The worked cases of placing, run. The file `stdout` beside this folder holds what the paper says that they answer.
#![tactic(auto)]

use oboeridge::{Ground, Place, Shift};
use std::io;

fn shifted(rt: &impl Print, s: Shift) -> io::Result<()> {
    println!(rt; ": ({}, {})", s.dy, s.dx)
}

fn placing(rt: &impl Print, what: &[u8], p: Place) -> io::Result<()> {
    lines::asked(rt, b"placing", what)?;
    match oboeridge::placing(p) {
        Ok(s) => shifted(rt, s),
        Err(r) => lines::refused(rt, r),
    }
}

// The first map at north 1000, east 500, cell 10.
fn against(rt: &impl Print, what: &[u8], north: f64, east: f64, cell: f64) -> io::Result<()> {
    let first = Ground {
        north: 1000.0,
        east: 500.0,
        cell: 10.0,
    };
    placing(
        rt,
        what,
        Place::OnGround(first, Ground { north, east, cell }),
    )
}

// The first map's cells of side 1; the second map at the origin.
fn from_origin(rt: &impl Print, what: &[u8], north: f64, east: f64) -> io::Result<()> {
    let second = Ground {
        north: 0.0,
        east: 0.0,
        cell: 1.0,
    };
    let first = Ground {
        north,
        east,
        cell: 1.0,
    };
    placing(rt, what, Place::OnGround(first, second))
}

// The first map at a north, its cells of a side; the second at the origin, its cells of side a half.
fn halves(rt: &impl Print, what: &[u8], north: f64, cell: f64) -> io::Result<()> {
    let first = Ground {
        north,
        east: 0.0,
        cell,
    };
    let second = Ground {
        north: 0.0,
        east: 0.0,
        cell: 0.5,
    };
    placing(rt, what, Place::OnGround(first, second))
}

fn corners(rt: &impl Print) -> io::Result<()> {
    against(
        rt,
        b"30 south and 20 east in cells of 10",
        970.0,
        520.0,
        10.0,
    )?;
    against(rt, b"30 north and 20 west", 1030.0, 480.0, 10.0)?;
    against(rt, b"25 south", 975.0, 520.0, 10.0)?;
    against(rt, b"25 east", 970.0, 525.0, 10.0)?;
    against(rt, b"cells of 5 under cells of 10", 970.0, 520.0, 5.0)
}

fn numbers(rt: &impl Print) -> io::Result<()> {
    against(rt, b"a tenth for a north", 0.1, 520.0, 10.0)?;
    against(rt, b"no number for a north", 0.0 / 0.0, 520.0, 10.0)?;
    against(rt, b"without end west", 970.0, -1.0 / 0.0, 10.0)?;
    against(rt, b"cells without end", 970.0, 520.0, 1.0 / 0.0)
}

fn sides(rt: &impl Print) -> io::Result<()> {
    against(rt, b"cells of 0", 970.0, 520.0, 0.0)?;
    against(rt, b"cells of minus 0", 970.0, 520.0, -0.0)?;
    against(rt, b"cells of minus 10", 970.0, 520.0, -10.0)?;
    halves(rt, b"a half for a north, in cells of a half", 0.5, 0.5)?;
    halves(rt, b"a 2000th for a cell", 0.5, 0.0005)
}

fn limits(rt: &impl Print) -> io::Result<()> {
    from_origin(rt, b"65,536 rows, and minus 0 for an east", 65536.0, -0.0)?;
    from_origin(rt, b"65,537 rows, whole but too far", 65537.0, 0.0)?;
    from_origin(rt, b"65,537 columns", 0.0, 65537.0)?;
    from_origin(rt, b"north 16,777,216, usable but too far", 16777216.0, 0.0)?;
    from_origin(rt, b"a 1024th beyond", 16777216.0009765625, 0.0)?;
    from_origin(rt, b"a 1024th beyond, west", 0.0, -16777216.0009765625)
}

fn cells(rt: &impl Print) -> io::Result<()> {
    placing(rt, b"in cells", Place::Cells(3, 2))?;
    placing(rt, b"in cells, the farthest", Place::Cells(65536, -65536))?;
    placing(rt, b"in cells, a row beyond", Place::Cells(-65537, 65537))?;
    placing(rt, b"in cells, a column beyond", Place::Cells(0, 65537))
}

fn main(rt: HostRuntime) -> io::Result<()> {
    corners(&rt)?;
    numbers(&rt)?;
    sides(&rt)?;
    limits(&rt)?;
    cells(&rt)
}
