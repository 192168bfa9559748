// The worked cases, run: each line says what was asked and what the call answers. The file `stdout` beside this folder holds
// what the paper says that they answer.
#![tactic(auto)]

use lines::P;
use oboeridge::{Cell, Direction};
use std::io;

fn check(rt: &impl Print, what: &[u8], n: u64, list: &[u64]) -> io::Result<()> {
    lines::asked(rt, b"list check", what)?;
    lines::answer(rt, oboeridge::check(n, list))
}

fn lookup(rt: &impl Print, what: &[u8], n: u64, list: &[u64], cell: Cell) -> io::Result<()> {
    lines::asked(rt, b"lookup", what)?;
    lines::answer(rt, oboeridge::lookup(n, list, cell).map(u64::from))
}

fn neighbour(
    rt: &impl Print,
    what: &[u8],
    n: u64,
    code: u64,
    level: u64,
    direction: Direction,
) -> io::Result<()> {
    lines::asked(rt, b"neighbour", what)?;
    lines::answer(rt, oboeridge::neighbour(n, code, level, direction))
}

// The list of a raster, and what is then left in the space lent, which held nines.
fn to_list<'a>(
    rt: &impl Print,
    what: &'a [u8],
    n: u64,
    cells: &'a [u8],
    lent: &mut [u64],
) -> io::Result<()> {
    lines::asked(rt, b"raster to list", what)?;
    lines::answer(rt, oboeridge::to_list(n, cells, lent))?;
    lines::left(rt, lent)
}

fn to_raster<'a>(rt: &impl Print, what: &'a [u8], n: u64, list: &'a [u64]) -> io::Result<()> {
    lines::asked(rt, b"list to raster", what)?;
    let mut cells = [9u8; 16];
    lines::answer(rt, oboeridge::to_raster(n, list, &mut cells))
}

fn lists(rt: &impl Print) -> io::Result<()> {
    let cells = [1, 1, 0, 0, 1, 1, 0, 1, 0, 0, 1, 1, 0, 0, 1, 1];
    to_list(rt, b"P with room for 9", 2, &cells, &mut [9u64; 9])?;
    to_list(rt, b"P with room for 7", 2, &cells, &mut [9u64; 7])?;
    to_list(rt, b"P with room for 6", 2, &cells, &mut [9u64; 6])?;
    to_list(rt, b"16 cells for size 1", 1, &cells, &mut [9u64; 4])?;
    to_list(
        rt,
        b"one colour with room for 1",
        1,
        &[1, 1, 1, 1],
        &mut [9u64; 1],
    )
}

fn rasters(rt: &impl Print) -> io::Result<()> {
    to_raster(rt, b"P", 2, &P)?;
    to_raster(rt, b"16 cells for size 1", 1, &[257])?;
    to_raster(rt, b"a list that stops short", 2, &[257])
}

fn checks(rt: &impl Print) -> io::Result<()> {
    check(rt, b"P", 2, &P)?;
    check(rt, b"four alike brothers", 1, &[1, 65537, 131073, 196609])?;
    check(rt, b"three leaves of four", 1, &[0, 65536, 131072])?;
    check(rt, b"the empty list", 1, &[])
}

fn more_checks(rt: &impl Print) -> io::Result<()> {
    check(rt, b"a block larger than the map", 1, &[512])?;
    check(rt, b"a block astride two", 2, &[0, 65792])?;
    check(rt, b"an entry past the square", 0, &[0, 65536])
}

fn sizes(rt: &impl Print) -> io::Result<()> {
    check(rt, b"size 12", 12, &[3072])?;
    check(rt, b"size 13", 13, &[3328])
}

fn lookups(rt: &impl Print) -> io::Result<()> {
    let cell = Cell { row: 0, column: 1 };
    lookup(rt, b"P at row 0, column 1", 2, &P, cell)?;
    let cell = Cell { row: 0, column: 2 };
    lookup(rt, b"P at row 0, column 2", 2, &P, cell)?;
    let cell = Cell { row: 1, column: 3 };
    lookup(rt, b"P at row 1, column 3", 2, &P, cell)?;
    let cell = Cell { row: -1, column: 0 };
    lookup(rt, b"P at row -1, column 0", 2, &P, cell)?;
    let cell = Cell { row: 0, column: 4 };
    lookup(rt, b"P at row 0, column 4", 2, &P, cell)?;
    let cell = Cell { row: -1, column: 0 };
    lookup(rt, b"a list that stops short", 1, &[0], cell)
}

fn neighbours(rt: &impl Print) -> io::Result<()> {
    neighbour(
        rt,
        b"east of row 3, column 5 of 8 by 8",
        3,
        27,
        0,
        Direction::East,
    )?;
    neighbour(rt, b"south of it", 3, 27, 0, Direction::South)?;
    neighbour(rt, b"north-west of it", 3, 27, 0, Direction::NorthWest)?;
    neighbour(
        rt,
        b"north-west of the last quarter",
        2,
        12,
        1,
        Direction::NorthWest,
    )
}

fn edges(rt: &impl Print) -> io::Result<()> {
    neighbour(rt, b"north of the first quarter", 2, 0, 1, Direction::North)?;
    neighbour(
        rt,
        b"north-east of the second quarter",
        2,
        4,
        1,
        Direction::NorthEast,
    )?;
    neighbour(
        rt,
        b"south-west of the third quarter",
        2,
        8,
        1,
        Direction::SouthWest,
    )
}

fn addresses(rt: &impl Print) -> io::Result<()> {
    neighbour(
        rt,
        b"of a code that is no quarter's",
        2,
        2,
        1,
        Direction::East,
    )?;
    neighbour(rt, b"of a code past the square", 2, 16, 0, Direction::East)?;
    neighbour(
        rt,
        b"of a level above the square's",
        2,
        0,
        3,
        Direction::East,
    )?;
    neighbour(rt, b"of size 13", 13, 0, 0, Direction::East)
}

fn main(rt: HostRuntime) -> io::Result<()> {
    checks(&rt)?;
    more_checks(&rt)?;
    sizes(&rt)?;
    lookups(&rt)?;
    neighbours(&rt)?;
    edges(&rt)?;
    addresses(&rt)?;
    lists(&rt)?;
    rasters(&rt)
}
