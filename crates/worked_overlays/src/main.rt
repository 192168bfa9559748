// The worked cases of overlay and window, run. The file `stdout` beside this folder holds what the paper says that they answer.
#![tactic(auto)]

use lines::P;
use oboeridge::{Frame, Operation, Shift, Window};
use std::io;

// The black leaf S on the picture P, and what is then left in the space lent, which held nines.
fn on_p(
    rt: &impl Print,
    what: &[u8],
    operation: Operation,
    shift: Shift,
    lent: &mut [u64],
) -> io::Result<()> {
    lines::asked(rt, b"S on P", what)?;
    let s = [257u64];
    lines::answer(
        rt,
        oboeridge::overlay(operation, 2, &P, 1, &s, shift, Frame::OfFirst, lent),
    )?;
    lines::left(rt, lent)
}

fn window(rt: &impl Print, what: &[u8], window: Window, lent: &mut [u64]) -> io::Result<()> {
    lines::asked(rt, b"window of P", what)?;
    lines::answer(rt, oboeridge::window_of(2, &P, window, lent))?;
    lines::left(rt, lent)
}

fn overlays(rt: &impl Print) -> io::Result<()> {
    let at = Shift { dy: 1, dx: 1 };
    on_p(
        rt,
        b"intersection",
        Operation::Intersection,
        at,
        &mut [9u64; 12],
    )?;
    on_p(rt, b"union", Operation::Union, at, &mut [9u64; 16])?;
    on_p(
        rt,
        b"difference",
        Operation::Difference,
        at,
        &mut [9u64; 13],
    )
}

fn rooms(rt: &impl Print) -> io::Result<()> {
    let at = Shift { dy: 1, dx: 1 };
    on_p(
        rt,
        b"with room for 10",
        Operation::Intersection,
        at,
        &mut [9u64; 10],
    )?;
    on_p(
        rt,
        b"with room for 9",
        Operation::Intersection,
        at,
        &mut [9u64; 9],
    )?;
    let south = Shift { dy: 4, dx: 0 };
    on_p(
        rt,
        b"south of it",
        Operation::Intersection,
        south,
        &mut [9u64; 2],
    )?;
    let far = Shift { dy: 0, dx: 65537 };
    on_p(
        rt,
        b"too far east",
        Operation::Intersection,
        far,
        &mut [9u64; 2],
    )
}

fn windows(rt: &impl Print) -> io::Result<()> {
    window(
        rt,
        b"from row -1, column -1",
        Window {
            wy: -1,
            wx: -1,
            size: 1,
        },
        &mut [9u64; 5],
    )?;
    window(
        rt,
        b"of size 3",
        Window {
            wy: 0,
            wx: 0,
            size: 3,
        },
        &mut [9u64; 10],
    )
}

// A map of size m on one of size 1 that is WHITE, WHITE, 2 and 2, seen through a window; what is then left, which held nines.
fn laid<'a>(
    rt: &impl Print,
    what: &'a [u8],
    operation: Operation,
    m: u64,
    second: &'a [u64],
    shift: Shift,
    window: Window,
) -> io::Result<()> {
    lines::asked(rt, b"on four cells", what)?;
    let first = [0u64, 65536, 131074, 196610];
    let mut lent = [9u64; 4];
    lines::answer(
        rt,
        oboeridge::overlay(
            operation,
            1,
            &first,
            m,
            second,
            shift,
            Frame::At(window),
            &mut lent,
        ),
    )?;
    lines::left(rt, &lent)
}

// The table of the operations: WHITE and WHITE, WHITE and 3, 2 and WHITE, 2 and 3.
fn table(rt: &impl Print) -> io::Result<()> {
    let b = [0u64, 65539, 131072, 196611];
    let at = Shift { dy: 0, dx: 0 };
    let own = seen_from(0, 0);
    laid(rt, b"intersection", Operation::Intersection, 1, &b, at, own)?;
    laid(rt, b"union", Operation::Union, 1, &b, at, own)?;
    laid(rt, b"difference", Operation::Difference, 1, &b, at, own)
}

// One cell of colour 3 joined to those four.
fn joined<'a>(rt: &impl Print, what: &'a [u8], shift: Shift, window: Window) -> io::Result<()> {
    laid(rt, what, Operation::Union, 0, &[3], shift, window)
}

fn seen_from(wy: i64, wx: i64) -> Window {
    Window { wy, wx, size: 1 }
}

// The edges of the table of refusals, and of what is taken. The far ones meet nothing.
fn edges(rt: &impl Print) -> io::Result<()> {
    let b = [3u64];
    let at = Shift { dy: 0, dx: 0 };
    let own = seen_from(0, 0);
    let large = Window {
        wy: 0,
        wx: 0,
        size: 13,
    };
    let south = Shift {
        dy: 65536,
        dx: -65536,
    };
    let beyond = Shift {
        dy: 65537,
        dx: 65537,
    };
    laid(rt, b"a map of size 13", Operation::Union, 13, &b, at, own)?;
    joined(rt, b"a window of size 13", at, large)?;
    joined(rt, b"65,536 rows south", south, own)?;
    joined(rt, b"65,537 rows south", beyond, own)?;
    joined(rt, b"seen from 65,536 rows north", at, seen_from(-65536, 0))
}

fn more_edges(rt: &impl Print) -> io::Result<()> {
    let b = [3u64];
    let at = Shift { dy: 0, dx: 0 };
    let own = seen_from(0, 0);
    let (north, east) = (seen_from(-65537, 65537), seen_from(0, 65537));
    let south = Shift { dy: 1, dx: 0 };
    let cell = Window {
        wy: 1,
        wx: 0,
        size: 0,
    };
    joined(rt, b"seen from 65,537 rows north", at, north)?;
    joined(rt, b"seen from 65,537 columns east", at, east)?;
    laid(
        rt,
        b"a list that stops short",
        Operation::Union,
        1,
        &b,
        at,
        own,
    )?;
    laid(
        rt,
        b"one cell of it",
        Operation::Difference,
        0,
        &b,
        south,
        cell,
    )
}

fn main(rt: HostRuntime) -> io::Result<()> {
    overlays(&rt)?;
    rooms(&rt)?;
    windows(&rt)?;
    table(&rt)?;
    edges(&rt)?;
    more_edges(&rt)
}
