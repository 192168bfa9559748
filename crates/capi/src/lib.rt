// The calls for C and for Rust: each is one of the public calls, and answers one number.
//
// A refusal is rule × 2^32 + number; what is given is the value alone. The header for C is include/oboeridge.h.
#![tactic(auto, using(crate::specs::Laws::Below::room))]

ghost use Rattle.std.specs.Prelude.{◌≡◌, length, cond, ltb};
ghost use Rattle.shortest.specs.Outcome.{written, left};
ghost use Rattle.lookups.specs.Lists.{list_check, cell_lookup};
ghost use Rattle.lookups.specs.Neighbour.{neighbour};
ghost use Rattle.conversions.specs.Rasters.{raster_to_list, list_to_raster};
ghost use Rattle.place.specs.Placing.{placed};
ghost use Rattle.place.specs.declared.Place.TheVariants.{Cells as Place-as-Cells, OnGround as Place-as-OnGround};
ghost use Rattle.overlays.specs.Overlay.{overlaid, windowed};
ghost use Rattle.overlays.specs.declared.Frame.TheVariants.{OfFirst as Frame-as-OfFirst, At as Frame-as-At};
ghost use Rattle.std.specs.Option.{option_map_or};
ghost use Rattle.capi.specs.Code.{coded, unnamed, direction_of, operation_of, pair_coded, pair_left};

use oboeridge::{Cell, Frame, Ground, Place, Shift, Window};

mod codes;
mod names;
mod pairs;

#[unsafe(no_mangle)]
pub extern "C" fn oboe_check(n: u64, list: &[u64]) -> u64
    ensures { result ≡ coded (list_check n list.now) }
{
    codes::number(oboeridge::check(n, list))
}

#[unsafe(no_mangle)]
pub extern "C" fn oboe_lookup(n: u64, list: &[u64], row: i64, column: i64) -> u64
    ensures { result ≡ coded (cell_lookup n list.now row column) }
{
    codes::number(oboeridge::lookup(n, list, Cell { row, column }).map(u64::from))
}

#[unsafe(no_mangle)]
pub extern "C" fn oboe_neighbour(n: u64, code: u64, level: u64, direction: u64) -> u64
    ensures { result ≡ option_map_or (λ d. coded (neighbour n code level d)) (direction_of direction) unnamed }
{
    let Some(d) = names::direction_of(direction) else {
        return codes::UNNAMED;
    };
    codes::number(oboeridge::neighbour(n, code, level, d))
}

#[unsafe(no_mangle)]
pub extern "C" fn oboe_place_cells(dy: i64, dx: i64, shift: &mut [i64]) -> u64
    ensures answered { result ≡ cond (ltb (length shift.old) 2) unnamed (pair_coded (placed (Place-as-Cells dy dx))) }
    ensures left { shift.new ≡ cond (ltb (length shift.old) 2) shift.old (pair_left (placed (Place-as-Cells dy dx)) shift.old) }
{
    pairs::place(Place::Cells(dy, dx), shift)
}

#[unsafe(no_mangle)]
pub extern "C" fn oboe_place_ground(
    north1: f64,
    east1: f64,
    cell1: f64,
    north2: f64,
    east2: f64,
    cell2: f64,
    shift: &mut [i64],
) -> u64
    ensures answered { result ≡ cond (ltb (length shift.old) 2) unnamed (pair_coded (placed (Place-as-OnGround (record { north = north1; east = east1; cell = cell1 }) (record { north = north2; east = east2; cell = cell2 })))) }
    ensures left { shift.new ≡ cond (ltb (length shift.old) 2) shift.old (pair_left (placed (Place-as-OnGround (record { north = north1; east = east1; cell = cell1 }) (record { north = north2; east = east2; cell = cell2 }))) shift.old) }
{
    let first = Ground {
        north: north1,
        east: east1,
        cell: cell1,
    };
    let second = Ground {
        north: north2,
        east: east2,
        cell: cell2,
    };
    pairs::place(Place::OnGround(first, second), shift)
}

#[unsafe(no_mangle)]
pub extern "C" fn oboe_window(
    n: u64,
    list: &[u64],
    wy: i64,
    wx: i64,
    w: u64,
    out: &mut [u64],
) -> u64
    ensures answered { result ≡ coded (written (windowed n list.now (record { wy = wy; wx = wx; size = w }) (length out.old))) }
    ensures left { out.new ≡ left (windowed n list.now (record { wy = wy; wx = wx; size = w }) (length out.old)) out.old }
{
    codes::number(oboeridge::window_of(n, list, Window { wy, wx, size: w }, out))
}

#[unsafe(no_mangle)]
pub extern "C" fn oboe_to_list(n: u64, cells: &[u8], out: &mut [u64]) -> u64
    ensures answered { result ≡ coded (written (raster_to_list n cells.now (length out.old))) }
    ensures left { out.new ≡ left (raster_to_list n cells.now (length out.old)) out.old }
{
    codes::number(oboeridge::to_list(n, cells, out))
}

#[unsafe(no_mangle)]
pub extern "C" fn oboe_to_raster(n: u64, list: &[u64], cells: &mut [u8]) -> u64
    ensures answered { result ≡ coded (written (list_to_raster n list.now (length cells.old))) }
    ensures left { cells.new ≡ left (list_to_raster n list.now (length cells.old)) cells.old }
{
    codes::number(oboeridge::to_raster(n, list, cells))
}

// The overlay under the operation that a number names, over the window of a frame: what C hands over, and so no `Map` yet.
fn overlay(
    operation: u64,
    n: u64,
    first: &[u64],
    m: u64,
    second: &[u64],
    shift: Shift,
    frame: Frame,
    out: &mut [u64],
) -> u64
    ensures answered { result ≡ option_map_or (λ o. coded (written (overlaid o n first.now m second.now shift frame (length out.old)))) (operation_of operation) unnamed }
    ensures left { out.new ≡ option_map_or (λ o. left (overlaid o n first.now m second.now shift frame (length out.old)) out.old) (operation_of operation) out.old }
{
    let Some(o) = names::operation_of(operation) else {
        return codes::UNNAMED;
    };
    codes::number(oboeridge::overlay(o, n, first, m, second, shift, frame, out))
}

// As many parameters as C hands over one by one, here and in `oboe_overlay_own`: it has no struct of ours.
#[unsafe(no_mangle)]
pub extern "C" fn oboe_overlay(
    operation: u64,
    n: u64,
    first: &[u64],
    m: u64,
    second: &[u64],
    dy: i64,
    dx: i64,
    wy: i64,
    wx: i64,
    w: u64,
    out: &mut [u64],
) -> u64
    ensures answered { result ≡ option_map_or (λ o. coded (written (overlaid o n first.now m second.now (record { dy = dy; dx = dx }) (Frame-as-At (record { wy = wy; wx = wx; size = w })) (length out.old)))) (operation_of operation) unnamed }
    ensures left { out.new ≡ option_map_or (λ o. left (overlaid o n first.now m second.now (record { dy = dy; dx = dx }) (Frame-as-At (record { wy = wy; wx = wx; size = w })) (length out.old)) out.old) (operation_of operation) out.old }
{
    let frame = Frame::At(Window { wy, wx, size: w });
    overlay(operation, n, first, m, second, Shift { dy, dx }, frame, out)
}

#[unsafe(no_mangle)]
pub extern "C" fn oboe_overlay_own(
    operation: u64,
    n: u64,
    first: &[u64],
    m: u64,
    second: &[u64],
    dy: i64,
    dx: i64,
    out: &mut [u64],
) -> u64
    ensures answered { result ≡ option_map_or (λ o. coded (written (overlaid o n first.now m second.now (record { dy = dy; dx = dx }) Frame-as-OfFirst (length out.old)))) (operation_of operation) unnamed }
    ensures left { out.new ≡ option_map_or (λ o. left (overlaid o n first.now m second.now (record { dy = dy; dx = dx }) Frame-as-OfFirst (length out.old)) out.old) (operation_of operation) out.old }
{
    overlay(
        operation,
        n,
        first,
        m,
        second,
        Shift { dy, dx },
        Frame::OfFirst,
        out,
    )
}
