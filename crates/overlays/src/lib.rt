// Window, intersection, union and difference: the shortest list of what one map, or two, show over a window.
//
// Read first: specs/Overlay.antt, and specs/Allowed.antt for when each outcome is allowed; then `judge` and `overlay`.
#![tactic(auto)]

ghost use Rattle.std.specs.Prelude.{◌≡◌, ◌≤◌, nat_abs, ◌-ℤ◌, length};
ghost use Rattle.refusal.specs.Judged.{unless};
ghost use Rattle.refusal.specs.Read.{answered};
ghost use Rattle.shortest.specs.Outcome.{Outcome, written, left};
ghost use Rattle.probe.specs.Biased.{biased};
ghost use Rattle.painter.specs.Scene.{picture};
ghost use Rattle.painter.specs.View.{picture_in};
ghost use Rattle.place.specs.Placing.{farthest_offset};
ghost use Rattle.overlays.specs.Overlay.{judged, window_of, overlaid, windowed};
ghost use Rattle.overlays.specs.Scenes.{Maps, scene_of};
ghost use Rattle.overlays.specs.Laws.Checks.{Near};

use morton::Spread;
use painter::{Glance, Layer, Operation, View};
use place::Shift;
use probe::Chart;
use refusal::Refusal;
use tiling::Map;

// A window: its first cell in the first map's rows and columns, and its size.
#[derive(Clone, Copy, Debug, PartialEq, Eq)]
pub struct Window {
    pub wy: i64,
    pub wx: i64,
    pub size: u64,
}

// The window of an overlay: the first map's own square, or one that is named. In an Option, None would not say whose square is meant.
#[derive(Clone, Copy, Debug, PartialEq, Eq)]
pub enum Frame {
    OfFirst,
    At(Window),
}

// The two maps; or what is refused before anything is painted: the sizes, the offset and the window's origin, and the two lists, in that
// order.
fn judge<'a>(
    n: u64,
    first: &'a [u64],
    m: u64,
    second: &'a [u64],
    shift: Shift,
    window: Window,
) -> Result<(Map<'a>, Map<'a>), Refusal>
    ensures judged { (x : Outcome) → unless result x ≡ judged n first.now m second.now shift window x }
    ensures maps { Maps n first.now m second.now result }
{
    tiling::sized(n, 0)?;
    tiling::sized(m, 1)?;
    tiling::sized(window.size, 2)?;
    place::near(shift.dy, 0)?;
    place::near(shift.dx, 1)?;
    place::near(window.wy, 2)?;
    place::near(window.wx, 3)?;
    let first = Map::judged(n, first).map_err(|i| Refusal::FirstList(i as u64))?;
    let second = Map::judged(m, second).map_err(|i| Refusal::SecondList(i as u64))?;
    Ok((first, second))
}

// The row or the column of the window's first cell in the second map, biased.
fn origin(w: i64, d: i64) -> u64
    requires { (nat_abs w ≤ farthest_offset) × (nat_abs d ≤ farthest_offset) }
    ensures { result ≡ biased (w -ℤ d) }
{
    probe::biased(w - d)
}

// Two maps under an operation, as they lie under the window, with room for the steps of each.
fn view<'a>(
    operation: Operation,
    first: Map<'a>,
    second: Map<'a>,
    shift: Shift,
    window: Window,
    table: &'a Spread,
    rooms: (&'a mut [u16; 256], &'a mut [u16; 256]),
) -> View<'a>
    requires { Near shift.dy shift.dx window.wy window.wx }
    ensures { picture_in result ≡ picture (scene_of operation first.entry.n second.entry.n shift window) first.entry.list.now second.entry.list.now }
{
    let first = Chart { map: first, table };
    let second = Chart { map: second, table };
    View {
        operation,
        first: Layer::new(
            first,
            probe::biased(window.wy),
            probe::biased(window.wx),
            rooms.0,
        ),
        second: Layer::new(
            second,
            origin(window.wy, shift.dy),
            origin(window.wx, shift.dx),
            rooms.1,
        ),
    }
}

fn framed(n: u64, frame: Frame) -> Window
    ensures { result ≡ window_of n frame }
{
    match frame {
        Frame::OfFirst => Window {
            wy: 0,
            wx: 0,
            size: n,
        },
        Frame::At(window) => window,
    }
}

// Writes the shortest list of two maps under an operation, the second shifted over the first, and counts its leaves. A size and a list come
// from a file or from C and are judged here, so they are no `Map` yet.
pub fn overlay(
    operation: Operation,
    n: u64,
    first: &[u64],
    m: u64,
    second: &[u64],
    shift: Shift,
    frame: Frame,
    out: &mut [u64],
) -> Result<u64, Refusal>
    ensures answered { answered result ≡ written (overlaid operation n first.now m second.now shift frame (length out.old)) }
    ensures left { out.new ≡ left (overlaid operation n first.now m second.now shift frame (length out.old)) out.old }
{
    let window = framed(n, frame);
    let (first, second) = judge(n, first, m, second, shift, window)?;
    let table = Spread::new();
    let mut first_room = [0; 256];
    let mut second_room = [0; 256];
    let rooms = (&mut first_room, &mut second_room);
    let view = view(operation, first, second, shift, window, &table, rooms);
    let whole = Glance::whole(window.size);
    shortest::list(&view, whole, out)
}

// Writes the shortest list of a window of one map, and counts its leaves. It is the union with a map of one WHITE cell.
#[tactic(auto, using(crate::specs::Laws::Windows::as_union))]
pub fn window_of(n: u64, list: &[u64], window: Window, out: &mut [u64]) -> Result<u64, Refusal>
    ensures answered { answered result ≡ written (windowed n list.now window (length out.old)) }
    ensures left { out.new ≡ left (windowed n list.now window (length out.old)) out.old }
{
    let blank = [0u64];
    let nowhere = Shift { dy: 0, dx: 0 };
    let frame = Frame::At(window);
    overlay(Operation::Union, n, list, 0, &blank, nowhere, frame, out)
}
