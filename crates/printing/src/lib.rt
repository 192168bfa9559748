// What the program `leaves` prints: the lines of a list, and a picture text to the lines of its shortest list.
//
// Read first: specs/Lines.antt; then `leaves`.
#![tactic(auto)]

ghost use Rattle.std.specs.Prelude.{◌≡◌, ◌++◌, length, drop};
ghost use Rattle.printing.specs.Lines.{printed};

mod lines;

use morton::Block;
use rasters::{Raster, Sixteens};

// Writes what the program prints of a picture text, and says how many bytes that is. Lines of sixteen bytes would do for 1,024 leaves.
pub fn leaves(text: &[u8], out: &mut [u8; 16384]) -> usize
    ensures counted { result ≡ length (printed text.now) }
    ensures left { out.new ≡ printed text.now ++ drop (length (printed text.now)) out.old }
{
    // no heap: arrays as long as the longest, each with how much of it is used
    let mut cells = [0; 1024];
    let Ok(n) = pbm::read(text, &mut cells) else {
        return lines::put_text(out, b"refused 11\n");
    };
    let whole = morton::area(n) as usize;
    let mut list = [0; 1024];
    let raster = Raster {
        n,
        cells: &cells[..whole],
    };
    let count = shortest::write(&Sixteens { raster }, Block::whole(n), &mut list) as usize;
    lines::put_lines(out, n, &list[..count])
}
