// Reads a plain PBM picture from standard input and prints one line for each leaf of its shortest list: code, level and colour.
// All that it does is `printing::leaves`.
#![tactic(auto)]

ghost use Rattle.std.specs.Prelude.{◌≡◌, ◌≤◌, length};

use std::io;
use std::io::Read;

// Reads until the text is full, the input ends or a read fails, and says how many bytes stand in the text then. A loop of our own: no method
// of the library without a heap keeps what came before a read that failed.
fn read_full(input: &mut impl Read, text: &mut [u8]) -> usize
    ensures { result ≤ length text.new }
{
    let mut got = 0;
    // a full text leaves no room to read into, and so ends the loop too
    while let Ok(more) = input.read(&mut text[got..])
        && more > 0
    {
        got += more;
    }
    got
}

fn main(rt: HostRuntime) -> io::Result<()> {
    // no heap: arrays as long as the longest; one byte more than is ever read tells an input that is too long
    let mut text = [0; 65537];
    let got = read_full(&mut rt.stdin(), &mut text);
    let mut out = [0; 16384];
    let put = printing::leaves(&text[..got], &mut out);
    rt.write_all(&out[..put])
}
