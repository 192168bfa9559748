// The lines that are printed of a list: for each leaf its code in base 4, its level and its colour. Each function writes at the front of the
// memory lent, and says how many bytes it wrote.
ghost use Rattle.std.specs.Prelude.{◌≡◌, ◌+◌, ◌*◌, ◌≤◌, ◌<◌, length};
ghost use Rattle.printing.specs.Lines.{digits, decimals, code_digits, numeral, line, lines};
ghost use Rattle.printing.specs.Written.{Written};

// Copies a text.
pub fn put_text(out: &mut [u8], text: &[u8]) -> usize
    requires { length text.now ≤ length out.old }
    ensures { Written text.now out.old out.new result }
{
    out[..text.len()].copy_from_slice(text);
    text.len()
}

// Fills the memory lent with the last digits of a value in a base. By hand, for no format of `write!` has the base 4.
fn put_digits(out: &mut [u8], base: u64, value: u64)
    requires { (1 < base) × (base ≤ 10) }
    ensures { out.new ≡ digits base (length out.old) value }
{
    let mut rest = value;
    // the digits from place i on are written, and rest has those before
    for i in (0..out.len()).rev() {
        out[i] = b'0' + (rest % base) as u8;
        rest /= base;
    }
}

// Writes a number and the byte that ends it.
fn put_numeral(out: &mut [u8], base: u64, count: usize, value: u64, end: u8) -> usize
    requires { (1 < base) × (base ≤ 10) × (count < length out.old) }
    ensures written { Written (numeral base count value end) out.old out.new result }
    ensures length { result ≡ count + 1 }
{
    put_digits(&mut out[..count], base, value);
    out[count] = end;
    count + 1
}

// How many decimal digits a number below 1,000 has.
fn decimals_of(v: u64) -> usize
    ensures value { result ≡ decimals v }
    ensures few { result ≤ 3 }
{
    match v {
        0..10 => 1,
        10..100 => 2,
        _ => 3,
    }
}

// A code has n digits, and a single one when n is 0.
fn code_digits(n: u64) -> usize
    ensures value { result ≡ code_digits n }
    ensures few { n ≤ 5 → result ≤ 5 }
{
    if n == 0 { 1 } else { n as usize }
}

// Writes the line of a leaf.
fn put_line(out: &mut [u8], n: u64, leaf: u64) -> usize
    requires { (n ≤ 5) × (16 ≤ length out.old) }
    ensures { Written (line n leaf) out.old out.new result }
{
    let level = tiling::level_of(leaf);
    let colour = tiling::colour_of(leaf) as u64;
    let first = put_numeral(out, 4, code_digits(n), tiling::code_of(leaf), b' ');
    let second = first + put_numeral(&mut out[first..], 10, decimals_of(level), level, b' ');
    second + put_numeral(&mut out[second..], 10, decimals_of(colour), colour, b'\n')
}

// Writes the lines of a list.
pub fn put_lines(out: &mut [u8], n: u64, list: &[u64]) -> usize
    requires { (n ≤ 5) × (16 * length list.now ≤ length out.old) }
    ensures { Written (lines n list.now) out.old out.new result }
{
    let mut at = 0;
    // the lines of the leaves so far are written
    for leaf in list {
        at += put_line(&mut out[at..], n, *leaf);
    }
    at
}
