// The bytes of a picture text.
ghost use Rattle.std.specs.Prelude.{◌≡◌};
ghost use Rattle.pbm.specs.Bytes.{is_space, ends_line, is_cell};

// A text longer than this is not read.
pub const LONGEST: usize = 65536;

// White space: space, TAB, LF, VT, FF and CR.
pub fn is_space(b: u8) -> bool
    ensures { result ≡ is_space b }
{
    matches!(b, b' ' | b'\t' | b'\n' | 11 | 12 | b'\r')
}

// LF or CR.
pub fn ends_line(b: u8) -> bool
    ensures { result ≡ ends_line b }
{
    matches!(b, b'\n' | b'\r')
}

pub fn is_cell(b: u8) -> bool
    ensures { result ≡ is_cell b }
{
    matches!(b, b'0' | b'1')
}
