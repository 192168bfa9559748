// Codes by a table of spread numbers.
ghost use Rattle.std.specs.Prelude.{◌≡◌, ◌<◌, ◌^◌};
ghost use Rattle.morton.specs.Code.{spread, code, bits};
ghost use Rattle.morton.specs.Spreads.{Spreads};

// The table of spread numbers. A constant array is built anew wherever it is named, so a caller makes one of these and lends it.
#[derive(Drop, Debug, PartialEq, Eq)]
pub struct Spread {
    numbers: [u16; 256],
    ghost spreads: { Spreads numbers },
}

impl Spread {
    pub fn new() -> Self {
        Spread {
            numbers: super::table::SPREAD,
        }
    }

    // The eight bits of a byte, spread.
    fn byte(&self, v: u64) -> u64
        requires { v < 256 }
        ensures { result ≡ spread 8 v }
    {
        self.numbers[v as usize] as u64
    }

    // The sixteen bits of a row or a column, spread.
    fn bits(&self, v: u64) -> u64
        requires { v < 2 ^ bits }
        ensures { result ≡ spread bits v }
    {
        self.byte(v / 256) * 65536 + self.byte(v % 256)
    }

    // The code of the cell at a row and a column.
    pub fn code_of(&self, row: u64, column: u64) -> u64
        requires { (row < 2 ^ bits) × (column < 2 ^ bits) }
        ensures { result ≡ code row column }
    {
        2 * self.bits(row) + self.bits(column)
    }
}
