// The operations' table, and what is settled by what is known of the two maps over a block.
ghost use Rattle.std.specs.Prelude.{◌≡◌, ℕ};
ghost use Rattle.painter.specs.Tiled.{Combined};

use probe::Seen;

#[derive(Clone, Copy, Debug, PartialEq, Eq)]
pub enum Operation {
    Intersection,
    Union,
    Difference,
}

impl Operation {
    ghost use Rattle.painter.specs.Operation.{combine};
    ghost use Rattle.painter.specs.Known.{Joint, told};

    // The colour of a cell, from the first map's and the second's. A `match` and no closure: the three are named by number in C, and this is
    // their table.
    pub fn combined(self, a: u8, b: u8) -> u8
        ensures { result ≡ combine self a b }
    {
        match self {
            Operation::Intersection => { if a == 0 { 0 } else { b } }
            Operation::Union => { if a == 0 { b } else { a } }
            Operation::Difference => { if b == 0 { a } else { 0 } }
        }
    }

    // What is settled by the first map's colour alone.
    fn first_alone(self, a: u8) -> Option<u8>
        ensures { (h : ℕ) → Joint self (Seen.One a) (Seen.Mixed h) (told result) }
    {
        match self {
            Operation::Intersection => { if a == 0 { Some(0) } else { None } }
            Operation::Union => { if a == 0 { None } else { Some(a) } }
            Operation::Difference => { if a == 0 { Some(0) } else { None } }
        }
    }

    // What is settled by the second map's colour alone: other entries, so no second use of the table above.
    fn second_alone(self, b: u8) -> Option<u8>
        ensures { (h : ℕ) → Joint self (Seen.Mixed h) (Seen.One b) (told result) }
    {
        match self {
            Operation::Intersection => { if b == 0 { Some(0) } else { None } }
            Operation::Union => None,
            Operation::Difference => { if b == 0 { None } else { Some(0) } }
        }
    }

    // The colour of the result, if what is known of the two maps settles it.
    pub fn joint(self, a: Seen, b: Seen) -> Option<u8>
        ensures { Joint self a b (told result) }
    {
        match (a, b) {
            (Seen::One(a), Seen::One(b)) => Some(self.combined(a, b)),
            (Seen::One(a), Seen::Mixed(_)) => self.first_alone(a),
            (Seen::Mixed(_), Seen::One(b)) => self.second_alone(b),
            (Seen::Mixed(_), Seen::Mixed(_)) => None,
        }
    }
}

// Puts the cells of the second map's tile to those of the first map's.
pub fn combine(operation: Operation, first: &mut [u8; 256], second: &[u8; 256])
    ensures { Combined operation first.old second.now first.new }
{
    // the cells before j are put together
    for (j, cell) in first.iter_mut().enumerate() {
        *cell = operation.combined(*cell, second[j]);
    }
}
