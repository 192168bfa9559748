// Numbers that name an operation or a direction, for C. Functions and no `TryFrom`, for the enums and the trait are other crates'.
ghost use Rattle.std.specs.Prelude.{◌≡◌};
ghost use Rattle.capi.specs.Code.{operation_of, direction_of};

use oboeridge::{Direction, Operation};

// 0 intersection, 1 union, 2 difference.
pub fn operation_of(k: u64) -> Option<Operation>
    ensures { result ≡ operation_of k }
{
    match k {
        0 => Some(Operation::Intersection),
        1 => Some(Operation::Union),
        2 => Some(Operation::Difference),
        _ => None,
    }
}

// 0 to 7, clockwise from north.
pub fn direction_of(k: u64) -> Option<Direction>
    ensures { result ≡ direction_of k }
{
    match k {
        0 => Some(Direction::North),
        1 => Some(Direction::NorthEast),
        2 => Some(Direction::East),
        3 => Some(Direction::SouthEast),
        4 => Some(Direction::South),
        5 => Some(Direction::SouthWest),
        6 => Some(Direction::West),
        7 => Some(Direction::NorthWest),
        _ => None,
    }
}
