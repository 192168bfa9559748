// What a square of cells shows, or what is known of it before it is looked at.

// One colour; or look closer, with a place in the map's list from which to search: a hint, which may be any number.
#[derive(Clone, Copy, Debug, PartialEq, Eq)]
pub enum Seen {
    One(u8),
    Mixed(usize),
}
