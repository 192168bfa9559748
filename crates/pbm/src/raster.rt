// The cells of a picture text: `0` or `1`, together or apart.
ghost use Rattle.std.specs.Prelude.{◌≡◌, true, ◌≤◌, length};
ghost use Rattle.std.proofs.lemmas.List.Edits.{sets};
ghost use Rattle.pbm.specs.Reading.{only_cells, cell_bytes, cells};

use super::bytes;

// Whether nothing but cells and white space stands in a text.
pub fn only_cells(text: &[u8]) -> bool
    ensures { result ≡ only_cells text.now }
{
    text.iter()
        .all(|b| bytes::is_space(*b) || bytes::is_cell(*b))
}

// How many cells there are.
pub fn count(text: &[u8]) -> usize
    ensures { result ≡ length (cell_bytes text.now) }
{
    text.iter().filter(|b| !bytes::is_space(**b)).count()
}

// Writes the cells, one byte each; the white space between them takes no room.
pub fn put(text: &[u8], out: &mut [u8])
    requires only { only_cells text.now ≡ true }
    requires room { length (cells text.now) ≤ length out.old }
    ensures { out.new ≡ sets out.old 0 (cells text.now) }
{
    // k cells are written, and b is the next
    for (k, b) in text.iter().filter(|b| !bytes::is_space(**b)).enumerate() {
        out[k] = *b - b'0';
    }
}
