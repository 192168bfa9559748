// The plain PBM picture: a text to its cells, or a refusal.
//
// Read first: specs/Picture.antt, what a picture is; specs/Reading.antt, how it is read; then `read`.
#![tactic(auto)]

ghost use Rattle.std.specs.Prelude.{◌≡◌};
ghost use Rattle.refusal.specs.Read.{answered};
ghost use Rattle.shortest.specs.Outcome.{left};
ghost use Rattle.pbm.specs.Answers.{size_given, cells_given};
ghost use Rattle.pbm.specs.Reading.{picture};

use refusal::Refusal;

mod bytes;
mod header;
mod raster;

// Reads a plain PBM picture: its size, and its cells row by row at the front of the memory lent.
pub fn read(text: &[u8], cells: &mut [u8; 1024]) -> Result<u64, Refusal>
    ensures answered { answered result ≡ size_given (picture text.now) }
    ensures left { cells.new ≡ left (cells_given (picture text.now)) cells.old }
{
    if bytes::LONGEST < text.len() {
        return Err(Refusal::PictureText);
    }
    let header = header::header_of(text).ok_or(Refusal::PictureText)?;
    let raster = header.rest;
    if !raster::only_cells(raster) || raster::count(raster) as u64 != morton::area(header.value) {
        return Err(Refusal::PictureText);
    }
    raster::put(raster, cells);
    Ok(header.value)
}
