// A raster that is asked four cells at a time: it tells a block of four cells from one of sixteen, counts four by itself, and gives the
// list that the paper has of P, or nothing where there is no room. The worked cases show that sixteen at a time give the same list.
use super::Raster;
use morton::Block;
use shortest::{Look, Part, Picture};

// the paper's P, and its list
const P: [u8; 16] = [1, 1, 0, 0, 1, 1, 0, 1, 0, 0, 1, 1, 0, 0, 1, 1];

const LEAVES: [u64; 7] = [257, 262144, 327680, 393216, 458753, 524544, 786689];

#[test]
fn tells_four_cells_from_sixteen(rt: HostRuntime) {
    let raster = Raster { n: 2, cells: &P };
    assert!(rt; matches!(raster.look(Block::whole(2)), Look::Closer(_)));
    assert!(rt; matches!(raster.look(Block::whole(1)), Look::Small(_)));
    assert!(rt; matches!(raster.look(Block::whole(0)), Look::One(1)));
}

#[test]
fn counts_four_cells(rt: HostRuntime) {
    for (cells, part) in [
        ([3, 3, 3, 3], Part::Colour(3)),
        ([3, 3, 0, 3], Part::Leaves(4)),
    ] {
        let raster = Raster {
            n: 1,
            cells: &cells,
        };
        assert_eq!(rt; raster.count_small(Block::whole(1)), part);
    }
}

#[test]
fn lists_four_cells_at_a_time(rt: HostRuntime) {
    let raster = Raster { n: 2, cells: &P };
    let mut out = [9; 9];
    let count = shortest::list(&raster, Block::whole(2), &mut out);
    assert!(rt; matches!(count, Ok(7)));
    assert_eq!(rt; &out[..7], &LEAVES[..]);
    assert_eq!(rt; &out[7..], [9, 9].as_slice());
    let mut six = [9; 6];
    assert!(rt; shortest::list(&raster, Block::whole(2), &mut six).is_err());
    assert_eq!(rt; six, [9; 6]);
}
