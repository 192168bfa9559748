// Blocks, and their quarters.
ghost use Rattle.std.specs.Prelude.{◌≡◌, ◌+◌, ◌-◌, ◌^◌, ◌<◌, ◌≤◌};
ghost use Rattle.morton.specs.Block.{Block as IsBlock, Quarter, Quartered};
ghost use Rattle.morton.specs.Power.{highest};

// A block of the level: its code, and the row and the column of its upper left cell.
#[derive(Clone, Copy, Debug, PartialEq, Eq)]
pub struct Block {
    pub code: u64,
    pub row: u64,
    pub column: u64,
    pub level: u64,
    pub ghost is: { IsBlock code row column level },
}

// A block by its code and its level, where its row and column are not needed.
#[derive(Clone, Copy, Debug, PartialEq, Eq)]
pub struct Spot {
    pub code: u64,
    pub level: u64,
}

// One thing for each quarter of a block, in the order of their codes.
#[derive(Clone, Copy, Debug, PartialEq, Eq)]
pub struct Four<T> {
    pub nw: T,
    pub ne: T,
    pub sw: T,
    pub se: T,
}

// The code and the level of a block.
impl From<Block> for Spot {
    ghost from_gives = { λ block spot. spot ≡ record { code = block.code; level = block.level } };

    fn from(block: Block) -> Spot {
        Spot {
            code: block.code,
            level: block.level,
        }
    }
}

impl Spot {
    // The quarters of a block that is no single cell.
    pub fn quarters(self) -> Four<Spot>
        requires { (0 < self.level) × (self.code + 4 ^ self.level ≤ 4 ^ highest) }
        ensures nw { Quarter self.code self.level 0 result.nw.code result.nw.level }
        ensures ne { Quarter self.code self.level 1 result.ne.code result.ne.level }
        ensures sw { Quarter self.code self.level 2 result.sw.code result.sw.level }
        ensures se { Quarter self.code self.level 3 result.se.code result.se.level }
    {
        let (code, level) = (self.code, self.level - 1);
        let area = super::area(level);
        Four {
            nw: Spot { code, level },
            ne: Spot {
                code: code + area,
                level,
            },
            sw: Spot {
                code: code + 2 * area,
                level,
            },
            se: Spot {
                code: code + 3 * area,
                level,
            },
        }
    }

    // The block at the row and the column.
    fn at(self, row: u64, column: u64) -> Block
        requires { IsBlock self.code row column self.level }
        ensures { (result.code ≡ self.code) × (result.row ≡ row) × (result.column ≡ column) × (result.level ≡ self.level) }
    {
        let Spot { code, level } = self;
        Block {
            code,
            row,
            column,
            level,
        }
    }
}

impl Block {
    // The whole square of size n.
    pub fn whole(n: u64) -> Block
        requires { n ≤ highest }
        ensures { (result.code ≡ 0) × (result.row ≡ 0) × (result.column ≡ 0) × (result.level ≡ n) }
    {
        Block {
            code: 0,
            row: 0,
            column: 0,
            level: n,
        }
    }

    // The quarters of a block that is no single cell.
    pub fn quarters(self) -> Four<Block>
        requires { 0 < self.level }
        ensures nw { Quartered self.code self.row self.column (self.level - 1) 0 0 result.nw.code result.nw.row result.nw.column result.nw.level }
        ensures ne { Quartered self.code self.row self.column (self.level - 1) 0 1 result.ne.code result.ne.row result.ne.column result.ne.level }
        ensures sw { Quartered self.code self.row self.column (self.level - 1) 1 0 result.sw.code result.sw.row result.sw.column result.sw.level }
        ensures se { Quartered self.code self.row self.column (self.level - 1) 1 1 result.se.code result.se.row result.se.column result.se.level }
    {
        let spot = Spot::from(self).quarters();
        let (row, column) = (self.row, self.column);
        let side = super::side(spot.nw.level);
        let (south, east) = (row + side, column + side);
        Four {
            nw: spot.nw.at(row, column),
            ne: spot.ne.at(row, east),
            sw: spot.sw.at(south, column),
            se: spot.se.at(south, east),
        }
    }
}
