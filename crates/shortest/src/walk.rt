// The walk down a picture, over a raster or over maps: by recursion over a block whose level falls by one, once to count and once to write.
// Counting and writing are two functions and not one: writing carries a place that moves on and memory that is lent, and counting has
// neither. One body for both would carry an empty memory through every count.
use super::{Part, finish, joined};
use morton::{Four, Spot};

// What is seen of a block: that it is of one colour; that it is so small that the picture makes its list at once; or that its quarters are
// to be looked at. With the last two goes what is known from then on.
#[derive(Clone, Copy, Debug, PartialEq, Eq)]
pub enum Look<B> {
    One(u8),
    Small(B),
    Closer(B),
}

// A picture that can be looked at block by block.
pub trait Picture {
    ghost use Rattle.std.specs.Prelude.{◌≡◌, ℕ, ◌+◌, ◌^◌, ◌<◌, ◌≤◌};
    ghost use Rattle.std.proofs.lemmas.List.Edits.{sets};
    ghost use Rattle.morton.specs.Power.{highest};
    ghost use Rattle.morton.specs.Block.{Quarter};
    ghost use Rattle.tiling.specs.Leaf.{colours};
    ghost use Rattle.shortest.specs.Part.{part};
    ghost use Rattle.shortest.specs.Coded.{number_of};
    ghost use Rattle.shortest.specs.Written.{inner, Placed};
    ghost use Rattle.shortest.specs.Walk.{Sees};

    // A block, and whatever is known of it.
    type Block: Copy;

    // The colour of each code.
    ghost colour_at: { Self → ℕ → ℕ };

    ghost code_of: { Self.Block → ℕ };

    ghost level_of: { Self.Block → ℕ };

    // It is a block of the picture, and what is known of it is right.
    ghost Lies: { Self → Self.Block → Type 0 };

    // The same, of a block whose list is made at once, and of one whose quarters are to be looked at.
    ghost Small: { Self → Self.Block → Type 0 };

    ghost Opens: { Self → Self.Block → Type 0 };

    // Its code and its level.
    fn spot(block: Self::Block) -> Spot
        ensures { (result.code ≡ code_of block) × (result.level ≡ level_of block) };

    // What is seen of a block.
    fn look(&self, block: Self::Block) -> Look<Self::Block>
        requires { Lies self.now block }
        ensures { Sees result (λ c. c ≡ part (colour_at self.now) (level_of block) (code_of block)) (λ b. (level_of b ≡ level_of block) × (code_of b ≡ code_of block) × Small self.now b) (λ b. (0 < level_of block) × (level_of b ≡ level_of block) × (code_of b ≡ code_of block) × Opens self.now b) };

    // What a small block comes to.
    fn count_small(&self, block: Self::Block) -> Part
        requires { Small self.now block }
        ensures { number_of result ≡ part (colour_at self.now) (level_of block) (code_of block) };

    // Writes the list of a small block from `at` on, or nothing if it is of one colour; what the block comes to.
    fn put_small(&self, block: Self::Block, out: &mut [u64], at: u64) -> Part
        requires { Small self.now block × Placed (colour_at self.now) out.old at (level_of block) (code_of block) }
        ensures part { number_of result ≡ part (colour_at self.now) (level_of block) (code_of block) }
        ensures left { out.new ≡ sets out.old at (inner (colour_at self.now) (level_of block) (code_of block)) };

    // The quarters of a block that is to be looked at closer.
    fn quarters(&self, block: Self::Block) -> Four<Self::Block>
        requires { Opens self.now block }
        ensures nw { Lies self.now result.nw × Quarter (code_of block) (level_of block) 0 (code_of result.nw) (level_of result.nw) }
        ensures ne { Lies self.now result.ne × Quarter (code_of block) (level_of block) 1 (code_of result.ne) (level_of result.ne) }
        ensures sw { Lies self.now result.sw × Quarter (code_of block) (level_of block) 2 (code_of result.sw) (level_of result.sw) }
        ensures se { Lies self.now result.se × Quarter (code_of block) (level_of block) 3 (code_of result.se) (level_of result.se) };

    // Colours are below 256, and a block lies within the largest square.
    ghost coloured: { (p : Self) (b : Self.Block) → Lies p b → (k : ℕ) → colour_at p k < colours };

    ghost fits: { (p : Self) (b : Self.Block) → Lies p b → (level_of b ≤ highest) × (code_of b + 4 ^ level_of b ≤ 4 ^ highest) };
}

ghost use Rattle.std.specs.Prelude.{◌≡◌};
ghost use Rattle.std.proofs.lemmas.List.Edits.{sets};
ghost use Rattle.shortest.specs.Part.{part};
ghost use Rattle.shortest.specs.Coded.{number_of};
ghost use Rattle.shortest.specs.Written.{inner, Placed};
ghost use Rattle.shortest.specs.Walk.{Divisible};

// What a block comes to. Inlined, so that a small block costs no call.
#[cycle(counts)]
#[inline(always)]
pub fn count<P: Picture>(picture: &P, block: P::Block) -> Part
    requires { P.Lies picture.now block }
    ensures { number_of result ≡ part (P.colour_at picture.now) (P.level_of block) (P.code_of block) }
{
    match picture.look(block) {
        Look::One(colour) => Part::Colour(colour),
        Look::Small(block) => picture.count_small(block),
        Look::Closer(block) => count_quarters(picture, block),
    }
}

// The same of a block whose quarters are to be looked at. It stands apart since no other block needs memory for quarters.
#[cycle(counts)]
fn count_quarters<P: Picture>(picture: &P, block: P::Block) -> Part
    requires { P.Opens picture.now block × Divisible (P.colour_at picture.now) (P.level_of block) (P.code_of block) }
    ensures { number_of result ≡ part (P.colour_at picture.now) (P.level_of block) (P.code_of block) }
{
    count_step(picture, block)
}

// One step of it, inlined: a picture that makes the list of more than four cells at once takes it by itself.
#[cycle(counts)]
#[inline(always)]
pub fn count_step<P: Picture>(picture: &P, block: P::Block) -> Part
    requires { P.Opens picture.now block × Divisible (P.colour_at picture.now) (P.level_of block) (P.code_of block) }
    ensures { number_of result ≡ part (P.colour_at picture.now) (P.level_of block) (P.code_of block) }
{
    let quarter = picture.quarters(block);
    let nw = count(picture, quarter.nw);
    let ne = count(picture, quarter.ne);
    let sw = count(picture, quarter.sw);
    let se = count(picture, quarter.se);
    joined(Four { nw, ne, sw, se })
}

// Writes the list of a block from `at` on, or nothing if it is of one colour; what the block comes to. Inlined for the same reason.
// The place goes beside the memory and is no slice, as at `fill`: a quarter that merges with its brothers is overwritten, so a place
// moves back.
#[cycle(puts)]
#[inline(always)]
pub fn put<P: Picture>(picture: &P, block: P::Block, out: &mut [u64], at: u64) -> Part
    requires { P.Lies picture.now block × Placed (P.colour_at picture.now) out.old at (P.level_of block) (P.code_of block) }
    ensures part { number_of result ≡ part (P.colour_at picture.now) (P.level_of block) (P.code_of block) }
    ensures left { out.new ≡ sets out.old at (inner (P.colour_at picture.now) (P.level_of block) (P.code_of block)) }
{
    match picture.look(block) {
        Look::One(colour) => Part::Colour(colour),
        Look::Small(block) => picture.put_small(block, out, at),
        Look::Closer(block) => put_quarters(picture, block, out, at),
    }
}

// The same of a block whose quarters are to be looked at.
#[cycle(puts)]
fn put_quarters<P: Picture>(picture: &P, block: P::Block, out: &mut [u64], at: u64) -> Part
    requires { P.Opens picture.now block × Divisible (P.colour_at picture.now) (P.level_of block) (P.code_of block) × Placed (P.colour_at picture.now) out.old at (P.level_of block) (P.code_of block) }
    ensures part { number_of result ≡ part (P.colour_at picture.now) (P.level_of block) (P.code_of block) }
    ensures left { out.new ≡ sets out.old at (inner (P.colour_at picture.now) (P.level_of block) (P.code_of block)) }
{
    put_step(picture, block, out, at)
}

// One step of it, inlined, likewise.
#[cycle(puts)]
#[inline(always)]
pub fn put_step<P: Picture>(picture: &P, block: P::Block, out: &mut [u64], at: u64) -> Part
    requires { P.Opens picture.now block × Divisible (P.colour_at picture.now) (P.level_of block) (P.code_of block) × Placed (P.colour_at picture.now) out.old at (P.level_of block) (P.code_of block) }
    ensures part { number_of result ≡ part (P.colour_at picture.now) (P.level_of block) (P.code_of block) }
    ensures left { out.new ≡ sets out.old at (inner (P.colour_at picture.now) (P.level_of block) (P.code_of block)) }
{
    let quarter = picture.quarters(block);
    let nw = put(picture, quarter.nw, out, at);
    let at1 = at + nw.size();
    let ne = put(picture, quarter.ne, out, at1);
    let at2 = at1 + ne.size();
    let sw = put(picture, quarter.sw, out, at2);
    let at3 = at2 + sw.size();
    let se = put(picture, quarter.se, out, at3);
    let parts = Four { nw, ne, sw, se };
    finish(out, at, parts, P::spot(block))
}
