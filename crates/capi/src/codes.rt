// One number for each answer.
ghost use Rattle.std.specs.Prelude.{◌≡◌, ◌+◌, ◌*◌, ◌^◌, ◌<◌};
ghost use Rattle.refusal.specs.Read.{rule_of, number_of, answered};
ghost use Rattle.capi.specs.Code.{coded};
ghost use Rattle.capi.specs.Below.{Below, itself};

use refusal::Refusal;

// The answer to a number that names nothing, and to a place for a pair that is too short: C has no Option.
pub const UNNAMED: u64 = 18446744073709551615;

// rule × 2^32 + number. No `From`: a refusal is another crate's, and so is a number, and which number it answers is C's alone.
pub fn refused(r: Refusal) -> u64
    requires { number_of r < 2 ^ 32 }
    ensures { result ≡ rule_of r * 2 ^ 32 + number_of r }
{
    r.rule() * 4294967296 + r.number()
}

// What is given, or the refusal's number.
pub fn number(answer: Result<u64, Refusal>) -> u64
    requires { Below itself (answered answer) }
    ensures { result ≡ coded (answered answer) }
{
    match answer {
        Ok(value) => value,
        Err(r) => refused(r),
    }
}
