// The header of a picture text: `P1`, then width, then height, each followed by white space. Each function reads the front of a text, and
// answers with what is behind it.
ghost use Rattle.std.specs.Prelude.{◌≡◌, true, false, ◌≤◌, ◌+◌, ◌*◌, ◌-◌, position};
ghost use Rattle.pbm.specs.Bytes.{ends_line, is_digit};
ghost use Rattle.pbm.specs.Reading.{past_comment, past_blanks};
ghost use Rattle.pbm.specs.Steps.{capped, PastBlank, Numbered, Fielded, SizeOf, Headed};

use super::bytes;

// What was read, and the text behind it.
#[derive(Clone, Copy, Debug, PartialEq, Eq)]
pub struct Read<'a> {
    pub value: u64,
    pub rest: &'a [u8],
}

// Where a comment ends.
fn comment_end(text: &[u8]) -> Option<usize>
    ensures { result ≡ position ends_line text.now }
{
    text.iter().position(|b| bytes::ends_line(*b))
}

// What follows a comment.
#[tactic(auto, using(crate::specs::Laws::Text::comment_some, crate::specs::Laws::Text::comment_none, std::proofs::lemmas::Slice::between_to_end))]
fn past_comment(text: &[u8]) -> &[u8]
    ensures { result.now ≡ past_comment text.now }
{
    match comment_end(text) {
        Some(end) => &text[end + 1..],
        None => &[],
    }
}

// What follows one byte of white space or one comment, if that stands in front.
#[tactic(auto, unfolding(crate::specs::Reading::blank, crate::specs::Reading::past_blank))]
fn past_blank(text: &[u8]) -> Option<&[u8]>
    ensures { PastBlank text.now result }
{
    let (b, behind) = text.split_first()?;
    if *b == b'#' {
        Some(past_comment(behind))
    } else if bytes::is_space(*b) {
        Some(behind)
    } else {
        None
    }
}

// What follows white space and comments.
#[tactic(auto, using(crate::specs::Laws::Text::blanks_more, crate::specs::Laws::Text::blanks_none, crate::specs::Laws::Text::blank_length))]
fn past_blanks(text: &[u8]) -> &[u8]
    ensures { result.now ≡ past_blanks false text.now }
{
    let mut rest = text;
    // all in front of rest is white space or comments
    while let Some(behind) = past_blank(rest) {
        rest = behind;
    }
    rest
}

// The number of the digits so far and one more, counted to 33.
fn longer(value: u64, digit: u8) -> u64
    requires { (value ≤ 33) × (is_digit digit ≡ true) }
    ensures { result ≡ capped (10 * value + (digit - 48)) }
{
    (10 * value + u64::from(digit - b'0')).min(33)
}

// The digits in front of a text: none is the number 0.
#[tactic(auto, using(crate::specs::Laws::Text::capped_number), unfolding(crate::specs::Reading::number, crate::specs::Reading::past_digits))]
fn number(text: &[u8]) -> Read<'_>
    ensures { Numbered text.now result }
{
    let mut value = 0;
    let mut rest = text;
    // value is the number of the digits in front of rest
    while let Some((digit, behind)) = rest.split_first()
        && digit.is_ascii_digit()
    {
        value = longer(value, *digit);
        rest = behind;
    }
    Read { value, rest }
}

// The field in front of a text: white space, digits, and white space behind them.
#[tactic(auto, using(crate::specs::Laws::Text::blanks_more))]
fn field(text: &[u8]) -> Option<Read<'_>>
    ensures { Fielded text.now result }
{
    let start = past_blanks(past_blank(text)?);
    let number = number(start);
    past_blank(number.rest)?;
    Some(number)
}

// The size of a picture whose side is so long.
#[tactic(auto, unfolding(crate::specs::Reading::size_from))]
fn size_of(side: u64) -> Option<u64>
    ensures { SizeOf side result }
{
    match side {
        1 => Some(0),
        2 => Some(1),
        4 => Some(2),
        8 => Some(3),
        16 => Some(4),
        32 => Some(5),
        _ => None,
    }
}

// The header of a text: the picture's size, and the text of its cells.
#[tactic(auto, using(crate::specs::Laws::Header::no_square))]
pub fn header_of(text: &[u8]) -> Option<Read<'_>>
    ensures { Headed text.now result }
{
    let fields = text.strip_prefix(b"P1")?;
    let width = field(fields)?;
    let height = field(width.rest)?;
    if height.value != width.value {
        return None;
    }
    let value = size_of(width.value)?;
    let rest = past_blank(height.rest)?;
    Some(Read { value, rest })
}
