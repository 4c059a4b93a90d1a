//! Constants: decimal ones, and patterns of 32 bits in hexadecimal digits.
ghost use Rattle.std.specs.Prelude.{◌≡◌, pos, negsuc, ◌-◌, ◌≤◌, option_map};
ghost use Rattle.policy.specs.Limits.{is_reading_value};
ghost use Rattle.token.specs.Steps.PartIn.{kept, positive_in, negative_in, decimal_in, pattern_in, hexadecimal_in, constant_in};

use lexer::{at_token_end, hex_digits, number};
use policy::constant_from;

// The largest constant.
const LARGEST: u32 = 2_147_483_647;

// The smallest constant, without its sign.
const SMALLEST: u32 = 2_147_483_648;

// The most digits of a pattern of 32 bits.
const PATTERN_DIGITS: usize = 8;

// The constant of a number without a sign; none where it is out of range.
#[tactic(auto, unfolding(policy::specs::Limits::is_reading_value))]
fn positive(value: u32) -> Option<i32>
    ensures { result ≡ kept is_reading_value (pos value) }
{
    if value <= LARGEST {
        Some(value as i32)
    } else {
        None
    }
}

// The same of a number behind a minus.
#[tactic(auto, unfolding(policy::specs::Limits::is_reading_value))]
fn negative(value: u32) -> Option<i32>
    requires { 1 ≤ value }
    ensures { result ≡ kept is_reading_value (negsuc (value - 1)) }
{
    if value <= SMALLEST {
        Some(-1 - (value - 1) as i32)
    } else {
        None
    }
}

// A number, as a constant without a sign.
#[tactic(auto, using(crate::proofs::ConstantLaws::positive_by_number))]
fn plain(text: &[u8]) -> Option<(Option<i32>, &[u8])>
    ensures { option_map (λ r. (r.0, r.1.now)) result ≡ positive_in text.now }
{
    let (value, rest) = number(text)?;
    Some((positive(value), rest))
}

// A number other than 0, as a constant behind a minus.
#[tactic(auto, using(crate::proofs::ConstantLaws::negative_by_number))]
fn negated(text: &[u8]) -> Option<(Option<i32>, &[u8])>
    ensures { option_map (λ r. (r.0, r.1.now)) result ≡ negative_in text.now }
{
    let (value, rest) = number(text)?;
    if value == 0 {
        return None;
    }
    Some((negative(value), rest))
}

// A number, or a minus and a number other than 0.
#[inline(always)]
#[tactic(auto, using(crate::proofs::ConstantLaws::decimal_by_sign))]
fn decimal(text: &[u8]) -> Option<(Option<i32>, &[u8])>
    ensures { option_map (λ r. (r.0, r.1.now)) result ≡ decimal_in text.now }
{
    match text {
        [b'-', digits @ ..] => negated(digits),
        _ => plain(text),
    }
}

// The token in front as hexadecimal digits, a pattern of 32 bits.
#[tactic(auto, using(crate::proofs::PatternLaws::pattern_by_digits, lexer::proofs::LeadingLaws::drop_shorter))]
fn pattern(text: &[u8]) -> Option<(Option<i32>, &[u8])>
    ensures { option_map (λ r. (r.0, r.1.now)) result ≡ pattern_in text.now }
{
    let (value, rest) = hex_digits(text);
    let count = text.len() - rest.len();
    if count == 0 {
        return None;
    }
    if !at_token_end(rest) {
        return None;
    }
    if count <= PATTERN_DIGITS {
        Some((Some(constant_from(value)), rest))
    } else {
        Some((None, rest))
    }
}

// `0x` and such digits.
#[tactic(auto, using(crate::proofs::PatternLaws::hexadecimal_by_prefix))]
fn hexadecimal(text: &[u8]) -> Option<(Option<i32>, &[u8])>
    ensures { option_map (λ r. (r.0, r.1.now)) result ≡ hexadecimal_in text.now }
{
    match text {
        [b'0', b'x', digits @ ..] => pattern(digits),
        _ => None,
    }
}

/// The constant that the token in front is, in a rule text or an epoch line, and what stands behind it; no constant where the token is
/// one that is out of range.
#[inline(always)]
#[tactic(auto, using(crate::proofs::PatternLaws::constant_by_form))]
pub fn constant(text: &[u8]) -> Option<(Option<i32>, &[u8])>
    ensures { option_map (λ r. (r.0, r.1.now)) result ≡ constant_in text.now }
{
    match decimal(text) {
        Some(part) => Some(part),
        None => hexadecimal(text),
    }
}
