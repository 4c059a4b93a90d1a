//! What stands in front of a text: spaces, keywords and numbers, each with what is left behind it. A token ends at a space, a line
//! end or the end of the text.
ghost use Rattle.std.specs.Prelude.{◌≡◌, true, false, ◌&&◌, ◌+◌, ◌*◌, ◌-◌, ◌≤◌, option_map};
ghost use Rattle.std.specs.List.{list_all};
ghost use Rattle.lexer.specs.Byte.{is_digit};
ghost use Rattle.lexer.specs.Number.{is_empty};
ghost use Rattle.lexer.specs.Steps.Scan.{token_in, without_spaces, keyword_in, in_token, clip, clip_limit, further_digits, starts_digit, digits_in, number_in, name_in, event_in, action_in, reading_in};
ghost use Rattle.lexer.specs.Lines.{behind_line};

use crate::class::{ends_token, is_digit, is_space};

/// The text from its first byte on that is no space.
pub fn skip_spaces(text: &[u8]) -> &[u8]
    ensures { result.now ≡ without_spaces text.now }
{
    let mut rest = text;
    while let [b, others @ ..] = rest {
        if !is_space(*b) {
            break;
        }
        rest = others;
    }
    rest
}

/// The text from its first line end on.
pub fn skip_line(text: &[u8]) -> &[u8]
    ensures { result.now ≡ behind_line text.now }
{
    let mut rest = text;
    while let [b, others @ ..] = rest {
        if *b == b'\n' {
            return rest;
        }
        rest = others;
    }
    rest
}

/// Whether no byte of a token stands in front.
pub fn at_token_end(text: &[u8]) -> bool
    ensures { result ≡ is_empty (token_in text.now) }
{
    match text {
        [] => true,
        [b, ..] => ends_token(*b),
    }
}

/// What stands behind the token in front, if it is the keyword, in which no token ends.
#[tactic(auto, using(crate::proofs::KeywordLaws::keyword_whole), unfolding(crate::specs::Byte::bytes_equal, crate::specs::Steps::Scan::keyword_in))]
pub fn keyword<'a>(text: &'a [u8], keyword: &[u8]) -> Option<&'a [u8]>
    requires { list_all in_token keyword.now ≡ true }
    ensures { option_map (λ rest. rest.now) result ≡ keyword_in text.now keyword.now }
{
    let mut rest = text;
    let mut left = keyword;
    while let [expected, others_left @ ..] = left {
        let [b, others @ ..] = rest else {
            return None;
        };
        if *b != *expected {
            return None;
        }
        rest = others;
        left = others_left;
    }
    if at_token_end(rest) { Some(rest) } else { None }
}

// What a number past every limit is clipped to, so that one of any length fits.
const CLIP: u32 = 3_000_000_000;

// From here on one digit more makes a number that is clipped.
const CLIP_TENTH: u32 = 300_000_000;

// One digit more.
fn shifted(value: u32, digit: u8) -> u32
    requires value_le_clip_limit { value ≤ clip_limit }
    requires digit_value { is_digit digit ≡ true }
    ensures { result ≡ clip (value * 10 + (digit - 48)) }
{
    if value < CLIP_TENTH {
        value * 10 + (digit - b'0') as u32
    } else {
        CLIP
    }
}

// The value of further digits in front, behind those of a value.
#[tactic(auto, unfolding(crate::specs::Number::decimal_from))]
fn further_digits(from: u32, text: &[u8]) -> (u32, &[u8])
    requires { from ≤ clip_limit }
    ensures value { result.0 ≡ (further_digits from text.now).0 }
    ensures rest { result.1.now ≡ (further_digits from text.now).1 }
{
    let mut value = from;
    let mut rest = text;
    while let [b, others @ ..] = rest {
        if !is_digit(*b) {
            break;
        }
        value = shifted(value, *b);
        rest = others;
    }
    (value, rest)
}

fn starts_digit(text: &[u8]) -> bool
    ensures { result ≡ starts_digit text.now }
{
    matches!(text, [b'0'..=b'9', ..])
}

/// The number that the digits in front are, at most 3,000,000,000: 0, or digits that do not start with 0.
#[tactic(auto, using(crate::proofs::DigitLaws::digits_by_first))]
pub fn digits(text: &[u8]) -> Option<(u32, &[u8])>
    ensures { option_map (λ r. (r.0, r.1.now)) result ≡ digits_in text.now }
{
    match text {
        [b'0', rest @ ..] => {
            if starts_digit(rest) {
                return None;
            }
            Some((0, rest))
        }
        [first @ b'1'..=b'9', rest @ ..] => Some(further_digits((*first - b'0') as u32, rest)),
        _ => None,
    }
}

/// The number that the token in front is, at most 3,000,000,000.
#[tactic(auto, using(crate::proofs::DigitLaws::number_by_digits))]
pub fn number(text: &[u8]) -> Option<(u32, &[u8])>
    ensures { option_map (λ r. (r.0, r.1.now)) result ≡ number_in text.now }
{
    let (value, rest) = digits(text)?;
    if !at_token_end(rest) {
        return None;
    }
    Some((value, rest))
}

// The number of a token that is a letter and a number.
#[tactic(auto, using(crate::proofs::DigitLaws::name_none, crate::proofs::DigitLaws::name_some))]
fn name(text: &[u8], letter: u8) -> Option<(u32, &[u8])>
    requires { in_token letter ≡ true }
    ensures { option_map (λ r. (r.0, r.1.now)) result ≡ name_in text.now letter }
{
    let [first, rest @ ..] = text else {
        return None;
    };
    if *first == letter { number(rest) } else { None }
}

/// The number of a token that names an event.
pub fn event(text: &[u8]) -> Option<(u32, &[u8])>
    ensures { option_map (λ r. (r.0, r.1.now)) result ≡ event_in text.now }
{
    name(text, b'E')
}

/// The number of a token that names an action.
pub fn action(text: &[u8]) -> Option<(u32, &[u8])>
    ensures { option_map (λ r. (r.0, r.1.now)) result ≡ action_in text.now }
{
    name(text, b'A')
}

/// The number of a token that names a reading.
pub fn reading(text: &[u8]) -> Option<(u32, &[u8])>
    ensures { option_map (λ r. (r.0, r.1.now)) result ≡ reading_in text.now }
{
    name(text, b'R')
}
