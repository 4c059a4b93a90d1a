//! A question's line, of which as much is held as tells what it asks, whatever it goes on with.
ghost use Rattle.std.specs.Prelude.{◌≡◌, ◌≤◌, ◌&&◌, nat_lt, fold, length, take};
ghost use Rattle.std.specs.List.{list_all};
ghost use Rattle.lexer.specs.Byte.{is_digit};
ghost use Rattle.lexer.specs.Lines.{take_leading, drop_leading};
ghost use Rattle.questions.specs.Answered.{in_word, epoch_part};
ghost use Rattle.questions.specs.Steps.Sizes.{name_held, line_held};
ghost use Rattle.questions.specs.Steps.Held.{is_begun, name_with, with_byte, Short, Goes};
ghost use Rattle.questions.specs.Steps.Place.{open_at};

use crate::names::{Names, with_name};
use lexer::is_digit;
use stream::keep;

/// Bytes of a name that are held: a letter and three digits.
const NAME_HELD: usize = 4;

/// Bytes of a line that are held: a name, a space, and an epoch line and one byte more, which tells that it is too long.
pub(crate) const LINE_HELD: usize = 1030;

/// What stands from the first space on.
fn behind_word(line: &[u8]) -> &[u8]
    ensures { result.now ≡ drop_leading in_word line.now }
{
    let mut rest = line;
    while let [b, others @ ..] = rest {
        if *b == b' ' {
            break;
        }
        rest = others;
    }
    rest
}

/// Whether there is a byte of the line.
#[tactic(auto, unfolding(crate::specs::Steps::Held::is_begun))]
pub(crate) fn is_begun(names: Names, line: &[u8]) -> bool
    ensures { result ≡ is_begun names line.now }
{
    match names {
        Names::Nothing => 0 < line.len(),
        Names::Ended(_) => true,
    }
}

/// Whether there is no space.
#[tactic(auto, using(crate::proofs::NameLaws::leading_all))]
fn is_word(line: &[u8]) -> bool
    ensures { result ≡ list_all in_word line.now }
{
    match behind_word(line) {
        [] => true,
        _ => false,
    }
}

/// What stands before the first space.
#[tactic(auto, using(crate::proofs::LineLaws::leading_cut, lexer::proofs::LeadingLaws::drop_shorter))]
pub(crate) fn first_word(line: &[u8]) -> &[u8]
    ensures { result.now ≡ take_leading in_word line.now }
{
    &line[..line.len() - behind_word(line).len()]
}

/// The epoch line behind the first space.
#[tactic(auto, unfolding(crate::specs::Answered::epoch_part))]
pub(crate) fn epoch_line(line: &[u8]) -> &[u8]
    ensures { result.now ≡ epoch_part line.now }
{
    match behind_word(line) {
        [] => b"",
        [_, epoch @ ..] => epoch,
    }
}

/// Whether the byte is one more digit where that tells nothing: of as many bytes as are held the number is over 63.
fn is_settled(size: usize, byte: u8) -> bool
    ensures { result ≡ nat_lt 3 size && is_digit byte }
{
    NAME_HELD <= size && is_digit(byte)
}

/// How much is held: the names that have ended, and so many bytes behind them.
#[derive(Clone, Copy)]
pub(crate) struct Place {
    pub(crate) names: Names,
    pub(crate) size: usize,
}

/// One byte more of a name. What is no digit takes the place of the last that is held, since the name then has no number.
#[tactic(auto, using(crate::proofs::LineLaws::name_step, crate::proofs::LineLaws::name_set))]
fn push_name(held: &mut [u8], size: usize, byte: u8) -> usize
    requires name { size ≤ name_held }
    requires room { name_held ≤ length held.old }
    ensures name { result ≤ name_held }
    ensures room { length held.new ≡ length held.old }
    ensures value { take result held.new ≡ name_with (take size held.old) byte }
{
    if is_settled(size, byte) {
        return size;
    }
    let last = size.min(NAME_HELD - 1);
    held[last] = byte;
    last + 1
}

/// One byte more of a first word.
#[tactic(auto, unfolding(crate::specs::Steps::Held::with_byte))]
fn push(held: &mut [u8], at: Place, byte: u8) -> Place
    requires name { at.size ≤ name_held }
    requires room { name_held ≤ length held.old }
    ensures name { result.size ≤ name_held }
    ensures room { length held.new ≡ length held.old }
    ensures value { open_at result held.new ≡ with_byte (open_at at held.old) byte }
{
    if byte == b',' {
        let asked = with_name(at.names, &held[..at.size]);
        return Place {
            names: Names::Ended(asked),
            size: 0,
        };
    }
    Place {
        names: at.names,
        size: push_name(held, at.size, byte),
    }
}

/// More bytes of a first word.
fn take_word(held: &mut [u8], at: Place, word: &[u8]) -> Place
    requires name { at.size ≤ name_held }
    requires room { name_held ≤ length held.old }
    ensures name { result.size ≤ name_held }
    ensures room { length held.new ≡ length held.old }
    ensures value { open_at result held.new ≡ fold with_byte (open_at at held.old) word.now }
{
    let mut end = at;
    for byte in word {
        end = push(held, end, *byte);
    }
    end
}

/// A part of the line. What is held asks what all of the line asks.
pub(crate) fn take_part(held: &mut [u8], at: Place, part: &[u8]) -> Place
    requires within { at.size ≤ length held.old }
    requires room { line_held ≤ length held.old }
    requires short { Short (take at.size held.old) }
    ensures within { result.size ≤ length held.new }
    ensures room { length held.new ≡ length held.old }
    ensures goes { Goes at.names (take at.size held.old) part.now result.names (take result.size held.new) }
{
    if is_word(&held[..at.size]) {
        let end = take_word(held, at, first_word(part));
        Place {
            names: end.names,
            size: keep(held, end.size, behind_word(part)),
        }
    } else {
        Place {
            names: at.names,
            size: keep(held, at.size, part),
        }
    }
}
