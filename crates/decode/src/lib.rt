//! The lines of an image: whether words begin with a whole line that an accepted text may have, and the value of a line.
#![tactic(auto)]

ghost use Rattle.std.specs.Prelude.{◌≡◌, ◌+◌, ◌<◌, ◌≤◌, ◌==◌, false, true, MatchOption, length, slice_index_or};
ghost use Rattle.word.specs.Word.{word_limit, Below};
ghost use Rattle.word.specs.Chunk.{words_in};
ghost use Rattle.operation.specs.Fields.{first_of};
ghost use Rattle.decode.specs.Decode.{line_at, line_length};
ghost use Rattle.decode.specs.Steps.Scan.{first_head, head_operations, first_ending, ending_numbers, number_lowest, relation_lowest, is_trigger, is_ending, head_sound, count_heads, head_numbers, numbers_of, comparison_length, IsBehind, comparisons_fill, last_ending, with_part, line_from};

use line_value::{Comparisons, Line, Tests, fits};
use operation::{LinePart, Operation, effect_of, part_at, skip};
use policy::{COMPARISON_LIMIT, Ending, HEAD_LIMIT, Part, TRIGGER_FORM, with_member};
use word::{nth_word, part as part_of};

// Numbers that a field has.
const NUMBERS: u32 = 64;

// The relations that there are, of a field's 8.
const RELATIONS: u32 = 6;

// What the operation of a word counts.
const OPERATION: u32 = 0x1000_0000;

// The words of comparisons, all but the operation 0.
const AGAINST_CONSTANT: u32 = 0x3000_0000;

const AGAINST_READING: u32 = 0x4000_0000;

// The word of an ending that triggers an event, all but the operation 0.
const TRIGGERS: u32 = 0x8000_0000;

// Bytes are below 256, and so words below 2 ^ 32, whether they are read or not: no code.
fn bytes_fit(bytes: &[u8])
    ensures { Below 256 bytes.now }
{}

fn words_fit(words: &[[u8; 4]])
    ensures { Below word_limit (words_in words.now) }
{
    bytes_fit(words.as_flattened());
}

// A word less another, turned so that the number is lowest and the operation behind it. Above them stands what lies between the
// number and the skip, and the skip: 0 where both words have the same. So one comparison tests all but the number.
fn number_lowest(word: u32, other: u32) -> u32
    requires { other ≤ 2147483648 }
    ensures { result ≡ number_lowest word other }
{
    let rest = word.wrapping_sub(other);
    (rest >> 22) + (rest % 0x0040_0000) * 0x0400
}

// The same with the relation lowest, then the second number, the first, the operation, and the skip.
fn relation_lowest(word: u32, other: u32) -> u32
    requires { other < 2147483648 }
    ensures { result ≡ relation_lowest word other }
{
    let rest = word.wrapping_sub(other);
    (rest >> 13) + (rest % 0x2000) * 0x0008_0000
}

// The word of the first operation that heads of the part may have, all else 0.
fn first_head(part: Part) -> u32
    ensures { result ≡ first_head part }
{
    match part {
        Part::Rules => Operation::Present.opcode() * OPERATION,
        Part::Constraints => Operation::Member.opcode() * OPERATION,
    }
}

// How many operations that is, one behind the other.
fn head_operations(part: Part) -> u32
    ensures { result ≡ head_operations part }
{
    match part {
        Part::Rules => 2,
        Part::Constraints => 1,
    }
}

// The number of the head that the word is, with `left` words of its line behind it; none where it is no head of the part.
#[tactic(auto, using(crate::proofs::FormLaws::head_found, crate::proofs::FormLaws::headless))]
fn head_number(part: Part, word: u32, left: u32) -> Option<u8>
    requires { left < 32 }
    ensures { MatchOption result (head_sound part word left ≡ false) (λ number. (head_sound part word left ≡ true) × (number ≡ first_of word)) }
{
    let number = number_lowest(word, first_head(part) + left);
    if number < NUMBERS * head_operations(part) {
        Some((number % NUMBERS) as u8)
    } else {
        None
    }
}

// The word of an ending of the part, all else 0.
fn first_ending(part: Part) -> u32
    ensures { result ≡ first_ending part }
{
    match part {
        Part::Rules => Operation::Proposes.opcode() * OPERATION,
        Part::Constraints => Operation::Never.opcode() * OPERATION,
    }
}

// How many numbers an ending may have.
fn ending_numbers(part: Part) -> u32
    ensures { result ≡ ending_numbers part }
{
    match part {
        Part::Rules => NUMBERS,
        Part::Constraints => 1,
    }
}

// Whether the word ends a rule that triggers an event, in a form that has such.
#[tactic(auto, unfolding(crate::specs::Steps::Scan::is_trigger))]
fn is_trigger(form: u8, part: Part, word: u32) -> bool
    ensures { result ≡ is_trigger form part word }
{
    match part {
        Part::Rules => TRIGGER_FORM <= form && number_lowest(word, TRIGGERS) < NUMBERS,
        Part::Constraints => false,
    }
}

#[tactic(auto, using(crate::proofs::FormLaws::ending_cases))]
fn is_ending(form: u8, part: Part, word: u32) -> bool
    ensures { result ≡ is_ending form part word }
{
    if number_lowest(word, first_ending(part)) < ending_numbers(part) {
        return true;
    }
    is_trigger(form, part, word)
}

// Whether a comparison with a constant may stand here, with `left` words of the line behind its first: its constant, and at least
// one more. Its reading is left out of what is tested, but for the bits that are 0 up to 15.
fn constant_sound(word: u32, left: u32) -> bool
    requires some { 1 < left }
    requires few { left < 32 }
    ensures { result ≡ (comparison_length word left == 2) }
{
    let rest = relation_lowest(word, AGAINST_CONSTANT + left - 1);
    rest % 0x0200 + (rest >> 13) * 0x2000 < RELATIONS
}

// Whether a comparison with a reading may stand here, with `left` words of the line behind it.
fn reading_sound(word: u32, left: u32) -> bool
    requires { left < 32 }
    ensures { result ≡ (comparison_length word left == 1) }
{
    let rest = relation_lowest(word, AGAINST_READING + left);
    rest % 0x0008 + ((rest >> 7) % 4) * 0x0080 + (rest >> 13) * 0x2000 < RELATIONS
}

// The heads that a line begins with: how many there are, and the set of their numbers.
struct Heads {
    count: usize,
    numbers: u64,
}

// Those of the words of a line before its ending.
#[tactic(auto, using(crate::proofs::LengthLaws::head_counted, crate::proofs::LengthLaws::heads_over, crate::proofs::LengthLaws::number_gathered, word::proofs::ChunkLaws::words_in_length))]
#[inline(always)]
fn heads_of(part: Part, words: &[[u8; 4]]) -> Heads
    requires { length words.now < 32 }
    ensures count { result.count ≡ count_heads part (length words.now) (words_in words.now) }
    ensures numbers { result.numbers ≡ numbers_of (head_numbers result.count (words_in words.now)) }
{
    let mut numbers = 0;
    for i in 0..words.len() {
        let left = (words.len() - i) as u32;
        let Some(number) = head_number(part, nth_word(words, i), left) else {
            return Heads { count: i, numbers };
        };
        numbers = with_member(numbers, number);
    }
    Heads {
        count: words.len(),
        numbers,
    }
}

// The words behind the comparison with which the words of a line before its ending begin; none where they begin with none.
#[tactic(auto, using(crate::proofs::LengthLaws::behind_by, crate::proofs::LengthLaws::comparison_lengths, std::proofs::lemmas::List::take_rest, std::proofs::lemmas::Bool::Decides::nat_tests))]
fn behind_comparison(words: &[[u8; 4]]) -> Option<&[[u8; 4]]>
    requires some { 0 < length words.now }
    requires few { length words.now < 32 }
    ensures { MatchOption result (comparison_length (slice_index_or (words_in words.now) 0 0) (length words.now) ≡ 0) (λ behind. IsBehind (words_in words.now) (words_in behind.now)) }
{
    let word = nth_word(words, 0);
    let left = words.len() as u32;
    if 1 < left && constant_sound(word, left) {
        return Some(&words[2..]);
    }
    if reading_sound(word, left) {
        return Some(&words[1..]);
    }
    None
}

// Whether the words are comparisons, at most four.
#[tactic(auto, using(crate::proofs::LengthLaws::fill_done, crate::proofs::LengthLaws::fill_full, crate::proofs::LengthLaws::fill_bad, word::proofs::ChunkLaws::words_in_length))]
#[inline(always)]
fn comparisons_sound(words: &[[u8; 4]]) -> bool
    requires { length words.now < 32 }
    ensures { result ≡ comparisons_fill 4 (length words.now) (words_in words.now) }
{
    let mut rest = words;
    for _ in 0..COMPARISON_LIMIT {
        if rest.is_empty() {
            return true;
        }
        let Some(behind) = behind_comparison(rest) else {
            return false;
        };
        rest = behind;
    }
    rest.is_empty()
}

/// How many words the line of the part has with which the words begin, in an image of the form: 0 where they begin with none that an
/// accepted text for it may have.
// As many numbers as heads: none stands twice. Each test leaves at once.
#[tactic(auto, using(crate::proofs::LengthLaws::length_is, crate::proofs::LengthLaws::length_none, crate::proofs::LengthLaws::head_count_limit, word::proofs::WordLaws::rest_between, std::proofs::lemmas::Bool::Decides::nat_tests, word::proofs::ChunkLaws::words_in_length))]
#[inline(always)]
pub fn line_length(words: &[[u8; 4]], form: u8, part: Part) -> usize
    ensures { result ≡ line_length (line_at form part (words_in words.now)) }
{
    if words.is_empty() {
        return 0;
    }
    words_fit(words);
    let size = skip(nth_word(words, 0)) as usize;
    if words.len() <= size {
        return 0;
    }
    if !is_ending(form, part, nth_word(words, size)) {
        return 0;
    }
    let line = part_of(words, 0, size);
    let Heads { count, numbers } = heads_of(part, line);
    if count == 0 {
        return 0;
    }
    if HEAD_LIMIT < count {
        return 0;
    }
    if numbers.count_ones() as usize != count {
        return 0;
    }
    if comparisons_sound(part_of(line, count, size)) {
        return size + 1;
    }
    0
}

// What a line ends as whose last word says so.
#[tactic(auto, unfolding(crate::specs::Steps::Scan::ending_said, operation::specs::Said::effect_said))]
fn last_ending(words: &[[u8; 4]]) -> Ending
    requires { 0 < length words.now }
    ensures { result ≡ last_ending (words_in words.now) }
{
    match effect_of(nth_word(words, words.len() - 1)) {
        Some(effect) => Ending::Yields(effect),
        None => Ending::Never,
    }
}

// The parts of a line before its ending.
#[derive(Drop)]
struct Parts {
    heads: Tests,
    comparisons: Comparisons,
}

// One part more, where it is of the kind and there is room for it.
#[tactic(auto, unfolding(crate::specs::Steps::Scan::with_part))]
fn push_part(parts: &mut Parts, part: Part, said: LinePart)
    ensures { parts.new ≡ with_part part parts.old said }
{
    match said {
        LinePart::Head(test) => {
            if fits(part, test) && parts.heads.len() < HEAD_LIMIT {
                parts.heads.push(test);
            }
        }
        LinePart::Comparison(comparison) => {
            if parts.comparisons.len() < COMPARISON_LIMIT {
                parts.comparisons.push(comparison);
            }
        }
        LinePart::Ending(_) | LinePart::Nothing => {}
    }
}

/// The line whose words these are. Nothing is checked but that its heads fit its ending, so it is for images that the loader takes.
#[inline(always)]
pub fn read_line(words: &[[u8; 4]]) -> Line
    ensures { result ≡ line_from (words_in words.now) }
{
    let mut parts = Parts {
        heads: Tests::new(),
        comparisons: Comparisons::new(),
    };
    if words.is_empty() {
        return Line::new(parts.heads, parts.comparisons, Ending::Never);
    }
    let ending = last_ending(words);
    let part = ending.part();
    let front = part_of(words, 0, words.len() - 1);
    let mut at = 0;
    while at < front.len() {
        let said = part_at(front, at);
        at += 1 + said.constants();
        push_part(&mut parts, part, said);
    }
    Line::new(parts.heads, parts.comparisons, ending)
}
