//! The loader: which bytes are an image, and where its parts stand.
ghost use Rattle.std.specs.Prelude.{◌≡◌, ◌+◌, ◌^◌, ◌<◌, ◌≤◌, length};
ghost use Rattle.std.specs.Result.{result_map_both};
ghost use Rattle.word.specs.Word.{between};
ghost use Rattle.word.specs.Chunk.{words_in};
ghost use Rattle.image.specs.Check.{well_sized};
ghost use Rattle.image.specs.Lines.{lines_from, part_lines};
ghost use Rattle.image.specs.Load.{body_answer, load};
ghost use Rattle.image.specs.Steps.Checks.{checks_answer, whole_answer};
ghost use Rattle.image.specs.Steps.Part.{part_answer};
ghost use Rattle.image.specs.Taken.{image_contents};

use crate::taken::Image;
use decode::line_length;
use layout::{check_count, check_sums, constraint_words_of, form_of, is_known_form, rule_words_of};
use policy::{CONSTRAINT_LIMIT, Fault, Part, PerPart, RULE_LIMIT, Refusal};
use word::{nth_word_or_zero, part, words};

// Words of the rules: 128 lines of 17 words, which are eight heads, four comparisons with constants and the ending.
const RULE_WORD_LIMIT: usize = 2176;

// Words of the constraints: 64 such lines.
const CONSTRAINT_WORD_LIMIT: usize = 1088;

/// Bytes of the largest image: both parts, word 0 and two check words, of four bytes each.
pub const IMAGE_SIZE: usize = 13068;

#[tactic(auto, using(std::proofs::lemmas::Bool::Decides::nat_tests), unfolding(crate::specs::Check::well_sized))]
fn well_sized(size: usize) -> bool
    ensures { result ≡ well_sized size }
{
    if size < 8 {
        return false;
    }
    if IMAGE_SIZE < size {
        return false;
    }
    size % 4 == 0
}

// How many lines of a part the words are, at most `limit` of them; or the refusal where none fits, at an index in the image, in which
// the first word has the index `first`.
#[tactic(auto, using(crate::proofs::PartLaws::counted_all, crate::proofs::PartLaws::counted_full, crate::proofs::PartLaws::counted_fault, crate::proofs::PartLaws::counted_more, crate::proofs::PartLaws::line_inside, word::proofs::WordLaws::rest_between, word::proofs::ChunkLaws::words_in_length))]
#[inline(always)]
fn part_lines(
    words: &[[u8; 4]],
    form: u8,
    kind: Part,
    limit: usize,
    first: usize,
) -> Result<usize, Refusal>
    requires { first + length words.now < 2 ^ 32 }
    ensures { result ≡ part_answer 0 (lines_from form kind limit first (words_in words.now)) }
{
    let mut rest = words;
    for count in 0..limit {
        if rest.is_empty() {
            return Ok(count);
        }
        let size = line_length(rest, form, kind);
        if size == 0 {
            return Err(Fault::ImageBody.at(first + (words.len() - rest.len())));
        }
        rest = part(rest, size, rest.len());
    }
    if rest.is_empty() {
        Ok(limit)
    } else {
        Err(Fault::ImageBody.at(first + (words.len() - rest.len())))
    }
}

// What is wrong with the counts of word 0, 9, or else with the check words, of a known form.
#[tactic(auto, using(word::proofs::ChunkLaws::words_in_length, std::proofs::lemmas::Bool::Decides::nat_tests), unfolding(crate::specs::Steps::Checks::whole_answer))]
#[inline(always)]
fn check_counts(
    words: &[[u8; 4]],
    form: u8,
    rule_words: usize,
    constraint_words: usize,
) -> Result<(), Refusal>
    ensures { result ≡ whole_answer form rule_words constraint_words (words_in words.now) }
{
    if RULE_WORD_LIMIT < rule_words {
        return Err(Fault::ImageCount.at(0));
    }
    if CONSTRAINT_WORD_LIMIT < constraint_words {
        return Err(Fault::ImageCount.at(0));
    }
    let index = 1 + rule_words + constraint_words;
    if words.len() != index + check_count(form) {
        return Err(Fault::ImageCount.at(0));
    }
    check_sums(words, form, index)
}

// What is wrong with word 0 and the check words: the form, 8, or else what the form asks of them. Form 1 comes first, with a copy of its
// own, so that it is asked for once.
#[tactic(auto, unfolding(crate::specs::Steps::Checks::checks_answer, layout::specs::Layout::known_form))]
#[inline(always)]
fn check_form(
    words: &[[u8; 4]],
    form: u8,
    rule_words: usize,
    constraint_words: usize,
) -> Result<(), Refusal>
    ensures { result ≡ checks_answer form rule_words constraint_words (words_in words.now) }
{
    if form == 1 {
        return check_counts(words, 1, rule_words, constraint_words);
    }
    if !is_known_form(form) {
        return Err(Fault::ImageForm.at(0));
    }
    check_counts(words, form, rule_words, constraint_words)
}

// The image of a form of which both parts fit the words; or the refusal at the first word at which no line fits.
#[tactic(auto, using(crate::proofs::HeldLaws::counted_whole), unfolding(crate::specs::Lines::part_lines, crate::specs::Steps::Part::part_answer, crate::specs::Load::body_answer))]
#[inline(always)]
fn load_body(
    words: &[[u8; 4]],
    form: u8,
    rule_words: usize,
    constraint_words: usize,
) -> Result<Image<'_>, Refusal>
    requires inside { 1 + rule_words + constraint_words ≤ length words.now }
    requires few { length words.now < 4096 }
    ensures { result_map_both image_contents (λ refusal. refusal) result ≡ body_answer form (between 1 (1 + rule_words) (words_in words.now)) (between (1 + rule_words) (1 + rule_words + constraint_words) (words_in words.now)) (part_lines form Part.Rules 1 (1 + rule_words) (words_in words.now)) (part_lines form Part.Constraints (1 + rule_words) (1 + rule_words + constraint_words) (words_in words.now)) }
{
    let middle = 1 + rule_words;
    let end = middle + constraint_words;
    let rules = part(words, 1, middle);
    let constraints = part(words, middle, end);
    let rule_count = part_lines(rules, form, Part::Rules, RULE_LIMIT, 1)?;
    let constraint_count = part_lines(
        constraints,
        form,
        Part::Constraints,
        CONSTRAINT_LIMIT,
        middle,
    )?;
    Ok(Image {
        form,
        parts: PerPart { rules, constraints },
        counts: PerPart {
            rules: rule_count,
            constraints: constraint_count,
        },
    })
}

/// The parts of an image, or why and where it is refused.
#[tactic(auto, using(crate::proofs::LoadLaws::load_size, crate::proofs::LoadLaws::load_checked, crate::proofs::LoadLaws::checks_count, word::proofs::ChunkLaws::words_in_length))]
pub fn load_image(image: &[u8]) -> Result<Image<'_>, Refusal>
    ensures { result_map_both image_contents (λ refusal. refusal) result ≡ load image.now }
{
    let size = image.len();
    if !well_sized(size) {
        return Err(Fault::ImageSize.at(0));
    }
    let words = words(image);
    let header = nth_word_or_zero(words, 0);
    let form = form_of(header);
    let rule_words = rule_words_of(header) as usize;
    let constraint_words = constraint_words_of(header) as usize;
    check_form(words, form, rule_words, constraint_words)?;
    load_body(words, form, rule_words, constraint_words)
}
