//! Reading a whole rule text, or two texts as one. Start with specs/Text.antt.
#![tactic(auto)]

ghost use Rattle.std.specs.Prelude.{◌≡◌};
ghost use Rattle.policy.specs.Limits.{rule_limit};
ghost use Rattle.rule_text.specs.Answer.{text_read, texts_read};
ghost use Rattle.rule_text.specs.Steps.Counting.{count_behind};
ghost use Rattle.rule_text.specs.Steps.Tally.{Within, Small, plus, tallied_by};

use line_value::Line;
use policy::{Fault, PerPart, Refusal, Source};
use syntax::Lines;

// Bytes of a text.
const TEXT_LIMIT: usize = 32768;

/// How many lines of a kind a text has, and how many literals or actions, comparisons, and constants among these they have.
#[derive(Clone, Copy)]
pub struct LineCounts {
    pub lines: usize,
    pub heads: usize,
    pub comparisons: usize,
    pub constants: usize,
}

// The counts of a kind with one line more.
fn with_line(counts: LineCounts, line: &Line) -> LineCounts
    requires { Within rule_limit counts }
    ensures { result ≡ plus counts line.now }
{
    LineCounts {
        lines: counts.lines + 1,
        heads: counts.heads + line.heads().len(),
        comparisons: counts.comparisons + line.comparisons().len(),
        constants: counts.constants + line.constants(),
    }
}

// The counts of a text with one line more.
#[tactic(auto, unfolding(crate::specs::Steps::Tally::tallied_by, crate::specs::Steps::Tally::tally_as))]
fn tallied(counts: PerPart<LineCounts>, line: &Line) -> Result<PerPart<LineCounts>, Fault>
    requires { Small counts }
    ensures { result ≡ tallied_by counts line.now }
{
    let part = line.ending().part();
    let before = counts.get(part);
    if before.lines < part.line_limit() {
        Ok(counts.with(part, with_line(before, line)))
    } else {
        Err(Fault::TooManyLines)
    }
}

// The lines of a text, counted behind those before it. A refusal names no text.
#[inline(always)]
#[tactic(auto, using(crate::proofs::TextLaws::behind_long, crate::proofs::TextLaws::behind_short, crate::proofs::TextLaws::count_over, crate::proofs::TextLaws::count_turn, syntax::proofs::WalkLaws::advanced, syntax::proofs::WalkLaws::no_more, syntax::proofs::WalkLaws::refused_first), unfolding(crate::specs::Steps::Counting::count_lines))]
fn read_behind(
    form: u8,
    before: PerPart<LineCounts>,
    text: &[u8],
) -> Result<PerPart<LineCounts>, Refusal>
    requires { Small before }
    ensures { result ≡ count_behind form before text.now }
{
    if TEXT_LIMIT < text.len() {
        return Err(Fault::TooLong.at(0));
    }
    let mut counts = before;
    let mut lines = Lines::new(form, text);
    while let Some(_) = lines.advance()? {
        let number = lines.number();
        counts = tallied(counts, lines.line()).map_err(|fault| fault.at(number))?;
    }
    Ok(counts)
}

const NO_LINES: LineCounts = LineCounts {
    lines: 0,
    heads: 0,
    comparisons: 0,
    constants: 0,
};

/// A single text, which is the maker's, for images of the form.
pub fn read_text(form: u8, text: &[u8]) -> Result<PerPart<LineCounts>, Refusal>
    ensures { result ≡ text_read form text.now }
{
    let none = PerPart {
        rules: NO_LINES,
        constraints: NO_LINES,
    };
    read_behind(form, none, text).map_err(|refusal| refusal.within(Source::Maker))
}

/// The maker's and the site's text as one: all faults of the maker's come before those of the site's.
#[tactic(auto, using(crate::proofs::TextLaws::read_small, crate::proofs::TextLaws::maker_refused))]
pub fn read_texts(form: u8, maker: &[u8], site: &[u8]) -> Result<PerPart<LineCounts>, Refusal>
    ensures { result ≡ texts_read form maker.now site.now }
{
    let counts = read_text(form, maker)?;
    read_behind(form, counts, site).map_err(|refusal| refusal.within(Source::Site))
}
