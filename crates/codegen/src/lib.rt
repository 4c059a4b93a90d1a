//! The compiler: from a rule text, or two texts as one, to the image of their policy, in a lent buffer. Start with specs/Compile.antt.
#![tactic(auto)]

ghost use Rattle.std.specs.Prelude.{◌≡◌, ◌+◌, ◌*◌, ◌≤◌, length, IfOk};
ghost use Rattle.word.specs.Steps.Write.{put_words};
ghost use Rattle.layout.specs.Layout.{line_words, check_count, rule_word_limit, constraint_word_limit};
ghost use Rattle.syntax.specs.Lines.{lines_in};
ghost use Rattle.rule_text.specs.Text.{text_limit};
ghost use Rattle.policy.specs.Line.{line_part, part_get};
ghost use Rattle.codegen.specs.Compile.{compiled, compiled_texts};
ghost use Rattle.codegen.specs.Steps.Put.{word_count, cursors_after, cursors_behind, accepted_lines, lines_of_both, put_lines, put_image, Near, Further};

use layout::{check_count, header, is_known_form, put_check_words, put_line};
use line_value::Line;
use policy::{Fault, PerPart, Refusal};
use rule_text::{LineCounts, read_texts};
use syntax::Lines;
use word::put_word;

/// The form that the programs write.
pub const NEWEST_FORM: u8 = 3;

/// How many words lines take.
fn words(counts: LineCounts) -> usize
    requires { word_count counts ≤ 4096 }
    ensures { result ≡ word_count counts }
{
    counts.lines + counts.heads + counts.comparisons + counts.constants
}

/// Bytes of an image with so many words of each part.
fn image_size(form: u8, rule_words: usize, constraint_words: usize) -> usize
    requires rules { rule_words ≤ rule_word_limit form }
    requires constraints { constraint_words ≤ constraint_word_limit form }
    ensures { result ≡ (1 + rule_words + constraint_words + check_count form) * 4 }
{
    (1 + rule_words + constraint_words + check_count(form)) * 4
}

/// A line put in behind those of its kind. Cursors are the words at which the next rule and the next constraint go.
fn put_next(out: &mut [u8], cursors: PerPart<usize>, line: &Line) -> PerPart<usize>
    requires near { Near 2000000 cursors }
    requires short { length (line_words line.now) ≤ 17 }
    ensures answer { result ≡ cursors_after (line_part line.now) cursors (length (line_words line.now)) }
    ensures buffer { out.new ≡ put_words out.old (part_get cursors (line_part line.now)) (line_words line.now) }
{
    let part = line.ending().part();
    let at = cursors.get(part);
    let words = put_line(out, at, line);
    cursors.with(part, at + words)
}

/// The lines of a text for the form, up to the first that is refused, and the cursors behind them.
#[inline(always)]
fn put_lines(out: &mut [u8], form: u8, text: &[u8], start: PerPart<usize>) -> PerPart<usize>
    requires near { Near 600000 start }
    requires short { length text.now ≤ text_limit }
    ensures answer { result ≡ cursors_behind (accepted_lines (lines_in form text.now)) start }
    ensures near { Further start result }
    ensures buffer { out.new ≡ put_lines (accepted_lines (lines_in form text.now)) start out.old }
{
    let mut cursors = start;
    let mut lines = Lines::new(form, text);
    while let Ok(Some(_)) = lines.advance() {
        cursors = put_next(out, cursors, lines.line());
    }
    cursors
}

/// The image of two accepted texts, for which there is room.
#[tactic(auto, using(crate::proofs::PutLaws::lines_behind, layout::proofs::CheckLaws::limits_small), unfolding(crate::specs::Steps::Put::put_image, crate::specs::Steps::Put::put_content))]
fn put_image(
    out: &mut [u8],
    form: u8,
    maker: &[u8],
    site: &[u8],
    rule_words: usize,
    constraint_words: usize,
)
    requires maker { length maker.now ≤ text_limit }
    requires site { length site.now ≤ text_limit }
    requires rules { rule_words ≤ rule_word_limit form }
    requires constraints { constraint_words ≤ constraint_word_limit form }
    ensures { out.new ≡ put_image form (lines_of_both form maker.now site.now) rule_words constraint_words out.old }
{
    put_word(out, 0, header(form, rule_words, constraint_words));
    let middle = 1 + rule_words;
    let start = PerPart {
        rules: 1,
        constraints: middle,
    };
    let behind = put_lines(out, form, maker, start);
    put_lines(out, form, site, behind);
    put_check_words(out, form, middle + constraint_words);
}

/// Writes the image of the maker's and the site's text as one, in a form, from the start of the buffer on, and answers how many bytes it
/// has, or why there is none: 8 where the form is unknown, a fault of a text, 1 to 6, or 15 where the buffer has too few bytes. A refusal
/// leaves the buffer as it is, and an image what stands behind it. `IMAGE_SIZE` bytes of the crate image are enough for every image.
#[tactic(auto, using(rule_text::proofs::ReadLaws::counted_err), unfolding(crate::specs::Compile::compiled_texts, crate::specs::Compile::output_of, rule_text::specs::Answer::texts_read))]
pub fn compile_texts(form: u8, maker: &[u8], site: &[u8], out: &mut [u8]) -> Result<usize, Refusal>
    ensures answer { result ≡ (compiled_texts form maker.now site.now out.old).answer }
    ensures buffer { out.new ≡ (compiled_texts form maker.now site.now out.old).buffer }
    ensures within { IfOk result (λ size. size ≤ length out.new) }
{
    if !is_known_form(form) {
        return Err(Fault::ImageForm.at(0));
    }
    let counts = read_texts(form, maker, site)?;
    let rule_words = words(counts.rules);
    let constraint_words = words(counts.constraints);
    let size = image_size(form, rule_words, constraint_words);
    if out.len() < size {
        return Err(Fault::BufferTooSmall.at(0));
    }
    put_image(out, form, maker, site, rule_words, constraint_words);
    Ok(size)
}

/// The same of a single text, which is the maker's: the site's is empty.
#[tactic(auto, using(crate::proofs::CompileLaws::compiled_alone))]
pub fn compile(form: u8, text: &[u8], out: &mut [u8]) -> Result<usize, Refusal>
    ensures answer { result ≡ (compiled form text.now out.old).answer }
    ensures buffer { out.new ≡ (compiled form text.now out.old).buffer }
    ensures within { IfOk result (λ size. size ≤ length out.new) }
{
    compile_texts(form, text, b"", out)
}
