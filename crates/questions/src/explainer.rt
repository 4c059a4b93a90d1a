//! The questions on two texts as a machine of parts of lines, and the whole run on them. A question's first word may have any length.
ghost use Rattle.std.specs.Prelude.{◌≡◌, ℕ, ◌≤◌, length, take, OnOk, IfErr, Ok};
ghost use Rattle.std.specs.Result.{result_map_both};
ghost use Rattle.codegen.specs.Compile.{newest_form};
ghost use Rattle.layout.specs.Layout.{image_of};
ghost use Rattle.rule_text.specs.Text.{read_texts};
ghost use Rattle.output.specs.Buffer.{appended, behind};
ghost use Rattle.report.specs.Report.{texts_refusal_line};
ghost use Rattle.stream.specs.Event.{GoOn, Fails};
ghost use Rattle.stream.specs.Machine.{Sends, IsWriteFailure};
ghost use Rattle.questions.specs.Run.{AnswersTexts, QuestionsEndBy};
ghost use Rattle.questions.specs.Steps.Held.{Short};
ghost use Rattle.questions.specs.Steps.Sizes.{line_held};

use crate::answer::put_question;
use crate::line::{LINE_HELD, Place, is_begun, take_part};
use crate::names::Names;
use codegen::NEWEST_FORM;
use image::IMAGE_SIZE;
use lined::{PartMachine, answer_parts};
use output::{Page, Sink};
use policy::Refusal;
use report::put_texts_refusal;
use stream::{Ends, Failure, write_whole};

/// Bytes that are read at once.
pub(crate) const CHUNK_SIZE: usize = 65536;

/// Bytes of the longest answer: a number of 20 digits, ` cancelled `, the text, a space, a part of a text's length, and the line end.
const ANSWER_SIZE: usize = 32802;

/// Bytes that the refusal of a text has room in.
const REFUSAL_SIZE: usize = 64;

/// Nothing is held before a line.
const START: Place = Place {
    names: Names::Nothing,
    size: 0,
};

/// Both texts and their image; how many questions were answered, and what is held of the open line.
#[derive(Drop)]
struct Explainer<'t> {
    maker: &'t [u8],
    site: &'t [u8],
    image: &'t [u8],
    number: u64,
    held: [u8; LINE_HELD],
    at: Place,
    ghost compiled: { result_map_both (image_of newest_form) (λ refusal. refusal) (read_texts newest_form maker.now site.now) ≡ Ok image.now },
    ghost long: { length held ≡ line_held },
    ghost within: { at.size ≤ line_held },
    ghost short: { Short (take at.size held) },
}

impl<'t> PartMachine for Explainer<'t> {
    ghost use Rattle.std.specs.Prelude.{◌++◌};
    ghost use Rattle.report.specs.Report.{next_number};
    ghost use Rattle.questions.specs.Answered.{explained_line};
    ghost use Rattle.questions.specs.Steps.Left.{answer_in, answers_behind, no_line, last_line, none_so_far};
    ghost use Rattle.questions.specs.Steps.Sizes.{answer_size};

    ghost says = { λ e part. explained_line (next_number e.number) (answer_in e.maker.now e.site.now e.at.names (take e.at.size e.held ++ part)) };

    ghost given = { λ e bytes. answers_behind e.maker.now e.site.now (no_line e.maker.now e.site.now) e.number e.at.names (take e.at.size e.held) bytes };

    ghost printed = { λ e bytes. answers_behind e.maker.now e.site.now (last_line e.maker.now e.site.now) e.number e.at.names (take e.at.size e.held) bytes };

    ghost room = { answer_size };

    fn room(&self) -> usize {
        ANSWER_SIZE
    }

    fn part(&mut self, bytes: &[u8]) {
        self.at = take_part(&mut self.held, self.at, bytes);
    }

    fn end_line<S: Sink>(&mut self, part: &[u8], sink: &mut S) {
        self.at = take_part(&mut self.held, self.at, part);
        self.number = self.number.wrapping_add(1);
        put_question(
            sink,
            self.number,
            self.at.names,
            &self.held[..self.at.size],
            self.image,
            self.maker,
            self.site,
        );
        self.at = START;
    }

    fn end<S: Sink>(&mut self, sink: &mut S) {
        if is_begun(self.at.names, &self.held[..self.at.size]) {
            self.end_line(b"", sink);
        }
    }

    ghost quiet = { λ e. none_so_far e.maker.now e.site.now e.number e.at.names (take e.at.size e.held) };
}

/// Puts why the texts are refused at the start of a buffer, and answers how many bytes it has.
#[tactic(auto, using(output::proofs::SinkLaws::stored_all, crate::proofs::Room::refusal_stored))]
fn put_refusal(refusal: Refusal, out: &mut [u8]) -> usize
    requires { 64 ≤ length out.old }
    ensures within { result ≤ length out.new }
    ensures value { take result out.new ≡ texts_refusal_line refusal }
{
    let mut page = Page { bytes: out, end: 0 };
    put_texts_refusal(&mut page, refusal);
    page.end
}

/// Writes why the texts are refused.
fn refuse<E: Ends>(refusal: Refusal, ends: &mut E) -> Result<(), Failure>
    ensures ok { OnOk result (Sends (GoOn 0) (E.known ends.old) (E.known ends.new) (texts_refusal_line refusal)) }
    ensures err { IfErr result (λ e. IsWriteFailure e × ((n : ℕ) × Sends (Fails e) (E.known ends.old) (E.known ends.new) (take n (texts_refusal_line refusal)))) }
{
    let mut out = [0u8; REFUSAL_SIZE];
    let end = put_refusal(refusal, &mut out);
    match write_whole(ends, &out[..end]) {
        Ok(()) => Ok(()),
        Err(e) => Err(Failure::Write(e)),
    }
}

/// Answers the questions of an input on the maker's and the site's text. The answers to the questions that a read completed are written
/// before the next read.
/// Where the texts are refused, that is written in place of answers, and no question is read.
pub fn answer_questions<E: Ends>(maker: &[u8], site: &[u8], ends: &mut E) -> Result<(), Failure>
    ensures ok { OnOk result (AnswersTexts (read_texts newest_form maker.now site.now) maker.now site.now (E.known ends.old) (E.known ends.new)) }
    ensures err { IfErr result (λ e. QuestionsEndBy e (read_texts newest_form maker.now site.now) maker.now site.now (E.known ends.old) (E.known ends.new)) }
{
    let mut image = [0u8; IMAGE_SIZE];
    match codegen::compile_texts(NEWEST_FORM, maker, site, &mut image) {
        Err(refusal) => refuse(refusal, ends),
        Ok(size) => {
            let explainer = Explainer {
                maker,
                site,
                image: &image[..size],
                number: 0,
                held: [0; LINE_HELD],
                at: START,
            };
            let mut out = [0u8; ANSWER_SIZE];
            let mut chunk = [0u8; CHUNK_SIZE];
            answer_parts(ends, explainer, &mut out, &mut chunk)
        }
    }
}
