//! The answer to a question.
ghost use Rattle.std.specs.Prelude.{◌≡◌};
ghost use Rattle.std.specs.Result.{result_map_both};
ghost use Rattle.output.specs.Sink.{fed};
ghost use Rattle.explanation.specs.Part.{quote_of};
ghost use Rattle.explanation.specs.Why.{said_by};
ghost use Rattle.questions.specs.Answered.{no_action, quoted_line};
ghost use Rattle.questions.specs.Steps.Answer.{line_answer, question_line};

use crate::line::{epoch_line, first_word};
use crate::names::{Names, with_name};
use explanation::{Outcome, Shown, explain_on};
use output::Sink;
use policy::{Fault, Refusal, Source};
use report::{put_not_explained, put_not_proposed, put_shown};

/// Bytes of the longest epoch line.
const EPOCH_LIMIT: usize = 1024;

/// What is refused where the first word has another name.
#[tactic(auto, unfolding(crate::specs::Answered::no_action))]
fn no_action(epoch: &[u8]) -> Refusal
    ensures { result ≡ no_action epoch.now }
{
    if EPOCH_LIMIT < epoch.len() {
        Fault::TooLong.at(0)
    } else {
        Fault::EpochSyntax.at(0)
    }
}

#[tactic(auto, unfolding(crate::specs::Answered::word_of, crate::specs::Steps::Answer::answer_on))]
fn answer<'m, 's>(
    names: Names,
    line: &[u8],
    image: &[u8],
    maker: &'m [u8],
    site: &'s [u8],
) -> Result<Outcome<'m, 's>, Refusal>
    ensures { result_map_both said_by (λ refusal. refusal) result ≡ line_answer maker.now site.now image.now names line.now }
{
    let epoch = epoch_line(line);
    match with_name(names, first_word(line)) {
        Some(asked) => explain_on(image, maker, site, asked.pending, epoch, asked.action),
        None => Err(no_action(epoch)),
    }
}

/// What became of an action, and the line of one of both texts that says why.
#[tactic(auto, unfolding(crate::specs::Answered::quoted_line))]
fn put_quote<'m, 's, S: Sink>(sink: &mut S, number: u64, became: &[u8], shown: Shown<'m, 's>)
    ensures { sink.new ≡ fed S.taken sink.old (quoted_line number became.now (quote_of shown.entry)) }
{
    match shown {
        Shown::Maker(excerpt) => put_shown(sink, number, became, Source::Maker, excerpt.bytes),
        Shown::Site(excerpt) => put_shown(sink, number, became, Source::Site, excerpt.bytes),
    }
}

/// Puts the answer to the question of that number, on the image of both texts: these names, and the line behind them.
#[tactic(auto, unfolding(crate::specs::Answered::explained_line, crate::specs::Steps::Answer::question_line, lexer::specs::Byte::bytes))]
pub(crate) fn put_question<S: Sink>(
    sink: &mut S,
    number: u64,
    names: Names,
    line: &[u8],
    image: &[u8],
    maker: &[u8],
    site: &[u8],
)
    ensures { sink.new ≡ fed S.taken sink.old (question_line maker.now site.now image.now number names line.now) }
{
    match answer(names, line, image, maker, site) {
        Err(refusal) => put_not_explained(sink, number, refusal.fault),
        Ok(Outcome::NotProposed) => put_not_proposed(sink, number),
        Ok(Outcome::Accepted(shown)) => put_quote(sink, number, b" accepted ", shown),
        Ok(Outcome::Cancelled(shown)) => put_quote(sink, number, b" cancelled ", shown),
    }
}
