//! The explaining program's whole run: both texts are inputs, too.
ghost use Rattle.std.specs.Prelude.{OnOk, IfErr};
ghost use Rattle.questions.specs.Run.{ReadsAndAnswers, ExplainEndsBy};

use crate::explainer::{CHUNK_SIZE, answer_questions};
use std::io;
use stream::{Ends, Failure, Unread, read_both};

/// Bytes of a text that are held: one over its limit, which tells that it is too long.
const TEXT_HELD: usize = 32769;

/// What ended a run before all questions were answered: a read of a text, or a call of the conversation on them.
#[derive(Debug, Drop)]
pub enum ExplainFailure {
    /// A read of the maker's text.
    Maker(io::Error),
    /// A read of the site's text.
    Site(io::Error),
    /// A read of the questions, or a write of an answer or of the texts' refusal.
    Questions(Failure),
}

/// Answers the questions of an input on the maker's and the site's text, which are read first, the maker's before the site's and each to
/// its end. Refused texts print their refusal, and no question is read.
pub fn explain_texts<M: Ends, S: Ends, E: Ends>(
    maker: &mut M,
    site: &mut S,
    ends: &mut E,
) -> Result<(), ExplainFailure>
    ensures ok { OnOk result (ReadsAndAnswers (M.known maker.old) (M.known maker.new) (S.known site.old) (S.known site.new)
        (E.known ends.old) (E.known ends.new)) }
    ensures err { IfErr result (λ e. ExplainEndsBy e (M.known maker.old) (M.known maker.new) (S.known site.old) (S.known site.new)
        (E.known ends.old) (E.known ends.new)) }
{
    let mut chunk = [0u8; CHUNK_SIZE];
    let mut first = [0u8; TEXT_HELD];
    let mut second = [0u8; TEXT_HELD];
    let (maker_size, site_size) = match read_both(
        maker,
        site,
        &mut first,
        &mut second,
        &mut chunk,
    ) {
        Ok(sizes) => sizes,
        Err(Unread::First(e)) => return Err(ExplainFailure::Maker(e)),
        Err(Unread::Second(e)) => return Err(ExplainFailure::Site(e)),
    };
    match answer_questions(&first[..maker_size], &second[..site_size], ends) {
        Ok(()) => Ok(()),
        Err(e) => Err(ExplainFailure::Questions(e)),
    }
}
