//! The compiler's whole runs.
ghost use Rattle.std.specs.Prelude.{◌≤◌, length, OnOk, IfErr};
ghost use Rattle.stream.specs.Machine.{AnswersAll, ListingEndsBy, nothing_due};
ghost use Rattle.session.specs.Listed.{listed};
ghost use Rattle.session.specs.Texts.{ListsTexts, TextsEndBy};

use crate::listing::{LISTING_SIZE, put_listing, put_texts_listing};
use crate::text::TEXT_HELD;
use std::io;
use stream::{Ends, Failure, Summary, Unread, keep, read_both, summarize, write_whole};

/// Bytes that are read at once.
const CHUNK_SIZE: usize = 65536;

/// The text as far as it was read, or as much of it as tells that it is too long; and the room for its listing.
#[derive(Drop)]
struct Compiler {
    text: [u8; TEXT_HELD],
    size: usize,
    out: [u8; LISTING_SIZE],
    ghost within: { size ≤ length text },
}

impl Summary for Compiler {
    ghost use Rattle.session.specs.Steps.Compiler.{listed_of};

    ghost printed = { listed_of };

    fn feed(&mut self, chunk: &[u8]) {
        self.size = keep(&mut self.text, self.size, chunk);
    }

    fn finish(&mut self) -> &[u8] {
        let end = put_listing(&self.text[..self.size], &mut self.out);
        &self.out[..end]
    }
}

/// Lists the text that is the input. It is read to its end, so that whoever writes it is not cut off; the listing is written then.
pub fn list_input<E: Ends>(ends: &mut E) -> Result<(), Failure>
    ensures ok { OnOk result (AnswersAll listed nothing_due (E.known ends.old) (E.known ends.new)) }
    ensures err { IfErr result (λ e. ListingEndsBy e listed (E.known ends.old) (E.known ends.new)) }
{
    let mut compiler = Compiler {
        text: [0; TEXT_HELD],
        size: 0,
        out: [0; LISTING_SIZE],
    };
    let mut chunk = [0u8; CHUNK_SIZE];
    summarize(ends, &mut compiler, &mut chunk)
}

/// What ended a run on two texts before their listing was written.
#[derive(Debug, Drop)]
pub enum TextsFailure {
    /// A read of the maker's text.
    Maker(io::Error),
    /// A read of the site's text.
    Site(io::Error),
    /// A write of the listing.
    Write(io::Error),
}

/// Lists the maker's and the site's text as one. The site's is not read before the maker's has been, to its end.
pub fn list_texts<M: Ends, S: Ends, E: Ends>(
    maker: &mut M,
    site: &mut S,
    ends: &mut E,
) -> Result<(), TextsFailure>
    ensures ok { OnOk result (ListsTexts (M.known maker.old) (M.known maker.new) (S.known site.old) (S.known site.new)
        (E.known ends.old) (E.known ends.new)) }
    ensures err { IfErr result (λ e. TextsEndBy e (M.known maker.old) (M.known maker.new) (S.known site.old) (S.known site.new)
        (E.known ends.old) (E.known ends.new)) }
{
    let mut chunk = [0u8; CHUNK_SIZE];
    let mut first = [0u8; TEXT_HELD];
    let mut second = [0u8; TEXT_HELD];
    let (maker_size, site_size) = match read_both(
        maker,
        site,
        &mut first,
        &mut second,
        &mut chunk,
    ) {
        Ok(sizes) => sizes,
        Err(Unread::First(e)) => return Err(TextsFailure::Maker(e)),
        Err(Unread::Second(e)) => return Err(TextsFailure::Site(e)),
    };
    let mut out = [0u8; LISTING_SIZE];
    let end = put_texts_listing(&first[..maker_size], &second[..site_size], &mut out);
    match write_whole(ends, &out[..end]) {
        Ok(()) => Ok(()),
        Err(e) => Err(TextsFailure::Write(e)),
    }
}
