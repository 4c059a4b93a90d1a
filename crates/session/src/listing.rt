//! The compiler's output: the words of an image, or a refusal.
ghost use Rattle.std.specs.Prelude.{◌≡◌};
ghost use Rattle.io.specs.Counts.{IsPrefixLen};
ghost use Rattle.word.specs.Chunk.{words_in};
ghost use Rattle.output.specs.Buffer.{appended, behind};
ghost use Rattle.output.specs.Sink.{fed};
ghost use Rattle.session.specs.Listed.{word_lines, listed, listed_texts};

use codegen::NEWEST_FORM;
use image::IMAGE_SIZE;
use output::{Page, Sink};
use word::words;

/// The words of an image, each a line.
#[tactic(auto, using(output::proofs::SinkLaws::put_laws), unfolding(crate::specs::Listed::word_lines))]
fn put_words<S: Sink>(sink: &mut S, words: &[[u8; 4]])
    ensures { sink.new ≡ fed S.taken sink.old (word_lines (words_in words.now)) }
{
    for word in words {
        report::put_word_line(sink, u32::from_be_bytes(*word));
    }
}

/// What the compiler prints for a text.
fn put_listed<S: Sink>(sink: &mut S, text: &[u8])
    ensures { sink.new ≡ fed S.taken sink.old (listed text.now) }
{
    let mut image = [0u8; IMAGE_SIZE];
    match codegen::compile(NEWEST_FORM, text, &mut image) {
        Err(refusal) => report::put_refusal(sink, refusal),
        Ok(size) => put_words(sink, words(&image[..size])),
    }
}

/// What it prints for the maker's and the site's text as one.
fn put_texts_listed<S: Sink>(sink: &mut S, maker: &[u8], site: &[u8])
    ensures { sink.new ≡ fed S.taken sink.old (listed_texts maker.now site.now) }
{
    let mut image = [0u8; IMAGE_SIZE];
    match codegen::compile_texts(NEWEST_FORM, maker, site, &mut image) {
        Err(refusal) => report::put_texts_refusal(sink, refusal),
        Ok(size) => put_words(sink, words(&image[..size])),
    }
}

/// Bytes of the longest listing: a line of nine bytes for each word of the largest image.
pub(crate) const LISTING_SIZE: usize = IMAGE_SIZE / 4 * 9;

/// Puts what the compiler prints for a text at the start of `out`, and answers how many bytes it has; `LISTING_SIZE` are enough.
#[tactic(auto, using(output::proofs::SinkLaws::stored_all, output::proofs::AppendLaws::append_length, io::proofs::Counting::prefix_len_of_le), unfolding(output::specs::Buffer::behind))]
pub(crate) fn put_listing(text: &[u8], out: &mut [u8]) -> usize
    ensures prefix_len { IsPrefixLen result out.new }
    ensures answer { result ≡ behind out.old 0 (listed text.now) }
    ensures buffer { out.new ≡ appended out.old 0 (listed text.now) }
{
    let mut page = Page { bytes: out, end: 0 };
    put_listed(&mut page, text);
    page.end
}

/// The same for the maker's and the site's text as one.
#[tactic(auto, using(output::proofs::SinkLaws::stored_all, output::proofs::AppendLaws::append_length, io::proofs::Counting::prefix_len_of_le), unfolding(output::specs::Buffer::behind))]
pub(crate) fn put_texts_listing(maker: &[u8], site: &[u8], out: &mut [u8]) -> usize
    ensures prefix_len { IsPrefixLen result out.new }
    ensures answer { result ≡ behind out.old 0 (listed_texts maker.now site.now) }
    ensures buffer { out.new ≡ appended out.old 0 (listed_texts maker.now site.now) }
{
    let mut page = Page { bytes: out, end: 0 };
    put_texts_listed(&mut page, maker, site);
    page.end
}
