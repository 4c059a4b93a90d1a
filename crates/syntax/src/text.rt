//! The lines of a text, one after another: here a text is cut into lines, they are numbered, and those that are skipped are left out.
ghost use Rattle.std.specs.Prelude.{◌≡◌, ◌+◌, ◌^◌, ◌<◌, length, drop, option_map};
ghost use Rattle.std.specs.Result.{result_map_both};

use crate::line::read_line;
use line_value::{Comparisons, Line, Tests};
use policy::{Ending, Refusal};

/// Goes over the lines of a text that are not skipped, up to the first that is refused. It stands at a line, which it holds, or before
/// the first. A line is put in the same place each time, since to hand it out would be to copy it again.
#[derive(Drop)]
pub struct Lines<'t> {
    // Behind the line.
    rest: &'t [u8],
    form: u8,
    number: usize,
    line: Line,
    ghost counted: { number + length rest.now < 2 ^ 63 },
}

impl<'t> Lines<'t> {
    ghost use Rattle.syntax.specs.Lines.{lines_in};
    ghost use Rattle.syntax.specs.Walk.{lines_ahead, from_first, StandsAtFirst};

    /// Before the first line of a text for images of the form.
    #[inline(always)]
    pub fn new(form: u8, text: &'t [u8]) -> Lines<'t>
        ensures { lines_ahead result ≡ lines_in form text.now }
    {
        Lines {
            rest: text,
            form,
            number: 0,
            line: Line::new(Tests::new(), Comparisons::new(), Ending::Never),
        }
    }

    /// Goes on to the next line, if there is one, and answers the text from that line on. Behind a refusal there is none.
    #[inline(always)]
    #[tactic(auto, using(crate::proofs::LinesLaws::left_none, crate::proofs::LinesLaws::read_shorter, crate::proofs::LinesLaws::left_refused, crate::proofs::LinesLaws::left_skipped, crate::proofs::LinesLaws::left_accepted))]
    pub fn advance(&mut self) -> Result<Option<&'t [u8]>, Refusal>
        ensures answer { result_map_both (λ o. option_map (λ text. text.now) o) (λ refusal. refusal) result ≡ from_first (lines_ahead self.old) }
        ensures line { StandsAtFirst self.new (lines_ahead self.old) }
        ensures ahead { lines_ahead self.new ≡ drop 1 (lines_ahead self.old) }
    {
        while !self.rest.is_empty() {
            let text = self.rest;
            self.number += 1;
            match read_line(self.form, text, &mut self.line) {
                Ok((is_line, behind)) => {
                    self.rest = behind;
                    if is_line {
                        return Ok(Some(text));
                    }
                }
                Err(fault) => {
                    self.rest = &[];
                    return Err(fault.at(self.number));
                }
            }
        }
        Ok(None)
    }

    /// The line.
    pub fn line(&self) -> &Line
        ensures { result.now ≡ self.now.line }
    {
        &self.line
    }

    /// Its number, from 1 on.
    pub fn number(&self) -> usize
        ensures { result ≡ self.now.number }
    {
        self.number
    }
}
