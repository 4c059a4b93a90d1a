//! An image that the loader took. A field of it is private, so that no other code makes one.
ghost use Rattle.std.specs.Prelude.{◌≡◌, ◌<◌, length, true};
ghost use Rattle.policy.specs.Line.{part_get};
ghost use Rattle.policy.specs.declared.line.Part.{Part};
ghost use Rattle.operation.specs.Whole.{whole_lines};
ghost use Rattle.word.specs.Chunk.{words_in};

use crate::walker::Walker;
use policy::{Part, PerPart};

/// Its form, the words of its two parts, which are whole lines, and how many lines each has.
#[derive(Clone, Copy)]
pub struct Image<'a> {
    pub(crate) form: u8,
    pub parts: PerPart<&'a [[u8; 4]]>,
    pub counts: PerPart<usize>,
    pub ghost whole: { (part : Part) → whole_lines part (words_in (part_get parts part).now) ≡ true },
    pub ghost few: { (part : Part) → length (part_get parts part).now < 4096 },
}

impl<'a> Image<'a> {
    ghost use Rattle.image.specs.Walk.{IsAtFirstLine};
    ghost use Rattle.image.specs.Taken.{image_contents};

    /// The form, which word 0 tells.
    pub fn form(&self) -> u8
        ensures { result ≡ (image_contents self.now).form }
    {
        self.form
    }

    /// The lines of a part in order.
    pub fn lines(&self, part: Part) -> Walker<'a>
        ensures { IsAtFirstLine (part_get (image_contents self.now).parts part) result }
    {
        Walker::new(self.parts.get(part), 0)
    }
}
