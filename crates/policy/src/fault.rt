//! Why an input is refused, each reason with its number, and where.

ghost use Rattle.std.specs.Prelude.{◌≡◌};
ghost use Rattle.policy.specs.Fault.{fault_number, source_number, refusal, within};

/// What is wrong. The numbers are those that users are told.
#[derive(Clone, Copy)]
pub enum Fault {
    /// A rule text or an epoch line is over its length.
    TooLong = 1,
    /// A line of a text has neither shape.
    Syntax = 2,
    /// A number in a line of a text is out of range.
    OutOfRange = 3,
    /// A line has more than eight literals or actions, or more than four comparisons.
    TooManyParts = 4,
    /// The 129th rule, or the 65th constraint.
    TooManyLines = 5,
    /// The same event twice in a rule, or the same action twice in a constraint.
    Duplicate = 6,
    /// The bytes of an image are too few, too many, or not whole words.
    ImageSize = 7,
    /// The form of an image is not known.
    ImageForm = 8,
    /// The counts of an image are over their limits, or do not fit its length.
    ImageCount = 9,
    /// The words of an image do not add up to 0.
    ImageSum = 10,
    /// No accepted text compiles to the image.
    ImageBody = 11,
    /// A token of an epoch line has neither shape.
    EpochSyntax = 12,
    /// A number in an epoch line is out of range.
    EpochRange = 13,
    /// An epoch line gives a reading twice.
    DuplicateReading = 14,
    /// The buffer lent for an image, or for the text of one, has too few bytes.
    BufferTooSmall = 15,
    /// The words of an image, each as often as its place says, do not add up to the word that holds that sum.
    ImageWeightedSum = 16,
    /// No reduction of the epoch is free of conflict, where events are cancelled.
    Unavoidable = 17,
    /// An epoch line names an event that some rule triggers.
    ReservedEvent = 18,
}

impl Fault {
    /// The number that users are told.
    pub fn number(self) -> u8
        ensures { result ≡ fault_number self }
    {
        self as u8
    }

    /// The refusal for this fault at a location.
    pub fn at(self, location: usize) -> Refusal
        ensures { result ≡ refusal self location }
    {
        Refusal {
            fault: self,
            source: Source::Neither,
            location,
        }
    }
}

/// Which of the two texts of an image a fault or a line is in: the maker's, which a single text is too, or the site's. Faults of an
/// image, of an epoch line and of a buffer are in neither.
#[derive(Clone, Copy)]
pub enum Source {
    Neither = 0,
    Maker = 1,
    Site = 2,
}

impl Source {
    /// The number of the text that users are told.
    pub fn number(self) -> u8
        ensures { result ≡ source_number self }
    {
        self as u8
    }
}

/// Why an input is refused, and where: a line of one of the texts counted from 1, a word of an image counted from 0, or 0 where the
/// fault is at neither.
#[derive(Clone, Copy)]
pub struct Refusal {
    pub fault: Fault,
    pub source: Source,
    pub location: usize,
}

impl Refusal {
    /// The same refusal, in one of the texts.
    pub fn within(self, source: Source) -> Refusal
        ensures { result ≡ within source self }
    {
        Refusal { source, ..self }
    }
}
