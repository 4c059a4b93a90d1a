//! Byte classes.
ghost use Rattle.std.specs.Prelude.{◌≡◌};
ghost use Rattle.lexer.specs.Byte.{class_of, is_space, ends_token, is_digit, hex_value};

#[derive(Clone, Copy, PartialEq, Eq)]
pub enum Class {
    Space,
    LineEnd,
    Digit,
    Letter,
    Sign,
    Other,
}

const S: Class = Class::Space;

const N: Class = Class::LineEnd;

const D: Class = Class::Digit;

const L: Class = Class::Letter;

const G: Class = Class::Sign;

const O: Class = Class::Other;

/// The class of each byte, thirty-two to a line.
static CLASSES: [Class; 256] = [
    O, O, O, O, O, O, O, O, O, O, N, O, O, O, O, O, O, O, O, O, O, O, O, O, O, O, O, O, O, O, O, O,
    S, G, O, G, O, O, G, O, O, O, O, O, G, G, O, O, D, D, D, D, D, D, D, D, D, D, O, O, G, G, G, O,
    O, L, L, L, L, L, L, L, L, L, L, L, L, L, L, L, L, L, L, L, L, L, L, L, L, L, L, O, O, O, O, O,
    O, L, L, L, L, L, L, L, L, L, L, L, L, L, L, L, L, L, L, L, L, L, L, L, L, L, L, O, O, O, O, O,
    O, O, O, O, O, O, O, O, O, O, O, O, O, O, O, O, O, O, O, O, O, O, O, O, O, O, O, O, O, O, O, O,
    O, O, O, O, O, O, O, O, O, O, O, O, O, O, O, O, O, O, O, O, O, O, O, O, O, O, O, O, O, O, O, O,
    O, O, O, O, O, O, O, O, O, O, O, O, O, O, O, O, O, O, O, O, O, O, O, O, O, O, O, O, O, O, O, O,
    O, O, O, O, O, O, O, O, O, O, O, O, O, O, O, O, O, O, O, O, O, O, O, O, O, O, O, O, O, O, O, O,
];

impl Class {
    pub fn of(b: u8) -> Class
        ensures { result ≡ class_of b }
    {
        CLASSES[b as usize]
    }
}

#[tactic(auto, unfolding(crate::specs::Byte::class_of))]
pub(crate) fn is_space(b: u8) -> bool
    ensures { result ≡ is_space b }
{
    matches!(Class::of(b), Class::Space)
}

#[tactic(auto, unfolding(crate::specs::Byte::class_of))]
pub fn is_digit(b: u8) -> bool
    ensures { result ≡ is_digit b }
{
    matches!(Class::of(b), Class::Digit)
}

/// Whether a token ends before the byte: it is a space or a line end.
#[tactic(auto, unfolding(crate::specs::Byte::class_of))]
pub(crate) fn ends_token(b: u8) -> bool
    ensures { result ≡ ends_token b }
{
    matches!(Class::of(b), Class::Space | Class::LineEnd)
}

/// The value of a hexadecimal digit of either case; 16 for any other byte.
#[tactic(auto, unfolding(crate::specs::Byte::hex_value))]
pub fn hex_value(b: u8) -> u8
    ensures { result ≡ hex_value b }
{
    match b {
        b'0'..=b'9' => b - b'0',
        b'A'..=b'F' => b - b'A' + 10,
        b'a'..=b'f' => b - b'a' + 10,
        _ => 16,
    }
}
