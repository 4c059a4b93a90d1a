//! Hexadecimal digits.
ghost use Rattle.std.specs.Prelude.{◌≡◌};
ghost use Rattle.lexer.specs.Steps.Scan.{hex_digits_in};

use crate::class::hex_value;

// Values of a hexadecimal digit.
const BASE: u8 = 16;

// Values of seven digits: one digit more makes a word.
const SEVEN_DIGITS: u32 = 0x1000_0000;

/// The hexadecimal digits in front. Of more than eight the value is that of the last eight.
pub fn hex_digits(text: &[u8]) -> (u32, &[u8])
    ensures value { result.0 ≡ (hex_digits_in text.now).0 }
    ensures rest { result.1.now ≡ (hex_digits_in text.now).1 }
{
    let mut value = 0;
    let mut rest = text;
    while let [b, others @ ..] = rest {
        let digit = hex_value(*b);
        if BASE <= digit {
            break;
        }
        value = value % SEVEN_DIGITS * 16 + digit as u32;
        rest = others;
    }
    (value, rest)
}
