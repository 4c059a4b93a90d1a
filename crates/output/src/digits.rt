//! Numbers in decimal and in hexadecimal digits.
ghost use Rattle.std.specs.Prelude.{◌≡◌, ◌<◌};
ghost use Rattle.output.specs.Number.{decimal, hex_digit, hex_word, integer};
ghost use Rattle.output.specs.Sink.{fed};

use crate::sink::Sink;

#[tactic(auto, using(crate::proofs::DecimalLaws::decimal_same))]
fn put_digits<S: Sink>(sink: &mut S, n: u64)
    ensures { sink.new ≡ fed S.taken sink.old (decimal n) }
{
    let mut digits = itoa::Buffer::new();
    sink.put(digits.format(n).as_bytes());
}

/// Puts a number in decimal, with no zeros before it.
#[inline(always)]
#[tactic(auto, using(crate::proofs::DecimalLaws::decimal_one, crate::proofs::DecimalLaws::decimal_two))]
pub fn put_number<S: Sink>(sink: &mut S, n: u64)
    ensures { sink.new ≡ fed S.taken sink.old (decimal n) }
{
    // Numbers of events, actions and readings have one digit or two.
    if n < 10 {
        sink.put(&[b'0' + n as u8]);
    } else if n < 100 {
        sink.put(&[b'0' + (n / 10) as u8, b'0' + (n % 10) as u8]);
    } else {
        put_digits(sink, n);
    }
}

/// Puts an integer in decimal, behind a minus if it is below zero.
#[tactic(auto, using(crate::proofs::DecimalLaws::integer_same))]
pub fn put_integer<S: Sink>(sink: &mut S, value: i32)
    ensures { sink.new ≡ fed S.taken sink.old (integer value) }
{
    let mut digits = itoa::Buffer::new();
    sink.put(digits.format(value).as_bytes());
}

#[tactic(auto, unfolding(crate::specs::Number::hex_digit))]
fn hex_digit(d: u32) -> u8
    requires { d < 16 }
    ensures { result ≡ hex_digit d }
{
    if d < 10 {
        b'0' + d as u8
    } else {
        b'A' + (d - 10) as u8
    }
}

/// Puts a word in eight hexadecimal digits, the most significant first.
#[tactic(auto, using(crate::proofs::HexLaws::digit_next, crate::proofs::HexLaws::digits_over))]
pub fn put_hexadecimal<S: Sink>(sink: &mut S, word: u32)
    ensures { sink.new ≡ fed S.taken sink.old (hex_word word) }
{
    for place in 0..8u32 {
        sink.put(&[hex_digit((word >> (28 - 4 * place)) % 16)]);
    }
}
