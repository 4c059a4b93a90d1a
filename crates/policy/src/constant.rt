//! Constants as words of 32 bits, in two's complement.
ghost use Rattle.std.specs.Prelude.{◌≡◌};
ghost use Rattle.std.specs.Int.{w32, cast_signed, cast_unsigned};

/// The constant that a word is.
pub fn constant_from(word: u32) -> i32
    ensures { result ≡ cast_signed w32 word }
{
    word.cast_signed()
}

/// The word of a constant.
pub fn constant_word(k: i32) -> u32
    ensures { result ≡ cast_unsigned w32 k }
{
    k.cast_unsigned()
}
