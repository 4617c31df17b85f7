//! Whether a word is a number.

ghost use Rattle.std.specs.Prelude.{IsTrue};
ghost use Rattle.program_io.specs.Words.{IsNumber};

/// Whether a word is this number, in decimal digits.
pub fn is_number(word: &str, number: u64) -> bool
    ensures { IsTrue result → IsNumber word.now number }
{
    match word.parse::<u64>() {
        Ok(read) => read == number,
        Err(_) => false,
    }
}
