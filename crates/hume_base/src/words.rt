ghost use Rattle.std.specs.Prelude.{◌≡◌};
ghost use Rattle.hume_base.specs.Flat.{word_of_value};
ghost use Rattle.hume_base.specs.Words.{int_of, word_of};

use crate::types::Value;

/// The number that a word stands for at an `int` type.
pub fn int_of_word(word: u64) -> i64
    ensures { result ≡ int_of word }
{
    word.cast_signed()
}

/// The word of a number at an `int` type.
pub fn word_of_int(number: i64) -> u64
    ensures { result ≡ word_of number }
{
    number.cast_unsigned()
}

impl Value {
    /// The word of a scalar; of a tuple or a vector, which have none, 0.
    pub fn word(&self) -> u64
        ensures { result ≡ word_of_value self.now }
    {
        match self {
            Value::Word(word) => *word,
            Value::Con(place, _) => *place as u64,
            Value::Tuple(_) | Value::Vector(_) => 0,
        }
    }
}
