ghost use Rattle.std.specs.Prelude.{◌≡◌, ◌++◌, take};
ghost use Rattle.std.specs.Fmt.{decimal};
ghost use Rattle.hume_text.specs.Chunks.{bytes_in, room_of};
ghost use Rattle.hume_text.specs.Spelling.{bool_name};
ghost use Rattle.hume_text.specs.inner.Printers.{print_word, letter_text, int_text};

use crate::chunk::Chunk;
use hume_base::int_of_word;
use itoa::Buffer;

// Each prints the first word, and answers the words after it.

pub(crate) fn print_bool<'a>(words: &'a [u64], chunk: &mut Chunk) -> &'a [u64]
    ensures text { bytes_in chunk.new ≡ take (room_of chunk.old) (bytes_in chunk.old ++ (print_word bool_name words.now).0) }
    ensures room { room_of chunk.new ≡ room_of chunk.old }
    ensures rest { result.now ≡ (print_word bool_name words.now).1 }
{
    let Some((word, rest)) = words.split_first() else {
        return words;
    };
    if *word == 0 {
        chunk.add(b"false");
    } else {
        chunk.add(b"true");
    }
    rest
}

pub(crate) fn print_letter<'a>(words: &'a [u64], chunk: &mut Chunk) -> &'a [u64]
    ensures text { bytes_in chunk.new ≡ take (room_of chunk.old) (bytes_in chunk.old ++ (print_word letter_text words.now).0) }
    ensures room { room_of chunk.new ≡ room_of chunk.old }
    ensures rest { result.now ≡ (print_word letter_text words.now).1 }
{
    let Some((word, rest)) = words.split_first() else {
        return words;
    };
    match (*word % 256) as u8 {
        10 => chunk.add(b"'\\n'"),
        9 => chunk.add(b"'\\t'"),
        92 => chunk.add(b"'\\\\'"),
        39 => chunk.add(b"'\\''"),
        byte => chunk.add(&[b'\'', byte, b'\'']),
    }
    rest
}

pub(crate) fn print_int<'a>(words: &'a [u64], chunk: &mut Chunk) -> &'a [u64]
    ensures text { bytes_in chunk.new ≡ take (room_of chunk.old) (bytes_in chunk.old ++ (print_word int_text words.now).0) }
    ensures room { room_of chunk.new ≡ room_of chunk.old }
    ensures rest { result.now ≡ (print_word int_text words.now).1 }
{
    let Some((word, rest)) = words.split_first() else {
        return words;
    };
    let mut buffer = Buffer::new();
    chunk.add(buffer.format(int_of_word(*word)).as_bytes());
    rest
}

pub(crate) fn print_nat<'a>(words: &'a [u64], chunk: &mut Chunk) -> &'a [u64]
    ensures text { bytes_in chunk.new ≡ take (room_of chunk.old) (bytes_in chunk.old ++ (print_word decimal words.now).0) }
    ensures room { room_of chunk.new ≡ room_of chunk.old }
    ensures rest { result.now ≡ (print_word decimal words.now).1 }
{
    let Some((word, rest)) = words.split_first() else {
        return words;
    };
    let mut buffer = Buffer::new();
    chunk.add(buffer.format(*word).as_bytes());
    rest
}
