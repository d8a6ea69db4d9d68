//! The text of a value: the one spelling in which it is printed, and the lines that are texts of it.
//!
//! `print_value` appends the text of the value with the given words to a `Chunk`, a buffer that takes no memory once it is
//! made. `read_value` puts the words of the value whose text a line is. `Spelling.antt` says how a value is spelled,
//! `Printed.antt` what is printed, and `Read.antt` which lines are texts of it. `text_bound` is room enough for any text of a
//! type (`Bounds.antt`).
//!
//! Proved: `print_value` appends exactly the one spelling of the value with these words. `read_value` is true exactly where a
//! line is a text of a value of the type, and then puts that value's words. Laws: no text has more than 512 bytes a word
//! (`texts_are_bounded`); what is printed is a text of its value (`printed_texts_are_texts`), and a line is a text of at most
//! one value (`one_value_a_line`), so a printed value is read back as the same words.
//!
//! It knows types, values and bytes of one line. It doesn't know ports, streams or how a line ends.
#![tactic(auto)]

mod bound;
mod chunk;
mod found;
mod laws;
mod print;
mod read;
mod scalars;
mod tokens;
mod walk;

pub use bound::text_bound;
pub use chunk::Chunk;
pub use laws::{one_value_a_line, printed_texts_are_texts, texts_are_bounded};
pub use print::print_value;
pub use read::read_value;
