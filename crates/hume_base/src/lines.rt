//! The line of each place of a source, found in constant time.
//!
//! `LineTable::make` goes once over the text of a source, and `line` looks up the line of a place (`Places.antt` of
//! `hume_base`); a place past the end has the line of the end. The table borrows the text and takes four bytes for each byte of
//! it (the private `Lines.antt`).
//!
//! Proved: `LineTable::line` gives the line of each place of a text, in constant time.
//!
//! It knows bytes and places. It doesn't know tokens, declarations, or what is reported of a line.

mod table;

pub use table::LineTable;
