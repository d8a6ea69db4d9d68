//! Tables of names with numbers, found in about constant time.
//!
//! `NameTable` holds each name once with its number; `find` gives the number of a name and `add` adds a name (`Names.antt`).
//! The names are slices of the source's tree and aren't copied.
//!
//! Proved: a table finds the number of a name, and adds a name exactly where it isn't there (`find`, `has`, `add`).
//!
//! It doesn't know what the names are of, or what the numbers mean.

mod table;

pub use table::NameTable;
