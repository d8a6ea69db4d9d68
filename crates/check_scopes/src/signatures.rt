//! What the names of data types, constructors, exceptions and functions stand for, found in about constant time.
//!
//! `SignatureTable::make` makes tables of the names of a program's signatures. `function`, `exception`, `constructor` and
//! `data_type` find what a name stands for. `Numbered.antt` numbers all constructors of all data types.
//!
//! Proved: `function`, `exception`, `constructor` and `data_type` find exactly what a name stands for in the signatures, the
//! first where a name occurs several times, and a constructor with its number among those of all data types.
//!
//! It knows signatures. It doesn't know programs, or how signatures are made.

mod constructors;
mod names;
mod table;

pub use constructors::Found;
pub use table::SignatureTable;
