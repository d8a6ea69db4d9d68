//! The values on wires as flat words: `flatten` writes the words of a value, and a `WireCell` is the queue of one wire.
//!
//! `flatten` writes the words of a value into a slice, each once and in order. A `WireCell` holds the values of one wire, as
//! many as its depth allows, in a ring that is made once; no other call takes memory. It counts its half steps (`time`, `tick`).
//! `Flat.antt` of `hume_base` says which words are a value's, and `Cells.antt` which values a cell holds. Cells stand at home by the
//! numbers of their wires (`Homes.antt`): `cell_at` and `cell_in` give the cell of a number, to be read and to be changed.
//!
//! Proved: `flatten` writes exactly the flat words of a value. Each call of `WireCell` takes, adds or shows exactly the value
//! that it says, the oldest first, up to the wire's depth. Laws: `value_of` of `hume_model` reads what `flatten` writes as the
//! same value, and the other way round (`value_of_undoes_flatten`, `flatten_undoes_value_of`); a cell begins with its wire's
//! initial value (`first_cells_hold_initial_values`), shows and keeps its values (`cells_hold_values`), and has room where its
//! wire has (`cells_have_the_room_of_wires`).
//!
//! It knows types, values and the wires of a core. It doesn't know nodes or streams.
#![tactic(auto)]

mod cell;
mod flat_words;
mod homes;
mod laws;
mod ring;

pub use cell::WireCell;
pub use flat_words::flatten;
pub use homes::{cell_at, cell_in};
pub use laws::{
    cells_have_the_room_of_wires, cells_hold_values, first_cells_hold_initial_values,
    flatten_undoes_value_of, value_of_undoes_flatten,
};
