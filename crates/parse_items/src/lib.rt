//! The declarations of a program, gathered item by item: a function is a signature and the equations after it.
//!
//! Main calls: `Progress::take`, for one more item, and `Progress::close`, at the end. The private `Progress.antt` says what
//! they make of an item, in terms of the readers of `parse_readers`.
//!
//! Proved: `take` adds one item and `close` gives the declarations, exactly as the readers of `parse_readers` gather them from
//! the whole row of items. It has no laws.
//!
//! It knows trees and places in the source. It doesn't know how an item is read, and it reads no tokens.
#![tactic(auto)]

mod items;
mod progress;

pub use items::{Expecting, Item};
pub use progress::{OpenFunction, Progress};
