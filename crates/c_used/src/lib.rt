//! What of a C file is used, so that no function, object or type is declared for nothing.
//!
//! Main call: `used_items` leaves out the static functions, the objects, the types and the constants that no later declaration
//! uses, and the comments of parts in which nothing is left. A declaration is used only behind it, so the file is read from its
//! end. `Uses.antt` says which names a part of a file uses, `Kept.antt` which declarations are kept.
//!
//! Proved: what is left is exactly what is defined.
//!
//! It knows the trees of `c_tree`. It doesn't know what they are made of.
#![tactic(auto)]

mod declarations;
mod items;
mod names;
mod statements;

pub use items::used_items;
