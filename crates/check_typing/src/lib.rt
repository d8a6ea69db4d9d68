//! Which expressions, patterns, results and declarations have which type, and which typed core belongs to them; definitions and
//! laws, nothing runs.
//!
//! `Typing.antt` says, form by form, which types an expression has and with which typed core; `Patterns.antt`, `Results.antt` and
//! `Declarations.antt` say it of patterns, of the results of rules and handlers, and of whole declarations.
//!
//! Proved: nothing has two types by itself, or two cores (`typing_is_unique`). What an expression has by itself it may be
//! checked against (`own_type_is_accepted`), and an open one is checked against `int 32` (`open_is_int32`). The walk that code
//! follows finds exactly these types and cores (`walk_is_typing`, `declaration_walk_is_typing`). Where no literal is out of
//! range, typed cores have their types (`cores_are_typed`), and what they erase to is typed as the meaning requires
//! (`parts_are_typed`, `declarations_are_typed`).
//!
//! It knows trees, types and cores. It doesn't know memory, names of boxes and streams, or how code finds a type.
#![tactic(auto)]

mod laws;
mod signatures;

pub use laws::{
    cores_are_typed, declaration_walk_is_typing, declarations_are_typed, open_is_int32,
    own_type_is_accepted, parts_are_typed, typing_is_unique, walk_is_typing,
};
pub use signatures::{Signature, Signatures};
