//! Types by number, so that none is copied or compared part by part, and the state of an elaboration.
//!
//! A page of source can declare types of 2^60 words, so types are numbered. `Context` is the state of an elaboration: the
//! variables in scope, a stack of types, and the types that declarations wrote down. Contracts speak of types alone
//! (`Contexts.antt`). `TypeTable` gives each type its one number (`Nodes.antt`), and makes one tree of it, whose parts are shared with
//! other trees (`TypeTable::tree`).
//!
//! Proved: a type has one number in a table (`TypeTable::number`, `is_same`). Each call of `Context` changes the variables, the
//! stack of types and the kept types exactly as it says of types; where a call fails, the kept types stay.
//!
//! It knows types. It doesn't know expressions, names of declarations, or which types are right.

mod context;
mod node;
mod shape;
mod stack;
mod table;
mod tree_table;
mod trees;
mod variables;

pub use context::Context;
pub use node::Node;
pub use shape::Shape;
pub use table::TypeTable;
