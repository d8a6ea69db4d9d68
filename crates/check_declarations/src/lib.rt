//! The typed trees of declarations, by the rules on types and on ranges of literals.
//!
//! Main call: `typed_declarations` gives the trees of all declarations (`HasTrees` in `Declarations.antt` of `check_typing`), or
//! the first declaration in which something has no type (40), or a literal is out of the range of its type (41), with the rule
//! (`Mistyped.antt`, over `TypeRules.antt` of `check_rules`). It goes through the declarations once, in order: where a function
//! or a box has no trees (`functions`, `boxes`) something has no type, and only where all has types does a literal out of range
//! break a rule.
//!
//! Proved: by the signatures of the program, `typed_declarations` gives the least broken rule of 40 and 41, or, only where
//! neither is broken, the trees of each declaration in its place.
//!
//! It knows declarations and the signatures of their program. It doesn't know what the core leaves out of trees, first values of
//! wires, or how signatures are made.
#![tactic(auto)]

mod boxes;
mod first;
mod functions;
mod results;
mod verdict;

pub use first::typed_declarations;
