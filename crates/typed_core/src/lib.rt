//! Typed trees beside the core: its expressions and results, in which a form also says the one type that its place doesn't give.
//!
//! A generator of code goes down such a tree with the type that is expected of each part. The types that a tree says share what
//! they are made of. `Erasing.antt` says which core a tree erases to; `Typing.antt`, `ResultTyping.antt` and `Declarations.antt`
//! say when a tree is typed, form by form as `hume_model` says it of cores, and `Trees.antt` which trees are those of a whole core,
//! in its order. `Parts.antt` and `ResultParts.antt` say which type
//! each part has by its place.
//!
//! Proved: `erase_expression`, `erase_result` and those of equations, rules and handlers give exactly what the tree erases to, if
//! memory doesn't run out. Laws: what a typed tree erases to has its type (`erased_expressions_have_their_types`), gives its
//! outputs (`erased_results_give_their_outputs`), and is a typed function, rule or handler (`erased_functions_are_typed`,
//! `erased_rules_are_typed`, `erased_handlers_are_typed`). Each part of a typed expression has the one type that its place gives
//! (`places_give_types`, `places_in_results_give_types`).
//!
//! It knows cores and types. It doesn't know sources, how a checker finds types, or any target.
#![tactic(auto)]

mod declarations;
mod expressions;
mod laws;
mod patterns;
mod results;
mod trees;
mod typed_tree;
mod vectors;

pub use declarations::{erase_equations, erase_handlers, erase_rules};
pub use expressions::erase_expression;
pub use laws::{
    erased_expressions_have_their_types, erased_functions_are_typed, erased_handlers_are_typed,
    erased_results_give_their_outputs, erased_rules_are_typed, places_give_types,
    places_in_results_give_types,
};
pub use results::erase_result;
pub use trees::{BoxTrees, Trees};
pub use typed_tree::{
    TypedDeclaration, TypedEquation, TypedExpr, TypedHandler, TypedResult, TypedRule,
};
