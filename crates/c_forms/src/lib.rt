//! Short forms of trees of C: expressions and statements from their parts, and copies.
//!
//! `Expressions.antt` and `Statements.antt` say what the forms are, `Mentions.antt` which names stand in a text, and `Same.antt` when two
//! expressions are the same.
//!
//! What is made goes on as an option to whoever joins it, and only the last call asks whether memory was enough (`Gives.antt`).
//!
//! Proved: each call gives exactly the form, the text or the answer that is defined, if memory doesn't run out; a copy equals its
//! original.
//!
//! It knows the trees of `c_tree`. It doesn't know what they stand for.
#![tactic(auto)]

mod asked;
mod copies;
mod expressions;
mod items;
mod lists;
mod mentioned;
mod statements;
mod texts;

pub use asked::whole;
pub use copies::{copy_exp, copy_type, is_lasting};
pub use expressions::{
    address, all, any, binary, call, called, cast, choice, element, equal, member, member_named,
    name, named, negate, not, number, read_of, signed, truth, unsigned,
};
pub use items::{
    array_member, enumeration, function, member_comment, object, parameter, plain_member,
    prototype, struct_member, struct_object,
};
pub use lists::{append, appended, before, of_one, of_two, push, with};
pub use mentioned::{exp_mentions, is_same, mentions};
pub use statements::{
    assign, calls, comment, counting, decrement, define, either, ends, increment, leaves, one_if,
    returns, set, tested,
};
pub use texts::{joined, numbered, text};
