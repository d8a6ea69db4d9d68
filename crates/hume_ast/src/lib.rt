//! The syntax trees of programs: how they are spelled, which of them the grammar has, how deep they are, and which program
//! tokens stand for.
//!
//! Main call: `spell`, which gives the tokens of a program. `Spelling.antt` says which tokens spell a tree, `Fits.antt` which
//! trees the grammar has, `Depth.antt` how deep they are, and `Places.antt` for which program tokens with their places stand.
//!
//! Proved: `spell` gives exactly the tokens of a program. Law (`depth_decides`): a tree fits a depth exactly when its own depth
//! is at most that, and a program is fit exactly when it is proper, each part standing where the grammar allows it, and no
//! deeper than the limit.
//!
//! It knows trees and kinds of tokens. It doesn't know bytes, or how a tree is found for tokens.
#![tactic(auto)]

mod laws;
mod spell_boxes;
mod spell_declarations;
mod spell_expressions;
mod spell_patterns;
mod spell_program;
mod spell_tokens;
mod spell_types;
mod tree;

pub use laws::depth_decides;
pub use spell_program::spell;
pub use tree::{BinOp, Decl, Exp, Pat, Program, TyExp};
