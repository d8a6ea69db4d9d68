//! What a source is a row of.
ghost use Rattle.std.specs.Prelude.{◌≡◌};
ghost use Rattle.parse_items.specs.inner.Items.{seen_expecting, wants};

use hume_ast::{Decl, Exp, Pat, TyExp};
use hume_base::{List, Text};

/// What may come next: a declaration, behind a signature an equation alone, or behind an equation either.
#[derive(Clone, Copy)]
pub enum Expecting {
    Declaration,
    Equation,
    Either,
}

impl Expecting {
    /// Whether an equation must come.
    pub fn is_wanting(self) -> bool
        ensures { result ≡ wants (seen_expecting self) }
    {
        match self {
            Expecting::Equation => true,
            Expecting::Declaration | Expecting::Either => false,
        }
    }
}

/// What a source is a row of: declarations of anything but a function, the name and types of a function, and equations.
#[derive(Drop)]
pub enum Item {
    Declared(Decl),
    Signature(Text, List<TyExp>),
    Equation(Text, List<Pat>, Exp),
}
