//! Steps, and why one is refused.
use hume_base::Text;
use std::alloc::AllocError;

/// The greatest depth of a result that a step may make.
pub const MAX_RESULT_DEPTH: u32 = 1_024;

/// The most parts of a result that a step may make.
pub const MAX_RESULT_PARTS: u32 = 1_048_576;

/// A step that rewrites one rule of a box. Nodes and rules are counted from 0.
#[derive(Drop)]
pub enum Step {
    /// The first call in the rule's result that can be unfolded becomes the body of its function.
    Unfold { node: u32, rule: u32 },
    /// The rule and the next one change places.
    Swap { node: u32, rule: u32 },
    /// The rule's only output becomes the body of a new last function of the name, which the rule calls.
    Name { node: u32, rule: u32, name: Text },
}

/// Why a step isn't made. The causes have the codes 91 to 94.
#[derive(Clone, Copy)]
pub enum CalcError {
    /// 91: the rule's result has no call that can be unfolded, or it would be too deep or have too many parts.
    CannotUnfold,
    /// 92: the box has other than one output, the rule doesn't give it a value at once, or there may be no such function.
    CannotName,
    /// 93: the box is fair, or the rule is its last one.
    CannotSwap,
    /// 94: some values fit both rules, as far as their patterns tell.
    NotApart,
    /// Memory has run out.
    NoMemory,
}

impl From<AllocError> for CalcError {
    ghost use Rattle.std.specs.Prelude.{◌≡◌};
    ghost use Rattle.calculus_laws.specs.declared.step.CalcError.TheVariants.{NoMemory};

    ghost from_gives = { λ _ error. error ≡ NoMemory };

    fn from(_: AllocError) -> Self {
        CalcError::NoMemory
    }
}
