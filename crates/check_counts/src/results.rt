ghost use Rattle.std.specs.Prelude.{◌≡◌, map};
ghost use Rattle.check_counts.specs.Miscounts.{has_other_leaf as other_leaf_in, arm_leaves, result_miscounts as miscounts_in};
ghost use Rattle.check_counts.specs.inner.Arms.{arm_with};

use crate::counts::Counts;
use crate::expressions::miscounts;
use hume_ast::{Exp, Pat};

/// Whether there are too many or too few of something in the result of a box with so many outputs.
pub(crate) fn result_miscounts(counts: &Counts, outputs: usize, tree: &Exp) -> bool
    ensures { result ≡ miscounts_in counts.now outputs tree.now }
{
    miscounts(counts, tree) || (outputs >= 2 && has_other_leaf(outputs, tree))
}

// Whether a leaf of the result is neither a `raise` nor a tuple of so many parts.
#[cycle(has_other_leaf)]
#[tactic(auto, using(crate::proofs::CountSteps::count_steps))]
fn has_other_leaf(count: usize, e: &Exp) -> bool
    ensures { result ≡ other_leaf_in count e.now }
{
    match e {
        Exp::Let(_, _, body) => has_other_leaf(count, body),
        Exp::If(_, when_true, when_false) => has_other_leaf(count, when_true)
            || has_other_leaf(count, when_false),
        Exp::Case(_, arms) => an_arm_has_other_leaf(count, arms.as_slice()),
        Exp::Raise(_, _) => false,
        Exp::Paren(part) => has_other_leaf(count, part),
        Exp::Tuple(parts) => parts.len() != count,
        _ => true,
    }
}

#[cycle(has_other_leaf)]
#[tactic(auto, using(crate::proofs::CountSteps::count_steps))]
fn an_arm_has_other_leaf(count: usize, arms: &[(Pat, Exp)]) -> bool
    ensures { result ≡ arm_leaves (map (arm_with (other_leaf_in count)) arms.now) }
{
    for arm in arms {
        if has_other_leaf(count, &arm.1) {
            return true;
        }
    }
    false
}
