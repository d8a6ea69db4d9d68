ghost use Rattle.std.specs.Prelude.{◌≡◌, map};
ghost use Rattle.std.specs.List.{list_any};
ghost use Rattle.check_names.specs.Twice.{any_true};
ghost use Rattle.check_counts.specs.Miscounts.{miscounts as miscounts_in, arm_miscounts};
ghost use Rattle.check_counts.specs.inner.Arms.{arm_with};

use crate::counts::{Counts, is_other};
use crate::patterns::pattern_miscounts;
use crate::types::type_miscounts;
use hume_ast::{Exp, Pat};
use hume_base::limits::{MAX_LENGTH, MAX_PARTS};

/// Whether somewhere in the expression there are too many or too few of something.
#[cycle(miscounts)]
#[tactic(auto, using(crate::proofs::CountSteps::count_steps))]
pub(crate) fn miscounts(counts: &Counts, e: &Exp) -> bool
    ensures { result ≡ miscounts_in counts.now e.now }
{
    match e {
        Exp::Let(_, part, body) => miscounts(counts, part) || miscounts(counts, body),
        Exp::If(test, when_true, when_false) => {
            miscounts(counts, test)
                || (miscounts(counts, when_true) || miscounts(counts, when_false))
        }
        Exp::Case(part, arms) => {
            let inside = an_arm_miscounts(counts, arms.as_slice());
            miscounts(counts, part) || inside
        }
        Exp::Raise(name, None) => is_other(&counts.exceptions, name.bytes(), 0),
        Exp::Raise(name, Some(part)) => is_other(&counts.exceptions, name.bytes(), 1)
            || miscounts(counts, part),
        Exp::Binary(_, left, right) => miscounts(counts, left) || miscounts(counts, right),
        Exp::Neg(part) => miscounts(counts, part),
        Exp::Not(part) => miscounts(counts, part),
        Exp::App(name, parts) => {
            if parts.is_empty() {
                return false;
            }
            is_other(&counts.functions, name.bytes(), parts.len())
                || a_part_miscounts(counts, parts.as_slice())
        }
        Exp::Con(name, parts) => {
            is_other(&counts.constructors, name.bytes(), parts.len())
                || a_part_miscounts(counts, parts.as_slice())
        }
        Exp::Update(vector, place, item) => {
            miscounts(counts, vector) || (miscounts(counts, place) || miscounts(counts, item))
        }
        Exp::Num(_, _) => false,
        Exp::Letter(_) => false,
        Exp::Truth(_) => false,
        Exp::Paren(part) => miscounts(counts, part),
        Exp::Tuple(parts) => parts.len() > MAX_PARTS || a_part_miscounts(counts, parts.as_slice()),
        Exp::Cast(part, ty) => miscounts(counts, part) || type_miscounts(ty),
        Exp::Vect(parts) => parts.len() > MAX_LENGTH as usize
            || a_part_miscounts(counts, parts.as_slice()),
        Exp::Star => false,
    }
}

#[cycle(miscounts)]
#[tactic(auto, using(crate::proofs::CountSteps::count_steps))]
fn a_part_miscounts(counts: &Counts, parts: &[Exp]) -> bool
    ensures { result ≡ any_true (map (miscounts_in counts.now) parts.now) }
{
    for part in parts {
        if miscounts(counts, part) {
            return true;
        }
    }
    false
}

#[cycle(miscounts)]
#[tactic(auto, using(crate::proofs::CountSteps::count_steps))]
fn an_arm_miscounts(counts: &Counts, arms: &[(Pat, Exp)]) -> bool
    ensures { result ≡ list_any (arm_miscounts counts.now) (map (arm_with (miscounts_in counts.now)) arms.now) }
{
    for arm in arms {
        if pattern_miscounts(counts, &arm.0) || miscounts(counts, &arm.1) {
            return true;
        }
    }
    false
}
