ghost use Rattle.std.specs.Prelude.{◌≡◌, map};
ghost use Rattle.std.specs.List.{list_any};
ghost use Rattle.check_names.specs.Twice.{any_true};
ghost use Rattle.check_counts.specs.Miscounts.{type_miscounts as miscounts_in, is_outside as outside_of};
ghost use Rattle.check_counts.specs.CountRules.{some_type_miscounts as some_miscounts};

use hume_ast::TyExp;
use hume_base::limits::{MAX_LENGTH, MAX_PARTS, MAX_WIDTH};

/// Whether a width, a length or a number of parts in the type is one that no type has.
#[cycle(type_miscounts)]
#[tactic(auto, using(crate::proofs::CountSteps::count_steps))]
pub(crate) fn type_miscounts(ty: &TyExp) -> bool
    ensures { result ≡ miscounts_in ty.now }
{
    match ty {
        TyExp::Bool => false,
        TyExp::Char => false,
        TyExp::Int(bits) => is_outside(MAX_WIDTH as u64, *bits),
        TyExp::Nat(bits) => is_outside(MAX_WIDTH as u64, *bits),
        TyExp::Vector(count, item) => {
            let inside = type_miscounts(item);
            is_outside(MAX_LENGTH as u64, *count) || inside
        }
        TyExp::Named(_) => false,
        TyExp::Tuple(parts) => parts.len() > MAX_PARTS || a_type_miscounts(parts.as_slice()),
    }
}

#[cycle(type_miscounts)]
#[tactic(auto, using(crate::proofs::CountSteps::count_steps))]
fn a_type_miscounts(tys: &[TyExp]) -> bool
    ensures { result ≡ any_true (map miscounts_in tys.now) }
{
    for ty in tys {
        if type_miscounts(ty) {
            return true;
        }
    }
    false
}

/// Whether one of the types miscounts.
pub(crate) fn some_type_miscounts(tys: &[TyExp]) -> bool
    ensures { result ≡ some_miscounts tys.now }
{
    for ty in tys {
        if type_miscounts(ty) {
            return true;
        }
    }
    false
}

/// Whether the number is outside of 1 to the greatest.
pub(crate) fn is_outside(greatest: u64, number: u64) -> bool
    ensures { result ≡ outside_of greatest number }
{
    number < 1 || number > greatest
}
