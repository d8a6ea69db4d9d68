//! What patterns ask of the objects that they are matched with.
ghost use Rattle.std.specs.Prelude.{◌≡◌, map};
ghost use Rattle.c_analysis.specs.Needs.{needed, needs_test, some_field};
ghost use Rattle.c_analysis.specs.Targets.{target};

use crate::setting::Setting;
use c_types::Shape;
use hume_base::{Shared, Ty};
use hume_model::PatC;

/// Whether a value of the type is tested where it is matched.
#[cycle(needs_test)]
#[tactic(auto, using(crate::proofs::NeedForms::need_forms))]
pub fn needs_test(s: Setting, ty: &Ty, pattern: &PatC) -> bool
    ensures { result ≡ needs_test (target s.entry) ty.now pattern.now }
{
    match pattern {
        PatC::Var | PatC::Any => false,
        PatC::Word(_) => true,
        PatC::Con(_, parts) => match s.types.shape(ty) {
            Shape::Enumeration(sum) => sum.cons.len() > 1,
            Shape::Record(sum) => match sum.cons.get(0) {
                Some(con) => fields_need_test(s, con.fields.as_slice(), parts.as_slice()),
                None => false,
            },
            _ => true,
        },
        PatC::Tuple(parts) => match ty {
            Ty::Tuple(tys) => fields_need_test(s, tys.as_slice(), parts.as_slice()),
            _ => false,
        },
    }
}

#[cycle(needs_test)]
#[tactic(auto, using(crate::proofs::NeedForms::need_forms))]
fn fields_need_test(s: Setting, tys: &[Shared<Ty>], parts: &[PatC]) -> bool
    ensures { result ≡ some_field tys.now (map (needed (target s.entry)) parts.now) }
{
    for (place, part) in parts.iter().enumerate() {
        if let Some(ty) = tys.get(place) {
            if needs_test(s, ty, part) {
                return true;
            }
        }
    }
    false
}
