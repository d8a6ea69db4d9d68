//! Of which forms the values of a type are.
ghost use Rattle.std.specs.Prelude.{◌≡◌};
ghost use Rattle.hume_model.specs.Forms.{forms_of as forms_seen};

use crate::core_tree::Forms;
use hume_base::Ty;

/// The forms of the values of the type.
pub fn forms_of(ty: &Ty) -> Forms
    ensures { result ≡ forms_seen ty.now }
{
    match ty {
        Ty::Bool => Forms::Truths,
        Ty::Named(number) => Forms::Constructors(*number),
        _ => Forms::Others,
    }
}
