ghost use Rattle.std.specs.Prelude.{◌≡◌, map};
ghost use Rattle.hume_model.specs.Calls.{all_true};
ghost use Rattle.check_rules.specs.Constants.{is_built as is_built_in};

use hume_ast::Exp;

/// Whether the expression is built as values are.
#[cycle(is_built)]
#[tactic(auto, using(crate::proofs::constants_lemmas::Steps::exp_steps))]
pub fn is_built(e: &Exp) -> bool
    ensures { result ≡ is_built_in e.now }
{
    match e {
        Exp::Num(_, _) => true,
        Exp::Letter(_) => true,
        Exp::Truth(_) => true,
        Exp::Con(_, parts) => are_built(parts.as_slice()),
        Exp::Paren(part) => is_built(part),
        Exp::Tuple(parts) => are_built(parts.as_slice()),
        Exp::Vect(parts) => are_built(parts.as_slice()),
        _ => false,
    }
}

#[cycle(is_built)]
#[tactic(auto, using(crate::proofs::constants_lemmas::Steps::exp_steps))]
fn are_built(parts: &[Exp]) -> bool
    ensures { result ≡ all_true (map is_built_in parts.now) }
{
    for part in parts {
        if !is_built(part) {
            return false;
        }
    }
    true
}
