//! The types that are written in expressions.
ghost use Rattle.std.specs.Prelude.{◌≡◌, map};
ghost use Rattle.std.specs.List.{list_any, flat_map};
ghost use Rattle.hume_ast.specs.declared.tree.Pat.{Pat as PatTree};
ghost use Rattle.hume_ast.specs.declared.tree.Exp.{Exp as ExpTree};
ghost use Rattle.check_rules.specs.SizeRules.{all_of, written_in};
ghost use Rattle.check_sizes.specs.inner.Large.{is_large as is_large_type, has_large_cast as has_large_cast_in};

use crate::written_words::is_large;
use check_scopes::signatures::SignatureTable;
use hume_ast::{Exp, Pat};

/// Whether a type that is written in the expression is too large.
#[cycle(has_large_cast)]
#[tactic(auto, using(crate::proofs::Steps::cast_steps))]
pub(crate) fn has_large_cast(table: &SignatureTable, sizes: &[u32], e: &Exp) -> bool
    ensures { result ≡ has_large_cast_in table.now.types sizes.now e.now }
{
    match e {
        Exp::Let(_, part, body) => has_large_cast(table, sizes, part)
            || has_large_cast(table, sizes, body),
        Exp::If(test, when_true, when_false) => has_large_cast(table, sizes, test)
            || (has_large_cast(table, sizes, when_true)
                || has_large_cast(table, sizes, when_false)),
        Exp::Case(part, arms) => {
            let inside = an_arm_has(table, sizes, arms.as_slice());
            has_large_cast(table, sizes, part) || inside
        }
        Exp::Raise(_, None) => false,
        Exp::Raise(_, Some(part)) => has_large_cast(table, sizes, part),
        Exp::Binary(_, left, right) => has_large_cast(table, sizes, left)
            || has_large_cast(table, sizes, right),
        Exp::Neg(part) => has_large_cast(table, sizes, part),
        Exp::Not(part) => has_large_cast(table, sizes, part),
        Exp::App(_, parts) => a_part_has(table, sizes, parts.as_slice()),
        Exp::Con(_, parts) => a_part_has(table, sizes, parts.as_slice()),
        Exp::Update(vector, place, item) => has_large_cast(table, sizes, vector)
            || (has_large_cast(table, sizes, place) || has_large_cast(table, sizes, item)),
        Exp::Num(_, _) => false,
        Exp::Letter(_) => false,
        Exp::Truth(_) => false,
        Exp::Paren(part) => has_large_cast(table, sizes, part),
        Exp::Tuple(parts) => a_part_has(table, sizes, parts.as_slice()),
        Exp::Cast(part, ty) => has_large_cast(table, sizes, part) || is_large(table, sizes, ty),
        Exp::Vect(parts) => a_part_has(table, sizes, parts.as_slice()),
        Exp::Star => false,
    }
}

#[cycle(has_large_cast)]
#[tactic(auto, using(crate::proofs::Steps::cast_steps))]
fn a_part_has(table: &SignatureTable, sizes: &[u32], parts: &[Exp]) -> bool
    ensures { result ≡ list_any (is_large_type table.now.types sizes.now) (all_of (map written_in parts.now)) }
{
    for part in parts {
        if has_large_cast(table, sizes, part) {
            return true;
        }
    }
    false
}

#[cycle(has_large_cast)]
#[tactic(auto, using(crate::proofs::Steps::cast_steps))]
fn an_arm_has(table: &SignatureTable, sizes: &[u32], arms: &[(Pat, Exp)]) -> bool
    ensures { result ≡ list_any (is_large_type table.now.types sizes.now) (flat_map (λ (arm : PatTree × ExpTree). written_in arm.1) arms.now) }
{
    for arm in arms {
        if has_large_cast(table, sizes, &arm.1) {
            return true;
        }
    }
    false
}
