//! Which exceptions expressions and results of a core may raise.
ghost use Rattle.std.specs.List.{list_any};
ghost use Rattle.hume_model.specs.declared.core_tree.PatC.{PatC as Pattern};
ghost use Rattle.hume_model.specs.declared.core_tree.Res.{Res as TheResult};
ghost use Rattle.hume_model.specs.Raising.{may_raise as expression_raises, result_may_raise as result_raises, raises_if_there};
ghost use Rattle.hume_exceptions.specs.Sets.{IsSetOf, IsRaisesOf};

use crate::completeness::are_complete;
use crate::exn_set::ExnSet;
use crate::expressions::expression_set;
use crate::function_sets::Raises;
use hume_model::{Core, Expr, NO_CASE, PatC, Res};

/// The exceptions that the expression may raise.
pub fn may_raise(core: &Core, raises: &Raises, e: &Expr) -> ExnSet
    requires { IsRaisesOf core.now raises.now }
    ensures { IsSetOf result (λ exn. expression_raises core.now exn e.now) }
{
    expression_set(&core.types, raises.sets(), e)
}

/// The exceptions that the result of a rule or a handler may raise.
#[cycle(result)]
#[tactic(auto, using(crate::proofs::ResultForms::result_forms))]
pub fn result_may_raise(core: &Core, raises: &Raises, res: &Res) -> ExnSet
    requires { IsRaisesOf core.now raises.now }
    ensures { IsSetOf result (λ exn. result_raises core.now exn res.now) }
{
    match res {
        Res::Outs(outs) => outs_set(core, raises, outs.as_slice()),
        Res::If(test, when_true, when_false) => {
            let test = may_raise(core, raises, test);
            let when_true = result_may_raise(core, raises, when_true);
            let when_false = result_may_raise(core, raises, when_false);
            test.or(when_true.or(when_false))
        }
        Res::Case(part, forms, arms) => {
            let arms = arms.as_slice();
            let complete = are_complete(&core.types, *forms, arms);
            let part = may_raise(core, raises, part);
            part.or(arms_set(core, raises, arms).or(ExnSet::only_if(NO_CASE, !complete)))
        }
        Res::Let(part, body) => {
            let part = may_raise(core, raises, part);
            part.or(result_may_raise(core, raises, body))
        }
        Res::Raise(exn, part) => {
            set_if_there(core, raises, part).or(ExnSet::only_if(*exn, true))
        }
    }
}

#[cycle(result)]
fn arms_set(core: &Core, raises: &Raises, arms: &[(PatC, Res)]) -> ExnSet
    requires { IsRaisesOf core.now raises.now }
    ensures { IsSetOf result (λ exn. list_any (λ (arm : Pattern × TheResult). result_raises core.now exn arm.1) arms.now) }
{
    let mut set = ExnSet::empty();
    for arm in arms {
        set = set.or(result_may_raise(core, raises, &arm.1));
    }
    set
}

fn outs_set(core: &Core, raises: &Raises, outs: &[Option<Expr>]) -> ExnSet
    requires { IsRaisesOf core.now raises.now }
    ensures { IsSetOf result (λ exn. list_any (raises_if_there (expression_raises core.now exn)) outs.now) }
{
    let mut set = ExnSet::empty();
    for out in outs {
        set = set.or(set_if_there(core, raises, out));
    }
    set
}

fn set_if_there(core: &Core, raises: &Raises, part: &Option<Expr>) -> ExnSet
    requires { IsRaisesOf core.now raises.now }
    ensures { IsSetOf result (λ exn. raises_if_there (expression_raises core.now exn) part.now) }
{
    match part {
        None => ExnSet::empty(),
        Some(e) => may_raise(core, raises, e),
    }
}
