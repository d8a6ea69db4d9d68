//! The names that statements and expressions use.
ghost use Rattle.std.specs.Prelude.{◌≡◌, OnOk};
ghost use Rattle.std.specs.List.{flat_map};
ghost use Rattle.c_used.specs.Uses.{exp_uses, exps_use, statement_uses, statements_use, type_uses};
ghost use Rattle.c_used.specs.inner.Names.{tree_arm_uses, with_names};

use crate::names::Names;
use c_tree::{CExp, CStm, CType};
use hume_base::List;
use std::alloc::AllocError;

#[tactic(auto, using(crate::proofs::UseForms::exp_forms))]
pub(crate) fn add_type(names: &mut Names, ty: &CType) -> Result<(), AllocError>
    ensures { OnOk result (names.new ≡ with_names names.old (type_uses ty.now)) }
{
    match ty {
        CType::Named(name) => names.add(name.bytes()),
        _ => Ok(()),
    }
}

#[cycle(add_statements)]
#[tactic(auto, using(crate::proofs::UseForms::statement_forms))]
pub(crate) fn add_statements(names: &mut Names, statements: &[CStm]) -> Result<(), AllocError>
    ensures { OnOk result (names.new ≡ with_names names.old (statements_use statements.now)) }
{
    for statement in statements {
        add_statement(names, statement)?;
    }
    Ok(())
}

#[cycle(add_statements)]
#[tactic(auto, using(crate::proofs::UseForms::statement_forms))]
fn add_statement(names: &mut Names, statement: &CStm) -> Result<(), AllocError>
    ensures { OnOk result (names.new ≡ with_names names.old (statement_uses statement.now)) }
{
    match statement {
        CStm::Comment(_) | CStm::Break | CStm::Return(None) => Ok(()),
        CStm::Declare(variable) => add_type(names, &variable.ty),
        CStm::Define(variable, value) => {
            add_type(names, &variable.ty)?;
            add_exp(names, value)
        }
        CStm::Assign(object, value) => {
            add_exp(names, object)?;
            add_exp(names, value)
        }
        CStm::Increment(object) | CStm::Decrement(object) => add_exp(names, object),
        CStm::Call(name, arguments) => {
            names.add(name.bytes())?;
            add_exps(names, arguments.as_slice())
        }
        CStm::If(test, body, others, otherwise) => {
            add_exp(names, test)?;
            add_statements(names, body.as_slice())?;
            add_arms(names, others.as_slice())?;
            add_statements(names, otherwise.as_slice())
        }
        CStm::Switch(subject, cases, otherwise) => {
            add_exp(names, subject)?;
            add_arms(names, cases.as_slice())?;
            add_statements(names, otherwise.as_slice())
        }
        CStm::For(count, body) => {
            add_type(names, &count.ty)?;
            add_exp(names, &count.limit)?;
            add_statements(names, body.as_slice())
        }
        CStm::Return(Some(value)) => add_exp(names, value),
    }
}

#[cycle(add_statements)]
#[tactic(auto, using(crate::proofs::UseForms::statement_forms))]
fn add_arms(names: &mut Names, arms: &[(CExp, List<CStm>)]) -> Result<(), AllocError>
    ensures { OnOk result (names.new ≡ with_names names.old (flat_map tree_arm_uses arms.now)) }
{
    for arm in arms {
        add_exp(names, &arm.0)?;
        add_statements(names, arm.1.as_slice())?;
    }
    Ok(())
}

#[cycle(add_exp)]
#[tactic(auto, using(crate::proofs::UseForms::exp_forms))]
fn add_exp(names: &mut Names, exp: &CExp) -> Result<(), AllocError>
    ensures { OnOk result (names.new ≡ with_names names.old (exp_uses exp.now)) }
{
    match exp {
        CExp::Truth(_) | CExp::Unsigned(_, _) | CExp::Signed(_, _, _) => Ok(()),
        CExp::Name(name) | CExp::Pointed(name) => names.add(name.bytes()),
        CExp::Member(object, _) => add_exp(names, object),
        CExp::Element(array, index) => {
            add_exp(names, array)?;
            add_exp(names, index)
        }
        CExp::Call(name, arguments) => {
            names.add(name.bytes())?;
            add_exps(names, arguments.as_slice())
        }
        CExp::Cast(ty, part) => {
            add_type(names, ty)?;
            add_exp(names, part)
        }
        CExp::Negate(part) | CExp::Not(part) | CExp::Address(part) => add_exp(names, part),
        CExp::Binary(_, left, right) => {
            add_exp(names, left)?;
            add_exp(names, right)
        }
        CExp::All(parts) | CExp::Any(parts) => add_exps(names, parts.as_slice()),
        CExp::Choice(test, first, second) => {
            add_exp(names, test)?;
            add_exp(names, first)?;
            add_exp(names, second)
        }
    }
}

#[cycle(add_exp)]
#[tactic(auto, using(crate::proofs::UseForms::exp_forms))]
fn add_exps(names: &mut Names, exps: &[CExp]) -> Result<(), AllocError>
    ensures { OnOk result (names.new ≡ with_names names.old (exps_use exps.now)) }
{
    for exp in exps {
        add_exp(names, exp)?;
    }
    Ok(())
}
