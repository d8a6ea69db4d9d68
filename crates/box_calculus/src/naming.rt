//! Outputs that become functions.
ghost use Rattle.std.specs.Prelude.{◌≡◌, ◌⊎◌, ◌<◌, IfOk, IfErr, OnOk, IfSome, None, Some, [], ◌∷◌, is_some, length, map, replicate, slice_get, slice_set};
ghost use Rattle.std.specs.List.{range_with_len};
ghost use Rattle.hume_model.specs.declared.core_tree.Expr.TheVariants.{Call, Var as VarExpr};
ghost use Rattle.hume_model.specs.declared.core_tree.PatC.TheVariants.{Var as VarPattern};
ghost use Rattle.hume_model.specs.declared.core_tree.Res.{out-Res};
ghost use Rattle.hume_model.specs.declared.core_tree.Res.TheVariants.{Outs as Outputs};
ghost use Rattle.calculus_laws.specs.declared.step.CalcError.TheVariants.{NoMemory as OutOfMemory};
ghost use Rattle.calculus_laws.specs.Naming.{body_of, calling_box, may_be_named, named_function, only_output, output_at, output_refusal, variables};

use crate::names::{is_function_name, is_taken};
use crate::output::{exchange_result, first_type};
use crate::variables::rule_variables;
use calculus_laws::CalcError;
use hume_base::limits::{MAX_FUNCTIONS, MAX_PARAMETERS};
use hume_base::{List, Text, Ty, Types};
use hume_model::{BoxC, EqC, Expr, FunC, PatC, PortC, Res, RuleC};
use std::alloc::{AllocError, Global};

/// Makes the output of a rule a new last function of the rule's variables, which the rule then calls.
pub(crate) fn name_output(
    alloc: Global,
    types: &Types,
    funs: &[FunC],
    b: &mut BoxC,
    rule: u32,
    name: &Text,
) -> Result<FunC, CalcError>
    requires { rule < length b.old.rules }
    ensures function { IfOk result (λ function. IfSome (output_at b.old rule) (λ output. function ≡ named_function types.now b.old name.now output)) }
    ensures calling { OnOk result (IfSome (output_at b.old rule) (λ output. b.new ≡ calling_box types.now (length funs.now) rule output b.old)) }
    ensures allowed { OnOk result (output_refusal types.now funs.now name.now b.old (output_at b.old rule) ≡ None) }
    ensures refused { IfErr result (λ error.
        (error ≡ OutOfMemory) ⊎ (output_refusal types.now funs.now name.now b.old (output_at b.old rule) ≡ Some error)) }
{
    let params = check_name(alloc, types, funs, b, rule, name.bytes())?;
    let count = params.len() as u32;
    let gives = first_type(alloc, b.outs.as_slice())?;
    let name = name.copy()?;
    let call = call_on_variables(alloc, funs.len() as u32, count)?;
    let equations = named_equation(alloc, b, rule, count, call)?;
    Ok(FunC {
        name,
        line: b.line,
        params,
        gives: gives.into_inner(),
        equations,
    })
}

// The equation of a function of `count` variables for the output of a rule, in whose place the call comes; none of a rule that has
// not one output.
fn named_equation(
    alloc: Global,
    b: &mut BoxC,
    rule: u32,
    count: u32,
    call: List<Option<Expr>>,
) -> Result<List<EqC>, AllocError>
    requires { rule < length b.old.rules }
    ensures equations { IfSome (slice_get b.old.rules rule) (λ old. IfSome (body_of (out-Res old.result)) (λ body.
        IfOk result (λ equations. equations ≡ record { pats = replicate count VarPattern; body = body } ∷ []))) }
    ensures exchanged { OnOk result (IfSome (slice_get b.old.rules rule) (λ old.
        b.new ≡ record b.old { rules = slice_set b.old.rules rule (record old { result = Outputs call }) })) }
{
    let pats = variable_patterns(alloc, count)?;
    match exchange_result(alloc, b, rule, Res::Outs(call)) {
        Some(body) => List::of_one(alloc, EqC { pats, body }),
        None => Ok(List::new(alloc)),
    }
}

// The types of the variables of a rule whose output may become a function of the name.
fn check_name(
    alloc: Global,
    types: &Types,
    funs: &[FunC],
    b: &BoxC,
    rule: u32,
    name: &[u8],
) -> Result<List<Ty>, CalcError>
    ensures params { IfOk result (λ params. IfSome (output_at b.now rule) (λ output. params ≡ variables types.now b.now output.rule)) }
    ensures allowed { OnOk result (output_refusal types.now funs.now name.now b.now (output_at b.now rule) ≡ None) }
    ensures refused { IfErr result (λ error.
        (error ≡ OutOfMemory) ⊎ (output_refusal types.now funs.now name.now b.now (output_at b.now rule) ≡ Some error)) }
{
    let Some(rule) = b.rules.get(rule as usize) else {
        return Err(CalcError::CannotName);
    };
    if !is_only_output(b.outs.as_slice(), rule) {
        return Err(CalcError::CannotName);
    }
    let params = rule_variables(alloc, types, rule.pats.as_slice(), b.ins.as_slice())?;
    if !is_room_for(funs, name, params.len()) {
        return Err(CalcError::CannotName);
    }
    Ok(params)
}

fn is_only_output(outs: &[PortC], rule: &RuleC) -> bool
    ensures { result ≡ is_some (only_output outs.now rule.now) }
{
    match outs.split_first() {
        None => false,
        Some((_, others)) => others.is_empty() && has_body(&rule.result),
    }
}

fn has_body(given: &Res) -> bool
    ensures { result ≡ is_some (body_of (out-Res given.now)) }
{
    match given {
        Res::Outs(outs) => match outs.as_slice().split_first() {
            Some((Some(_), others)) => others.is_empty(),
            _ => false,
        },
        _ => false,
    }
}

fn is_room_for(funs: &[FunC], name: &[u8], count: usize) -> bool
    ensures { result ≡ may_be_named funs.now name.now count }
{
    count >= 1
        && count <= MAX_PARAMETERS
        && funs.len() < MAX_FUNCTIONS
        && is_function_name(name)
        && !is_taken(funs, name)
}

// A call of the function on its variables, as the one output of a rule.
fn call_on_variables(
    alloc: Global,
    function: u32,
    count: u32,
) -> Result<List<Option<Expr>>, AllocError>
    ensures { IfOk result (λ outs. outs ≡ Some (Call function (map VarExpr (range_with_len 0 count))) ∷ []) }
{
    let parts = variables_to(alloc, count)?;
    List::of_one(alloc, Some(Expr::Call(function, parts)))
}

#[tactic(auto, using(crate::proofs::Counted::variable_steps))]
fn variables_to(alloc: Global, count: u32) -> Result<List<Expr>, AllocError>
    ensures { IfOk result (λ parts. parts ≡ map VarExpr (range_with_len 0 count)) }
{
    let mut parts = List::new(alloc);
    for number in 0..count {
        parts.push(Expr::Var(number))?;
    }
    Ok(parts)
}

// So many patterns that are variables.
#[tactic(auto, using(crate::proofs::Counted::variable_steps))]
fn variable_patterns(alloc: Global, count: u32) -> Result<List<PatC>, AllocError>
    ensures { IfOk result (λ pats. pats ≡ replicate count VarPattern) }
{
    let mut pats = List::new(alloc);
    for _ in 0..count {
        pats.push(PatC::Var)?;
    }
    Ok(pats)
}
