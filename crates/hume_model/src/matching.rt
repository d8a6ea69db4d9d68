//! Whether a rule fits the values at its inputs, what it takes, and what its variables stand for.
ghost use Rattle.std.specs.Prelude.{◌≡◌, [], IfOk};
ghost use Rattle.std.specs.Option.{is_some, unwrap_or};
ghost use Rattle.hume_model.specs.Patterns.{matches};
ghost use Rattle.hume_model.specs.Matching.{fits_at, fits, taken_by, taken_at, bound_by, bound};

use crate::core_tree::{InPat, PatC};
use crate::patterns::matched;
use hume_base::{List, Value};
use std::alloc::{AllocError, Global};

/// Whether each position of a rule fits the value at its input.
#[tactic(auto, using(crate::proofs::Positions::position_steps))]
pub fn is_fitting(alloc: Global, pats: &[InPat], ins: &[Option<Value>]) -> Result<bool, AllocError>
    ensures { IfOk result (λ fitting. fitting ≡ fits pats.now ins.now) }
{
    for (i, pat) in pats.iter().enumerate() {
        let Some(input) = ins.get(i) else {
            return Ok(false);
        };
        if !is_fitting_at(alloc, pat, input)? {
            return Ok(false);
        }
    }
    Ok(true)
}

fn is_fitting_at(alloc: Global, pat: &InPat, input: &Option<Value>) -> Result<bool, AllocError>
    ensures { IfOk result (λ fitting. fitting ≡ fits_at pat.now input.now) }
{
    match pat {
        InPat::Star => Ok(true),
        InPat::AnyStar => Ok(true),
        InPat::Any => Ok(input.is_some()),
        InPat::Built(pattern) => match input {
            None => Ok(false),
            Some(value) => is_match(alloc, pattern, value),
        },
    }
}

fn is_match(alloc: Global, pattern: &PatC, value: &Value) -> Result<bool, AllocError>
    ensures { IfOk result (λ matched. matched ≡ is_some (matches pattern.now value.now)) }
{
    let found = matched(alloc, pattern, value)?;
    Ok(found.is_some())
}

/// For each position of a rule whether it takes the value at its input.
#[tactic(auto, using(crate::proofs::Positions::position_steps))]
pub fn taken_inputs(
    alloc: Global,
    pats: &[InPat],
    ins: &[Option<Value>],
) -> Result<List<bool>, AllocError>
    ensures { IfOk result (λ taken. taken ≡ taken_at pats.now ins.now) }
{
    let mut taken = List::new(alloc);
    for (i, pat) in pats.iter().enumerate() {
        let Some(input) = ins.get(i) else {
            return Ok(taken);
        };
        taken.push(is_taken(pat, input))?;
    }
    Ok(taken)
}

fn is_taken(pat: &InPat, input: &Option<Value>) -> bool
    ensures { result ≡ taken_by pat.now input.now }
{
    match pat {
        InPat::Star => false,
        InPat::AnyStar => input.is_some(),
        InPat::Any => true,
        InPat::Built(_) => true,
    }
}

/// The values of a rule's variables.
#[tactic(auto, using(crate::proofs::Positions::position_steps))]
pub fn bound_values(
    alloc: Global,
    pats: &[InPat],
    ins: &[Option<Value>],
) -> Result<List<Value>, AllocError>
    ensures { IfOk result (λ values. values ≡ bound pats.now ins.now) }
{
    let mut values = List::new(alloc);
    for (i, pat) in pats.iter().enumerate() {
        let Some(input) = ins.get(i) else {
            return Ok(values);
        };
        values.append(bound_at(alloc, pat, input)?)?;
    }
    Ok(values)
}

fn bound_at(alloc: Global, pat: &InPat, input: &Option<Value>) -> Result<List<Value>, AllocError>
    ensures { IfOk result (λ values. values ≡ bound_by pat.now input.now) }
{
    match pat {
        InPat::Star => Ok(List::new(alloc)),
        InPat::AnyStar => Ok(List::new(alloc)),
        InPat::Any => Ok(List::new(alloc)),
        InPat::Built(pattern) => match input {
            None => Ok(List::new(alloc)),
            Some(value) => matched_values(alloc, pattern, value),
        },
    }
}

fn matched_values(alloc: Global, pattern: &PatC, value: &Value) -> Result<List<Value>, AllocError>
    ensures { IfOk result (λ values. values ≡ unwrap_or (matches pattern.now value.now) []) }
{
    match matched(alloc, pattern, value)? {
        None => Ok(List::new(alloc)),
        Some(values) => Ok(values),
    }
}
