//! What the inputs of a rule take: the words that build them, and their variables.
ghost use Rattle.std.specs.Prelude.{◌≡◌, ◌+◌, ◌*◌, ℕ, length};
ghost use Rattle.box_costs.specs.PatternTests.{variables_of_all};
ghost use Rattle.box_costs.specs.Bounds.{built_patterns, position_build, inputs_build as inputs_words};
ghost use Rattle.hume_model.specs.BoxTyping.{port_types};
ghost use Rattle.space_costs.specs.inner.Standing.{counted as counted_number, AreTypeBuilds};
ghost use Rattle.space_costs.specs.inner.Positions.{variables_at, count_at};

use crate::builds::build;
use crate::combine::sum;
use crate::patterns::variables;
use hume_base::{Ty, Types};
use hume_model::{InPat, PortC};

/// The words that build the inputs of a rule.
pub(crate) fn inputs_build(types: &Types, builds: &[u32], ins: &[PortC], pats: &[InPat]) -> u32
    requires { AreTypeBuilds types.now builds.now }
    ensures { result ≡ counted_number (inputs_words types.now (port_types ins.now) pats.now) }
{
    let mut total = 0;
    for i in (0..ins.len().min(pats.len())).rev() {
        total = sum(input_build(types, builds, &ins[i].ty, &pats[i]), total);
    }
    total
}

fn input_build(types: &Types, builds: &[u32], ty: &Ty, pat: &InPat) -> u32
    requires { AreTypeBuilds types.now builds.now }
    ensures { result ≡ counted_number (position_build types.now ty.now pat.now) }
{
    match pat {
        InPat::Built(_) => build(builds, ty),
        _ => 0,
    }
}

/// How many variables the positions have.
pub(crate) fn positions_variables(pats: &[InPat]) -> u32
    ensures { result ≡ counted_number (variables_of_all (built_patterns pats.now)) }
{
    let mut total = 0;
    for i in (0..pats.len()).rev() {
        total = sum(position_variables(&pats[i]), total);
    }
    total
}

fn position_variables(pat: &InPat) -> u32
    ensures { result ≡ counted_number (variables_at pat.now) }
{
    match pat {
        InPat::Built(pattern) => variables(pattern),
        _ => 0,
    }
}

/// How many positions build their inputs.
pub(crate) fn built_count(pats: &[InPat]) -> u32
    ensures { result ≡ counted_number (length (built_patterns pats.now)) }
{
    let mut total = 0;
    for i in (0..pats.len()).rev() {
        total = sum(position_count(&pats[i]), total);
    }
    total
}

fn position_count(pat: &InPat) -> u32
    ensures { result ≡ counted_number (count_at pat.now) }
{
    match pat {
        InPat::Built(_) => 1,
        _ => 0,
    }
}
