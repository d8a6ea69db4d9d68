//! How many variables and tests patterns have.
ghost use Rattle.std.specs.Prelude.{◌≡◌, ◌+◌, ◌*◌};
ghost use Rattle.box_costs.specs.PatternTests.{variables_of, variables_of_all, tests_of, tests_of_all};
ghost use Rattle.space_costs.specs.inner.Standing.{counted};

use crate::combine::sum;
use hume_model::PatC;

#[cycle(variables)]
pub(crate) fn variables(pat: &PatC) -> u32
    ensures { result ≡ counted (variables_of pat.now) }
{
    match pat {
        PatC::Var => 1,
        PatC::Any => 0,
        PatC::Word(_) => 0,
        PatC::Con(_, parts) => all_variables(parts.as_slice()),
        PatC::Tuple(parts) => all_variables(parts.as_slice()),
    }
}

#[cycle(variables)]
pub(crate) fn all_variables(pats: &[PatC]) -> u32
    ensures { result ≡ counted (variables_of_all pats.now) }
{
    let mut total = 0;
    for i in (0..pats.len()).rev() {
        total = sum(variables(&pats[i]), total);
    }
    total
}

#[cycle(tests)]
pub(crate) fn tests(pat: &PatC) -> u32
    ensures { result ≡ counted (tests_of pat.now) }
{
    match pat {
        PatC::Var => 0,
        PatC::Any => 0,
        PatC::Word(_) => 1,
        PatC::Con(_, parts) => sum(1, all_tests(parts.as_slice())),
        PatC::Tuple(parts) => all_tests(parts.as_slice()),
    }
}

#[cycle(tests)]
pub(crate) fn all_tests(pats: &[PatC]) -> u32
    ensures { result ≡ counted (tests_of_all pats.now) }
{
    let mut total = 0;
    for i in (0..pats.len()).rev() {
        total = sum(tests(&pats[i]), total);
    }
    total
}
