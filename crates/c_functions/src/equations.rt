//! The equations of a function: the first one that the arguments match gives the result.
ghost use Rattle.std.specs.Prelude.{◌≡◌, ◌++◌, IfOk, OnOk, slice_get};
ghost use Rattle.hume_model.specs.Completeness.{last_passes};
ghost use Rattle.c_analysis.specs.Targets.{target};
ghost use Rattle.c_functions.specs.Functions.{are_complete_alone, argument_match, arguments_match, equation_way, equations_built, leave_none_out, is_irrefutable_equation};

use crate::parameters::parameter_object;
use c_analysis::{Setting, are_complete, are_irrefutable};
use c_expressions::{Destination, Made, Way, built, is_last_way, matched, none_tried, ways_tried};
use c_tree::CExp;
use hume_base::{List, Ty};
use hume_model::{FunC, PatC};
use std::alloc::AllocError;
use typed_core::TypedEquation;

/// Whether the equations leave no arguments out, as far as their forms tell.
pub(crate) fn leave_none_out(s: Setting, function: &FunC, equations: &[TypedEquation]) -> bool
    ensures { result ≡ leave_none_out (target s.entry) function.now equations.now }
{
    last_is_irrefutable(equations) || are_complete_alone(s, function.params.as_slice(), equations)
}

fn last_is_irrefutable(equations: &[TypedEquation]) -> bool
    ensures { result ≡ last_passes is_irrefutable_equation equations.now }
{
    match equations.last() {
        Some(last) => are_irrefutable(last.pats.as_slice()),
        None => false,
    }
}

fn are_complete_alone(s: Setting, params: &[Ty], equations: &[TypedEquation]) -> bool
    ensures { result ≡ are_complete_alone (target s.entry) params.now equations.now }
{
    match params {
        [ty] => are_complete(s.data(), ty, equations),
        _ => false,
    }
}

/// The statements of the first equation that the arguments match. The last of complete ones needs no test.
#[tactic(auto, using(crate::proofs::EquationForms::equation_steps))]
pub(crate) fn equations_built(
    s: Setting,
    to: &Destination,
    function: &FunC,
    equations: &[TypedEquation],
) -> Result<Made, AllocError>
    ensures { IfOk result (λ it. it ≡ equations_built (target s.entry) function.now to.now
        (leave_none_out (target s.entry) function.now equations.now) equations.now 1) }
{
    let complete = leave_none_out(s, function, equations);
    let mut ways = List::new(s.alloc);
    let mut next = 1;
    for (place, equation) in equations.iter().enumerate() {
        let way = equation_way(s, next, to, function, equation)?;
        if is_last_way(&way, equations, place, complete) {
            return ways_tried(s.alloc, ways, way.made);
        }
        next = way.made.next;
        ways.push(way)?;
    }
    none_tried(s, ways, next)
}

fn equation_way(
    s: Setting,
    next: u32,
    to: &Destination,
    function: &FunC,
    equation: &TypedEquation,
) -> Result<Way, AllocError>
    ensures { IfOk result (λ way. way ≡ equation_way (target s.entry) function.now to.now equation.now next) }
{
    let mut scope = List::new(s.alloc);
    let tests = arguments_match(s, &mut scope, function, equation.pats.as_slice())?;
    let made = built(s, &mut scope, next, to, &function.gives, &equation.body)?;
    Ok(Way { tests, made })
}

// The tests of the patterns, whose variables come into scope.
#[tactic(auto, using(crate::proofs::EquationForms::match_steps))]
fn arguments_match(
    s: Setting,
    scope: &mut List<CExp>,
    function: &FunC,
    patterns: &[PatC],
) -> Result<List<CExp>, AllocError>
    ensures tests { IfOk result (λ tests. tests ≡ (arguments_match (target s.entry) function.now.params 0 patterns.now).tests) }
    ensures objects { OnOk result (scope.new ≡ scope.old ++ (arguments_match (target s.entry) function.now.params 0 patterns.now).objects) }
{
    let params = function.params.as_slice();
    let mut tests = List::new(s.alloc);
    for (place, pattern) in patterns.iter().enumerate() {
        argument_match(s, scope, &mut tests, place, params, pattern)?;
    }
    Ok(tests)
}

fn argument_match(
    s: Setting,
    scope: &mut List<CExp>,
    tests: &mut List<CExp>,
    place: usize,
    params: &[Ty],
    pattern: &PatC,
) -> Result<(), AllocError>
    ensures tests { OnOk result (tests.new ≡ tests.old ++ (argument_match (target s.entry) place (slice_get params.now place) pattern.now).tests) }
    ensures objects { OnOk result (scope.new ≡ scope.old ++ (argument_match (target s.entry) place (slice_get params.now place) pattern.now).objects) }
{
    match params.get(place) {
        None => Ok(()),
        Some(ty) => {
            let object = parameter_object(s, ty, place)?;
            matched(s, scope, tests, ty, &object, pattern)
        }
    }
}
