//! The alternatives of a `case`.
ghost use Rattle.std.specs.Prelude.{◌≡◌, ◌+◌, ◌<◌, ◌++◌, ◌||◌, ◌&&◌, drop, length, IfOk, OnOk};
ghost use Rattle.c_expressions.specs.Made.{made};
ghost use Rattle.c_expressions.specs.Patterns.{matched};
ghost use Rattle.c_analysis.specs.Targets.{target};
ghost use Rattle.c_expressions.specs.Expressions.{arms_built, no_arm, no_exp, tried, raised};
ghost use Rattle.c_expressions.specs.inner.Parts.{arms_of};
ghost use Rattle.c_expressions.specs.inner.Ways.{way_of, ways_before};

use crate::building::{built, raised};
use crate::made::{Destination, Made, tested_behind};
use crate::patterns::{conjunction, matched};
use c_analysis::Setting;
use c_tree::{CExp, CStm};
use hume_base::{List, Ty};
use hume_model::{NO_CASE, PatC};
use std::alloc::{AllocError, Global};
use typed_core::TypedExpr;

/// Tests, and the statements where all of them hold.
#[derive(Drop)]
pub struct Way {
    pub tests: List<CExp>,
    pub made: Made,
}

/// The statements of the first alternative that the object matches. The last of complete ones needs no test.
#[cycle(built)]
pub(crate) fn arms_from<'a>(
    s: Setting<'a>,
    scope: &mut List<CExp>,
    next: u32,
    to: &'a Destination,
    ty: &'a Ty,
    of: &'a Ty,
    object: &'a CExp,
    arms: &'a [(PatC, TypedExpr)],
    complete: bool,
) -> Result<Made, AllocError>
    ensures made { IfOk result (λ it. it ≡ arms_built (target s.entry) scope.old to.now ty.now of.now object.now complete next
        (arms_of (target s.entry) arms.now)) }
    ensures scope { OnOk result (scope.new ≡ scope.old) }
{
    let mut ways = List::new(s.alloc);
    let mut next = next;
    for (place, arm) in arms.iter().enumerate() {
        let way = arm_way(s, scope, next, to, ty, of, object, arm)?;
        if is_last_way(&way, arms, place, complete) {
            return ways_tried(s.alloc, ways, way.made);
        }
        next = way.made.next;
        ways.push(way)?;
    }
    none_tried(s, ways, next)
}

/// Whether no alternative is tried behind that of a place: it has no tests, or is the last of complete ones.
#[tactic(auto, using(crate::proofs::WaysForms::last_steps))]
pub fn is_last_way<A>(way: &Way, arms: &[A], place: usize, complete: bool) -> bool
    requires { place < length arms.now }
    ensures { result ≡ (no_exp way.now.tests || (complete && no_arm (drop (place + 1) arms.now))) }
{
    way.tests.is_empty() || (complete && place + 1 == arms.len())
}

/// Ways behind which nothing matches.
pub fn none_tried(s: Setting, ways: List<Way>, next: u32) -> Result<Made, AllocError>
    ensures { IfOk result (λ it. it ≡ ways_before ways (made (raised (target s.entry) NO_CASE) next)) }
{
    let statements = when_none(s)?;
    ways_tried(s.alloc, ways, Made { statements, next })
}

#[cycle(built)]
fn arm_way<'a>(
    s: Setting<'a>,
    scope: &mut List<CExp>,
    next: u32,
    to: &'a Destination,
    ty: &'a Ty,
    of: &'a Ty,
    object: &'a CExp,
    arm: &'a (PatC, TypedExpr),
) -> Result<Way, AllocError>
    ensures made { IfOk result (λ it. it ≡ way_of (target s.entry) arm.now of.now object.now scope.old to.now ty.now next) }
    ensures scope { OnOk result (scope.new ≡ scope.old) }
{
    let count = scope.len();
    let tests = tests_of(s, scope, of, object, &arm.0)?;
    let made = built(s, scope, next, to, ty, &arm.1)?;
    scope.truncate(count);
    Ok(Way { tests, made })
}

/// The tests that an object passes where its value matches. The variables come into scope.
pub fn tests_of(
    s: Setting,
    scope: &mut List<CExp>,
    ty: &Ty,
    object: &CExp,
    pattern: &PatC,
) -> Result<List<CExp>, AllocError>
    ensures tests { IfOk result (λ tests. tests ≡ (matched (target s.entry) pattern.now ty.now object.now).tests) }
    ensures objects { OnOk result (scope.new ≡ scope.old ++ (matched (target s.entry) pattern.now ty.now object.now).objects) }
{
    let mut tests = List::new(s.alloc);
    matched(s, scope, &mut tests, ty, object, pattern)?;
    Ok(tests)
}

/// The ways one after the other, and what is done behind them.
#[tactic(auto, using(crate::proofs::WaysForms::way_steps))]
pub fn ways_tried(alloc: Global, ways: List<Way>, last: Made) -> Result<Made, AllocError>
    ensures { IfOk result (λ it. it ≡ ways_before ways last) }
{
    let mut ways = ways.into_vec();
    let mut made = last;
    while let Some(way) = ways.pop() {
        made = tried(alloc, way.tests, way.made.statements, made)?;
    }
    Ok(made)
}

// Statements where all tests hold, and other ones where one doesn't.
fn tried(
    alloc: Global,
    tests: List<CExp>,
    body: List<CStm>,
    otherwise: Made,
) -> Result<Made, AllocError>
    ensures { IfOk result (λ it. it ≡ tried tests body otherwise) }
{
    let test = conjunction(alloc, tests)?;
    tested_behind(alloc, List::new(alloc), test, body, otherwise)
}

/// What is done where nothing matches.
pub fn when_none(s: Setting) -> Result<List<CStm>, AllocError>
    ensures { IfOk result (λ it. it ≡ raised (target s.entry) NO_CASE) }
{
    raised(s, NO_CASE)
}
