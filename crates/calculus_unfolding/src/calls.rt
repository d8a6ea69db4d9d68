//! A call as the body of its function, with a `let` for each argument around it.
ghost use Rattle.std.specs.Prelude.{◌≡◌, IfOk};
ghost use Rattle.std.specs.List.{list_all};
ghost use Rattle.hume_model.specs.declared.core_tree.PatC.{out-PatC};
ghost use Rattle.calculus_laws.specs.Unfolding.{call_unfolded, equation_unfolded, lets_around, only_equation, pattern_numbers, takes_all, takes_any};
ghost use Rattle.calculus_unfolding.specs.inner.Changes.{alone};

use crate::counts::{count, plus};
use crate::renumbering::{Numbers, renumber_part};
use hume_base::{Box, List};
use hume_model::{EqC, Expr, FunC, PatC};
use std::alloc::{AllocError, Global};

/// The call of a function on the arguments, unfolded where `scope` variables are in scope; none if it can't be.
#[inline(never)]
pub fn unfold_call(
    alloc: Global,
    funs: &[FunC],
    function: u32,
    args: &[Expr],
    scope: u32,
) -> Result<Option<Box<Expr>>, AllocError>
    ensures { IfOk result (λ new. new ≡ call_unfolded (alone funs.now) function args.now scope) }
{
    match funs.get(function as usize) {
        None => Ok(None),
        Some(function) => unfold_only(alloc, function.equations.as_slice(), args, scope),
    }
}

fn unfold_only(
    alloc: Global,
    equations: &[EqC],
    args: &[Expr],
    scope: u32,
) -> Result<Option<Box<Expr>>, AllocError>
    ensures { IfOk result (λ new. new ≡ only_equation equations.now args.now scope) }
{
    let Some((equation, later)) = equations.split_first() else {
        return Ok(None);
    };
    if later.is_empty() && takes_all(equation, args) {
        let new = unfold_equation(alloc, equation, args, scope)?;
        return Ok(Some(new));
    }
    Ok(None)
}

fn takes_all(equation: &EqC, args: &[Expr]) -> bool
    ensures { result ≡ takes_all equation.now args.now }
{
    all_take_any(equation.pats.as_slice()) && args.len() == equation.pats.len()
}

fn all_take_any(pats: &[PatC]) -> bool
    ensures { result ≡ list_all (λ pat. takes_any (out-PatC pat)) pats.now }
{
    pats.iter().all(|pattern| takes_any(pattern))
}

fn takes_any(pattern: &PatC) -> bool
    ensures { result ≡ takes_any (out-PatC pattern.now) }
{
    match pattern {
        PatC::Var | PatC::Any => true,
        _ => false,
    }
}

fn unfold_equation(
    alloc: Global,
    equation: &EqC,
    args: &[Expr],
    scope: u32,
) -> Result<Box<Expr>, AllocError>
    ensures { IfOk result (λ new. new ≡ equation_unfolded equation.now args.now scope) }
{
    let numbers = Numbers::Listed {
        first: pattern_numbers(alloc, scope, equation.pats.as_slice())?,
        later: plus(scope, count(equation.pats.len())?)?,
    };
    let body = renumber_part(alloc, &numbers, &equation.body)?;
    lets_around(alloc, scope, 0, args, body)
}

// The numbers of the variables among the patterns, of which the first takes the value of this number.
#[cycle(pattern_numbers)]
fn pattern_numbers(alloc: Global, number: u32, pats: &[PatC]) -> Result<List<u32>, AllocError>
    ensures { IfOk result (λ numbers. numbers ≡ pattern_numbers number pats.now) }
{
    let Some((pattern, later)) = pats.split_first() else {
        return Ok(List::new(alloc));
    };
    let later = pattern_numbers(alloc, plus(number, 1)?, later)?;
    match pattern {
        PatC::Var => {
            let mut numbers = List::of_one(alloc, number)?;
            numbers.append(later)?;
            Ok(numbers)
        }
        _ => Ok(later),
    }
}

#[cycle(lets_around)]
fn lets_around(
    alloc: Global,
    scope: u32,
    count: u32,
    args: &[Expr],
    body: Box<Expr>,
) -> Result<Box<Expr>, AllocError>
    ensures { IfOk result (λ new. new ≡ lets_around scope count args.now body) }
{
    let Some((arg, later)) = args.split_first() else {
        return Ok(body);
    };
    let value = renumber_part(alloc, &Numbers::Moved { scope, count }, arg)?;
    let rest = lets_around(alloc, scope, plus(count, 1)?, later, body)?;
    Box::new(alloc, Expr::Let(value, rest))
}
