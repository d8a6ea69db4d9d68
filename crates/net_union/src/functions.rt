//! Functions with their numbers moved up.
ghost use Rattle.std.specs.Prelude.{◌≡◌, map, IfOk};
ghost use Rattle.union_laws.specs.Moving.{moved_equation, moved_function};

use crate::expressions::move_expression;
use crate::gathering::{both, pushed};
use crate::patterns::copy_patterns;
use crate::types::{move_type, move_types};
use hume_base::List;
use hume_model::{EqC, FunC};
use std::alloc::{AllocError, Global};
use union_laws::Moves;

pub(crate) fn move_functions(
    alloc: Global,
    moves: Moves,
    functions: &[FunC],
) -> Result<List<FunC>, AllocError>
    ensures { IfOk result (λ higher. higher ≡ map (moved_function moves) functions.now) }
{
    let mut higher = Ok(List::new(alloc));
    for function in functions {
        higher = pushed(higher, move_function(alloc, moves, function));
    }
    higher
}

fn move_function(alloc: Global, moves: Moves, function: &FunC) -> Result<FunC, AllocError>
    ensures { IfOk result (λ higher. higher ≡ moved_function moves function.now) }
{
    let (params, equations) = both(
        move_types(alloc, moves, function.params.as_slice()),
        move_equations(alloc, moves, function.equations.as_slice()),
    )?;
    Ok(FunC {
        name: function.name.copy()?,
        line: function.line,
        params,
        gives: move_type(alloc, moves, &function.gives)?,
        equations,
    })
}

fn move_equations(alloc: Global, moves: Moves, equations: &[EqC]) -> Result<List<EqC>, AllocError>
    ensures { IfOk result (λ higher. higher ≡ map (moved_equation moves) equations.now) }
{
    let mut higher = Ok(List::new(alloc));
    for equation in equations {
        higher = pushed(higher, move_equation(alloc, moves, equation));
    }
    higher
}

fn move_equation(alloc: Global, moves: Moves, equation: &EqC) -> Result<EqC, AllocError>
    ensures { IfOk result (λ higher. higher ≡ moved_equation moves equation.now) }
{
    Ok(EqC {
        pats: copy_patterns(alloc, equation.pats.as_slice())?,
        body: move_expression(alloc, moves, &equation.body)?,
    })
}
