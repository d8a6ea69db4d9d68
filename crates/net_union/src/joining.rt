//! The union of two programs.
ghost use Rattle.std.specs.Prelude.{◌≡◌, ◌++◌, IfOk, drop, length, map};
ghost use Rattle.hume_model.specs.OwnExceptions.{own_exceptions};
ghost use Rattle.union_laws.specs.Moving.{moved_data, moved_exception, moved_function, moved_node, moved_wire};
ghost use Rattle.union_laws.specs.Union.{behind, united};

use crate::boxes::move_nodes;
use crate::functions::move_functions;
use crate::gathering::{both, joined};
use crate::types::{move_exceptions, move_sums};
use crate::wires::move_wires;
use hume_base::limits::{MAX_DECLARED_EXCEPTIONS, MAX_EXCEPTIONS};
use hume_base::{List, SumDef, Types};
use hume_model::{Core, ExnDef, FunC, NodeC, WireC};
use std::alloc::{AllocError, Global};
use union_laws::Moves;

// How many exceptions every program has.
const OWN_EXCEPTIONS: usize = MAX_EXCEPTIONS - MAX_DECLARED_EXCEPTIONS;

// The numbers of a copy stay.
const UNMOVED: Moves = Moves {
    types: 0,
    exns: 0,
    funs: 0,
    nodes: 0,
};

/// The program `a`, and behind it `b` with its numbers moved up, whether or not that is within the limits of a program.
pub fn join(alloc: Global, a: &Core, b: &Core) -> Result<Core, AllocError>
    ensures { IfOk result (λ core. core ≡ united a.now b.now) }
{
    let moves = moves_behind(a)?;
    let sums = join_sums(
        alloc,
        moves,
        a.types.sums.as_slice(),
        b.types.sums.as_slice(),
    )?;
    let (exns, funs) = both(
        join_exceptions(alloc, moves, a.exns.as_slice(), b.exns.as_slice()),
        join_functions(alloc, moves, a.funs.as_slice(), b.funs.as_slice()),
    )?;
    let (nodes, wires) = both(
        join_nodes(alloc, moves, a.nodes.as_slice(), b.nodes.as_slice()),
        join_wires(alloc, moves, a.wires.as_slice(), b.wires.as_slice()),
    )?;
    Ok(Core {
        types: Types { sums },
        exns,
        funs,
        nodes,
        wires,
    })
}

#[tactic(auto, using(crate::proofs::Unmoved::unmoved_steps))]
fn join_sums(
    alloc: Global,
    moves: Moves,
    first: &[SumDef],
    second: &[SumDef],
) -> Result<List<SumDef>, AllocError>
    ensures { IfOk result (λ joined. joined ≡ first.now ++ map (moved_data moves) second.now) }
{
    joined(
        move_sums(alloc, UNMOVED, first),
        move_sums(alloc, moves, second),
    )
}

#[tactic(auto, using(crate::proofs::Unmoved::unmoved_steps))]
fn join_exceptions(
    alloc: Global,
    moves: Moves,
    first: &[ExnDef],
    second: &[ExnDef],
) -> Result<List<ExnDef>, AllocError>
    ensures { IfOk result (λ joined. joined ≡ first.now ++ map (moved_exception moves) (drop (length own_exceptions) second.now)) }
{
    joined(
        move_exceptions(alloc, UNMOVED, first),
        move_declared(alloc, moves, second),
    )
}

#[tactic(auto, using(crate::proofs::Unmoved::unmoved_steps))]
fn join_functions(
    alloc: Global,
    moves: Moves,
    first: &[FunC],
    second: &[FunC],
) -> Result<List<FunC>, AllocError>
    ensures { IfOk result (λ joined. joined ≡ first.now ++ map (moved_function moves) second.now) }
{
    joined(
        move_functions(alloc, UNMOVED, first),
        move_functions(alloc, moves, second),
    )
}

#[tactic(auto, using(crate::proofs::Unmoved::unmoved_steps))]
fn join_nodes(
    alloc: Global,
    moves: Moves,
    first: &[NodeC],
    second: &[NodeC],
) -> Result<List<NodeC>, AllocError>
    ensures { IfOk result (λ joined. joined ≡ first.now ++ map (moved_node moves) second.now) }
{
    joined(
        move_nodes(alloc, UNMOVED, first),
        move_nodes(alloc, moves, second),
    )
}

#[tactic(auto, using(crate::proofs::Unmoved::unmoved_steps))]
fn join_wires(
    alloc: Global,
    moves: Moves,
    first: &[WireC],
    second: &[WireC],
) -> Result<List<WireC>, AllocError>
    ensures { IfOk result (λ joined. joined ≡ first.now ++ map (moved_wire moves) second.now) }
{
    joined(
        move_wires(alloc, UNMOVED, first),
        move_wires(alloc, moves, second),
    )
}

fn moves_behind(core: &Core) -> Result<Moves, AllocError>
    ensures { IfOk result (λ moves. moves ≡ behind core.now) }
{
    Ok(Moves {
        types: counted(core.types.sums.len())?,
        exns: counted(core.exns.len().saturating_sub(OWN_EXCEPTIONS))?,
        funs: counted(core.funs.len())?,
        nodes: counted(core.nodes.len())?,
    })
}

// The count as a number of 32 bits; no checked program has more of anything.
fn counted(count: usize) -> Result<u32, AllocError>
    ensures { IfOk result (λ number. number ≡ count) }
{
    match u32::try_from(count) {
        Ok(number) => Ok(number),
        Err(_) => Err(AllocError),
    }
}

fn move_declared(alloc: Global, moves: Moves, exns: &[ExnDef]) -> Result<List<ExnDef>, AllocError>
    ensures { IfOk result (λ higher. higher ≡ map (moved_exception moves) (drop (length own_exceptions) exns.now)) }
{
    if exns.len() < OWN_EXCEPTIONS {
        return Ok(List::new(alloc));
    }
    move_exceptions(alloc, moves, &exns[OWN_EXCEPTIONS..])
}
