//! How a net is divided among workers: groups that are chosen at random, and those that the engine makes.
ghost use Rattle.std.specs.Prelude.{◌≡◌, ◌≤◌, IfOk, length};
ghost use Rattle.hume_base.specs.declared.limits.TheConstants.{MAX_NODES};
ghost use Rattle.phase_workers.specs.Engines.{core_of};

use phase_workers::Engine;
use std::alloc::{AllocError, Global};
use std::io;

/// So many groups, and what the choice of each node's begins with.
#[derive(Clone, Copy)]
pub(crate) struct Groups {
    pub count: u32,
    pub seed: u32,
}

// More groups are never made.
const MOST_GROUPS: u32 = 65_536;

/// The engine, whose rounds by so many workers go by groups that are chosen at random. There are never more workers than nodes.
pub(crate) fn divided(
    alloc: Global,
    mut engine: Engine,
    groups: Groups,
    workers: u32,
) -> Result<Engine, AllocError>
    requires nodes { length (core_of engine).nodes ≤ MAX_NODES }
    ensures { IfOk result (λ divided. divided ≡ engine) }
{
    let nodes = engine.core().nodes.len() as u32;
    let numbers = chosen_numbers(alloc, nodes, groups.seed)?;
    let count = groups.count.clamp(1, MOST_GROUPS);
    engine.divide(numbers.as_slice(), count, workers.min(nodes).max(1))?;
    Ok(engine)
}

fn chosen_numbers(alloc: Global, count: u32, seed: u32) -> Result<Vec<u32>, AllocError> {
    let mut numbers = Vec::new(alloc);
    let mut state = seed;
    for _ in 0..count {
        state = state.wrapping_mul(1_664_525).wrapping_add(1_013_904_223);
        numbers.push(state >> 16)?;
    }
    Ok(numbers)
}

/// Tells how many groups the engine went by, and how many wires lead from one into another.
pub(crate) fn tell_groups(rt: &HostRuntime, engine: &Engine) -> io::Result<()> {
    match engine.groups() {
        Some(groups) => println!(rt;
            "groups {} crossing {}",
            groups.count,
            groups.crossing.len()
        ),
        None => println!(rt; "undivided"),
    }
}
