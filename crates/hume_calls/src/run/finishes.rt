ghost use Rattle.std.specs.Prelude.{◌≡◌, ◌<◌, ◌++◌, ℕ, List, length, All, IfOk, OnOk};
ghost use Rattle.port_acts.specs.Acts.{AreNamed};
ghost use Rattle.port_acts.specs.Places.{IsPlaceOf};
ghost use Rattle.run_rounds.specs.Streams.{ArePlacesOf, output_of, std_out};
ghost use Rattle.hume_calls.specs.Owed.{run_finishes};
ghost use Rattle.hume_calls.specs.inner.FinishedPlaces.{finish_at};

use hume_model::{Core, NodeC};
use std::alloc::{AllocError, Global};

/// The places of the ports that a run finishes: those of the output streams in source order, and that of `std_out` last. The
/// ports of the streams are given by their places, one for each node.
pub fn finish_places(
    alloc: Global,
    core: &Core,
    places: &[usize],
    out: usize,
) -> Result<Vec<usize>, AllocError>
    requires { length places.now ≡ length core.now.nodes }
    ensures { IfOk result (λ finishes. (names : List (List ℕ)) → ArePlacesOf core.now names places.now → IsPlaceOf std_out names out
        → AreNamed names finishes.items (run_finishes core.now) × All (λ at. at < length names) finishes.items) }
{
    let mut finishes = Vec::new(alloc);
    let nodes = core.nodes.as_slice();
    for node in 0..nodes.len() {
        match add_finish(&mut finishes, &nodes[node], places[node], out) {
            Ok(()) => {}
            Err(error) => return Err(error),
        }
    }
    finishes.push(out)?;
    Ok(finishes)
}

fn add_finish(
    finishes: &mut Vec<usize>,
    node: &NodeC,
    at: usize,
    out: usize,
) -> Result<(), AllocError>
    ensures { OnOk result (finishes.new.items ≡ finishes.old.items ++ finish_at (output_of node.now) at out) }
{
    match node {
        NodeC::Rules(_) | NodeC::From(_) => Ok(()),
        NodeC::To(_) => {
            if at == out {
                return Ok(());
            }
            finishes.push(at)?;
            Ok(())
        }
    }
}
