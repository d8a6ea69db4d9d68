//! The plain net of a source, to whose input streams nothing comes.
ghost use Rattle.std.specs.Prelude.{◌≡◌, ◌≤◌, length};
ghost use Rattle.hume_base.specs.declared.limits.TheConstants.{MAX_NODES};
ghost use Rattle.trials.specs.inner.Sources.{IsOfSource};

use crate::error::TrialError;
use hume_front::Accepted;
use hume_model::{Core, NodeC};
use hume_net::{Net, net_make};
use std::alloc::{AllocError, Global};
use std::io;

/// Makes so many supersteps of the plain net, and tells how many values each output stream has taken.
pub(crate) fn step_net(
    rt: &HostRuntime,
    alloc: Global,
    accepted: &Accepted,
    steps: u32,
) -> Result<(), TrialError>
    requires { IsOfSource accepted.now }
{
    let mut net = net_make(alloc, &accepted.core)?;
    make_steps(alloc, &mut net, steps)?;
    tell_taken(rt, &accepted.core, &net)?;
    Ok(())
}

fn make_steps(alloc: Global, net: &mut Net, steps: u32) -> Result<(), AllocError>
    ensures { net.new.core ≡ net.old.core }
{
    for _step in 0..steps {
        net.step(alloc)?;
    }
    Ok(())
}

// A line for each output stream, in the order of the source.
fn tell_taken(rt: &HostRuntime, core: &Core, net: &Net) -> io::Result<()>
    requires core { net.now.core.now ≡ core.now }
    requires few { length core.now.nodes ≤ MAX_NODES }
{
    for node in 0..core.nodes.len() {
        if let Some(NodeC::To(_)) = core.nodes.get(node) {
            println!(rt; "taken {}", net.taken(node as u32).len())?;
        }
    }
    Ok(())
}
