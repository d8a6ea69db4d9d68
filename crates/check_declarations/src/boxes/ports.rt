//! The types of a box's inputs and outputs.
ghost use Rattle.std.specs.Prelude.{◌≡◌, Some, None, OnOk, IfErr};
ghost use Rattle.check_expressions.specs.declared.stop.Stop.TheVariants.{NoType};
ghost use Rattle.check_scopes.specs.inner.OneByOne.{with_each_written};
ghost use Rattle.check_declarations.specs.boxes.inner.Boxes.{with_ports};
ghost use Rattle.check_declarations.specs.boxes.inner.Ports.{types_alone, with_port_tuple};

use check_expressions::Stop;
use check_scopes::Environment;
use hume_ast::TyExp;
use hume_base::Text;

/// Puts the types of the inputs on the stack as one tuple, and on top of it those of the outputs.
#[tactic(auto, using(crate::proofs::boxes_lemmas::PortLaws::ports_steps))]
pub(crate) fn push_ports(
    at: &mut Environment,
    inputs: &[(Text, TyExp)],
    outputs: &[(Text, TyExp)],
) -> Result<(), Stop>
    ensures ok { OnOk result (with_ports inputs.now outputs.now at.old ≡ Some at.new) }
    ensures none { IfErr result (λ stop. stop ≡ NoType → with_ports inputs.now outputs.now at.old ≡ None) }
{
    push_tuple(at, inputs)?;
    push_tuple(at, outputs)
}

// The types of ports as one tuple.
#[tactic(auto, using(crate::proofs::boxes_lemmas::PortLaws::tuple_steps))]
fn push_tuple(at: &mut Environment, ports: &[(Text, TyExp)]) -> Result<(), Stop>
    ensures ok { OnOk result (with_port_tuple ports.now at.old ≡ Some at.new) }
    ensures none { IfErr result (λ stop. stop ≡ NoType → with_port_tuple ports.now at.old ≡ None) }
{
    push_each(at, ports)?;
    at.tuple(ports.len())?;
    Ok(())
}

#[tactic(auto, using(crate::proofs::boxes_lemmas::PortLaws::each_steps))]
fn push_each(at: &mut Environment, ports: &[(Text, TyExp)]) -> Result<(), Stop>
    ensures ok { OnOk result (with_each_written (types_alone ports.now) at.old ≡ Some at.new) }
    ensures none { IfErr result (λ stop. stop ≡ NoType → with_each_written (types_alone ports.now) at.old ≡ None) }
{
    for port in ports {
        if !at.push_written(&port.1)? {
            return Err(Stop::NoType);
        }
    }
    Ok(())
}
