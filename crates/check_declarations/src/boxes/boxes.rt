//! Boxes from their ports, rules and handlers to trees.
ghost use Rattle.std.specs.Prelude.{◌≡◌, [], Some, None, OnOk, IfOk, IfErr};
ghost use Rattle.check_typing.specs.inner.DeclarationWalk.{box_walk};
ghost use Rattle.check_tasks.specs.States.{scope_in, signatures_in};
ghost use Rattle.check_expressions.specs.declared.stop.Stop.TheVariants.{NoType};
ghost use Rattle.check_declarations.specs.boxes.inner.Boxes.{box_found};
ghost use Rattle.check_declarations.specs.boxes.inner.Ports.{ported, unported};

use crate::boxes::handlers::handler_cores;
use crate::boxes::ports::push_ports;
use crate::boxes::rules::rule_cores;
use crate::results::ResultElaboration;
use check_expressions::Stop;
use hume_ast::{Exp, Pat, TyExp};
use hume_base::{List, Text};
use std::alloc::Global;
use typed_core::{TypedHandler, TypedRule};

/// The trees of a box.
#[derive(Drop)]
pub(crate) struct BoxCores {
    pub rules: List<TypedRule>,
    pub handlers: List<TypedHandler>,
    /// Whether a literal in one of them is out of the range of its type.
    pub too_wide: bool,
}

/// The trees of the rules and handlers of a box. Where variables are in scope it is answered with want of memory, as a box sees
/// none.
#[tactic(auto, using(crate::proofs::boxes_lemmas::BoxLaws::box_steps))]
pub(crate) fn box_cores<'a>(
    alloc: Global,
    at: &mut ResultElaboration<'a>,
    inputs: &[(Text, TyExp)],
    outputs: &[(Text, TyExp)],
    rules: &'a [(List<Pat>, Exp)],
    handlers: &'a [(Text, Option<Pat>, Exp)],
) -> Result<BoxCores, Stop>
    ensures keeps { OnOk result (at.new ≡ at.old) }
    ensures ok { IfOk result (λ found. box_found (box_walk (signatures_in at.old.0) inputs.now outputs.now rules.now handlers.now)
        ≡ Some (found.rules, found.handlers, found.too_wide)) }
    ensures none { IfErr result (λ stop. stop ≡ NoType → box_walk (signatures_in at.old.0) inputs.now outputs.now rules.now handlers.now ≡ None) }
{
    enter_ports(at, inputs, outputs)?;
    let (rules, wide_in_rules) = rule_cores(alloc, at, rules)?;
    let (handlers, wide_in_handlers) = handler_cores(alloc, at, handlers)?;
    leave_ports(at);
    Ok(BoxCores {
        rules,
        handlers,
        too_wide: wide_in_rules || wide_in_handlers,
    })
}

// Puts the types of the ports on the stack, where no variable is in scope.
#[tactic(auto, using(crate::proofs::boxes_lemmas::BoxLaws::enter_steps))]
fn enter_ports(
    at: &mut ResultElaboration,
    inputs: &[(Text, TyExp)],
    outputs: &[(Text, TyExp)],
) -> Result<(), Stop>
    ensures scope { OnOk result ((scope_in at.old.0) ≡ []) }
    ensures ok { OnOk result (ported inputs.now outputs.now at.old ≡ Some at.new) }
    ensures none { IfErr result (λ stop. stop ≡ NoType → ported inputs.now outputs.now at.old ≡ None) }
{
    if at.plain.environment.variables() != 0 {
        return Err(Stop::NoMemory);
    }
    push_ports(&mut at.plain.environment, inputs, outputs)
}

// Takes the types of the ports off.
fn leave_ports(at: &mut ResultElaboration)
    ensures { at.new ≡ unported at.old }
{
    at.plain.environment.pop();
    at.plain.environment.pop();
}
