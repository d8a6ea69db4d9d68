//! The types of a program.
ghost use Rattle.std.specs.Prelude.{◌≡◌, ◌∷◌, [], map, IfOk, OnOk};
ghost use Rattle.std.specs.List.{flat_map};
ghost use Rattle.c_types.specs.Gathered.{gathered};
ghost use Rattle.c_told.specs.Told.{box_tells, carried, core_tells, equations_tell, node_tells, port_types, result_tells, signature_tells, types_of, with_all};

use crate::told::{add_expression, add_result};
use c_names::Names;
use c_types::CTypes;
use hume_base::{List, Ty};
use hume_model::{Core, ExnDef, FunC, NodeC, PortC, WireC};
use std::alloc::{AllocError, Global};
use typed_core::{BoxTrees, TypedEquation, TypedHandler, TypedRule};

/// The types that a core names and its trees tell.
#[tactic(auto, using(crate::proofs::ToldForms::all_steps))]
pub fn types_of<'a>(
    alloc: Global,
    core: &'a Core,
    names: &'a Names,
    functions: &[List<TypedEquation>],
    boxes: &[BoxTrees],
) -> Result<CTypes<'a>, AllocError>
    ensures { IfOk result (λ all. gathered all ≡ types_of core.now names.now functions.now boxes.now) }
{
    let mut types = CTypes::of(alloc, &core.types, names)?;
    add_core(alloc, &mut types, core)?;
    add_functions(alloc, &mut types, functions)?;
    add_boxes(alloc, &mut types, boxes)?;
    Ok(types)
}

#[tactic(auto, using(crate::proofs::ToldForms::all_steps))]
fn add_core(alloc: Global, types: &mut CTypes, core: &Core) -> Result<(), AllocError>
    ensures { OnOk result (gathered types.new ≡ with_all (gathered types.old) (core_tells core.now)) }
{
    add_nodes(alloc, types, core.nodes.as_slice())?;
    add_wires(alloc, types, core.wires.as_slice())?;
    add_exceptions(alloc, types, core.exns.as_slice())?;
    add_signatures(alloc, types, core.funs.as_slice())
}

#[tactic(auto, using(crate::proofs::ToldForms::all_steps))]
fn add_nodes(alloc: Global, types: &mut CTypes, nodes: &[NodeC]) -> Result<(), AllocError>
    ensures { OnOk result (gathered types.new ≡ with_all (gathered types.old) (flat_map node_tells nodes.now)) }
{
    for node in nodes {
        add_node(alloc, types, node)?;
    }
    Ok(())
}

#[tactic(auto, using(crate::proofs::ToldForms::all_steps))]
fn add_node(alloc: Global, types: &mut CTypes, node: &NodeC) -> Result<(), AllocError>
    ensures { OnOk result (gathered types.new ≡ with_all (gathered types.old) (node_tells node.now)) }
{
    match node {
        NodeC::Rules(b) => {
            add_ports(alloc, types, b.ins.as_slice())?;
            add_ports(alloc, types, b.outs.as_slice())
        }
        NodeC::From(_) | NodeC::To(_) => Ok(()),
    }
}

#[tactic(auto, using(crate::proofs::ToldForms::all_steps))]
fn add_ports(alloc: Global, types: &mut CTypes, ports: &[PortC]) -> Result<(), AllocError>
    ensures { OnOk result (gathered types.new ≡ with_all (gathered types.old) (port_types ports.now)) }
{
    for port in ports {
        types.add(alloc, &port.ty)?;
    }
    Ok(())
}

#[tactic(auto, using(crate::proofs::ToldForms::all_steps))]
fn add_wires(alloc: Global, types: &mut CTypes, wires: &[WireC]) -> Result<(), AllocError>
    ensures { OnOk result (gathered types.new ≡ with_all (gathered types.old) (map (λ wire. wire.ty) wires.now)) }
{
    for wire in wires {
        types.add(alloc, &wire.ty)?;
    }
    Ok(())
}

#[tactic(auto, using(crate::proofs::ToldForms::all_steps))]
fn add_exceptions(alloc: Global, types: &mut CTypes, exns: &[ExnDef]) -> Result<(), AllocError>
    ensures { OnOk result (gathered types.new ≡ with_all (gathered types.old) (flat_map (λ exn. carried exn.carries) exns.now)) }
{
    for exn in exns {
        add_carried(alloc, types, &exn.carries)?;
    }
    Ok(())
}

#[tactic(auto, using(crate::proofs::ToldForms::all_steps))]
fn add_carried(alloc: Global, types: &mut CTypes, carries: &Option<Ty>) -> Result<(), AllocError>
    ensures { OnOk result (gathered types.new ≡ with_all (gathered types.old) (carried carries.now)) }
{
    match carries {
        None => Ok(()),
        Some(ty) => types.add(alloc, ty),
    }
}

#[tactic(auto, using(crate::proofs::ToldForms::all_steps))]
fn add_signatures(alloc: Global, types: &mut CTypes, functions: &[FunC]) -> Result<(), AllocError>
    ensures { OnOk result (gathered types.new ≡ with_all (gathered types.old) (flat_map signature_tells functions.now)) }
{
    for function in functions {
        add_signature(alloc, types, function)?;
    }
    Ok(())
}

#[tactic(auto, using(crate::proofs::LastTypes::last_steps))]
fn add_signature(alloc: Global, types: &mut CTypes, function: &FunC) -> Result<(), AllocError>
    ensures { OnOk result (gathered types.new ≡ with_all (gathered types.old) (signature_tells function.now)) }
{
    add_each(alloc, types, function.params.as_slice())?;
    add_one(alloc, types, &function.gives)
}

fn add_one(alloc: Global, types: &mut CTypes, ty: &Ty) -> Result<(), AllocError>
    ensures { OnOk result (gathered types.new ≡ with_all (gathered types.old) (ty.now ∷ [])) }
{
    types.add(alloc, ty)
}

#[tactic(auto, using(crate::proofs::ToldForms::all_steps))]
fn add_each(alloc: Global, types: &mut CTypes, tys: &[Ty]) -> Result<(), AllocError>
    ensures { OnOk result (gathered types.new ≡ with_all (gathered types.old) tys.now) }
{
    for ty in tys {
        types.add(alloc, ty)?;
    }
    Ok(())
}

#[tactic(auto, using(crate::proofs::ToldForms::all_steps))]
fn add_functions(
    alloc: Global,
    types: &mut CTypes,
    functions: &[List<TypedEquation>],
) -> Result<(), AllocError>
    ensures { OnOk result (gathered types.new ≡ with_all (gathered types.old) (flat_map equations_tell functions.now)) }
{
    for equations in functions {
        add_equations(alloc, types, equations.as_slice())?;
    }
    Ok(())
}

#[tactic(auto, using(crate::proofs::ToldForms::all_steps))]
fn add_equations(
    alloc: Global,
    types: &mut CTypes,
    equations: &[TypedEquation],
) -> Result<(), AllocError>
    ensures { OnOk result (gathered types.new ≡ with_all (gathered types.old) (equations_tell equations.now)) }
{
    for equation in equations {
        add_expression(alloc, types, &equation.body)?;
    }
    Ok(())
}

#[tactic(auto, using(crate::proofs::ToldForms::all_steps))]
fn add_boxes(alloc: Global, types: &mut CTypes, boxes: &[BoxTrees]) -> Result<(), AllocError>
    ensures { OnOk result (gathered types.new ≡ with_all (gathered types.old) (flat_map box_tells boxes.now)) }
{
    for trees in boxes {
        add_rules(alloc, types, trees.rules.as_slice())?;
        add_handlers(alloc, types, trees.handlers.as_slice())?;
    }
    Ok(())
}

#[tactic(auto, using(crate::proofs::ToldForms::all_steps))]
fn add_rules(alloc: Global, types: &mut CTypes, rules: &[TypedRule]) -> Result<(), AllocError>
    ensures { OnOk result (gathered types.new ≡ with_all (gathered types.old) (flat_map (λ rule. result_tells rule.result) rules.now)) }
{
    for rule in rules {
        add_result(alloc, types, &rule.result)?;
    }
    Ok(())
}

#[tactic(auto, using(crate::proofs::ToldForms::all_steps))]
fn add_handlers(
    alloc: Global,
    types: &mut CTypes,
    handlers: &[TypedHandler],
) -> Result<(), AllocError>
    ensures { OnOk result (gathered types.new ≡ with_all (gathered types.old) (flat_map (λ handler. result_tells handler.result) handlers.now)) }
{
    for handler in handlers {
        add_result(alloc, types, &handler.result)?;
    }
    Ok(())
}
