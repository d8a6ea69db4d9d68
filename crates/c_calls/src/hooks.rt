//! The hooks of streams, and the two calls.
ghost use Rattle.std.specs.Prelude.{◌≡◌, ℕ, List, option_copied};
ghost use Rattle.c_forms.specs.Gives.{Gives};
ghost use Rattle.c_types.specs.Gathered.{gathered};
ghost use Rattle.c_calls.specs.Steps.{call_function, call_head};
ghost use Rattle.c_calls.specs.Hooks.{hook, hooks_from, node_hooks, outer_head, read_hooks, value, write_hooks, write_passing};

use c_forms::{append, function, of_one, parameter, prototype, text};
use c_names::Names;
use c_nets::{inlet_of, outlet};
use c_tree::{CHead, CItem, CParameter, CStm, CType, Linkage, Passing};
use c_types::{CTypes, is_scalar};
use hume_base::{Box, List, Text, Ty, Types};
use hume_model::{Core, NodeC, StreamC, WireC};
use std::alloc::Global;

/// The declarations of the hooks of nodes.
#[tactic(auto, using(crate::proofs::ListSteps::list_steps))]
pub(crate) fn hooks(
    alloc: Global,
    core: &Core,
    types: &CTypes,
    nodes: &[NodeC],
) -> Option<List<CItem>>
    ensures { Gives result (hooks_from (gathered types.now) core.now 0 nodes.now) }
{
    let mut items = List::new(alloc);
    for (number, node) in nodes.iter().enumerate() {
        append(&mut items, node_hooks(alloc, core, types, number, node))?;
    }
    Some(items)
}

fn node_hooks(
    alloc: Global,
    core: &Core,
    types: &CTypes,
    number: usize,
    node: &NodeC,
) -> Option<List<CItem>>
    ensures { Gives result (node_hooks (gathered types.now) core.now number node.now) }
{
    match node {
        NodeC::Rules(_) => Some(List::new(alloc)),
        NodeC::From(stream) => read_hooks(alloc, types, stream, outlet(core, number, 0)),
        NodeC::To(stream) => write_hooks(alloc, types, stream, inlet_of(core, number, 0)),
    }
}

fn read_hooks(
    alloc: Global,
    types: &CTypes,
    stream: &StreamC,
    wire: Option<&WireC>,
) -> Option<List<CItem>>
    ensures { Gives result (read_hooks (gathered types.now) stream.now (option_copied wire.entry)) }
{
    match wire {
        None => Some(List::new(alloc)),
        Some(wire) => {
            let name = types.names().read_hook(alloc, stream.name.bytes()).ok();
            let gives = Some(CType::Bool);
            let head = hook(alloc, types, gives, name, &wire.ty, Passing::Written);
            of_one(alloc, prototype(alloc, head))
        }
    }
}

fn write_hooks(
    alloc: Global,
    types: &CTypes,
    stream: &StreamC,
    wire: Option<&WireC>,
) -> Option<List<CItem>>
    ensures { Gives result (write_hooks (gathered types.now) stream.now (option_copied wire.entry)) }
{
    match wire {
        None => Some(List::new(alloc)),
        Some(wire) => {
            let name = types.names().write_hook(alloc, stream.name.bytes()).ok();
            let passing = write_passing(types.types(), &wire.ty);
            let head = hook(alloc, types, None, name, &wire.ty, passing);
            of_one(alloc, prototype(alloc, head))
        }
    }
}

// How a hook takes a value.
fn write_passing(types: &Types, ty: &Ty) -> Passing
    ensures { result ≡ write_passing types.now ty.now }
{
    if is_scalar(types, ty) {
        Passing::Value
    } else {
        Passing::Read
    }
}

fn hook(
    alloc: Global,
    types: &CTypes,
    gives: Option<CType>,
    name: Option<Text>,
    ty: &Ty,
    passing: Passing,
) -> Option<Box<CHead>>
    ensures { (n : List ℕ) → Gives name n → Gives result (hook (gathered types.now) gives n ty.now passing) }
{
    outer_head(
        alloc,
        gives,
        name,
        of_one(alloc, value(alloc, types, ty, passing)),
    )
}

fn value(alloc: Global, types: &CTypes, ty: &Ty, passing: Passing) -> Option<Box<CParameter>>
    ensures { Gives result (value (gathered types.now) ty.now passing) }
{
    match types.c_type(alloc, ty) {
        Ok(ty) => parameter(alloc, ty, passing, text(alloc, b"value").ok()),
        Err(_) => None,
    }
}

fn outer_head(
    alloc: Global,
    gives: Option<CType>,
    name: Option<Text>,
    parameters: Option<List<CParameter>>,
) -> Option<Box<CHead>>
    ensures { (n : List ℕ) (p : List CParameter) → Gives name n → Gives parameters p → Gives result (outer_head gives n p) }
{
    match (name, parameters) {
        (Some(name), Some(parameters)) => {
            let head = CHead {
                linkage: Linkage::External,
                result: gives,
                name,
                parameters,
            };
            Box::new(alloc, head).ok()
        }
        _ => None,
    }
}

/// The head of one of the two calls.
pub(crate) fn call_head(alloc: Global, names: &Names, word: &[u8]) -> Option<Box<CHead>>
    ensures { Gives result (call_head names.now word.now) }
{
    let name = names.outer(alloc, word, b"").ok();
    outer_head(alloc, None, name, Some(List::new(alloc)))
}

/// One of the two calls.
pub(crate) fn call_function(
    alloc: Global,
    names: &Names,
    word: &[u8],
    body: Option<List<CStm>>,
) -> Option<Box<CItem>>
    ensures { (b : List CStm) → Gives body b → Gives result (call_function names.now word.now b) }
{
    function(alloc, call_head(alloc, names, word), body)
}
