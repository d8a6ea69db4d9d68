//! The functions that other files call.
ghost use Rattle.std.specs.Prelude.{◌≡◌, Option, option_copied, IfOk};
ghost use Rattle.c_forms.specs.Gives.{Gives};
ghost use Rattle.c_types.specs.Gathered.{gathered};
ghost use Rattle.c_valid.specs.inner.Known.{known};
ghost use Rattle.c_valid.specs.Streams.{items_by, items_for, items_on, node_items, nodes_items, stream_functions};
ghost use Rattle.c_valid.specs.Streams.{stream_head, stream_item, valid_functions, valid_prototypes};

use crate::bodies::{given_back, value};
use crate::functions::{head, tested_of, type_functions};
use crate::tested::Tested;
use crate::tests::test_of;
use c_forms::{append, appended, function, of_one, prototype};
use c_nets::outlet;
use c_tree::{CExp, CHead, CItem, Linkage};
use c_types::CTypes;
use hume_base::{Box, List, Ty};
use hume_model::{Core, NodeC, StreamC, WireC};
use std::alloc::{AllocError, Global};

/// The declarations of the functions of input streams.
pub fn valid_prototypes(alloc: Global, core: &Core, types: &CTypes) -> Option<List<CItem>>
    ensures { Gives result (valid_prototypes (gathered types.now) core.now) }
{
    match tested_of(alloc, types) {
        Ok(tested) => stream_functions(alloc, false, core, &tested),
        Err(_) => None,
    }
}

/// The functions of types, and those of input streams.
pub fn valid_functions(alloc: Global, core: &Core, types: &CTypes) -> Option<List<CItem>>
    ensures { Gives result (valid_functions (gathered types.now) core.now) }
{
    match tested_of(alloc, types) {
        Ok(tested) => {
            let streams = stream_functions(alloc, true, core, &tested);
            appended(type_functions(alloc, &tested), streams)
        }
        Err(_) => None,
    }
}

fn stream_functions(
    alloc: Global,
    defined: bool,
    core: &Core,
    tested: &Tested,
) -> Option<List<CItem>>
    ensures { Gives result (stream_functions defined (known tested.now) core.now) }
{
    nodes_items(alloc, defined, core, tested, core.nodes.as_slice())
}

#[tactic(auto, using(crate::proofs::ListSteps::list_steps))]
fn nodes_items(
    alloc: Global,
    defined: bool,
    core: &Core,
    tested: &Tested,
    nodes: &[NodeC],
) -> Option<List<CItem>>
    ensures { Gives result (nodes_items defined (known tested.now) core.now 0 nodes.now) }
{
    let mut items = List::new(alloc);
    for (number, node) in nodes.iter().enumerate() {
        append(
            &mut items,
            node_items(alloc, defined, core, tested, number, node),
        )?;
    }
    Some(items)
}

fn node_items(
    alloc: Global,
    defined: bool,
    core: &Core,
    tested: &Tested,
    number: usize,
    node: &NodeC,
) -> Option<List<CItem>>
    ensures { Gives result (node_items defined (known tested.now) core.now number node.now) }
{
    match node {
        NodeC::From(stream) => { items_on(alloc, defined, tested, stream, outlet(core, number, 0)) }
        NodeC::Rules(_) | NodeC::To(_) => Some(List::new(alloc)),
    }
}

fn items_on(
    alloc: Global,
    defined: bool,
    tested: &Tested,
    stream: &StreamC,
    wire: Option<&WireC>,
) -> Option<List<CItem>>
    ensures { Gives result (items_on defined (known tested.now) stream.now (option_copied wire.entry)) }
{
    match wire {
        None => Some(List::new(alloc)),
        Some(wire) => items_for(alloc, defined, tested, stream, &wire.ty),
    }
}

// The function of a stream whose values have the type, if it has one.
fn items_for(
    alloc: Global,
    defined: bool,
    tested: &Tested,
    stream: &StreamC,
    ty: &Ty,
) -> Option<List<CItem>>
    ensures { Gives result (items_for defined (known tested.now) stream.now ty.now) }
{
    let object = value(alloc)?;
    let test = test_of(alloc, tested, ty, &object);
    items_by(
        alloc,
        defined,
        stream_head(alloc, tested.types, stream, ty),
        test,
    )
}

fn stream_head(alloc: Global, types: &CTypes, stream: &StreamC, ty: &Ty) -> Option<Box<CHead>>
    ensures { Gives result (stream_head (gathered types.now) stream.now ty.now) }
{
    let name = types.names().outer(alloc, b"_valid_", stream.name.bytes());
    head(alloc, types, Linkage::External, name.ok(), ty)
}

fn items_by(
    alloc: Global,
    defined: bool,
    own: Option<Box<CHead>>,
    test: Result<Option<Box<CExp>>, AllocError>,
) -> Option<List<CItem>>
    ensures { (h : CHead) (t : Option CExp) → Gives own h → IfOk test (λ it. it ≡ t) → Gives result (items_by defined h t) }
{
    match test {
        Err(_) => None,
        Ok(None) => Some(List::new(alloc)),
        Ok(Some(test)) => of_one(alloc, stream_item(alloc, defined, own, test)),
    }
}

// A function that gives the test back, or its declaration alone.
fn stream_item(
    alloc: Global,
    defined: bool,
    own: Option<Box<CHead>>,
    test: Box<CExp>,
) -> Option<Box<CItem>>
    ensures { (h : CHead) → Gives own h → Gives result (stream_item defined h test) }
{
    if defined {
        function(alloc, own, given_back(alloc, Some(test)))
    } else {
        prototype(alloc, own)
    }
}
