//! The bare form of a core, part by part.
ghost use Rattle.std.specs.Prelude.{◌≡◌, map, IfOk};
ghost use Rattle.model_bare.specs.Bare.{bare_of, bare_node, bare_box, bare_rule, bare_handler};

use crate::parts::{copy_ports, copy_positions, copy_stream, copy_wires};
use crate::types::{copy_exceptions, copy_types};
use hume_base::List;
use hume_model::{BoxC, Core, HandC, NodeC, Res, RuleC};
use std::alloc::{AllocError, Global};

/// The core without its functions, whose rules and handlers give nothing.
pub fn bare(alloc: Global, core: &Core) -> Result<Core, AllocError>
    ensures { IfOk result (λ copy. copy ≡ bare_of core.now) }
{
    Ok(Core {
        types: copy_types(alloc, &core.types)?,
        exns: copy_exceptions(alloc, core.exns.as_slice())?,
        funs: List::new(alloc),
        nodes: bare_nodes(alloc, core.nodes.as_slice())?,
        wires: copy_wires(alloc, core.wires.as_slice())?,
    })
}

fn bare_nodes(alloc: Global, nodes: &[NodeC]) -> Result<List<NodeC>, AllocError>
    ensures { IfOk result (λ copy. copy ≡ map bare_node nodes.now) }
{
    let mut copies = List::new(alloc);
    for node in nodes {
        copies.push(one_node(alloc, node)?)?;
    }
    Ok(copies)
}

fn one_node(alloc: Global, node: &NodeC) -> Result<NodeC, AllocError>
    ensures { IfOk result (λ copy. copy ≡ bare_node node.now) }
{
    match node {
        NodeC::Rules(b) => Ok(NodeC::Rules(one_box(alloc, b)?)),
        NodeC::From(stream) => Ok(NodeC::From(copy_stream(stream)?)),
        NodeC::To(stream) => Ok(NodeC::To(copy_stream(stream)?)),
    }
}

fn one_box(alloc: Global, b: &BoxC) -> Result<BoxC, AllocError>
    ensures { IfOk result (λ copy. copy ≡ bare_box b.now) }
{
    Ok(BoxC {
        name: b.name.copy()?,
        line: b.line,
        declaration: b.declaration,
        ins: copy_ports(alloc, b.ins.as_slice())?,
        outs: copy_ports(alloc, b.outs.as_slice())?,
        fair: b.fair,
        rules: bare_rules(alloc, b.rules.as_slice())?,
        handlers: bare_handlers(alloc, b.handlers.as_slice())?,
    })
}

fn bare_rules(alloc: Global, rules: &[RuleC]) -> Result<List<RuleC>, AllocError>
    ensures { IfOk result (λ copy. copy ≡ map bare_rule rules.now) }
{
    let mut copies = List::new(alloc);
    for rule in rules {
        copies.push(one_rule(alloc, rule)?)?;
    }
    Ok(copies)
}

fn one_rule(alloc: Global, rule: &RuleC) -> Result<RuleC, AllocError>
    ensures { IfOk result (λ copy. copy ≡ bare_rule rule.now) }
{
    Ok(RuleC {
        pats: copy_positions(alloc, rule.pats.as_slice())?,
        result: Res::Outs(List::new(alloc)),
    })
}

fn bare_handlers(alloc: Global, handlers: &[HandC]) -> Result<List<HandC>, AllocError>
    ensures { IfOk result (λ copy. copy ≡ map bare_handler handlers.now) }
{
    let mut copies = List::new(alloc);
    for handler in handlers {
        copies.push(one_handler(alloc, handler))?;
    }
    Ok(copies)
}

fn one_handler(alloc: Global, handler: &HandC) -> HandC
    ensures { result ≡ bare_handler handler.now }
{
    HandC {
        exn: handler.exn,
        bound: handler.bound,
        result: Res::Outs(List::new(alloc)),
    }
}
