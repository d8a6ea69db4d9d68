//! Boxes and streams with their numbers moved up.
ghost use Rattle.std.specs.Prelude.{◌≡◌, map, IfOk};
ghost use Rattle.union_laws.specs.Moving.{moved_box, moved_handler, moved_node, moved_port, moved_rule};

use crate::gathering::{both, pushed};
use crate::numbers::raised_exn;
use crate::patterns::copy_positions;
use crate::results::move_result;
use crate::types::move_type;
use hume_base::List;
use hume_model::{BoxC, HandC, NodeC, PortC, RuleC, StreamC};
use std::alloc::{AllocError, Global};
use union_laws::Moves;

pub(crate) fn move_nodes(
    alloc: Global,
    moves: Moves,
    nodes: &[NodeC],
) -> Result<List<NodeC>, AllocError>
    ensures { IfOk result (λ higher. higher ≡ map (moved_node moves) nodes.now) }
{
    let mut higher = Ok(List::new(alloc));
    for node in nodes {
        higher = pushed(higher, move_node(alloc, moves, node));
    }
    higher
}

fn move_node(alloc: Global, moves: Moves, node: &NodeC) -> Result<NodeC, AllocError>
    ensures { IfOk result (λ higher. higher ≡ moved_node moves node.now) }
{
    match node {
        NodeC::Rules(b) => Ok(NodeC::Rules(move_box(alloc, moves, b)?)),
        NodeC::From(stream) => Ok(NodeC::From(copy_stream(stream)?)),
        NodeC::To(stream) => Ok(NodeC::To(copy_stream(stream)?)),
    }
}

fn move_box(alloc: Global, moves: Moves, b: &BoxC) -> Result<BoxC, AllocError>
    ensures { IfOk result (λ higher. higher ≡ moved_box moves b.now) }
{
    let (ins, outs) = both(
        move_ports(alloc, moves, b.ins.as_slice()),
        move_ports(alloc, moves, b.outs.as_slice()),
    )?;
    let (rules, handlers) = both(
        move_rules(alloc, moves, b.rules.as_slice()),
        move_handlers(alloc, moves, b.handlers.as_slice()),
    )?;
    Ok(BoxC {
        name: b.name.copy()?,
        line: b.line,
        declaration: b.declaration,
        ins,
        outs,
        fair: b.fair,
        rules,
        handlers,
    })
}

fn move_ports(alloc: Global, moves: Moves, ports: &[PortC]) -> Result<List<PortC>, AllocError>
    ensures { IfOk result (λ higher. higher ≡ map (moved_port moves) ports.now) }
{
    let mut higher = Ok(List::new(alloc));
    for port in ports {
        higher = pushed(higher, move_port(alloc, moves, port));
    }
    higher
}

fn move_port(alloc: Global, moves: Moves, port: &PortC) -> Result<PortC, AllocError>
    ensures { IfOk result (λ higher. higher ≡ moved_port moves port.now) }
{
    Ok(PortC {
        name: port.name.copy()?,
        ty: move_type(alloc, moves, &port.ty)?,
    })
}

fn move_rules(alloc: Global, moves: Moves, rules: &[RuleC]) -> Result<List<RuleC>, AllocError>
    ensures { IfOk result (λ higher. higher ≡ map (moved_rule moves) rules.now) }
{
    let mut higher = Ok(List::new(alloc));
    for rule in rules {
        higher = pushed(higher, move_rule(alloc, moves, rule));
    }
    higher
}

fn move_rule(alloc: Global, moves: Moves, rule: &RuleC) -> Result<RuleC, AllocError>
    ensures { IfOk result (λ higher. higher ≡ moved_rule moves rule.now) }
{
    Ok(RuleC {
        pats: copy_positions(alloc, rule.pats.as_slice())?,
        result: move_result(alloc, moves, &rule.result)?,
    })
}

fn move_handlers(alloc: Global, moves: Moves, handlers: &[HandC]) -> Result<List<HandC>, AllocError>
    ensures { IfOk result (λ higher. higher ≡ map (moved_handler moves) handlers.now) }
{
    let mut higher = Ok(List::new(alloc));
    for handler in handlers {
        higher = pushed(higher, move_handler(alloc, moves, handler));
    }
    higher
}

fn move_handler(alloc: Global, moves: Moves, handler: &HandC) -> Result<HandC, AllocError>
    ensures { IfOk result (λ higher. higher ≡ moved_handler moves handler.now) }
{
    Ok(HandC {
        exn: raised_exn(moves, handler.exn)?,
        bound: handler.bound,
        result: move_result(alloc, moves, &handler.result)?,
    })
}

fn copy_stream(stream: &StreamC) -> Result<StreamC, AllocError>
    ensures { IfOk result (λ copy. copy ≡ stream.now) }
{
    Ok(StreamC {
        name: stream.name.copy()?,
        line: stream.line,
        declaration: stream.declaration,
        port: stream.port.copy()?,
    })
}
