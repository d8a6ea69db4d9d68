//! Copies of inputs and outputs, patterns, streams and wires.
ghost use Rattle.std.specs.Prelude.{◌≡◌, IfOk};

use hume_base::{List, Value, copy_ty, copy_value};
use hume_model::{InPat, PatC, PortC, StreamC, WireC};
use std::alloc::{AllocError, Global};

pub fn copy_ports(alloc: Global, ports: &[PortC]) -> Result<List<PortC>, AllocError>
    ensures { IfOk result (λ copies. copies ≡ ports.now) }
{
    let mut copies = List::new(alloc);
    for port in ports {
        copies.push(copy_port(alloc, port)?)?;
    }
    Ok(copies)
}

fn copy_port(alloc: Global, port: &PortC) -> Result<PortC, AllocError>
    ensures { IfOk result (λ copy. copy ≡ port.now) }
{
    Ok(PortC {
        name: port.name.copy()?,
        ty: copy_ty(alloc, &port.ty)?,
    })
}

pub fn copy_positions(alloc: Global, positions: &[InPat]) -> Result<List<InPat>, AllocError>
    ensures { IfOk result (λ copies. copies ≡ positions.now) }
{
    let mut copies = List::new(alloc);
    for position in positions {
        copies.push(copy_position(alloc, position)?)?;
    }
    Ok(copies)
}

fn copy_position(alloc: Global, position: &InPat) -> Result<InPat, AllocError>
    ensures { IfOk result (λ copy. copy ≡ position.now) }
{
    match position {
        InPat::Star => Ok(InPat::Star),
        InPat::AnyStar => Ok(InPat::AnyStar),
        InPat::Any => Ok(InPat::Any),
        InPat::Built(pattern) => Ok(InPat::Built(copy_pattern(alloc, pattern)?)),
    }
}

#[cycle(copy_pattern)]
fn copy_pattern(alloc: Global, pattern: &PatC) -> Result<PatC, AllocError>
    ensures { IfOk result (λ copy. copy ≡ pattern.now) }
{
    match pattern {
        PatC::Var => Ok(PatC::Var),
        PatC::Any => Ok(PatC::Any),
        PatC::Word(word) => Ok(PatC::Word(*word)),
        PatC::Con(place, parts) => Ok(PatC::Con(*place, copy_patterns(alloc, parts.as_slice())?)),
        PatC::Tuple(parts) => Ok(PatC::Tuple(copy_patterns(alloc, parts.as_slice())?)),
    }
}

#[cycle(copy_pattern)]
fn copy_patterns(alloc: Global, patterns: &[PatC]) -> Result<List<PatC>, AllocError>
    ensures { IfOk result (λ copies. copies ≡ patterns.now) }
{
    let mut copies = List::new(alloc);
    for pattern in patterns {
        copies.push(copy_pattern(alloc, pattern)?)?;
    }
    Ok(copies)
}

pub fn copy_stream(stream: &StreamC) -> Result<StreamC, AllocError>
    ensures { IfOk result (λ copy. copy ≡ stream.now) }
{
    Ok(StreamC {
        name: stream.name.copy()?,
        line: stream.line,
        declaration: stream.declaration,
        port: stream.port.copy()?,
    })
}

pub fn copy_wires(alloc: Global, wires: &[WireC]) -> Result<List<WireC>, AllocError>
    ensures { IfOk result (λ copies. copies ≡ wires.now) }
{
    let mut copies = List::new(alloc);
    for wire in wires {
        copies.push(copy_wire(alloc, wire)?)?;
    }
    Ok(copies)
}

fn copy_wire(alloc: Global, wire: &WireC) -> Result<WireC, AllocError>
    ensures { IfOk result (λ copy. copy ≡ wire.now) }
{
    Ok(WireC {
        line: wire.line,
        declaration: wire.declaration,
        from: wire.from,
        from_port: wire.from_port,
        to: wire.to,
        to_port: wire.to_port,
        ty: copy_ty(alloc, &wire.ty)?,
        depth: wire.depth,
        initial: copy_first(alloc, &wire.initial)?,
    })
}

fn copy_first(alloc: Global, value: &Option<Value>) -> Result<Option<Value>, AllocError>
    ensures { IfOk result (λ copy. copy ≡ value.now) }
{
    match value {
        None => Ok(None),
        Some(value) => Ok(Some(copy_value(alloc, value)?)),
    }
}
