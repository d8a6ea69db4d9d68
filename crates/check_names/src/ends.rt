//! Where wires may begin and end.
ghost use Rattle.std.specs.Prelude.{◌≡◌, None, Some, map};
ghost use Rattle.std.specs.List.{flat_map};
ghost use Rattle.check_names.specs.Unknown.{same_end, is_end, sources_of, targets_of};

use hume_ast::{Decl, TyExp};
use hume_base::Text;

/// Whether a wire may begin at an end.
pub(crate) fn is_source(decls: &[(u32, Decl)], end: &(Text, Option<Text>)) -> bool
    ensures { result ≡ is_end end.now (flat_map (λ d. sources_of d.1) decls.now) }
{
    for d in decls {
        if has_source(&d.1, end) {
            return true;
        }
    }
    false
}

fn has_source(decl: &Decl, end: &(Text, Option<Text>)) -> bool
    ensures { result ≡ is_end end.now (sources_of decl.now) }
{
    match decl {
        Decl::BoxD(name, _, outputs, _, _, _) => is_port(name, outputs.as_slice(), end),
        Decl::Stream(name, incoming, _) => *incoming && is_stream(name, end),
        _ => false,
    }
}

/// Whether a wire may end at an end.
pub(crate) fn is_target(decls: &[(u32, Decl)], end: &(Text, Option<Text>)) -> bool
    ensures { result ≡ is_end end.now (flat_map (λ d. targets_of d.1) decls.now) }
{
    for d in decls {
        if has_target(&d.1, end) {
            return true;
        }
    }
    false
}

fn has_target(decl: &Decl, end: &(Text, Option<Text>)) -> bool
    ensures { result ≡ is_end end.now (targets_of decl.now) }
{
    match decl {
        Decl::BoxD(name, inputs, _, _, _, _) => is_port(name, inputs.as_slice(), end),
        Decl::Stream(name, incoming, _) => !*incoming && is_stream(name, end),
        _ => false,
    }
}

fn is_port(name: &Text, ports: &[(Text, TyExp)], end: &(Text, Option<Text>)) -> bool
    ensures { result ≡ is_end end.now (map (λ port. (name.now, Some port.0)) ports.now) }
{
    for port in ports {
        if is_at(end, name, &port.0) {
            return true;
        }
    }
    false
}

fn is_at(end: &(Text, Option<Text>), name: &Text, port: &Text) -> bool
    ensures { result ≡ same_end end.now (name.now, Some port.now) }
{
    match &end.1 {
        None => false,
        Some(own) => end.0.bytes() == name.bytes() && own.bytes() == port.bytes(),
    }
}

fn is_stream(name: &Text, end: &(Text, Option<Text>)) -> bool
    ensures { result ≡ same_end end.now (name.now, None) }
{
    match &end.1 {
        None => end.0.bytes() == name.bytes(),
        Some(_) => false,
    }
}
