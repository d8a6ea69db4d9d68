//! A declaration that breaks a rule is put away: what it declares stays, as far as others may lean on it.
use crate::why::marks::{Mark, put_away};
use hume_ast::{Decl, Program};
use look_reasons::{Site, is_repeated};
use look_sources::{Sort, Span};

/// Puts away what the declarations of the line may break rules with. In the phases of names and counts their types go too; names that
/// are declared again get others.
pub(crate) fn blank(site: &Site, program: &Program, marks: &mut [Mark]) {
    let phase = site.refusal.rule.phase();
    let mut name: usize = 0;
    for span in site.spans {
        if site.is_here(span) {
            if span.sort == Sort::FunctionName {
                name = span.first;
            }
            if phase == 4 {
                rename(site, span, marks);
            }
            if phase < 6 && span.sort == Sort::Type {
                put_away(marks, span.first, span.after, Mark::Bool);
            }
            blank_body(program, span, name, marks);
        }
    }
}

fn blank_body(program: &Program, span: &Span, name: usize, marks: &mut [Mark]) {
    let Some(decl) = program.decls.get(span.declaration) else {
        return;
    };
    match (span.sort, &decl.1) {
        (Sort::Equation, Decl::Fun(_, types, _)) => {
            let patterns = types.len().saturating_sub(1);
            let mark = if span.number == 1 {
                Mark::Equation(name, patterns)
            } else {
                Mark::Gone
            };
            put_away(marks, span.first, span.after, mark);
        }
        (Sort::Rule, Decl::BoxD(_, inputs, _, _, _, _)) => {
            put_away(marks, span.first, span.after, Mark::Rule(inputs.len()));
        }
        (Sort::Handler, _) => put_away(marks, span.first.saturating_sub(1), span.after, Mark::Gone),
        (Sort::Declaration, Decl::Wire(_, _, _, _)) => {
            put_away(marks, span.first, span.after, Mark::Gone);
        }
        _ => {}
    }
}

// Gives a name that is declared again another one. Which wires lead to it isn't known then, so these go.
fn rename(site: &Site, span: &Span, marks: &mut [Mark]) {
    if !is_repeated(site, span) {
        return;
    }
    put_away(marks, span.first, span.after, Mark::Fresh);
    if span.sort == Sort::NodeName || span.sort == Sort::Input || span.sort == Sort::Output {
        put_wires_away(site, node_name(site, span.declaration), marks);
    }
}

// The name of the box or stream that the declaration declares.
fn node_name<'a>(site: &Site<'a>, declaration: usize) -> &'a [u8] {
    for span in site.spans {
        if span.sort == Sort::NodeName && span.declaration == declaration {
            return site.name(span.first);
        }
    }
    b""
}

fn put_wires_away(site: &Site, node: &[u8], marks: &mut [Mark]) {
    let mut hit: Option<usize> = None;
    for span in site.spans {
        let is_end = span.sort == Sort::WireFrom || span.sort == Sort::WireTo;
        if is_end && site.name(span.first) == node {
            hit = Some(span.declaration);
        }
        if span.sort == Sort::Declaration && hit == Some(span.declaration) {
            put_away(marks, span.first, span.after, Mark::Gone);
        }
    }
}
