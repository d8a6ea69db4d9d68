//! Outputs that no rule ever writes.
#![tactic(auto, using(look_sources::proofs::Growing::growing))]

ghost use Rattle.look_sources.specs.Pages.{Grows};

use crate::hints::parts::Parts;
use crate::slices;
use hume_base::List;
use hume_model::{BoxC, Core, Expr, NodeC, PatC, Res};
use look_sources::{Page, Sort};

/// Puts a hint on each output that no result of its box gives a value. A box that gives no output a value is taken as meant so.
pub(crate) fn put_outputs(parts: &Parts, core: &Core, page: &mut Page)
    ensures { Grows page.old page.new }
{
    let nodes = slices::nodes(core);
    for n in 0..nodes.len() {
        let NodeC::Rules(b) = &nodes[n] else {
            continue;
        };
        if !is_one_written(b) {
            continue;
        }
        put_outputs_of(parts, b, page);
    }
}

fn is_one_written(b: &BoxC) -> bool {
    for output in 0..b.outs.len() {
        if is_written(b, output) {
            return true;
        }
    }
    false
}

fn put_outputs_of(parts: &Parts, b: &BoxC, page: &mut Page)
    ensures { Grows page.old page.new }
{
    for output in 0..b.outs.len() {
        if is_written(b, output) {
            continue;
        }
        put_unwritten(parts, b, output, page);
    }
}

fn is_written(b: &BoxC, output: usize) -> bool {
    is_written_by_rules(b, output) || is_written_by_handlers(b, output)
}

fn is_written_by_rules(b: &BoxC, output: usize) -> bool {
    let rules = slices::rules(b);
    for i in 0..rules.len() {
        if ends_with(&rules[i].result, output, true) {
            return true;
        }
    }
    false
}

fn is_written_by_handlers(b: &BoxC, output: usize) -> bool {
    let handlers = slices::handlers(b);
    for i in 0..handlers.len() {
        if ends_with(&handlers[i].result, output, true) {
            return true;
        }
    }
    false
}

/// Whether some way through the result gives the output a value, or, where that is not wanted, leaves it absent.
#[cycle(ends_with)]
pub(super) fn ends_with(res: &Res, output: usize, is_wanted: bool) -> bool {
    match res {
        Res::Outs(outs) => gives(slices::outputs(outs), output) == is_wanted,
        Res::If(_, when_true, when_false) => {
            let first = ends_with(slices::result_part(when_true), output, is_wanted);
            let second = ends_with(slices::result_part(when_false), output, is_wanted);
            first | second
        }
        Res::Case(_, _, arms) => arms_end_with(arms, output, is_wanted),
        Res::Let(_, body) => ends_with(slices::result_part(body), output, is_wanted),
        Res::Raise(_, _) => false,
    }
}

#[cycle(ends_with)]
fn arms_end_with(arms: &List<(PatC, Res)>, output: usize, is_wanted: bool) -> bool {
    let arms = slices::result_arms(arms);
    for i in 0..arms.len() {
        if ends_with(&arms[i].1, output, is_wanted) {
            return true;
        }
    }
    false
}

fn gives(outs: &[Option<Expr>], output: usize) -> bool {
    if output >= outs.len() {
        return false;
    }
    match &outs[output] {
        Some(_) => true,
        None => false,
    }
}

fn put_unwritten(parts: &Parts, b: &BoxC, output: usize, page: &mut Page)
    ensures { Grows page.old page.new }
{
    let Some(node) = parts.node(b.name.bytes()) else {
        return;
    };
    let number = output.saturating_add(1);
    for span in parts.spans {
        if span.sort != Sort::Output
            || span.declaration != node.declaration
            || span.number != number
        {
            continue;
        }
        let name = parts.name_at(span.first);
        parts.put_hint(
            span.first,
            b"no rule ever writes the output `",
            name,
            b"`",
            page,
        );
    }
}
