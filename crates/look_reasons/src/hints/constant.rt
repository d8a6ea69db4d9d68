//! Comparisons that are always true or always false by the types of their operands.
#![tactic(auto, using(look_sources::proofs::Growing::growing))]

ghost use Rattle.look_sources.specs.Pages.{Grows};

use crate::hints::parts::Parts;
use crate::hints::verdicts::{Verdicts, gather, gather_of_result};
use crate::slices;
use hume_model::{BoxC, Core, FunC, NodeC};
use look_sources::{Page, Sort, Span};
use std::alloc::{AllocError, Global};

/// Puts a warning on each comparison with a literal that gives one answer for all values of its type.
pub(crate) fn put_constant(
    alloc: Global,
    parts: &Parts,
    core: &Core,
    page: &mut Page,
) -> Result<(), AllocError>
    ensures { Grows page.old page.new }
{
    for function in core.funs.as_slice() {
        put_of_function(alloc, parts, function, page)?;
    }
    put_of_boxes(alloc, parts, slices::nodes(core), page)
}

fn put_of_boxes(
    alloc: Global,
    parts: &Parts,
    nodes: &[NodeC],
    page: &mut Page,
) -> Result<(), AllocError>
    ensures { Grows page.old page.new }
{
    for n in 0..nodes.len() {
        let NodeC::Rules(b) = &nodes[n] else {
            continue;
        };
        put_of_box(alloc, parts, b, page)?;
    }
    Ok(())
}

fn put_of_function(
    alloc: Global,
    parts: &Parts,
    function: &FunC,
    page: &mut Page,
) -> Result<(), AllocError>
    ensures { Grows page.old page.new }
{
    let mut verdicts = Verdicts::make(alloc);
    for equation in function.equations.as_slice() {
        gather(&mut verdicts, &equation.body);
    }
    let answers = verdicts.finish()?;
    let Some(name) = parts.declared(Sort::FunctionName, function.name.bytes()) else {
        return Ok(());
    };
    put_answers(parts, &name, answers.as_slice(), page);
    Ok(())
}

fn put_of_box(alloc: Global, parts: &Parts, b: &BoxC, page: &mut Page) -> Result<(), AllocError>
    ensures { Grows page.old page.new }
{
    let mut verdicts = Verdicts::make(alloc);
    gather_of_rules(&mut verdicts, b);
    gather_of_handlers(&mut verdicts, b);
    let answers = verdicts.finish()?;
    let Some(name) = parts.node(b.name.bytes()) else {
        return Ok(());
    };
    put_answers(parts, &name, answers.as_slice(), page);
    Ok(())
}

fn gather_of_rules(verdicts: &mut Verdicts, b: &BoxC) {
    let rules = slices::rules(b);
    for i in 0..rules.len() {
        gather_of_result(verdicts, &rules[i].result);
    }
}

fn gather_of_handlers(verdicts: &mut Verdicts, b: &BoxC) {
    let handlers = slices::handlers(b);
    for i in 0..handlers.len() {
        gather_of_result(verdicts, &handlers[i].result);
    }
}

// Puts the answers on the comparisons of the declaration, if there is one for each.
fn put_answers(parts: &Parts, name: &Span, answers: &[Option<bool>], page: &mut Page)
    ensures { Grows page.old page.new }
{
    if count_comparisons(parts, name) != answers.len() {
        return;
    }
    let mut number: usize = 0;
    for span in parts.spans {
        if !is_comparison_of(span, name) {
            continue;
        }
        put_answer(parts, span, answers.get(number), page);
        number = number.saturating_add(1);
    }
}

fn count_comparisons(parts: &Parts, name: &Span) -> usize {
    let mut count: usize = 0;
    for span in parts.spans {
        if is_comparison_of(span, name) {
            count = count.saturating_add(1);
        }
    }
    count
}

fn is_comparison_of(span: &Span, name: &Span) -> bool {
    span.sort == Sort::Comparison && span.declaration == name.declaration
}

fn put_answer(parts: &Parts, span: &Span, answer: Option<&Option<bool>>, page: &mut Page)
    ensures { Grows page.old page.new }
{
    if let Some(Some(holds)) = answer {
        parts.put_hint(
            span.first,
            b"this comparison is always ",
            if *holds { b"true" } else { b"false" },
            b" by its type",
            page,
        );
    }
}
