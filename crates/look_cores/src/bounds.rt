//! The bounds of boxes, rules and handlers, and what decides them.
#![tactic(auto, using(look_sources::proofs::Growing::growing))]

ghost use Rattle.hume_exceptions.specs.Sets.{IsRaisesOf};
ghost use Rattle.look_sources.specs.Pages.{Grows};

use crate::bound::{Bound, Measure};
use crate::box_bounds::{Ground, built_count, built_variables, greatest, node_bounds, rule_bounds};
use crate::chain::{Deciding, Form, Link, Stage};
use crate::slices;
use hume_base::limits::{MAX_HEAP_WORDS, MAX_SPACE_WORDS, MAX_STACK_WORDS, MAX_WORK};
use hume_exceptions::{Raises, raises};
use hume_model::{BoxC, Core, FunC, HandC, NodeC, Res, RuleC};
use look_sources::Page;
use std::alloc::{AllocError, Global};

// Links of a chain that are told.
const MAX_LINKS: u32 = 256;

/// Puts all boxes with their rules and handlers, in source order, and the sum.
pub fn put_bounds(alloc: Global, core: &Core, page: &mut Page) -> Result<(), AllocError>
    ensures { Grows page.old page.new }
{
    let raised = raises(alloc, core)?;
    let ground = Ground::of(alloc, core)?;
    let nodes = slices::nodes(core);
    for n in 0..nodes.len() {
        put_node(alloc, core, &raised, &ground, &nodes[n], page)?;
    }
    let bounds = node_bounds(alloc, core)?;
    put_total(bounds.as_slice(), page);
    Ok(())
}

fn put_node(
    alloc: Global,
    core: &Core,
    raised: &Raises,
    ground: &Ground,
    node: &NodeC,
    page: &mut Page,
) -> Result<(), AllocError>
    requires { IsRaisesOf core.now raised.now }
    ensures { Grows page.old page.new }
{
    match node {
        NodeC::Rules(b) => put_box(alloc, core, raised, ground, b, page),
        _ => Ok(()),
    }
}

fn put_total(bounds: &[Bound], page: &mut Page)
    ensures { Grows page.old page.new }
{
    let mut heap: u64 = 0;
    let mut stack: u64 = 0;
    for bound in bounds {
        heap = heap.saturating_add(bound.heap);
        stack = stack.saturating_add(bound.stack);
    }
    page.put(b"total heap ");
    page.number(heap);
    page.put(b" stack ");
    page.number(stack);
    page.put(b"\n");
    let words = heap.saturating_add(stack);
    if words > u64::from(MAX_SPACE_WORDS) {
        page.put(b"  heap and stack are ");
        page.number(words);
        put_limit(page, u64::from(MAX_SPACE_WORDS));
    }
}

fn put_limit(page: &mut Page, limit: u64)
    ensures { Grows page.old page.new }
{
    page.put(b", past the limit of ");
    page.number(limit);
    page.put(b"\n");
}

fn put_box(
    alloc: Global,
    core: &Core,
    raised: &Raises,
    ground: &Ground,
    b: &BoxC,
    page: &mut Page,
) -> Result<(), AllocError>
    requires { IsRaisesOf core.now raised.now }
    ensures { Grows page.old page.new }
{
    let rules = rule_bounds(alloc, core, raised, ground, b)?;
    let bound = greatest(rules.as_slice());
    page.put(b"box ");
    page.put(b.name.bytes());
    put_bound(page, bound);
    page.put(b"\n");
    put_rules(page, rules.as_slice(), bound);
    put_handlers(page, core, ground, b);
    put_reason(
        page,
        core,
        ground,
        b,
        rules.as_slice(),
        bound,
        Measure::Heap,
    );
    put_reason(
        page,
        core,
        ground,
        b,
        rules.as_slice(),
        bound,
        Measure::Stack,
    );
    put_reason(
        page,
        core,
        ground,
        b,
        rules.as_slice(),
        bound,
        Measure::Work,
    );
    Ok(())
}

fn put_bound(page: &mut Page, bound: Bound)
    ensures { Grows page.old page.new }
{
    page.put(b" heap ");
    page.number(bound.heap);
    page.put(b" stack ");
    page.number(bound.stack);
    page.put(b" work ");
    page.number(bound.work);
}

// The lines of rules. Those that decide a measure say so.
fn put_rules(page: &mut Page, rules: &[Bound], bound: Bound)
    ensures { Grows page.old page.new }
{
    for i in 0..rules.len() {
        page.put(b"  rule ");
        page.number((i as u64).saturating_add(1));
        put_bound(page, rules[i]);
        put_mark(page, rules, i, bound, Measure::Heap);
        put_mark(page, rules, i, bound, Measure::Stack);
        put_mark(page, rules, i, bound, Measure::Work);
        page.put(b"\n");
    }
}

fn put_mark(page: &mut Page, rules: &[Bound], rule: usize, bound: Bound, measure: Measure)
    ensures { Grows page.old page.new }
{
    if deciding_rule(rules, bound, measure) == Some(rule) {
        page.put(b" *");
        page.put(measure.name());
    }
}

// The first rule with the bound of the box.
fn deciding_rule(rules: &[Bound], bound: Bound, measure: Measure) -> Option<usize> {
    for i in 0..rules.len() {
        if rules[i].by(measure) == bound.by(measure) {
            return Some(i);
        }
    }
    None
}

fn put_handlers(page: &mut Page, core: &Core, ground: &Ground, b: &BoxC)
    ensures { Grows page.old page.new }
{
    let handlers = slices::handlers(b);
    for h in 0..handlers.len() {
        put_handler(page, core, ground, &handlers[h]);
    }
}

fn put_handler(page: &mut Page, core: &Core, ground: &Ground, handler: &HandC)
    ensures { Grows page.old page.new }
{
    page.put(b"  handler ");
    page.put(exception_name(core, handler.exn));
    put_bound(page, ground.handler(handler));
    page.put(b"\n");
}

fn exception_name(core: &Core, exn: u32) -> &[u8] {
    match core.exns.get(exn as usize) {
        None => b"",
        Some(exn) => exn.name.bytes(),
    }
}

fn limit_of(measure: Measure) -> u64 {
    match measure {
        Measure::Heap => u64::from(MAX_HEAP_WORDS),
        Measure::Stack => u64::from(MAX_STACK_WORDS),
        Measure::Work => u64::from(MAX_WORK),
    }
}

// Tells for one measure how it comes about in the deciding rule.
fn put_reason(
    page: &mut Page,
    core: &Core,
    ground: &Ground,
    b: &BoxC,
    rules: &[Bound],
    bound: Bound,
    measure: Measure,
)
    ensures { Grows page.old page.new }
{
    if let Some(number) = deciding_rule(rules, bound, measure) {
        if number < rules.len() {
            put_deciding(page, core, ground, b, number, rules[number], measure);
        }
    }
}

// Tells it of the rule of that number with that bound.
fn put_deciding(
    page: &mut Page,
    core: &Core,
    ground: &Ground,
    b: &BoxC,
    number: usize,
    whole: Bound,
    measure: Measure,
)
    ensures { Grows page.old page.new }
{
    let rules = slices::rules(b);
    if number < rules.len() {
        put_rule(page, number, whole.by(measure), measure);
        put_shares(page, ground, b, &rules[number], whole, measure);
        put_chain(page, core, ground, &rules[number].result, measure);
    }
}

fn put_rule(page: &mut Page, number: usize, figure: u64, measure: Measure)
    ensures { Grows page.old page.new }
{
    page.put(b"  ");
    page.put(measure.name());
    page.put(b" ");
    page.number(figure);
    put_excess(page, figure, limit_of(measure));
    page.put(b": rule ");
    page.number((number as u64).saturating_add(1));
    page.put(b"\n");
}

fn put_excess(page: &mut Page, figure: u64, limit: u64)
    ensures { Grows page.old page.new }
{
    if figure > limit {
        page.put(b", past the limit of ");
        page.number(limit);
    }
}

fn put_shares(
    page: &mut Page,
    ground: &Ground,
    b: &BoxC,
    rule: &RuleC,
    whole: Bound,
    measure: Measure,
)
    ensures { Grows page.old page.new }
{
    let by_itself = ground.rule(b, rule).by(measure);
    let by_handler = whole.by(measure).saturating_sub(by_itself);
    put_share(page, b"inputs", inputs_share(ground, b, rule, measure));
    put_share(page, b"handler", by_handler);
}

fn put_share(page: &mut Page, name: &[u8], amount: u64)
    ensures { Grows page.old page.new }
{
    if amount > 0 {
        page.put(b"    ");
        page.put(name);
        page.put(b": ");
        page.number(amount);
        page.put(b"\n");
    }
}

// What the inputs of a rule take of the measure.
fn inputs_share(ground: &Ground, b: &BoxC, rule: &RuleC, measure: Measure) -> u64 {
    let patterns = rule.pats.as_slice();
    match measure {
        Measure::Heap => ground.inputs(b, rule),
        Measure::Stack => built_count(patterns).saturating_add(built_variables(patterns)),
        Measure::Work => built_variables(patterns),
    }
}

// The chain of dearest forms, to where nothing costs anything any more.
fn put_chain(page: &mut Page, core: &Core, ground: &Ground, res: &Res, measure: Measure)
    ensures { Grows page.old page.new }
{
    let functions = slices::functions(core);
    let deciding = Deciding {
        measure,
        functions,
        bounds: ground.functions.as_slice(),
    };
    let mut stage = Stage::Outcome(res);
    for _ in 0..MAX_LINKS {
        let link = deciding.next(stage);
        if link.amount == 0 {
            return;
        }
        put_link(page, functions, link);
        stage = deciding.behind(stage, link);
    }
}

fn put_link(page: &mut Page, functions: &[FunC], link: Link)
    ensures { Grows page.old page.new }
{
    page.put(b"    ");
    page.put(link.form.name());
    put_which(page, functions, link);
    page.put(b": ");
    page.number(link.amount);
    page.put(b"\n");
}

// Puts the function that is called, or the number of the part.
fn put_which(page: &mut Page, functions: &[FunC], link: Link)
    ensures { Grows page.old page.new }
{
    if link.form == Form::Call {
        page.put(b" ");
        if link.number < functions.len() {
            page.put(functions[link.number].name.bytes());
        }
    } else if link.number > 0 {
        page.put(b" ");
        page.number(link.number as u64);
    }
}
