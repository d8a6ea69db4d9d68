//! What the wires of a core break.
ghost use Rattle.std.specs.Prelude.{◌≡◌, ◌↔◌, IsTrue, MatchOption, length, slice_get, Some, None, if◌then◌else◌};
ghost use Rattle.hume_base.specs.declared.rule.Rule.TheVariants.{C54};
ghost use Rattle.hume_base.specs.Least.{IsLeast, OfRule, earlier_of, finding_of};
ghost use Rattle.hume_model.specs.WellFormed.{HasSoundFrame};
ghost use Rattle.hume_model.specs.WireRules.{BreaksWires, ComesAfter, Differ, JoinsOthers};
ghost use Rattle.hume_model.specs.WireEnds.{HasEnds, output_type as the_output_type, input_type as the_input_type};
ghost use Rattle.wiring_check.specs.inner.Slots.{AreFirst, EndsDiffer, LacksPort, Lacks, Repeats, ends_at, end_node, end_port, lack_rule, repeat_rule};

use crate::side::Side;
use crate::slots::Slots;
use hume_base::{Finding, Rule, Ty, earlier, same_ty};
use hume_model::{Core, NodeC, WireC};

/// The least rule that the wires break, by the first wires at inputs and at outputs.
pub fn least_broken(core: &Core, inputs: &Slots, outputs: &Slots) -> Option<Finding>
    requires frame { HasSoundFrame core.now }
    requires inputs { AreFirst core.now Side.Inputs (length core.now.wires) inputs.now }
    requires outputs { AreFirst core.now Side.Outputs (length core.now.wires) outputs.now }
    ensures { IsLeast (BreaksWires core.now) result }
{
    let no_input = least_lack(core, Side::Inputs, inputs);
    let input_again = least_repeat(core, Side::Inputs, inputs);
    let no_output = least_lack(core, Side::Outputs, outputs);
    let output_again = least_repeat(core, Side::Outputs, outputs);
    let others = least_join(core);
    earlier(
        no_input,
        earlier(
            input_again,
            earlier(no_output, earlier(output_again, others)),
        ),
    )
}

/// The earlier of the least finding and that of the rule at the declaration, if the rule is broken there.
fn with_found(least: Option<Finding>, broken: bool, rule: Rule, declaration: u32) -> Option<Finding>
    ensures { result ≡ (if broken then earlier_of least (finding_of rule (Some declaration)) else least) }
{
    if broken {
        earlier(least, Some(Finding { rule, declaration }))
    } else {
        least
    }
}

fn least_lack(core: &Core, side: Side, slots: &Slots) -> Option<Finding>
    requires { AreFirst core.now side (length core.now.wires) slots.now }
    ensures { IsLeast (OfRule (lack_rule side) (Lacks core.now side)) result }
{
    let nodes = core.nodes.as_slice();
    let rule = side.lack();
    let mut least = None;
    for n in 0..nodes.len() {
        let node = &nodes[n];
        let broken = lacks_port(core, side, slots, n, node);
        least = with_found(least, broken, rule, node.declaration());
    }
    least
}

fn lacks_port(core: &Core, side: Side, slots: &Slots, n: usize, node: &NodeC) -> bool
    requires { AreFirst core.now side (length core.now.wires) slots.now }
    ensures { IsTrue result ↔ LacksPort side core.now.wires n node.now }
{
    for port in 0..side.ports(node) {
        if slots.get(n, port).is_none() {
            return true;
        }
    }
    false
}

fn least_repeat(core: &Core, side: Side, slots: &Slots) -> Option<Finding>
    requires { AreFirst core.now side (length core.now.wires) slots.now }
    ensures { IsLeast (OfRule (repeat_rule side) (Repeats core.now side)) result }
{
    let wires = core.wires.as_slice();
    let rule = side.repeat();
    let mut least = None;
    for w in 0..wires.len() {
        let wire = &wires[w];
        let broken = comes_after(core, side, slots, w, wire);
        least = with_found(least, broken, rule, wire.declaration);
    }
    least
}

fn comes_after(core: &Core, side: Side, slots: &Slots, w: usize, wire: &WireC) -> bool
    requires first { AreFirst core.now side (length core.now.wires) slots.now }
    requires there { slice_get core.now.wires w ≡ Some wire.now }
    ensures { IsTrue result ↔ ComesAfter (ends_at side (end_node side wire.now) (end_port side wire.now)) core.now.wires w }
{
    match slots.get(side.node(wire) as usize, side.port(wire) as usize) {
        None => false,
        Some(first) => first as usize != w,
    }
}

fn least_join(core: &Core) -> Option<Finding>
    requires { HasSoundFrame core.now }
    ensures { IsLeast (OfRule C54 (JoinsOthers core.now)) result }
{
    let wires = core.wires.as_slice();
    let mut least = None;
    for w in 0..wires.len() {
        let wire = &wires[w];
        let broken = joins_others(core, wire);
        least = with_found(least, broken, Rule::C54, wire.declaration);
    }
    least
}

fn joins_others(core: &Core, wire: &WireC) -> bool
    requires { HasEnds core.now wire.now }
    ensures { IsTrue result ↔ EndsDiffer core.now wire.now }
{
    let producer = &core.nodes[wire.from as usize];
    let consumer = &core.nodes[wire.to as usize];
    differ(producer, wire.from_port, consumer, wire.to_port)
}

fn differ(producer: &NodeC, from_port: u32, consumer: &NodeC, to_port: u32) -> bool
    ensures { IsTrue result ↔ Differ (the_output_type producer.now from_port) (the_input_type consumer.now to_port) }
{
    match (
        output_type(producer, from_port),
        input_type(consumer, to_port),
    ) {
        (None, None) => true,
        (Some(first), Some(second)) => !same_ty(first, second),
        _ => false,
    }
}

fn output_type(node: &NodeC, place: u32) -> Option<&Ty>
    ensures { MatchOption result (the_output_type node.now place ≡ None) (λ ty. the_output_type node.now place ≡ Some ty.now) }
{
    match node {
        NodeC::Rules(b) => match b.outs.get(place as usize) {
            None => None,
            Some(port) => Some(&port.ty),
        },
        _ => None,
    }
}

fn input_type(node: &NodeC, place: u32) -> Option<&Ty>
    ensures { MatchOption result (the_input_type node.now place ≡ None) (λ ty. the_input_type node.now place ≡ Some ty.now) }
{
    match node {
        NodeC::Rules(b) => match b.ins.get(place as usize) {
            None => None,
            Some(port) => Some(&port.ty),
        },
        _ => None,
    }
}
