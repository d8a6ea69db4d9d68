//! The execute step of a compiled box.
ghost use Rattle.std.specs.Prelude.{◌≡◌, ◌+◌, ◌≤◌, ℕ, List, length, map, true, if◌then◌else◌, Some, slice_get};
ghost use Rattle.hume_base.specs.declared.types.Value.{Value};
ghost use Rattle.hume_model.specs.declared.core_tree.BoxC.{BoxC as AnyBox};
ghost use Rattle.hume_model.specs.declared.core_tree.Core.{Core as AnyCore};
ghost use Rattle.hume_model.specs.BoxTyping.{BoxHasFrame, port_types};
ghost use Rattle.hume_model.specs.Matching.{fits, taken_at};
ghost use Rattle.hume_model.specs.WellFormed.{HasSoundFrame};
ghost use Rattle.hume_net.specs.declared.state.HalfStep.{HalfStep};
ghost use Rattle.hume_net.specs.HalfSteps.{moved_last, oldest};
ghost use Rattle.box_costs.specs.Bounds.{built_patterns};
ghost use Rattle.box_costs.specs.ResultSpending.{built_values, inputs_built};
ghost use Rattle.wire_cells.specs.Cells.{CellView, without_values};
ghost use Rattle.wire_cells.specs.Homes.{AreApart, AreAtHome, AreOthersKept};
ghost use Rattle.match_rules.specs.Choosing.{first_fitting};
ghost use Rattle.match_rules.specs.Inputs.{AreBuilt, AreCellsOf, left_in};
ghost use Rattle.match_rules.specs.Plain.{plain_box, plain_rule};
ghost use Rattle.box_step.specs.Boxes.{AreBareForms, HasExecuted, IsAt};
ghost use Rattle.box_step.specs.inner.Firing.{AreBuiltAnew, Fires, HasFired};

use crate::compiled::CompiledBox;
use crate::runs::run_ready_rule;
use box_heap::{BoxHeap, BoxStack};
use box_machine::Ran;
use hume_model::{BoxC, Core, PortC, RuleC};
use match_rules::{
    RuleOrder, first_match, first_plain, orders_have_each_rule_once, take_inputs, take_plain,
};
use wire_cells::WireCell;

impl CompiledBox {
    /// Makes the execute step over the cells of the box's inputs, which are at home at the numbers of the side, by the bare forms of
    /// core and box. The answer is how the rule ran that fired, and none exactly where none did. Of the cells nothing changes but
    /// their values. It takes no memory.
    pub fn execute(
        &mut self,
        core: &Core,
        b: &BoxC,
        side: &[u32],
        home: &mut [Option<WireCell>],
    ) -> Option<Ran>
        requires apart { AreApart side.now }
        requires at { (whole : AnyCore) × (its : AnyBox) × (before : HalfStep) × (ins : List CellView) × AreAtHome side.now home.old ins
            × AreBareForms whole its core.now b.now × IsAt whole its before self.old ins }
        ensures executed { (whole : AnyCore) (its : AnyBox) (before : HalfStep) (ins : List CellView) → AreAtHome side.now home.old ins
            → AreBareForms whole its core.now b.now → IsAt whole its before self.old ins
            → (after : List CellView) × AreAtHome side.now home.new after × HasExecuted whole its before self.old self.new after result }
        ensures rest { (ins after : List CellView) → AreAtHome side.now home.old ins → AreAtHome side.now home.new after
            → map without_values after ≡ map without_values ins }
        ensures others { AreOthersKept side.now home.old home.new }
    {
        self.effort.earlier = self.ran();
        self.effort.last = 0;
        if self.pending {
            return None;
        }
        let Some(number) = first_rule(core, b, self.plain, &self.order, side, home) else {
            return None;
        };
        match b.rules.get(number) {
            None => None,
            Some(rule) => Some(self.fire(core, b, number as u32, rule, side, home)),
        }
    }

    // Fires the rule, of that number, which fits.
    fn fire(
        &mut self,
        core: &Core,
        b: &BoxC,
        number: u32,
        rule: &RuleC,
        side: &[u32],
        home: &mut [Option<WireCell>],
    ) -> Ran
        requires apart { AreApart side.now }
        requires fires { (whole : AnyCore) × (its : AnyBox) × (before : HalfStep) × (ins : List CellView) × AreAtHome side.now home.old ins
            × Fires whole its before self.old ins core.now b.now.fair number rule.now × (port_types b.now.ins ≡ port_types its.ins) }
        ensures fired { (whole : AnyCore) (its : AnyBox) (before : HalfStep) (ins : List CellView) → AreAtHome side.now home.old ins
            → Fires whole its before self.old ins core.now b.now.fair number rule.now → port_types b.now.ins ≡ port_types its.ins
            → (after : List CellView) × AreAtHome side.now home.new after × HasFired whole its before number self.old self.new after result }
        ensures rest { (ins after : List CellView) → AreAtHome side.now home.old ins → AreAtHome side.now home.new after
            → map without_values after ≡ map without_values ins }
        ensures others { AreOthersKept side.now home.old home.new }
    {
        build(
            core,
            b.ins.as_slice(),
            rule,
            self.plain,
            side,
            home,
            &mut self.heap,
            &mut self.stack,
        );
        let ran = run_ready_rule(
            &core.types,
            &self.program,
            number,
            &mut self.heap,
            &mut self.stack,
            &mut self.outputs,
            &mut self.effort.last,
        );
        put_last(&mut self.order, b.fair, number);
        self.pending = true;
        ran
    }
}

// Takes the inputs of a rule that fits, and builds them in an empty heap and on an empty stack.
fn build(
    core: &Core,
    ports: &[PortC],
    rule: &RuleC,
    plain: bool,
    side: &[u32],
    home: &mut [Option<WireCell>],
    heap: &mut BoxHeap,
    stack: &mut BoxStack,
)
    requires core { HasSoundFrame core.now }
    requires plain { plain ≡ true → plain_rule (port_types ports.now) rule.now ≡ true }
    requires apart { AreApart side.now }
    requires fitting { (ins : List CellView) × (values : List (List Value)) × AreAtHome side.now home.old ins
        × AreCellsOf core.now (port_types ports.now) ins values
        × (fits rule.now.pats (map oldest values) ≡ true)
        × (inputs_built rule.now.pats (map oldest values) ≤ heap.old.room)
        × (length (built_patterns rule.now.pats) ≤ stack.old.room) }
    ensures built { (ins : List CellView) (values : List (List Value)) → AreAtHome side.now home.old ins
        → AreCellsOf core.now (port_types ports.now) ins values → fits rule.now.pats (map oldest values) ≡ true
        → AreBuiltAnew (built_values rule.now.pats (map oldest values)) heap.old heap.new stack.old stack.new }
    ensures left { (ins : List CellView) (values : List (List Value)) → AreAtHome side.now home.old ins
        → AreCellsOf core.now (port_types ports.now) ins values → fits rule.now.pats (map oldest values) ≡ true
        → AreAtHome side.now home.new (left_in (taken_at rule.now.pats (map oldest values)) ins) }
    ensures rest { (ins after : List CellView) → AreAtHome side.now home.old ins → AreAtHome side.now home.new after
        → map without_values after ≡ map without_values ins }
    ensures others { AreOthersKept side.now home.old home.new }
{
    heap.empty();
    stack.empty();
    take(core, ports, rule, plain, side, home, heap, stack);
}

// Takes the inputs of a rule that fits, and builds those that its patterns look into. A plain rule takes words as they are.
#[inline(always)]
fn take(
    core: &Core,
    ports: &[PortC],
    rule: &RuleC,
    plain: bool,
    side: &[u32],
    home: &mut [Option<WireCell>],
    heap: &mut BoxHeap,
    stack: &mut BoxStack,
)
    requires core { HasSoundFrame core.now }
    requires plain { plain ≡ true → plain_rule (port_types ports.now) rule.now ≡ true }
    requires apart { AreApart side.now }
    requires fitting { (ins : List CellView) × (values : List (List Value)) × AreAtHome side.now home.old ins
        × AreCellsOf core.now (port_types ports.now) ins values
        × (fits rule.now.pats (map oldest values) ≡ true)
        × (length heap.old.words + inputs_built rule.now.pats (map oldest values) ≤ heap.old.room)
        × (length stack.old.words + length (built_patterns rule.now.pats) ≤ stack.old.room) }
    ensures built { (ins : List CellView) (values : List (List Value)) → AreAtHome side.now home.old ins
        → AreCellsOf core.now (port_types ports.now) ins values → fits rule.now.pats (map oldest values) ≡ true
        → AreBuilt (built_values rule.now.pats (map oldest values)) heap.old heap.new stack.old stack.new }
    ensures left { (ins : List CellView) (values : List (List Value)) → AreAtHome side.now home.old ins
        → AreCellsOf core.now (port_types ports.now) ins values → fits rule.now.pats (map oldest values) ≡ true
        → AreAtHome side.now home.new (left_in (taken_at rule.now.pats (map oldest values)) ins) }
    ensures rest { (ins after : List CellView) → AreAtHome side.now home.old ins → AreAtHome side.now home.new after
        → map without_values after ≡ map without_values ins }
    ensures others { AreOthersKept side.now home.old home.new }
{
    if plain {
        take_plain(side, home, stack);
    } else {
        take_inputs(core, ports, rule, side, home, heap, stack);
    }
}

// The number of the first rule in the order that fits. A plain box needs no look at patterns.
#[inline(always)]
fn first_rule(
    core: &Core,
    b: &BoxC,
    plain: bool,
    order: &RuleOrder,
    side: &[u32],
    home: &[Option<WireCell>],
) -> Option<usize>
    requires core { HasSoundFrame core.now }
    requires typed { BoxHasFrame core.now b.now }
    requires plain { plain ≡ plain_box b.now }
    requires home { (ins : List CellView) × AreAtHome side.now home.now ins }
    ensures { (ins : List CellView) (values : List (List Value)) → AreAtHome side.now home.now ins
        → AreCellsOf core.now (port_types b.now.ins) ins values → result ≡ first_fitting b.now order.now (map oldest values) }
{
    if plain {
        first_plain(b, order, side, home)
    } else {
        first_match(core, b, order, side, home)
    }
}

// The rule, which stands in the order, goes last in that of a fair box.
fn put_last(order: &mut RuleOrder, fair: bool, number: u32)
    requires { (place : ℕ) × (slice_get order.old place ≡ Some number) }
    ensures { order.new ≡ (if fair then moved_last number order.old else order.old) }
{
    orders_have_each_rule_once(order);
    if fair {
        order.fired(number);
    }
}
