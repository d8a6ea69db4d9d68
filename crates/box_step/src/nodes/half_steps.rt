//! The half steps of a node.
ghost use Rattle.std.specs.Prelude.{◌≡◌, ◌+◌, ◌<◌, ◌%◌, ◌^◌, List};
ghost use Rattle.wire_cells.specs.Cells.{CellView};
ghost use Rattle.wire_cells.specs.Homes.{AreApart, AreAtHome, AreOthersKept};

use crate::nodes::asserting::assert_kind;
use crate::nodes::cell::BoxCell;
use crate::nodes::executing::execute_kind;
use crate::nodes::ticking::tick_all;
use hume_model::Core;
use wire_cells::WireCell;

impl BoxCell {
    ghost use Rattle.box_step.specs.nodes.Openings.{Opening, IsOpeningOf};
    ghost use Rattle.box_step.specs.nodes.Right.{AreRight, HasRoom};
    ghost use Rattle.box_step.specs.nodes.Sides.{AreInputs, AreOutputs, AreTicked};

    /// Makes the execute step over the cells of the node's inputs, which are at home at the numbers of the side, by the bare form of
    /// the core. It takes no memory.
    #[inline(always)]
    pub fn execute(&mut self, core: &Core, side: &[u32], home: &mut [Option<WireCell>])
        requires time { (self.old.time % 2 ≡ 0) × (self.old.time < 2 ^ 40) }
        requires room { HasRoom self.old.kind }
        requires apart { AreApart side.now }
        requires side { (ins : List CellView) × AreAtHome side.now home.old ins × AreInputs core.now self.old.number self.old.time ins
            × ((opening : Opening) × IsOpeningOf core.now opening × AreRight opening self.old ins) }
        ensures number { self.new.number ≡ self.old.number }
        ensures time { self.new.time ≡ self.old.time + 1 }
        ensures others { AreOthersKept side.now home.old home.new }
        ensures home { (ins : List CellView) → AreAtHome side.now home.old ins → (after : List CellView) × AreAtHome side.now home.new after }
        ensures rest { (ins after : List CellView) → AreAtHome side.now home.old ins → AreAtHome side.now home.new after → AreTicked ins after }
        ensures right { (opening : Opening) (ins after : List CellView) → IsOpeningOf core.now opening → AreAtHome side.now home.old ins
            → AreRight opening self.old ins → AreAtHome side.now home.new after → AreRight opening self.new after }
    {
        execute_kind(core, self.number, &mut self.kind, side, home);
        tick_all(side, home);
        self.time += 1;
    }

    /// Makes the super step over the cells of the node's outputs, which are at home at the numbers of the side, by the bare form of
    /// the core. It takes no memory.
    #[inline(always)]
    pub fn super_step(&mut self, core: &Core, side: &[u32], home: &mut [Option<WireCell>])
        requires time { (self.old.time % 2 ≡ 1) × (self.old.time < 2 ^ 40) }
        requires apart { AreApart side.now }
        requires side { (outs : List CellView) × AreAtHome side.now home.old outs × AreOutputs core.now self.old.number self.old.time outs
            × ((opening : Opening) × IsOpeningOf core.now opening × AreRight opening self.old outs) }
        ensures number { self.new.number ≡ self.old.number }
        ensures time { self.new.time ≡ self.old.time + 1 }
        ensures others { AreOthersKept side.now home.old home.new }
        ensures home { (outs : List CellView) → AreAtHome side.now home.old outs → (after : List CellView) × AreAtHome side.now home.new after }
        ensures rest { (outs after : List CellView) → AreAtHome side.now home.old outs → AreAtHome side.now home.new after → AreTicked outs after }
        ensures right { (opening : Opening) (outs after : List CellView) → IsOpeningOf core.now opening → AreAtHome side.now home.old outs
            → AreRight opening self.old outs → AreAtHome side.now home.new after → AreRight opening self.new after }
    {
        let _core = core;
        assert_kind(self.number, &mut self.kind, side, home);
        self.time += 1;
    }
}
