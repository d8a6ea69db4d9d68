//! What is made of the cores on the stacks.
ghost use Rattle.std.specs.Prelude.{◌≡◌, OnOk};
ghost use Rattle.check_tasks.specs.results.ResultTasks.{make_step};
ghost use Rattle.check_tasks.specs.declared.results.task.ResultMake.TheVariants.{Value, Binding, Branches, Arm, Alternatives, RaiseWith};

use crate::results::elaboration::ResultElaboration;
use check_tasks::results::ResultMake;
use std::alloc::{AllocError, Global};

impl<'a> ResultElaboration<'a> {
    pub(crate) fn make(&mut self, alloc: Global, make: ResultMake) -> Result<(), AllocError>
        ensures { OnOk result (self.new ≡ make_step make self.old) }
    {
        match make {
            ResultMake::Absent => self.builder.absent(),
            ResultMake::Value => self.value(),
            ResultMake::Outs(count) => self.builder.outs(alloc, count),
            ResultMake::Binding => self.binding(alloc),
            ResultMake::Branches => self.branches(alloc),
            ResultMake::Arm => self.arm(),
            ResultMake::Alternatives(count) => self.alternatives(alloc, count),
            ResultMake::Raise(exn) => self.builder.raise(exn),
            ResultMake::RaiseWith(exn) => self.raise_with(exn),
        }
    }

    fn value(&mut self) -> Result<(), AllocError>
        ensures { OnOk result (self.new ≡ make_step Value self.old) }
    {
        let core = self.plain.take_core()?;
        self.builder.value(core)
    }

    fn binding(&mut self, alloc: Global) -> Result<(), AllocError>
        ensures { OnOk result (self.new ≡ make_step Binding self.old) }
    {
        let of = self.plain.variable_tree(alloc)?;
        let part = self.plain.take_core()?;
        self.builder.binding(alloc, of, part)
    }

    fn branches(&mut self, alloc: Global) -> Result<(), AllocError>
        ensures { OnOk result (self.new ≡ make_step Branches self.old) }
    {
        let test = self.plain.take_core()?;
        self.builder.branches(alloc, test)
    }

    fn arm(&mut self) -> Result<(), AllocError>
        ensures { OnOk result (self.new ≡ make_step Arm self.old) }
    {
        let pattern = self.plain.take_pattern()?;
        self.builder.arm(pattern)
    }

    fn alternatives(&mut self, alloc: Global, count: usize) -> Result<(), AllocError>
        ensures { OnOk result (self.new ≡ make_step (Alternatives count) self.old) }
    {
        let of = self.plain.tree(alloc)?;
        let part = self.plain.take_core()?;
        self.builder.alternatives(alloc, of, part, count)
    }

    fn raise_with(&mut self, exn: u32) -> Result<(), AllocError>
        ensures { OnOk result (self.new ≡ make_step (RaiseWith exn) self.old) }
    {
        let part = self.plain.take_core()?;
        self.builder.raise_with(exn, part)
    }
}
