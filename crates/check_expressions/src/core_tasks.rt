//! What is done to the stacks of cores.
ghost use Rattle.std.specs.Prelude.{◌≡◌, OnOk};
ghost use Rattle.check_tasks.specs.Tasks.{core_step};
ghost use Rattle.check_tasks.specs.declared.task.CoreTask.TheVariants.{Binding, Operation, Negation, Conversion, Element, Update, Alternatives, OwnTuple, OwnVector};

use crate::elaboration::Elaboration;
use check_tasks::CoreTask;
use hume_model::Op;
use std::alloc::{AllocError, Global};

impl<'a> Elaboration<'a> {
    pub(crate) fn core_task(&mut self, alloc: Global, task: CoreTask) -> Result<(), AllocError>
        ensures { OnOk result (self.new ≡ core_step task self.old) }
    {
        match task {
            CoreTask::Binding => self.binding(alloc),
            CoreTask::Branches => self.builder.branches(alloc),
            CoreTask::Both => self.builder.both(alloc),
            CoreTask::Either => self.builder.either(alloc),
            CoreTask::Operation(operation) => self.operation(alloc, operation),
            CoreTask::Negation => self.negation(alloc),
            CoreTask::Opposite => self.builder.opposite(alloc),
            CoreTask::Conversion => self.conversion(alloc),
            CoreTask::Element => self.element(alloc),
            CoreTask::Update => self.update(alloc),
            CoreTask::RaiseWith(exn) => self.builder.raise_with(alloc, exn),
            CoreTask::Call(number, count) => self.builder.call(alloc, number, count),
            CoreTask::Constructor(place, count) => self.builder.constructor(alloc, place, count),
            CoreTask::Tuple(count) => self.builder.tuple(alloc, count),
            CoreTask::Vector(count) => self.builder.vector(alloc, count),
            CoreTask::OwnTuple(count) => self.own_tuple(alloc, count),
            CoreTask::OwnVector(count) => self.own_vector(alloc, count),
            CoreTask::Arm => self.builder.arm(),
            CoreTask::Alternatives(count) => self.alternatives(alloc, count),
            CoreTask::SameConstructor(place, count) => {
                self.builder.same_constructor(alloc, place, count)
            }
            CoreTask::SameTuple(count) => self.builder.same_tuple(alloc, count),
            CoreTask::Lift(others) => self.builder.lift(others),
            CoreTask::LiftArm(others) => self.builder.lift_arm(others),
        }
    }

    fn binding(&mut self, alloc: Global) -> Result<(), AllocError>
        ensures { OnOk result (self.new ≡ core_step Binding self.old) }
    {
        let of = self.environment.variable_tree(alloc)?;
        self.builder.binding(alloc, of)
    }

    fn operation(&mut self, alloc: Global, operation: Op) -> Result<(), AllocError>
        ensures { OnOk result (self.new ≡ core_step (Operation operation) self.old) }
    {
        let ty = self.environment.scalar()?;
        self.builder.operation(alloc, operation, ty)
    }

    fn negation(&mut self, alloc: Global) -> Result<(), AllocError>
        ensures { OnOk result (self.new ≡ core_step Negation self.old) }
    {
        let ty = self.environment.scalar()?;
        self.builder.negation(alloc, ty)
    }

    fn conversion(&mut self, alloc: Global) -> Result<(), AllocError>
        ensures { OnOk result (self.new ≡ core_step Conversion self.old) }
    {
        let from = self.environment.scalar()?;
        let to = self.environment.scalar_below()?;
        self.builder.conversion(alloc, from, to)
    }

    fn element(&mut self, alloc: Global) -> Result<(), AllocError>
        ensures { OnOk result (self.new ≡ core_step Element self.old) }
    {
        let of = self.environment.tree_below(alloc)?;
        let places = self.environment.scalar()?;
        self.builder.element(alloc, of, places)
    }

    fn update(&mut self, alloc: Global) -> Result<(), AllocError>
        ensures { OnOk result (self.new ≡ core_step Update self.old) }
    {
        let of = self.environment.tree(alloc)?;
        let places = self.environment.scalar_below()?;
        self.builder.update(alloc, of, places)
    }

    fn alternatives(&mut self, alloc: Global, count: usize) -> Result<(), AllocError>
        ensures { OnOk result (self.new ≡ core_step (Alternatives count) self.old) }
    {
        let of = self.environment.tree(alloc)?;
        self.builder.alternatives(alloc, of, count)
    }

    fn own_tuple(&mut self, alloc: Global, count: usize) -> Result<(), AllocError>
        ensures { OnOk result (self.new ≡ core_step (OwnTuple count) self.old) }
    {
        self.environment.tuple(count)?;
        self.builder.tuple(alloc, count)
    }

    fn own_vector(&mut self, alloc: Global, count: usize) -> Result<(), AllocError>
        ensures { OnOk result (self.new ≡ core_step (OwnVector count) self.old) }
    {
        let Ok(length) = u32::try_from(count) else {
            return Err(AllocError);
        };
        self.environment.vector(length)?;
        self.builder.vector(alloc, count)
    }
}
