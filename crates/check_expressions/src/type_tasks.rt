//! What is done to the stack of types.
ghost use Rattle.std.specs.Prelude.{◌≡◌, Some, None, true, false, OnOk, IfOk, IfErr};
ghost use Rattle.hume_base.specs.declared.types.Ty.{out-Ty};
ghost use Rattle.hume_model.specs.Typing.{is_number_type, is_comparison};
ghost use Rattle.check_scopes.specs.types.Contexts.{top, below, item_of};
ghost use Rattle.check_typing.specs.inner.SameTypes.{is_same};
ghost use Rattle.check_typing.specs.inner.Walk.{vector_parts, tuple_parts};
ghost use Rattle.check_tasks.specs.States.{types_in};
ghost use Rattle.check_tasks.specs.Tasks.{type_step};
ghost use Rattle.check_expressions.specs.inner.Shapes.{HasParts};
ghost use Rattle.check_expressions.specs.declared.stop.Stop.TheVariants.{NoType};

use crate::elaboration::Elaboration;
use crate::literals::{compares, is_number_shape};
use crate::stop::Stop;
use check_scopes::types::{Node, Shape};
use check_tasks::TypeTask;
use hume_model::Op;
use std::alloc::AllocError;

impl<'a> Elaboration<'a> {
    #[tactic(auto, using(crate::proofs::Steps::type_steps))]
    pub(crate) fn type_task(&mut self, task: TypeTask) -> Result<(), Stop>
        ensures ok { OnOk result (type_step task self.old ≡ Some self.new) }
        ensures none { IfErr result (λ stop. stop ≡ NoType → type_step task self.old ≡ None) }
    {
        match task {
            TypeTask::IsNumber => self.expect_number(),
            TypeTask::IsCompared(operation) => self.expect_comparison(operation),
            TypeTask::IsSame => {
                self.expect_same()?;
                self.environment.pop();
                Ok(())
            }
            _ => {
                self.change_types(task)?;
                Ok(())
            }
        }
    }

    // What pushes or pops. A task that asks something of the types is answered with want of memory.
    #[tactic(auto, using(crate::proofs::Steps::type_steps))]
    fn change_types(&mut self, task: TypeTask) -> Result<(), AllocError>
        ensures { OnOk result (type_step task self.old ≡ Some self.new) }
    {
        match task {
            TypeTask::PushBool => self.environment.push(Node::Bool),
            TypeTask::PushInt32 => self.environment.push(Node::Int(32)),
            TypeTask::PushNamed(number) => self.environment.push(Node::Named(number)),
            TypeTask::PushPart(at) => self.environment.push_part(at),
            TypeTask::PushItem => self.environment.push_item(),
            TypeTask::RepeatBelow => self.environment.repeat_below(),
            TypeTask::Pop => {
                self.environment.pop();
                Ok(())
            }
            TypeTask::PopBelow => self.environment.pop_below(),
            _ => Err(AllocError),
        }
    }

    // The last type must be one of numbers.
    #[tactic(auto, using(crate::proofs::Steps::shape_steps))]
    fn expect_number(&self) -> Result<(), Stop>
        ensures ok { OnOk result (is_number_type (top (types_in self.now)) ≡ true) }
        ensures none { IfErr result (λ stop. stop ≡ NoType → is_number_type (top (types_in self.now)) ≡ false) }
    {
        let shape = self.environment.shape()?;
        if is_number_shape(shape) {
            Ok(())
        } else {
            Err(Stop::NoType)
        }
    }

    // The operation must compare operands of the last type.
    #[tactic(auto, using(crate::proofs::Steps::shape_steps))]
    fn expect_comparison(&self, operation: Op) -> Result<(), Stop>
        ensures ok { OnOk result (is_comparison operation (top (types_in self.now)) ≡ true) }
        ensures none { IfErr result (λ stop. stop ≡ NoType → is_comparison operation (top (types_in self.now)) ≡ false) }
    {
        let shape = self.environment.shape()?;
        if compares(operation, shape) {
            Ok(())
        } else {
            Err(Stop::NoType)
        }
    }

    // The last two types must be the same.
    #[tactic(auto, using(crate::proofs::Steps::same_steps))]
    fn expect_same(&self) -> Result<(), Stop>
        ensures ok { OnOk result (is_same (top (types_in self.now)) (top (below (types_in self.now))) ≡ true) }
        ensures none { IfErr result (λ stop. stop ≡ NoType → is_same (top (types_in self.now)) (top (below (types_in self.now))) ≡ false) }
    {
        if self.environment.are_same()? {
            Ok(())
        } else {
            Err(Stop::NoType)
        }
    }

    /// The length of the last type, which must be a vector.
    #[tactic(auto, using(crate::proofs::Steps::shape_steps))]
    pub(crate) fn expect_vector(&self) -> Result<u32, Stop>
        ensures ok { IfOk result (λ count. vector_parts (top (types_in self.now)) ≡ Some (count, item_of (out-Ty (top (types_in self.now))))) }
        ensures none { IfErr result (λ stop. stop ≡ NoType → vector_parts (top (types_in self.now)) ≡ None) }
    {
        match self.environment.shape()? {
            Shape::Vector(count) => Ok(count),
            _ => Err(Stop::NoType),
        }
    }

    /// The number of parts of the last type, which must be a tuple.
    #[tactic(auto, using(crate::proofs::Steps::shape_steps))]
    pub(crate) fn expect_tuple(&self) -> Result<usize, Stop>
        ensures ok { IfOk result (λ count. HasParts count (top (types_in self.now))) }
        ensures none { IfErr result (λ stop. stop ≡ NoType → tuple_parts (top (types_in self.now)) ≡ None) }
    {
        match self.environment.shape()? {
            Shape::Tuple(count) => Ok(count),
            _ => Err(Stop::NoType),
        }
    }
}
