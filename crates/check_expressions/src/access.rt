//! What an elaboration gives to those who make larger things of its cores.
ghost use Rattle.std.specs.Prelude.{◌≡◌, length, drop, OnOk, IfOk};
ghost use Rattle.hume_base.specs.declared.types.Ty.{out-Ty};
ghost use Rattle.check_scopes.specs.types.Contexts.{top, last_type, shape_of as shape_seen};
ghost use Rattle.check_typing.specs.Signatures.{exn_named};
ghost use Rattle.check_scopes.specs.Known.{with_exception};
ghost use Rattle.check_cores.specs.Stacks.{top_core, top_pattern};
ghost use Rattle.check_tasks.specs.States.{scope_in, types_in, signatures_in};

use crate::elaboration::Elaboration;
use check_scopes::types::Shape;
use hume_base::{Box, Shared, Ty};
use hume_model::PatC;
use std::alloc::{AllocError, Global};
use typed_core::TypedExpr;

impl<'a> Elaboration<'a> {
    /// How many variables are in scope.
    pub fn variables(&self) -> usize
        ensures { result ≡ length (scope_in self.now) }
    {
        self.environment.variables()
    }

    /// What is seen of the last type.
    pub fn shape(&self) -> Result<Shape, AllocError>
        ensures { IfOk result (λ shape. shape ≡ shape_seen (out-Ty (top (types_in self.now)))) }
    {
        self.environment.shape()
    }

    /// The last type as a tree.
    pub fn tree(&mut self, alloc: Global) -> Result<Shared<Ty>, AllocError>
        ensures is { IfOk result (λ tree. tree ≡ top (types_in self.old)) }
        ensures keeps { OnOk result (self.new ≡ self.old) }
    {
        self.environment.tree(alloc)
    }

    /// The type of the last variable as a tree.
    pub fn variable_tree(&mut self, alloc: Global) -> Result<Shared<Ty>, AllocError>
        ensures is { IfOk result (λ tree. tree ≡ last_type (scope_in self.old)) }
        ensures keeps { OnOk result (self.new ≡ self.old) }
    {
        self.environment.variable_tree(alloc)
    }

    /// The number of the exception of a name, and whether it carries something. The type of what it carries goes on the stack.
    pub fn push_exception(&mut self, name: &[u8]) -> Result<Option<(u32, bool)>, AllocError>
        ensures found { IfOk result (λ exn. (exn, self.new.0) ≡ with_exception (exn_named name.now (signatures_in self.old)) self.old.0) }
        ensures keeps { OnOk result (self.new ≡ (self.new.0, self.old.1, self.old.2, self.old.3)) }
    {
        self.environment.push_exception(name)
    }

    /// Takes the last core out.
    pub fn take_core(&mut self) -> Result<(Box<TypedExpr>, bool), AllocError>
        ensures taken { IfOk result (λ core. core ≡ top_core self.old.1) }
        ensures left { OnOk result (self.new ≡ (self.old.0, drop 1 self.old.1, self.old.2, self.old.3)) }
    {
        self.builder.take_core()
    }

    /// Takes the last pattern out.
    pub fn take_pattern(&mut self) -> Result<(PatC, bool), AllocError>
        ensures taken { IfOk result (λ pattern. pattern ≡ top_pattern self.old.2) }
        ensures left { OnOk result (self.new ≡ (self.old.0, self.old.1, drop 1 self.old.2, self.old.3)) }
    {
        self.builder.take_pattern()
    }
}
