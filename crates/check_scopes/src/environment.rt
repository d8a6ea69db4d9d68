ghost use Rattle.std.specs.Prelude.{◌≡◌, ◌↔◌, ◌∷◌, ◌++◌, [], IsTrue, length, take, drop, reverse, OnOk, IfOk};
ghost use Rattle.hume_base.specs.declared.types.Ty.{Tuple as TupleTy, Vector as VectorTy, out-Ty};
ghost use Rattle.check_scopes.specs.types.Nodes.{ty_of, IsWithin};
ghost use Rattle.check_scopes.specs.types.Contexts.{top, below, last_type, shape_of as shape_seen, part_at, item_of};
ghost use Rattle.check_typing.specs.Signatures.{variable_named};
ghost use Rattle.check_scopes.specs.Known.{with_type, with_variable};

use crate::signatures::SignatureTable;
use crate::signed::signed_context;
use crate::types::{Context, Node, Shape};
use check_typing::Signatures;
use hume_base::{Shared, Ty};
use std::alloc::{AllocError, Global};
use std::marker::Model;

/// What is known where an expression stands: the variables with their types, outermost first; a stack of types, the last one
/// first; and the signatures. What asks for a type of an empty stack is answered with want of memory.
#[derive(Drop)]
pub struct Environment<'a> {
    pub(crate) names: SignatureTable<'a>,
    pub(crate) context: Context<'a>,
}

impl<'a> Model for Environment<'a> {
    ghost use Rattle.std.specs.Prelude.{◌≡◌, List, ℕ};
    ghost use Rattle.std.specs.Coded.{codes};
    ghost use Rattle.hume_base.specs.declared.types.Ty.{Ty};
    ghost use Rattle.hume_base.specs.contracts.types.Ty as ty;
    ghost use Rattle.check_typing.specs.declared.signatures.Signatures.{Signatures};
    ghost use Rattle.check_typing.specs.contracts.signatures.Signatures as sigs;
    ghost use Rattle.check_scopes.specs.inner.Kept.{kept_types};

    ghost Value = { List (List ℕ × Ty) × List Ty × Signatures };

    ghost coded = { Prim.hlevel (codes, ty.the_row.coded, sigs.the_row.coded) };

    ghost view = { λ e. (e.context.0, e.context.1, e.names) };

    ghost invariant = { λ e. e.context.2 ≡ kept_types e.names };
}

impl<'a> Environment<'a> {
    pub fn new(alloc: Global, signatures: &'a Signatures) -> Result<Environment<'a>, AllocError>
        ensures { IfOk result (λ e. e ≡ ([], [], signatures.now)) }
    {
        let context = signed_context(alloc, signatures)?;
        let names = SignatureTable::make(alloc, signatures)?;
        Ok(Environment { names, context })
    }

    /// How many variables are in scope.
    pub fn variables(&self) -> usize
        ensures { result ≡ length self.now.0 }
    {
        self.context.variables()
    }

    /// Puts a type without parts on the stack.
    pub fn push(&mut self, node: Node) -> Result<(), AllocError>
        requires { IsWithin 0 node }
        ensures { OnOk result (self.new ≡ with_type (ty_of [] node) self.old) }
    {
        self.context.push(node)
    }

    /// Puts a type that is a tree on the stack. It takes time for each of its nodes.
    pub fn push_tree(&mut self, alloc: Global, ty: &Ty) -> Result<(), AllocError>
        ensures { OnOk result (self.new ≡ with_type ty.now self.old) }
    {
        self.context.push_tree(alloc, ty)
    }

    /// Takes the last type off the stack.
    pub fn pop(&mut self)
        ensures { self.new ≡ (self.old.0, below self.old.1, self.old.2) }
    {
        self.context.pop();
    }

    /// Takes the last but one type off the stack.
    pub fn pop_below(&mut self) -> Result<(), AllocError>
        ensures { OnOk result (self.new ≡ (self.old.0, top self.old.1 ∷ below (below self.old.1), self.old.2)) }
    {
        self.context.pop_below()
    }

    /// Puts the last type of the stack on it once more.
    pub fn repeat(&mut self) -> Result<(), AllocError>
        ensures { OnOk result (self.new ≡ with_type (top self.old.1) self.old) }
    {
        self.context.repeat()
    }

    /// Puts the last but one type of the stack on it once more.
    pub fn repeat_below(&mut self) -> Result<(), AllocError>
        ensures { OnOk result (self.new ≡ with_type (top (below self.old.1)) self.old) }
    {
        self.context.repeat_below()
    }

    /// What is seen of the last type of the stack.
    pub fn shape(&self) -> Result<Shape, AllocError>
        ensures { IfOk result (λ shape. shape ≡ shape_seen (out-Ty (top self.now.1))) }
    {
        self.context.shape()
    }

    /// Whether the last two types of the stack are one.
    pub fn are_same(&self) -> Result<bool, AllocError>
        ensures { IfOk result (λ same. IsTrue same ↔ (top self.now.1 ≡ top (below self.now.1))) }
    {
        self.context.are_same()
    }

    /// The last type of the stack, one of numbers, `char` or `bool`, as a tree. Any other is answered with want of memory.
    pub fn scalar(&self) -> Result<Ty, AllocError>
        ensures { IfOk result (λ ty. ty ≡ top self.now.1) }
    {
        self.context.scalar()
    }

    /// The last but one type of the stack, one of numbers, `char` or `bool`, as a tree. Any other is answered with want of memory.
    pub fn scalar_below(&self) -> Result<Ty, AllocError>
        ensures { IfOk result (λ ty. ty ≡ top (below self.now.1)) }
    {
        self.context.scalar_below()
    }

    /// The last type of the stack as a tree, which shares its parts.
    pub fn tree(&mut self, alloc: Global) -> Result<Shared<Ty>, AllocError>
        ensures is { IfOk result (λ tree. tree ≡ top self.old.1) }
        ensures keeps { OnOk result (self.new ≡ self.old) }
    {
        self.context.tree(alloc)
    }

    /// The last but one type of the stack as a tree, which shares its parts.
    pub fn tree_below(&mut self, alloc: Global) -> Result<Shared<Ty>, AllocError>
        ensures is { IfOk result (λ tree. tree ≡ top (below self.old.1)) }
        ensures keeps { OnOk result (self.new ≡ self.old) }
    {
        self.context.tree_below(alloc)
    }

    /// The type of the last variable as a tree, which shares its parts.
    pub fn variable_tree(&mut self, alloc: Global) -> Result<Shared<Ty>, AllocError>
        ensures is { IfOk result (λ tree. tree ≡ last_type self.old.0) }
        ensures keeps { OnOk result (self.new ≡ self.old) }
    {
        self.context.variable_tree(alloc)
    }

    /// Puts a part of the last type of the stack, a tuple, on the stack.
    pub fn push_part(&mut self, at: usize) -> Result<(), AllocError>
        ensures { OnOk result (self.new ≡ with_type (part_at at (out-Ty (top self.old.1))) self.old) }
    {
        self.context.push_part(at)
    }

    /// Puts the type of the elements of the last type of the stack, a vector, on the stack.
    pub fn push_item(&mut self) -> Result<(), AllocError>
        ensures { OnOk result (self.new ≡ with_type (item_of (out-Ty (top self.old.1))) self.old) }
    {
        self.context.push_item()
    }

    /// Makes one tuple of the last types of the stack.
    pub fn tuple(&mut self, count: usize) -> Result<(), AllocError>
        ensures { OnOk result (self.new ≡ (self.old.0, TupleTy (reverse (take count self.old.1)) ∷ drop count self.old.1, self.old.2)) }
    {
        self.context.tuple(count)
    }

    /// Makes a vector of so many of the last type of the stack.
    pub fn vector(&mut self, count: u32) -> Result<(), AllocError>
        ensures { OnOk result (self.new ≡ (self.old.0, VectorTy count (top self.old.1) ∷ below self.old.1, self.old.2)) }
    {
        self.context.vector(count)
    }

    /// Moves the last type of the stack to a new variable.
    pub fn enter(&mut self, name: &'a [u8]) -> Result<(), AllocError>
        ensures { OnOk result (self.new ≡ (self.old.0 ++ (name.now, top self.old.1) ∷ [], below self.old.1, self.old.2)) }
    {
        self.context.enter(name)
    }

    /// Leaves all but the first variables.
    pub fn leave(&mut self, count: usize)
        ensures { self.new ≡ (take count self.old.0, self.old.1, self.old.2) }
    {
        self.context.leave(count);
    }

    /// The number of the last variable of a name. Its type goes on the stack.
    pub fn find(&mut self, name: &[u8]) -> Result<Option<u32>, AllocError>
        ensures { IfOk result (λ number. (number, self.new) ≡ with_variable (variable_named name.now self.old.0) self.old) }
    {
        self.context.find(name)
    }
}
