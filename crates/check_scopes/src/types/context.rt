ghost use Rattle.std.specs.Prelude.{◌≡◌, ◌<◌, ℕ, List, [], ◌∷◌, ◌++◌, ◌↔◌, IsTrue, length, take, drop, reverse, slice_get, OnOk, OnErr, IfOk, IfSome};
ghost use Rattle.hume_base.specs.declared.types.Ty.{Ty as TyTree, Tuple as TupleTy, Vector as VectorTy, out-Ty};
ghost use Rattle.check_scopes.specs.types.Nodes.{type_at, ty_of, level_of, IsWithin};
ghost use Rattle.check_typing.specs.Signatures.{variable_named};
ghost use Rattle.check_scopes.specs.types.Contexts.{top, below, last_type, with_found, shape_of as shape_seen, part_at, item_of};

use crate::types::node::Node;
use crate::types::shape::{Shape, shape_of_node};
use crate::types::stack::NumberStack;
use crate::types::table::TypeTable;
use crate::types::trees::{number_of, scalar};
use crate::types::variables::Variables;
use hume_base::{Shared, Ty};
use std::alloc::{AllocError, Global};
use std::marker::Model;

/// The variables in scope with their types, outermost first; a stack of types, the last one first; and types that are
/// kept. Contracts see types; in it are numbers, so that no type is copied or compared part by part. What asks for a type
/// of an empty stack is answered with want of memory where it would have to change the stack.
#[derive(Drop)]
pub struct Context<'a> {
    types: TypeTable,
    vars: Variables<'a>,
    held: NumberStack,
    kept: Vec<u32>,
}

impl<'a> Model for Context<'a> {
    ghost use Rattle.std.specs.Prelude.{List, ℕ, map, length};
    ghost use Rattle.std.specs.Coded.{coded_list, codes};
    ghost use Rattle.hume_base.specs.declared.types.Ty.{Ty};
    ghost use Rattle.hume_base.specs.contracts.types.Ty as ty;
    ghost use Rattle.check_scopes.specs.types.Nodes.{all_below, type_at};

    ghost Value = { List (List ℕ × Ty) × List Ty × List Ty };

    ghost coded = { Prim.hlevel (codes, ty.the_row.coded) };

    ghost view = { λ c. (map (λ v. (v.0, type_at c.types v.1)) c.vars, map (type_at c.types) c.held, map (type_at c.types) c.kept.items) };

    ghost invariant = { λ c. all_below (length c.types) (map (λ v. v.1) c.vars) × all_below (length c.types) c.held × all_below (length c.types) c.kept.items };
}

impl<'a> Context<'a> {
    pub fn new(alloc: Global) -> Context<'a>
        ensures { result ≡ ([], [], []) }
    {
        Context {
            types: TypeTable::new(alloc),
            vars: Variables::new(alloc),
            held: NumberStack::new(alloc),
            kept: Vec::new(alloc),
        }
    }

    /// How many variables are in scope.
    pub fn variables(&self) -> usize
        ensures { result ≡ length self.now.0 }
    {
        self.vars.len()
    }

    /// Puts a type without parts on the stack.
    pub fn push(&mut self, node: Node) -> Result<(), AllocError>
        requires { IsWithin 0 node }
        ensures ok { OnOk result (self.new ≡ (self.old.0, ty_of [] node ∷ self.old.1, self.old.2)) }
        ensures kept { self.new.2 ≡ self.old.2 }
    {
        let number = self.types.number(node)?;
        self.held.push(number)
    }

    /// Takes the last type off the stack.
    pub fn pop(&mut self)
        ensures { self.new ≡ (self.old.0, below self.old.1, self.old.2) }
    {
        let _number = self.held.pop();
    }

    /// Takes the last but one type off the stack.
    pub fn pop_below(&mut self) -> Result<(), AllocError>
        ensures ok { OnOk result (self.new ≡ (self.old.0, top self.old.1 ∷ below (below self.old.1), self.old.2)) }
        ensures kept { self.new.2 ≡ self.old.2 }
    {
        let Some(last) = self.held.pop() else {
            return Err(AllocError);
        };
        let _number = self.held.pop();
        self.held.push(last)
    }

    /// Puts the last type of the stack on it once more.
    pub fn repeat(&mut self) -> Result<(), AllocError>
        ensures ok { OnOk result (self.new ≡ (self.old.0, top self.old.1 ∷ self.old.1, self.old.2)) }
        ensures kept { self.new.2 ≡ self.old.2 }
    {
        let Some(number) = self.held.last() else {
            return Err(AllocError);
        };
        self.held.push(number)
    }

    /// Puts the last but one type of the stack on it once more.
    pub fn repeat_below(&mut self) -> Result<(), AllocError>
        ensures ok { OnOk result (self.new ≡ (self.old.0, top (below self.old.1) ∷ self.old.1, self.old.2)) }
        ensures kept { self.new.2 ≡ self.old.2 }
    {
        let Some(number) = self.held.before_last() else {
            return Err(AllocError);
        };
        self.held.push(number)
    }

    /// What is seen of the last type of the stack.
    pub fn shape(&self) -> Result<Shape, AllocError>
        ensures { IfOk result (λ shape. shape ≡ shape_seen (out-Ty (top self.now.1))) }
    {
        let Some(number) = self.held.last() else {
            return Err(AllocError);
        };
        let shape = shape_of_node(self.types.node(number));
        Ok(shape)
    }

    /// Whether the last two types of the stack are one.
    pub fn are_same(&self) -> Result<bool, AllocError>
        ensures { IfOk result (λ same. IsTrue same ↔ (top self.now.1 ≡ top (below self.now.1))) }
    {
        let Some(last) = self.held.last() else {
            return Err(AllocError);
        };
        let Some(before) = self.held.before_last() else {
            return Err(AllocError);
        };
        Ok(self.types.is_same(last, before))
    }

    /// The last type of the stack, one of numbers, `char` or `bool`, as a tree. Any other is answered with want of memory.
    pub fn scalar(&self) -> Result<Ty, AllocError>
        ensures { IfOk result (λ ty. ty ≡ top self.now.1) }
    {
        let Some(number) = self.held.last() else {
            return Err(AllocError);
        };
        scalar(&self.types, number)
    }

    /// The last but one type of the stack, one of numbers, `char` or `bool`, as a tree. Any other is answered with want of memory.
    pub fn scalar_below(&self) -> Result<Ty, AllocError>
        ensures { IfOk result (λ ty. ty ≡ top (below self.now.1)) }
    {
        let Some(number) = self.held.before_last() else {
            return Err(AllocError);
        };
        scalar(&self.types, number)
    }

    /// The last type of the stack as a tree, which shares its parts.
    pub fn tree(&mut self, alloc: Global) -> Result<Shared<Ty>, AllocError>
        ensures is { IfOk result (λ tree. tree ≡ top self.old.1) }
        ensures keeps { self.new ≡ self.old }
    {
        let Some(number) = self.held.last() else {
            return Err(AllocError);
        };
        self.types.tree(alloc, number)
    }

    /// The last but one type of the stack as a tree, which shares its parts.
    pub fn tree_below(&mut self, alloc: Global) -> Result<Shared<Ty>, AllocError>
        ensures is { IfOk result (λ tree. tree ≡ top (below self.old.1)) }
        ensures keeps { self.new ≡ self.old }
    {
        let Some(number) = self.held.before_last() else {
            return Err(AllocError);
        };
        self.types.tree(alloc, number)
    }

    /// The type of the last variable as a tree, which shares its parts.
    pub fn variable_tree(&mut self, alloc: Global) -> Result<Shared<Ty>, AllocError>
        ensures is { IfOk result (λ tree. tree ≡ last_type self.old.0) }
        ensures keeps { self.new ≡ self.old }
    {
        let Some(number) = self.vars.last() else {
            return Err(AllocError);
        };
        self.types.tree(alloc, number)
    }

    /// Puts a part of the last type of the stack, a tuple, on the stack.
    pub fn push_part(&mut self, at: usize) -> Result<(), AllocError>
        ensures ok { OnOk result (self.new ≡ (self.old.0, part_at at (out-Ty (top self.old.1)) ∷ self.old.1, self.old.2)) }
        ensures kept { self.new.2 ≡ self.old.2 }
    {
        let Some(number) = self.held.last() else {
            return Err(AllocError);
        };
        match part_of_node(self.types.node(number), at) {
            None => Err(AllocError),
            Some(part) => self.held.push(part),
        }
    }

    /// Puts the type of the elements of the last type of the stack, a vector, on the stack.
    pub fn push_item(&mut self) -> Result<(), AllocError>
        ensures ok { OnOk result (self.new ≡ (self.old.0, item_of (out-Ty (top self.old.1)) ∷ self.old.1, self.old.2)) }
        ensures kept { self.new.2 ≡ self.old.2 }
    {
        let Some(number) = self.held.last() else {
            return Err(AllocError);
        };
        match item_of_node(self.types.node(number)) {
            None => Err(AllocError),
            Some(item) => self.held.push(item),
        }
    }

    /// Makes one tuple of the last types of the stack.
    pub fn tuple(&mut self, count: usize) -> Result<(), AllocError>
        ensures ok { OnOk result (self.new ≡ (self.old.0, TupleTy (reverse (take count self.old.1)) ∷ drop count self.old.1, self.old.2)) }
        ensures kept { self.new.2 ≡ self.old.2 }
    {
        let parts = self.held.take_last(count)?;
        let number = self.types.number(Node::Tuple(parts))?;
        self.held.push(number)
    }

    /// Makes a vector of so many of the last type of the stack.
    pub fn vector(&mut self, count: u32) -> Result<(), AllocError>
        ensures ok { OnOk result (self.new ≡ (self.old.0, VectorTy count (top self.old.1) ∷ below self.old.1, self.old.2)) }
        ensures kept { self.new.2 ≡ self.old.2 }
    {
        let Some(item) = self.held.pop() else {
            return Err(AllocError);
        };
        let number = self.types.number(Node::Vector(count, item))?;
        self.held.push(number)
    }

    /// Puts a type that is a tree on the stack.
    pub fn push_tree(&mut self, alloc: Global, ty: &Ty) -> Result<(), AllocError>
        ensures ok { OnOk result (self.new ≡ (self.old.0, ty.now ∷ self.old.1, self.old.2)) }
        ensures kept { self.new.2 ≡ self.old.2 }
    {
        let number = number_of(alloc, &mut self.types, ty)?;
        self.held.push(number)
    }

    /// Moves the last type of the stack behind those that are kept.
    pub fn keep(&mut self) -> Result<(), AllocError>
        ensures { OnOk result (self.new ≡ (self.old.0, below self.old.1, self.old.2 ++ top self.old.1 ∷ [])) }
    {
        match self.held.pop() {
            None => Err(AllocError),
            Some(number) => {
                self.kept.push(number)?;
                Ok(())
            }
        }
    }

    /// Puts a type that is kept on the stack.
    pub fn push_kept(&mut self, at: usize) -> Result<(), AllocError>
        ensures ok { OnOk result (self.new ≡ (self.old.0, type_at self.old.2 at ∷ self.old.1, self.old.2)) }
        ensures kept { self.new.2 ≡ self.old.2 }
    {
        if at >= self.kept.len() {
            return Err(AllocError);
        }
        let number = self.kept[at];
        self.held.push(number)
    }

    /// Moves the last type of the stack to a new variable.
    pub fn enter(&mut self, name: &'a [u8]) -> Result<(), AllocError>
        ensures ok { OnOk result (self.new ≡ (self.old.0 ++ (name.now, top self.old.1) ∷ [], below self.old.1, self.old.2)) }
        ensures kept { self.new.2 ≡ self.old.2 }
    {
        match self.held.pop() {
            None => Err(AllocError),
            Some(number) => {
                self.vars.enter(name, number)?;
                Ok(())
            }
        }
    }

    /// Leaves all but the first variables.
    pub fn leave(&mut self, count: usize)
        ensures { self.new ≡ (take count self.old.0, self.old.1, self.old.2) }
    {
        self.vars.leave(count);
    }

    /// The place of the last variable of a name. Its type goes on the stack.
    pub fn find(&mut self, name: &[u8]) -> Result<Option<u32>, AllocError>
        ensures ok { IfOk result (λ place. (place, self.new) ≡ with_found (variable_named name.now self.old.0) self.old) }
        ensures kept { self.new.2 ≡ self.old.2 }
    {
        match self.vars.find(name) {
            None => Ok(None),
            Some((place, number)) => {
                self.held.push(number)?;
                Ok(Some(place))
            }
        }
    }
}

fn part_of_node(node: &Node, at: usize) -> Option<u32>
    ensures is { IfSome result (λ part. (tys : List TyTree) → part_at at (level_of tys node.now) ≡ type_at tys part) }
    ensures within { IfSome result (λ part. (bound : ℕ) → IsWithin bound node.now → part < bound) }
{
    match node {
        Node::Tuple(parts) => match parts.as_slice().get(at) {
            None => None,
            Some(part) => Some(*part),
        },
        _ => None,
    }
}

fn item_of_node(node: &Node) -> Option<u32>
    ensures is { IfSome result (λ item. (tys : List TyTree) → item_of (level_of tys node.now) ≡ type_at tys item) }
    ensures within { IfSome result (λ item. (bound : ℕ) → IsWithin bound node.now → item < bound) }
{
    match node {
        Node::Vector(_, item) => Some(*item),
        _ => None,
    }
}
