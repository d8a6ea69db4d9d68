//! Types as they are written.
ghost use Rattle.std.specs.Prelude.{◌≡◌, [], Some, None, true, false, MatchOption, IfOk, OnOk};
ghost use Rattle.hume_ast.specs.declared.tree.TyExp.{Int as IntType, Nat as NatType, Named as NamedType};
ghost use Rattle.check_scopes.specs.types.Nodes.{ty_of, IsWithin};
ghost use Rattle.check_typing.specs.WrittenTypes.{is_width, is_length};
ghost use Rattle.check_scopes.specs.Known.{with_type};
ghost use Rattle.check_scopes.specs.Written.{with_written, with_written_tuple};
ghost use Rattle.check_scopes.specs.inner.OneByOne.{with_each_written};

use crate::environment::Environment;
use crate::types::Node;
use hume_ast::TyExp;
use hume_base::Text;
use hume_base::limits::{MAX_LENGTH, MAX_WIDTH};
use std::alloc::AllocError;

impl<'a> Environment<'a> {
    /// Puts the type that is written on the stack, and says whether it is one.
    #[cycle(push_written)]
    #[tactic(auto, using(crate::proofs::PushedTypes::written_steps))]
    pub fn push_written(&mut self, ty: &TyExp) -> Result<bool, AllocError>
        ensures pushed { IfOk result (λ is_type. is_type ≡ true → with_written ty.now self.old ≡ Some self.new) }
        ensures none { IfOk result (λ is_type. is_type ≡ false → with_written ty.now self.old ≡ None) }
    {
        match ty {
            TyExp::Bool => self.push_leaf(Node::Bool),
            TyExp::Char => self.push_leaf(Node::Char),
            TyExp::Int(bits) => self.push_int(*bits),
            TyExp::Nat(bits) => self.push_nat(*bits),
            TyExp::Vector(count, item) => {
                let Some(count) = length(*count) else {
                    return Ok(false);
                };
                if !self.push_written(item)? {
                    return Ok(false);
                }
                self.vector(count)?;
                Ok(true)
            }
            TyExp::Named(name) => self.push_data_type(name),
            TyExp::Tuple(parts) => self.push_written_tuple(parts.as_slice()),
        }
    }

    /// Puts the types that are written on the stack as one tuple, and says whether each is one.
    #[cycle(push_written)]
    #[tactic(auto, using(crate::proofs::PushedTypes::tuple_steps))]
    pub fn push_written_tuple(&mut self, types: &[TyExp]) -> Result<bool, AllocError>
        ensures pushed { IfOk result (λ are_types. are_types ≡ true → with_written_tuple types.now self.old ≡ Some self.new) }
        ensures none { IfOk result (λ are_types. are_types ≡ false → with_written_tuple types.now self.old ≡ None) }
    {
        if !self.push_each_written(types)? {
            return Ok(false);
        }
        self.tuple(types.len())?;
        Ok(true)
    }

    #[cycle(push_written)]
    #[tactic(auto, using(crate::proofs::PushedTypes::each_steps))]
    fn push_each_written(&mut self, types: &[TyExp]) -> Result<bool, AllocError>
        ensures pushed { IfOk result (λ are_types. are_types ≡ true → with_each_written types.now self.old ≡ Some self.new) }
        ensures none { IfOk result (λ are_types. are_types ≡ false → with_each_written types.now self.old ≡ None) }
    {
        for ty in types {
            if !self.push_written(ty)? {
                return Ok(false);
            }
        }
        Ok(true)
    }

    #[tactic(auto, using(crate::proofs::PushedTypes::written_steps))]
    fn push_int(&mut self, bits: u64) -> Result<bool, AllocError>
        ensures pushed { IfOk result (λ is_type. is_type ≡ true → with_written (IntType bits) self.old ≡ Some self.new) }
        ensures none { IfOk result (λ is_type. is_type ≡ false → with_written (IntType bits) self.old ≡ None) }
    {
        match width(bits) {
            None => Ok(false),
            Some(width) => self.push_leaf(Node::Int(width)),
        }
    }

    #[tactic(auto, using(crate::proofs::PushedTypes::written_steps))]
    fn push_nat(&mut self, bits: u64) -> Result<bool, AllocError>
        ensures pushed { IfOk result (λ is_type. is_type ≡ true → with_written (NatType bits) self.old ≡ Some self.new) }
        ensures none { IfOk result (λ is_type. is_type ≡ false → with_written (NatType bits) self.old ≡ None) }
    {
        match width(bits) {
            None => Ok(false),
            Some(width) => self.push_leaf(Node::Nat(width)),
        }
    }

    #[tactic(auto, using(crate::proofs::PushedTypes::written_steps))]
    fn push_data_type(&mut self, name: &Text) -> Result<bool, AllocError>
        ensures pushed { IfOk result (λ is_type. is_type ≡ true → with_written (NamedType name.now) self.old ≡ Some self.new) }
        ensures none { IfOk result (λ is_type. is_type ≡ false → with_written (NamedType name.now) self.old ≡ None) }
    {
        match self.names.data_type(name.bytes()) {
            None => Ok(false),
            Some(number) => self.push_leaf(Node::Named(number)),
        }
    }

    fn push_leaf(&mut self, node: Node) -> Result<bool, AllocError>
        requires { IsWithin 0 node }
        ensures is { IfOk result (λ is_type. is_type ≡ true) }
        ensures pushed { OnOk result (self.new ≡ with_type (ty_of [] node) self.old) }
    {
        self.push(node)?;
        Ok(true)
    }
}

// The number of bits, if a number may have as many.
fn width(bits: u64) -> Option<u8>
    ensures { MatchOption result (is_width bits ≡ false) (λ same. (same ≡ bits) × (is_width bits ≡ true)) }
{
    if bits < 1 || bits > MAX_WIDTH as u64 {
        return None;
    }
    Some(bits as u8)
}

// The number of elements, if a vector may have as many.
fn length(count: u64) -> Option<u32>
    ensures { MatchOption result (is_length count ≡ false) (λ same. (same ≡ count) × (is_length count ≡ true)) }
{
    if count < 1 || count > MAX_LENGTH as u64 {
        return None;
    }
    Some(count as u32)
}
