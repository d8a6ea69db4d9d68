ghost use Rattle.std.specs.Prelude.{◌≡◌, ◌<◌, length, map, IfOk};
ghost use Rattle.check_scopes.specs.types.Nodes.{type_at, all_below, Grows};

use crate::types::node::Node;
use crate::types::table::TypeTable;
use hume_base::{Shared, Ty};
use std::alloc::{AllocError, Global};

/// The type of a number as a tree, if it is one of numbers, `char` or `bool`. Any other is answered with want of memory.
#[tactic(auto, using(crate::proofs::types_lemmas::TreeSteps::tree_steps))]
pub(crate) fn scalar(types: &TypeTable, number: u32) -> Result<Ty, AllocError>
    ensures { IfOk result (λ ty. ty ≡ type_at types.now number) }
{
    let Some(node) = types.get(number) else {
        return Err(AllocError);
    };
    match node {
        Node::Bool => Ok(Ty::Bool),
        Node::Char => Ok(Ty::Char),
        Node::Int(bits) => Ok(Ty::Int(*bits)),
        Node::Nat(bits) => Ok(Ty::Nat(*bits)),
        _ => Err(AllocError),
    }
}

/// The number of a type that is a tree.
#[cycle(number_of)]
pub(crate) fn number_of(alloc: Global, types: &mut TypeTable, ty: &Ty) -> Result<u32, AllocError>
    ensures grows { Grows types.old types.new }
    ensures within { IfOk result (λ n. n < length types.new) }
    ensures is { IfOk result (λ n. type_at types.new n ≡ ty.now) }
{
    match ty {
        Ty::Bool => types.number(Node::Bool),
        Ty::Char => types.number(Node::Char),
        Ty::Int(bits) => types.number(Node::Int(*bits)),
        Ty::Nat(bits) => types.number(Node::Nat(*bits)),
        Ty::Tuple(parts) => {
            let numbers = numbers_of(alloc, types, parts.as_slice())?;
            types.number(Node::Tuple(numbers))
        }
        Ty::Vector(count, item) => {
            let number = number_of(alloc, types, item)?;
            types.number(Node::Vector(*count, number))
        }
        Ty::Named(number) => types.number(Node::Named(*number)),
    }
}

#[cycle(number_of)]
fn numbers_of(
    alloc: Global,
    types: &mut TypeTable,
    tys: &[Shared<Ty>],
) -> Result<Vec<u32>, AllocError>
    ensures grows { Grows types.old types.new }
    ensures within { IfOk result (λ numbers. all_below (length types.new) numbers.items) }
    ensures is { IfOk result (λ numbers. map (type_at types.new) numbers.items ≡ tys.now) }
{
    let mut numbers = Vec::new(alloc);
    for ty in tys {
        let number = number_of(alloc, types, ty)?;
        numbers.push(number)?;
    }
    Ok(numbers)
}
