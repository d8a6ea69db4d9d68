ghost use Rattle.std.specs.Prelude.{◌≡◌, List};
ghost use Rattle.hume_base.specs.declared.types.Ty.{Ty as TyTree};
ghost use Rattle.check_scopes.specs.types.Nodes.{level_of};
ghost use Rattle.check_scopes.specs.types.Contexts.{shape_of};

use crate::types::node::Node;

/// What is seen of a type without looking at its parts.
#[derive(Clone, Copy, Debug, PartialEq, Eq)]
pub enum Shape {
    Bool,
    Char,
    /// With its number of bits.
    Int(u8),
    /// With its number of bits.
    Nat(u8),
    /// With its number of parts.
    Tuple(usize),
    /// With its length.
    Vector(u32),
    /// With the number of the data type.
    Named(u32),
}

pub(crate) fn shape_of_node(node: &Node) -> Shape
    ensures { (tys : List TyTree) → result ≡ shape_of (level_of tys node.now) }
{
    match node {
        Node::Bool => Shape::Bool,
        Node::Char => Shape::Char,
        Node::Int(bits) => Shape::Int(*bits),
        Node::Nat(bits) => Shape::Nat(*bits),
        Node::Tuple(parts) => Shape::Tuple(parts.len()),
        Node::Vector(count, _) => Shape::Vector(*count),
        Node::Named(number) => Shape::Named(*number),
    }
}
