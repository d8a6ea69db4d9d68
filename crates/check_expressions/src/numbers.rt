//! Types of numbers as they are written.
ghost use Rattle.std.specs.Prelude.{◌≡◌, Some, true, false, MatchOption};
ghost use Rattle.hume_base.specs.declared.types.Ty.{Ty};
ghost use Rattle.hume_base.specs.declared.types.Types.{Types};
ghost use Rattle.check_scopes.specs.types.Nodes.{IsWithin, ty_of};
ghost use Rattle.check_typing.specs.WrittenTypes.{is_width};
ghost use Rattle.check_expressions.specs.inner.Written.{IsWrittenNumber, IsNoWrittenNumber};

use check_scopes::types::Node;
use hume_ast::TyExp;
use hume_base::limits::MAX_WIDTH;

/// The type of numbers that is written, if it is one.
#[tactic(auto, using(crate::proofs::WrittenNumbers::number_steps))]
pub(crate) fn number_node(ty: &TyExp) -> Option<Node>
    ensures { MatchOption result (IsNoWrittenNumber ty.now) (IsWrittenNumber ty.now) }
{
    match ty {
        TyExp::Int(bits) => match width(*bits) {
            None => None,
            Some(width) => Some(Node::Int(width)),
        },
        TyExp::Nat(bits) => match width(*bits) {
            None => None,
            Some(width) => Some(Node::Nat(width)),
        },
        _ => None,
    }
}

// The number of bits, if a number may have as many.
fn width(bits: u64) -> Option<u8>
    ensures { MatchOption result (is_width bits ≡ false) (λ same. (same ≡ bits) × (is_width bits ≡ true)) }
{
    if bits < 1 || bits > MAX_WIDTH as u64 {
        return None;
    }
    Some(bits as u8)
}
