//! Operations and scalar types as they stand in code.
ghost use Rattle.std.specs.Prelude.{◌≡◌, IfOk, None};
ghost use Rattle.box_code.specs.declared.instr.Instr.TheVariants.{Compare};
ghost use Rattle.box_code.specs.Machine.{type_of};
ghost use Rattle.box_code.specs.Represents.{instr_of_op};
ghost use Rattle.box_code.specs.Words.{path_of};

use box_code::{Comparison, Instr, Scalar};
use hume_base::Ty;
use hume_model::Op;
use std::alloc::AllocError;

/// The type as a scalar type. Operations are at no other.
pub(crate) fn scalar(ty: &Ty) -> Result<Scalar, AllocError>
    ensures { IfOk result (λ scalar. ty.now ≡ type_of scalar) }
{
    match ty {
        Ty::Bool => Ok(Scalar::Bool),
        Ty::Char => Ok(Scalar::Char),
        Ty::Int(bits) => Ok(Scalar::Int(*bits)),
        Ty::Nat(bits) => Ok(Scalar::Nat(*bits)),
        _ => Err(AllocError),
    }
}

/// The instruction for an operation.
pub(crate) fn operation(op: Op, ty: Scalar) -> Instr
    ensures same { result ≡ instr_of_op op ty }
    ensures path { path_of result ≡ None }
{
    match op {
        Op::Add => Instr::Add { ty },
        Op::Sub => Instr::Sub { ty },
        Op::Mul => Instr::Mul { ty },
        Op::Div => Instr::Div { ty },
        Op::Mod => Instr::Mod { ty },
        Op::Neg => Instr::Neg { ty },
        Op::Not => Instr::Not,
        Op::Convert => Instr::Convert { ty },
        Op::Eq => compare(Comparison::Eq, ty),
        Op::Ne => compare(Comparison::Ne, ty),
        Op::Lt => compare(Comparison::Lt, ty),
        Op::Le => compare(Comparison::Le, ty),
        Op::Gt => compare(Comparison::Gt, ty),
        Op::Ge => compare(Comparison::Ge, ty),
    }
}

fn compare(comparison: Comparison, ty: Scalar) -> Instr
    ensures { result ≡ Compare comparison ty }
{
    Instr::Compare { comparison, ty }
}
