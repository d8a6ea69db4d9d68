//! The first words of instructions.
ghost use Rattle.std.specs.Prelude.{◌≡◌, ◌<◌, ◌+◌, ◌*◌};
ghost use Rattle.box_code.specs.Words.{OperandsFit, at_scalar, bits_of_scalar, head as a_head, head_of, number_of_comparison, number_of_scalar, word_of_head};

use crate::instr::{Comparison, Instr, Scalar};

/// The first word of the instruction.
pub(crate) fn head_word(instr: Instr) -> u64
    requires { OperandsFit instr }
    ensures { result ≡ word_of_head (head_of instr) }
{
    match instr {
        Instr::Push { .. } => head(0, 0, 0),
        Instr::Load { depth } => head(1, 0, depth),
        Instr::Make { tag, count } => head(2, count, tag),
        Instr::Add { ty } => with_type(3, ty),
        Instr::Sub { ty } => with_type(4, ty),
        Instr::Mul { ty } => with_type(5, ty),
        Instr::Div { ty } => with_type(6, ty),
        Instr::Mod { ty } => with_type(7, ty),
        Instr::Neg { ty } => with_type(8, ty),
        Instr::Not => head(9, 0, 0),
        Instr::Convert { ty } => with_type(10, ty),
        Instr::Compare { comparison, ty } => {
            head(11, number(ty) + 4 * comparison_number(comparison), bits(ty))
        }
        Instr::Index { count } => head(12, 0, count),
        Instr::Update { count } => head(13, 0, count),
        Instr::Jump { to } => head(14, 0, to),
        Instr::JumpFalse { to } => head(15, 0, to),
        Instr::MatchWord { depth, to, .. } => head(16, depth, to),
        Instr::MatchTag { depth, to, .. } => head(17, depth, to),
        Instr::Field { depth, path } => head(18, depth, path.length),
        Instr::Slide { count } => head(19, 0, count),
        Instr::Call { to, count } => head(20, count, to),
        Instr::Return { count, variables } => head(21, count, variables),
        Instr::Raise { exn, carried } => head(22, u32::from(carried), exn),
        Instr::Finish { mask } => head(23, 0, mask),
    }
}

fn head(kind: u64, low: u32, high: u32) -> u64
    requires kind { kind < 256 }
    requires low { low < 16777216 }
    ensures { result ≡ word_of_head (a_head kind low high) }
{
    kind + 0x100 * u64::from(low) + 0x1_0000_0000 * u64::from(high)
}

fn with_type(kind: u64, ty: Scalar) -> u64
    requires { kind < 256 }
    ensures { result ≡ word_of_head (at_scalar kind ty) }
{
    head(kind, number(ty), bits(ty))
}

fn number(ty: Scalar) -> u32
    ensures same { result ≡ number_of_scalar ty }
    ensures small { result < 4 }
{
    match ty {
        Scalar::Bool => 0,
        Scalar::Char => 1,
        Scalar::Int(_) => 2,
        Scalar::Nat(_) => 3,
    }
}

fn bits(ty: Scalar) -> u32
    ensures { result ≡ bits_of_scalar ty }
{
    match ty {
        Scalar::Bool | Scalar::Char => 0,
        Scalar::Int(bits) | Scalar::Nat(bits) => u32::from(bits),
    }
}

fn comparison_number(comparison: Comparison) -> u32
    ensures same { result ≡ number_of_comparison comparison }
    ensures small { result < 6 }
{
    match comparison {
        Comparison::Eq => 0,
        Comparison::Ne => 1,
        Comparison::Lt => 2,
        Comparison::Le => 3,
        Comparison::Gt => 4,
        Comparison::Ge => 5,
    }
}
