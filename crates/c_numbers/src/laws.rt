//! Laws of arithmetic, as contracts of functions that do nothing.
ghost use Rattle.hume_model.specs.declared.core_tree.Op.TheVariants as operation;
ghost use Rattle.c_arithmetic.specs.declared.functions.Helper.TheVariants as helper;
ghost use Rattle.std.specs.Prelude.{◌≡◌, false, List, Some};
ghost use Rattle.c_tree.specs.declared.tree.CItem.{CItem};
ghost use Rattle.c_names.specs.declared.names.Names.{Names};
ghost use Rattle.c_arithmetic.specs.declared.functions.Helper.{Helper};
ghost use Rattle.c_arithmetic.specs.declared.functions.Numbers.{Numbers};
ghost use Rattle.c_arithmetic.specs.Bodies.{helper_name};
ghost use Rattle.c_arithmetic.specs.Helpers.{helpers_for};
ghost use Rattle.c_meaning.specs.Expressions.{Context};
ghost use Rattle.c_meaning.specs.Programs.{defines, with_items};
ghost use Rattle.c_numbers.specs.Declared.{AreDeclared, IsDeclared, IsFile};
ghost use Rattle.c_numbers.specs.Written.{WrittenConverts, WrittenDivides, WrittenGives, WrittenNegates, WrittenTells};
ghost use Rattle.c_tree.specs.declared.tree.COp.TheVariants as op;
ghost use Rattle.c_numbers.specs.Agreeing.{CallConverts, CallGives, CallNegates, CallTells, CastConverts, OperatorDivides, OperatorTells, SignedCallGives};

/// A call of a function that wraps around gives the number that the operation gives, for numbers of 1 to 64 bits of either sign, where `int`
/// has 16 to 32 bits.
pub fn wrapping_calls_give_what_operations_give()
    ensures sums { CallGives helper.Add operation.Add }
    ensures differences { CallGives helper.Sub operation.Sub }
    ensures products { CallGives helper.Mul operation.Mul }
    ensures negations { CallNegates }
{}

/// So does a call for a quotient or a rest of numbers with a sign, where the divisor isn't 0.
pub fn dividing_calls_give_what_operations_give()
    ensures quotients { SignedCallGives helper.Div operation.Div }
    ensures rests { SignedCallGives helper.Mod operation.Mod }
{}

/// A call that converts gives the number that the conversion gives, from numbers of any width and sign.
pub fn converting_calls_give_what_conversions_give()
    ensures { CallConverts }
{}

/// A call that compares gives the truth value that the comparison gives.
pub fn comparing_calls_tell_what_comparisons_tell()
    ensures less { CallTells helper.Less operation.Lt }
    ensures at_most { CallTells helper.LessEqual operation.Le }
    ensures equal { CallTells helper.Equal operation.Eq }
{}

/// C's own operators compare and divide numbers of one type of Hume as Hume does, but for a divisor of -1, and a cast converts to numbers that
/// have all those of the operand among them.
pub fn operators_give_what_operations_give()
    ensures less { OperatorTells op.Less operation.Lt }
    ensures at_most { OperatorTells op.LessEqual operation.Le }
    ensures greater { OperatorTells op.Greater operation.Gt }
    ensures at_least { OperatorTells op.GreaterEqual operation.Ge }
    ensures equal { OperatorTells op.Equal operation.Eq }
    ensures unequal { OperatorTells op.NotEqual operation.Ne }
    ensures quotients { OperatorDivides op.Divide operation.Div }
    ensures rests { OperatorDivides op.Remainder operation.Mod }
    ensures conversions { CastConverts }
{}

/// Whichever form is written for an operation on numbers, it gives what the operation gives: for a comparison the truth value, as a `bool` or
/// as an `int`. A divisor that is told as a literal is the divisor.
pub fn written_operations_give_what_operations_give()
    ensures sums { WrittenGives operation.Add }
    ensures differences { WrittenGives operation.Sub }
    ensures products { WrittenGives operation.Mul }
    ensures negations { WrittenNegates }
    ensures quotients { WrittenDivides operation.Div }
    ensures rests { WrittenDivides operation.Mod }
    ensures less { WrittenTells operation.Lt }
    ensures at_most { WrittenTells operation.Le }
    ensures greater { WrittenTells operation.Gt }
    ensures at_least { WrittenTells operation.Ge }
    ensures equal { WrittenTells operation.Eq }
    ensures unequal { WrittenTells operation.Ne }
    ensures conversions { WrittenConverts }
{}

/// Where a file declares the functions for some numbers, each stands behind those that it calls, and so it does behind whatever is declared
/// later, unless a function of its name is.
pub fn functions_stand_behind_those_that_they_call()
    ensures there { (names : Names) (numbers : Numbers) (file after : Context) → IsFile file → with_items (helpers_for names numbers) file ≡ Some after
        → AreDeclared names numbers after }
    ensures later { (names : Names) (numbers : Numbers) (which : Helper) (items : List CItem) (context after : Context)
        → with_items items context ≡ Some after → defines (helper_name names which numbers) items ≡ false → IsDeclared names numbers which context
        → IsDeclared names numbers which after }
{}
