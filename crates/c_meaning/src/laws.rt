//! Laws of the definitions, as contracts of functions that do nothing.
ghost use Rattle.std.specs.Prelude.{◌≡◌, ◌≤◌, ◌==◌, ◌+ℤ◌, ◌-ℤ◌, ◌*ℤ◌, ◌∷◌, [], ℕ, ℤ, Bool, false, true, List, map, None, Option, neg_ℤ, pos, Some};
ghost use Rattle.std.specs.Int.RustNames.{int_div, int_lt, unsigned_abs};
ghost use Rattle.std.specs.Option.{is_some};
ghost use Rattle.std.specs.Str.{bytes_eq};
ghost use Rattle.c_tree.specs.declared.tree.COp.{COp};
ghost use Rattle.c_tree.specs.declared.tree.COp.TheVariants.{Add, Divide, Less, Multiply, Remainder, ShiftLeft, ShiftRight, Subtract};
ghost use Rattle.c_tree.specs.declared.tree.Width.{Width};
ghost use Rattle.c_tree.specs.declared.tree.CExp.{CExp};
ghost use Rattle.c_tree.specs.declared.tree.CExp.TheVariants.{Call};
ghost use Rattle.c_tree.specs.declared.tree.CItem.{CItem};
ghost use Rattle.c_tree.specs.declared.tree.CProgram.{CProgram};
ghost use Rattle.c_tree.specs.declared.tree.CStm.TheVariants.{Assign};
ghost use Rattle.c_meaning.specs.Example.{short_product, wide_product, written_of};
ghost use Rattle.c_meaning.specs.Expressions.{Context, Function, meant, values_of};
ghost use Rattle.c_meaning.specs.Memories.{Memory, Numeric, Place, Rights, Value, World, changed_at, read_at};
ghost use Rattle.c_meaning.specs.Programs.{called_from_outside, defines, file_of, with_items};
ghost use Rattle.c_meaning.specs.Sound.{IsSoundContext, IsSoundMemory, IsSoundValue, IsSoundWorld, OnlyComputes};
ghost use Rattle.c_meaning.specs.Statements.{Goes, doing};
ghost use Rattle.c_meaning.specs.Numbers.{AreCongruent, CNumber, NumberType, Signed, Unsigned, common, converted, holds, of_type, promoted};
ghost use Rattle.c_meaning.specs.Objects.{Array, Element, Member, Object, Scalar, Step, Union, at_path, changed, lie_apart, with_number};
ghost use Rattle.c_meaning.specs.Operators.{divided, negated, operated, operation_type, signed_constant, size_of, truth, unsigned_constant};
ghost use Rattle.c_meaning.specs.Reads.{IsAssigned, IsChanged};

/// A conversion keeps a number that the type holds.
pub fn conversions_keep_numbers()
    ensures { (ty : NumberType) (number : ℤ) → holds ty number ≡ true → converted ty number ≡ Some (of_type ty number) }
{}

/// A conversion gives a number of the type. To an unsigned type it is the same number modulo, to a signed one the same number or none.
pub fn conversions_give_numbers_of_the_type()
    ensures is { (ty : NumberType) (number : ℤ) (x : CNumber) → converted ty number ≡ Some x → x.ty ≡ ty }
    ensures range { (ty : NumberType) (number : ℤ) (x : CNumber) → converted ty number ≡ Some x → holds ty x.number ≡ true }
    ensures unsigned { (size : ℕ) (number : ℤ) (x : CNumber) → converted (Unsigned size) number ≡ Some x → AreCongruent size number x.number }
    ensures signed { (size : ℕ) (number : ℤ) (x : CNumber) → converted (Signed size) number ≡ Some x → x.number ≡ number }
    ensures none { (size : ℕ) (number : ℤ) → holds (Signed size) number ≡ false → converted (Signed size) number ≡ None }
{}

/// A promoted type holds all numbers of the type, for an `int` of 16 bits or more.
pub fn promotions_keep_numbers()
    ensures { (int : ℕ) (ty : NumberType) (number : ℤ) → 16 ≤ int → holds ty number ≡ true → holds (promoted int ty) number ≡ true }
{}

/// Numbers of their types can always be converted to their common type.
pub fn operands_have_a_common_type()
    ensures left { (int : ℕ) (x y : CNumber) → 16 ≤ int → holds x.ty x.number ≡ true → holds y.ty y.number ≡ true
        → is_some (converted (common int x.ty y.ty) x.number) ≡ true }
    ensures right { (int : ℕ) (x y : CNumber) → 16 ≤ int → holds x.ty x.number ≡ true → holds y.ty y.number ≡ true
        → is_some (converted (common int x.ty y.ty) y.number) ≡ true }
{}

/// What an operator or a constant gives is a number of its type.
pub fn operators_give_numbers_of_their_types()
    ensures is { (int : ℕ) (operator : COp) (x y z : CNumber) → 16 ≤ int → operated int operator x y ≡ Some z → z.ty ≡ operation_type int operator x.ty y.ty }
    ensures range { (int : ℕ) (operator : COp) (x y z : CNumber) → 16 ≤ int → operated int operator x y ≡ Some z → holds z.ty z.number ≡ true }
    ensures negated { (int : ℕ) (x z : CNumber) → negated int x ≡ Some z → holds z.ty z.number ≡ true }
    ensures unsigned { (int : ℕ) (width : Width) (amount : ℕ) (z : CNumber) → 16 ≤ int → unsigned_constant int width amount ≡ Some z
        → holds z.ty z.number ≡ true }
    ensures signed { (int : ℕ) (width : Width) (number : ℤ) (z : CNumber) → 16 ≤ int → signed_constant int width number ≡ Some z
        → holds z.ty z.number ≡ true }
{}

/// Where the common type is signed, an operation is one on the numbers themselves, and has a meaning exactly where the type holds what comes.
pub fn signed_numbers_overflow()
    ensures sums { (int size : ℕ) (x y : CNumber) → 16 ≤ int → common int x.ty y.ty ≡ Signed size → holds x.ty x.number ≡ true
        → holds y.ty y.number ≡ true → operated int Add x y ≡ converted (Signed size) (x.number +ℤ y.number) }
    ensures differences { (int size : ℕ) (x y : CNumber) → 16 ≤ int → common int x.ty y.ty ≡ Signed size → holds x.ty x.number ≡ true
        → holds y.ty y.number ≡ true → operated int Subtract x y ≡ converted (Signed size) (x.number -ℤ y.number) }
    ensures products { (int size : ℕ) (x y : CNumber) → 16 ≤ int → common int x.ty y.ty ≡ Signed size → holds x.ty x.number ≡ true
        → holds y.ty y.number ≡ true → operated int Multiply x y ≡ converted (Signed size) (x.number *ℤ y.number) }
    ensures quotients { (int size : ℕ) (x y : CNumber) → 16 ≤ int → common int x.ty y.ty ≡ Signed size → holds x.ty x.number ≡ true
        → holds y.ty y.number ≡ true → operated int Divide x y ≡ divided (Signed size) x.number y.number }
    ensures comparisons { (int size : ℕ) (x y : CNumber) → 16 ≤ int → common int x.ty y.ty ≡ Signed size → holds x.ty x.number ≡ true
        → holds y.ty y.number ≡ true → operated int Less x y ≡ Some (truth int (int_lt x.number y.number)) }
{}

/// Where the common type is unsigned, an operation is one on the numbers themselves, but for a multiple of 2 to the power of its bits.
pub fn unsigned_numbers_wrap()
    ensures sums { (int size : ℕ) (x y z : CNumber) → common int x.ty y.ty ≡ Unsigned size → operated int Add x y ≡ Some z
        → AreCongruent size (x.number +ℤ y.number) z.number }
    ensures differences { (int size : ℕ) (x y z : CNumber) → common int x.ty y.ty ≡ Unsigned size → operated int Subtract x y ≡ Some z
        → AreCongruent size (x.number -ℤ y.number) z.number }
    ensures products { (int size : ℕ) (x y z : CNumber) → common int x.ty y.ty ≡ Unsigned size → operated int Multiply x y ≡ Some z
        → AreCongruent size (x.number *ℤ y.number) z.number }
{}

/// Nothing is divided by 0.
pub fn zero_divides_nothing()
    ensures quotient { (int : ℕ) (x y : CNumber) → y.number ≡ pos 0 → operated int Divide x y ≡ None }
    ensures rest { (int : ℕ) (x y : CNumber) → y.number ≡ pos 0 → operated int Remainder x y ≡ None }
{}

/// Nothing is shifted by fewer than 0 places, or by as many as the promoted type has bits, and no negative number is shifted.
pub fn shifts_stay_within_the_type()
    ensures left { (int : ℕ) (x y : CNumber) → size_of (promoted int x.ty) ≤ unsigned_abs y.number → operated int ShiftLeft x y ≡ None }
    ensures right { (int : ℕ) (x y : CNumber) → size_of (promoted int x.ty) ≤ unsigned_abs y.number → operated int ShiftRight x y ≡ None }
    ensures back { (int : ℕ) (x y : CNumber) → int_lt y.number (pos 0) ≡ true → operated int ShiftLeft x y ≡ None }
    ensures forth { (int : ℕ) (x y : CNumber) → int_lt y.number (pos 0) ≡ true → operated int ShiftRight x y ≡ None }
    ensures negative { (int : ℕ) (x y : CNumber) → int_lt x.number (pos 0) ≡ true → operated int ShiftLeft x y ≡ None }
    ensures below { (int : ℕ) (x y : CNumber) → int_lt x.number (pos 0) ≡ true → operated int ShiftRight x y ≡ None }
{}

/// A product of two numbers of 16 bits has no meaning where `int` has 32 bits and doesn't hold it. Where `int` has 16 bits, it wraps.
pub fn small_products_overflow()
    ensures wide { operated 32 Multiply (of_type (Unsigned 16) (pos 65535)) (of_type (Unsigned 16) (pos 65535)) ≡ None }
    ensures narrow { operated 16 Multiply (of_type (Unsigned 16) (pos 65535)) (of_type (Unsigned 16) (pos 65535)) ≡ Some (of_type (Unsigned 16) (pos 1)) }
{}

/// The least number divided by -1 has no meaning, where the quotient would be of its own type.
pub fn least_quotients_overflow()
    ensures { operated 16 Divide (of_type (Signed 32) (neg_ℤ (pos 2147483648))) (of_type (Signed 32) (neg_ℤ (pos 1))) ≡ None }
{}

/// What is written is read: a number as one of the type that is declared, and any other change as it was made.
pub fn what_is_written_is_read()
    ensures numbers { (x : CNumber) (path : List Step) (object after : Object) → changed path (with_number x) object ≡ Some after → IsAssigned x path after }
    ensures changes { (path : List Step) (change : Object → Option Object) (object after : Object) → changed path change object ≡ Some after
        → IsChanged path change after }
{}

/// A write changes nothing but its place: what could be read apart from it, in the same object or another one, is read there still.
pub fn writes_change_only_their_place()
    ensures apart { (path other : List Step) (change : Object → Option Object) (object after found : Object) → changed path change object ≡ Some after
        → lie_apart path other object ≡ true → at_path other object ≡ Some found → at_path other after ≡ Some found }
    ensures others { (rights : Rights) (memory : Memory) (place : Place) (change : Object → Option Object) (after : Memory) (n : ℕ)
        → changed_at rights memory place change ≡ Some after → (n == place.block) ≡ false → after.objects n ≡ memory.objects n }
    ensures rest { (rights : Rights) (memory : Memory) (place : Place) (change : Object → Option Object) (after : Memory)
        → changed_at rights memory place change ≡ Some after → (after.count ≡ memory.count) × (after.world ≡ memory.world) }
    ensures constants { (rights : Rights) (memory : Memory) (place : Place) (change : Object → Option Object) → place.constant ≡ true
        → changed_at rights memory place change ≡ None }
{}

/// When a member of a union has been written, or a part of it, no other member is read.
pub fn one_member_of_a_union_is_read()
    ensures { (name other : List ℕ) (path : List Step) (change : Object → Option Object) (names : List (List ℕ)) (force : Option (List ℕ))
        (part : List ℕ → Object) (after : Object) (later : List Step) → changed (Member name ∷ path) change (Union names force part) ≡ Some after
        → bytes_eq other name ≡ false → at_path (Member other ∷ later) after ≡ None }
{}

/// No element is read or written out of the bounds of its array.
pub fn elements_lie_within_bounds()
    ensures read { (count i : ℕ) (element : ℕ → Object) (path : List Step) → count ≤ i → at_path (Element i ∷ path) (Array count element) ≡ None }
    ensures written { (count i : ℕ) (element : ℕ → Object) (path : List Step) (change : Object → Option Object) → count ≤ i
        → changed (Element i ∷ path) change (Array count element) ≡ None }
{}

/// An expression that names an unset number has no value.
pub fn unset_numbers_have_no_value()
    ensures { (exp : CExp) (context : Context) (place : Place) (ty : NumberType) → (meant exp).place context ≡ Some place
        → read_at context.memory place ≡ Some (Scalar ty None) → (meant exp).value context ≡ None }
{}

/// An assignment whose right side isn't a call changes nothing but the object that its left side names: no other object, nothing that lies
/// apart from it in the same one, and neither the names nor the world.
pub fn assignments_change_only_their_place()
    ensures others { (object exp : CExp) (context after : Context) (place : Place) (n : ℕ) → (meant object).place context ≡ Some place
        → (meant exp).call ≡ None → doing (Assign object exp) context ≡ Goes after → (n == place.block) ≡ false
        → after.memory.objects n ≡ context.memory.objects n }
    ensures apart { (object exp : CExp) (context after : Context) (place : Place) (other : List Step) (found : Object)
        → (meant object).place context ≡ Some place → (meant exp).call ≡ None → doing (Assign object exp) context ≡ Goes after
        → lie_apart place.path other (context.memory.objects place.block) ≡ true → at_path other (context.memory.objects place.block) ≡ Some found
        → at_path other (after.memory.objects place.block) ≡ Some found }
    ensures rest { (object exp : CExp) (context after : Context) (place : Place) → (meant object).place context ≡ Some place
        → (meant exp).call ≡ None → doing (Assign object exp) context ≡ Goes after
        → (after.scope ≡ context.scope) × (after.memory.count ≡ context.memory.count) × (after.memory.world ≡ context.memory.world) }
{}

/// Each value is one of its type: what an expression gives, what is in memory after a call, and what a call gives. For a file it is enough that
/// hooks deliver numbers of their types.
pub fn numbers_stay_within_their_types()
    ensures expressions { (exp : CExp) (context : Context) (value : Value) → IsSoundContext context → (meant exp).value context ≡ Some value
        → IsSoundValue value }
    ensures files { (int : ℕ) (world : World) (program : CProgram) (file : Context) → 16 ≤ int → IsSoundWorld world
        → file_of int world program ≡ Some file → IsSoundContext file }
    ensures calls { (int : ℕ) (world : World) (program : CProgram) (file : Context) (name : List ℕ) (before after : Memory) → 16 ≤ int → IsSoundWorld world
        → file_of int world program ≡ Some file → IsSoundMemory before → called_from_outside file name before ≡ Some after → IsSoundMemory after }
{}

/// A function that is called within an expression only computes: it leaves all objects that were there, and the world, as they were. So the
/// order in which C evaluates operands makes no difference.
pub fn calls_within_expressions_change_nothing()
    ensures { (name : List ℕ) (arguments : List CExp) (context : Context) (given : Value) → IsSoundContext context
        → (meant (Call name arguments)).value context ≡ Some given → OnlyComputes context name (values_of (map meant arguments) context) given }
{}

/// A call leaves no object behind: a file's memory is that of its static objects.
pub fn calls_leave_no_objects()
    ensures { (int : ℕ) (world : World) (program : CProgram) (file : Context) (name : List ℕ) (before after : Memory)
        → file_of int world program ≡ Some file → called_from_outside file name before ≡ Some after → after.count ≡ before.count }
{}

/// A function means the same behind whatever is declared after it, unless a function of its name is defined there. So a call needs no bound on
/// its depth.
pub fn functions_keep_their_meaning()
    ensures { (items : List CItem) (context after : Context) (name : List ℕ) (function : Function) → with_items items context ≡ Some after
        → context.functions name ≡ Some function → defines name items ≡ false → after.functions name ≡ Some function }
{}

/// A file that squares numbers of 16 bits: by `a * b` it has no meaning where `int` has 32 bits and the square doesn't fit. By a product of 32
/// bits it writes the square modulo 2 to the power of 16, at either `int`.
pub fn a_small_file_means_what_it_says()
    ensures wide_at_16 { written_of 16 wide_product (pos 65535) ≡ Some (Numeric (of_type (Unsigned 16) (pos 1)) ∷ []) }
    ensures wide_at_32 { written_of 32 wide_product (pos 65535) ≡ Some (Numeric (of_type (Unsigned 16) (pos 1)) ∷ []) }
    ensures short_at_16 { written_of 16 short_product (pos 65535) ≡ Some (Numeric (of_type (Unsigned 16) (pos 1)) ∷ []) }
    ensures short_at_32 { written_of 32 short_product (pos 65535) ≡ None }
    ensures small { written_of 32 short_product (pos 12) ≡ Some (Numeric (of_type (Unsigned 16) (pos 144)) ∷ []) }
{}
