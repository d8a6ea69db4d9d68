//! Laws of the definitions, as contracts of functions that do nothing.
ghost use Rattle.std.specs.Prelude.{◌≡◌, ◌≤◌, ◌*◌, ℕ, List, true, length};
ghost use Rattle.hume_base.specs.declared.types.Ty.{Ty};
ghost use Rattle.hume_base.specs.declared.types.Types.{Types};
ghost use Rattle.hume_base.specs.declared.types.Value.{Value};
ghost use Rattle.hume_base.specs.Sizes.{size_of};
ghost use Rattle.hume_base.specs.Values.{is_value};
ghost use Rattle.hume_text.specs.Printed.{texts};
ghost use Rattle.hume_text.specs.Read.{IsTextOf};
ghost use Rattle.hume_text.specs.Names.{HaveNames};
ghost use Rattle.hume_text.specs.Bounds.{IsPrintable};

/// No printed text is longer than the bound of its type.
pub fn texts_are_bounded()
    ensures { (types : Types) (ty : Ty) (value : Value) → IsPrintable types ty → is_value types ty value ≡ true
        → length (texts types ty value) ≤ 512 * size_of types ty }
{}

/// A printed text is a text of the value that was printed.
pub fn printed_texts_are_texts()
    ensures { (types : Types) (ty : Ty) (value : Value) → IsPrintable types ty → HaveNames types → is_value types ty value ≡ true
        → IsTextOf types ty (texts types ty value) value }
{}

/// A line is a text of at most one value of a type.
pub fn one_value_a_line()
    ensures { (types : Types) (ty : Ty) (line : List ℕ) (v w : Value) → HaveNames types → is_value types ty v ≡ true → is_value types ty w ≡ true
        → IsTextOf types ty line v → IsTextOf types ty line w → v ≡ w }
{}
