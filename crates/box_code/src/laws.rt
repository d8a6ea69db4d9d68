//! Laws of the definitions, as contracts of functions that do nothing.
ghost use Rattle.std.specs.Prelude.{◌≡◌, ◌+◌, ◌++◌, ℕ, List, Option, Some, length};
ghost use Rattle.hume_model.specs.declared.core_tree.EqC.{EqC};
ghost use Rattle.hume_model.specs.declared.core_tree.Expr.{Expr};
ghost use Rattle.hume_model.specs.declared.core_tree.Res.{Res};
ghost use Rattle.box_code.specs.declared.instr.Instr.{Instr};
ghost use Rattle.box_code.specs.declared.instr.Path.{Path};
ghost use Rattle.box_code.specs.Paths.{Spot};
ghost use Rattle.box_code.specs.Reading.{instr_at};
ghost use Rattle.box_code.specs.Represents.{BoundResultStands, EquationsStand, Represents};
ghost use Rattle.box_code.specs.Words.{OperandsFit, PathStands, StandsAt, fields_in, path_of, words_of};

/// The words at a place make up the instruction that stands there.
pub fn what_stands_is_read()
    ensures { (code : List ℕ) (at : ℕ) (instr : Instr) (next : ℕ) → StandsAt code at instr next → instr_at code at ≡ Some (instr, next) }
{}

/// An instruction that is appended stands at the end of the code, with the field numbers of its path behind it.
pub fn what_is_appended_stands()
    ensures instructions { (code : List ℕ) (instr : Instr) (fields : List ℕ) (next : ℕ) → OperandsFit instr
        → PathStands (path_of instr) (length code + length (words_of instr)) next → next ≡ length code + (length (words_of instr) + length fields)
        → StandsAt (code ++ (words_of instr ++ fields)) (length code) instr next }
    ensures paths { (code : List ℕ) (instr : Instr) (fields : List ℕ) (path : Path) → path.at ≡ length code + length (words_of instr)
        → path.length ≡ length fields → fields_in (code ++ (words_of instr ++ fields)) path ≡ fields }
{}

/// What stands in a code stands there still when words are appended.
pub fn code_may_grow()
    ensures instructions { (code more : List ℕ) (at : ℕ) (instr : Instr) (next : ℕ) → StandsAt code at instr next → StandsAt (code ++ more) at instr next }
    ensures expressions { (code more : List ℕ) (entry : ℕ → Option ℕ) (places : List ℕ) (high from to : ℕ) (e : Expr)
        → Represents code entry places high from to e → Represents (code ++ more) entry places high from to e }
    ensures functions { (code more : List ℕ) (entry : ℕ → Option ℕ) (count from : ℕ) (equations : List EqC)
        → EquationsStand code entry count from equations → EquationsStand (code ++ more) entry count from equations }
    ensures results { (code more : List ℕ) (entry : ℕ → Option ℕ) (high : ℕ) (spots : List Spot) (res : Res) (from : ℕ)
        → BoundResultStands code entry high spots res from → BoundResultStands (code ++ more) entry high spots res from }
{}
