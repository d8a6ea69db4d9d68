//! What stands for a program is one thing, and a program that breaks no rule stands for a core of sound parts.
ghost use Rattle.std.specs.Prelude.{◌≡◌, ◌≤◌, ℕ, List, length, map, sum, Some, slice_get};
ghost use Rattle.hume_base.specs.declared.finding.Finding.{Finding};
ghost use Rattle.hume_base.specs.declared.limits.TheConstants.{MAX_FUNCTIONS, MAX_NODES, MAX_WIRES, MAX_EXCEPTIONS, MAX_WIRE_WORDS};
ghost use Rattle.hume_base.specs.Holding.{HoldSmaller};
ghost use Rattle.hume_base.specs.Least.{IsLeast};
ghost use Rattle.hume_base.specs.Sizes.{HaveTheirSizes};
ghost use Rattle.hume_ast.specs.declared.tree.Program.{Program};
ghost use Rattle.hume_ast.specs.Fits.{IsFit};
ghost use Rattle.hume_model.specs.declared.core_tree.BoxC.{BoxC};
ghost use Rattle.hume_model.specs.declared.core_tree.NodeC.TheVariants.{Rules};
ghost use Rattle.hume_model.specs.declared.core_tree.WireC.{WireC};
ghost use Rattle.hume_model.specs.declared.core_tree.Core.{Core};
ghost use Rattle.hume_model.specs.OwnExceptions.{HasOwnExceptions};
ghost use Rattle.hume_model.specs.Calls.{CallsGoDown};
ghost use Rattle.hume_model.specs.WellFormed.{HasSoundParts, IsWellFormed};
ghost use Rattle.hume_model.specs.Limits.{wire_words};
ghost use Rattle.hume_model.specs.TypeLimits.{IsWrittenType};
ghost use Rattle.hume_model.specs.WireEnds.{HasEnds};
ghost use Rattle.hume_model.specs.Typing.{FunctionsAreTyped};
ghost use Rattle.hume_model.specs.BoxTyping.{BoxHasFrame, BoxIsTyped};
ghost use Rattle.check_typing.specs.declared.signatures.Signatures.{Signatures};
ghost use Rattle.check_rules.specs.Declared.{Decls};
ghost use Rattle.check_rules.specs.SignaturesOf.{AreSignatures};
ghost use Rattle.check_rules.specs.CoreOf.{IsCoreOf};
ghost use Rattle.check_rules.specs.OfTokens.{IsOfTokens};
ghost use Rattle.check_rules.specs.CheckRules.{BreaksCheck, IsFine};

/// A program has one list of data types, exceptions and functions at most.
pub fn signatures_are_unique()
    ensures { (decls : Decls) (s t : Signatures) → AreSignatures decls s → AreSignatures decls t → s ≡ t }
{}

/// A source stands for one core at most.
pub fn cores_are_unique()
    ensures { (text : List ℕ) (program : Program) (a b : Core) → IsCoreOf text program a → IsCoreOf text program b → a ≡ b }
{}

/// Of the rules that a program breaks in its names, counts, types and limits one at most is the least.
pub fn least_broken_rule_is_one()
    ensures { (decls : Decls) (x y : Finding) → IsLeast (BreaksCheck decls) (Some x) → IsLeast (BreaksCheck decls) (Some y) → x ≡ y }
{}

/// Data types of a core hold data types of smaller numbers only, and have their sizes written beside them.
pub fn cores_hold_smaller()
    ensures holds { (text : List ℕ) (program : Program) (core : Core) → IsFine program.decls → IsCoreOf text program core → HoldSmaller core.types }
    ensures sizes { (text : List ℕ) (program : Program) (core : Core) → IsFine program.decls → IsCoreOf text program core → HaveTheirSizes core.types }
{}

/// The exceptions that every program has stand first in its core.
pub fn cores_have_their_exceptions()
    ensures { (text : List ℕ) (program : Program) (core : Core) → IsFine program.decls → IsCoreOf text program core → HasOwnExceptions core }
{}

/// Functions and boxes of the core of a program that breaks no rule have their types.
pub fn functions_and_boxes_are_typed()
    ensures functions { (text : List ℕ) (program : Program) (core : Core) → IsFine program.decls → IsCoreOf text program core → FunctionsAreTyped core }
    ensures boxes { (text : List ℕ) (program : Program) (core : Core) → IsFine program.decls → IsCoreOf text program core
        → (n : ℕ) (b : BoxC) → slice_get core.nodes n ≡ Some (Rules b) → BoxIsTyped core b }
    ensures frames { (text : List ℕ) (program : Program) (core : Core) → IsFine program.decls → IsCoreOf text program core
        → (n : ℕ) (b : BoxC) → slice_get core.nodes n ≡ Some (Rules b) → BoxHasFrame core b }
{}

/// Functions of a core call functions of smaller numbers only.
pub fn calls_go_down()
    ensures { (text : List ℕ) (program : Program) (core : Core) → IsFine program.decls → IsCoreOf text program core → CallsGoDown core }
{}

/// Where no type is deeper than the grammar lets it be, wires have types that a source may write.
pub fn wires_have_written_types()
    ensures { (text : List ℕ) (program : Program) (core : Core) → IsFine program.decls → IsFit program → IsCoreOf text program core
        → (n : ℕ) (wire : WireC) → slice_get core.wires n ≡ Some wire → IsWrittenType core.types wire.ty }
{}

/// Wires of a core have their ends, their types from them, and first values of their types.
pub fn wires_have_their_ends()
    ensures { (text : List ℕ) (program : Program) (core : Core) → IsFine program.decls → IsFit program → IsCoreOf text program core
        → (n : ℕ) (wire : WireC) → slice_get core.wires n ≡ Some wire → HasEnds core wire }
{}

/// A core has no more functions, nodes, wires and exceptions than are allowed, and no more words on its wires.
pub fn cores_have_few_parts()
    ensures functions { (text : List ℕ) (program : Program) (core : Core) → IsFine program.decls → IsCoreOf text program core
        → length core.funs ≤ MAX_FUNCTIONS }
    ensures nodes { (text : List ℕ) (program : Program) (core : Core) → IsFine program.decls → IsCoreOf text program core → length core.nodes ≤ MAX_NODES }
    ensures wires { (text : List ℕ) (program : Program) (core : Core) → IsFine program.decls → IsCoreOf text program core → length core.wires ≤ MAX_WIRES }
    ensures exceptions { (text : List ℕ) (program : Program) (core : Core) → IsFine program.decls → IsCoreOf text program core
        → length core.exns ≤ MAX_EXCEPTIONS }
    ensures words { (text : List ℕ) (program : Program) (core : Core) → IsFine program.decls → IsCoreOf text program core
        → sum (map (wire_words core) core.wires) ≤ MAX_WIRE_WORDS }
{}

/// What the meaning of an expression rests on: a core of a program that breaks no rule has it.
pub fn cores_have_sound_parts()
    ensures { (text : List ℕ) (program : Program) (core : Core) → IsFine program.decls → IsCoreOf text program core → HasSoundParts core }
{}

/// The core of a program that breaks no rule is well-formed, if the program is one of the grammar that tokens make.
pub fn cores_are_well_formed()
    ensures { (text : List ℕ) (program : Program) (core : Core) → IsFine program.decls → IsFit program → IsOfTokens program → IsCoreOf text program core
        → IsWellFormed core }
{}
