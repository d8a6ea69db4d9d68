//! What texts of values ask of types, of the types of cores.
ghost use Rattle.std.specs.Prelude.{◌≡◌, ℕ, List, Some, slice_get};
ghost use Rattle.hume_base.specs.declared.token.Token.{Token};
ghost use Rattle.hume_ast.specs.declared.tree.Program.{Program};
ghost use Rattle.hume_ast.specs.Places.{StandsFor};
ghost use Rattle.hume_lex.specs.BadPlaces.{IsRead};
ghost use Rattle.hume_model.specs.declared.core_tree.Core.{Core};
ghost use Rattle.hume_model.specs.declared.core_tree.WireC.{WireC};
ghost use Rattle.hume_model.specs.WellFormed.{IsWellFormed};
ghost use Rattle.check_rules.specs.CheckRules.{IsFine};
ghost use Rattle.check_rules.specs.CoreOf.{IsCoreOf};
ghost use Rattle.hume_text.specs.Bounds.{IsPrintable};
ghost use Rattle.hume_text.specs.Names.{HaveNames};

/// The types of the wires of a well-formed core have values whose texts are no longer than a buffer for them.
pub fn well_formed_types_are_printable()
    ensures { (core : Core) → IsWellFormed core → (w : ℕ) (wire : WireC) → slice_get core.wires w ≡ Some wire
        → IsPrintable core.types wire.ty }
{}

/// Constructors in the core of a program that is read from a source have names as texts ask, and differ within a data type.
pub fn constructors_of_sources_have_names()
    ensures { (text : List ℕ) (tokens : List Token) (program : Program) (core : Core) → IsRead text tokens → StandsFor tokens program
        → IsFine program.decls → IsCoreOf text program core → HaveNames core.types }
{}
