//! Each program breaks a least rule or none, and what breaks none stands for something.
ghost use Rattle.std.specs.Prelude.{ℕ, List, Option, Contains};
ghost use Rattle.hume_base.specs.declared.finding.Finding.{Finding};
ghost use Rattle.hume_base.specs.Least.{IsLeast};
ghost use Rattle.hume_ast.specs.declared.tree.Program.{Program};
ghost use Rattle.hume_ast.specs.Fits.{DeclsFit, IsFit};
ghost use Rattle.hume_model.specs.declared.core_tree.NodeC.{NodeC};
ghost use Rattle.hume_model.specs.declared.core_tree.WireC.{WireC};
ghost use Rattle.hume_model.specs.declared.core_tree.Core.{Core};
ghost use Rattle.check_names.specs.Misnamed.{BreaksNames};
ghost use Rattle.check_typing.specs.Declarations.{InPlaces};
ghost use Rattle.check_typing.specs.declared.signatures.Signatures.{Signatures};
ghost use Rattle.check_rules.specs.Declared.{Decls, Numbered, nodes_in, WireDecl, wires_in};
ghost use Rattle.check_rules.specs.SignaturesOf.{AreSignatures};
ghost use Rattle.check_rules.specs.CoreOf.{IsNodeOf, IsWireOf, IsCoreOf};
ghost use Rattle.check_rules.specs.CheckRules.{BreaksCounts, BreaksCheck, IsFine};

/// The declarations of a program that breaks no rule on names and counts have their signatures.
pub fn fine_names_have_signatures()
    ensures { (decls : Decls) (bound : ℕ) → DeclsFit bound decls → ((f : Finding) → BreaksNames decls f → ⊥)
        → ((f : Finding) → BreaksCounts decls f → ⊥) → (signatures : Signatures) × AreSignatures decls signatures }
{}

/// Each wire of a program that breaks no rule has its ends, its type and its first value, whatever nodes and text the
/// core has, if the nodes are those of the program.
pub fn fine_wires_have_cores()
    ensures { (text : List ℕ) (program : Program) (signatures : Signatures) (nodes : List NodeC) → IsFine program.decls
        → AreSignatures program.decls signatures
        → InPlaces (λ (d : Numbered) node. IsNodeOf text signatures d d.decl node) (nodes_in program.decls) nodes
        → (w : WireDecl) → Contains (wires_in program.decls) w
        → (wire : WireC) × IsWireOf text signatures nodes w wire }
{}

/// A program that breaks no rule has a core.
pub fn fine_programs_have_cores()
    ensures { (text : List ℕ) (program : Program) → IsFit program → IsFine program.decls
        → (core : Core) × IsCoreOf text program core }
{}

/// Each program of the grammar breaks a least rule of names, counts, types and limits, or none.
pub fn each_program_breaks_a_least_rule_or_none()
    ensures { (program : Program) → IsFit program → (least : Option Finding) × IsLeast (BreaksCheck program.decls) least }
{}
