//! Laws of the definitions, as contracts of functions that do nothing.
ghost use Rattle.std.specs.Prelude.{None};
ghost use Rattle.hume_base.specs.Least.{IsLeast};
ghost use Rattle.hume_model.specs.declared.core_tree.Core.{Core};
ghost use Rattle.hume_model.specs.WellFormed.{IsWellFormed};
ghost use Rattle.hume_model.specs.Wiring.{IsWired, WiresAgree};
ghost use Rattle.hume_model.specs.WireRules.{BreaksWires};
ghost use Rattle.wiring_check.specs.Wires.{Wires, IsWiringOf};

/// A well-formed core whose wires break no rule has one wire for each input and each output, and wires that meet have one
/// type.
pub fn fine_wires_are_wired()
    ensures wired { (core : Core) → IsWellFormed core → IsLeast (BreaksWires core) None → IsWired core }
    ensures agree { (core : Core) → IsWellFormed core → IsLeast (BreaksWires core) None → WiresAgree core }
{}

/// A core whose wires break no rule has a wiring.
pub fn fine_wires_have_a_wiring()
    ensures { (core : Core) → IsLeast (BreaksWires core) None → (wiring : Wires) × IsWiringOf core wiring }
{}
