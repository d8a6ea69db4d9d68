//! The types that are found for wires are those that wires have.
ghost use Rattle.std.specs.Prelude.{◌≡◌};
ghost use Rattle.hume_base.specs.declared.types.Types.{Types};
ghost use Rattle.check_rules.specs.Declared.{Decls, WireDecl};
ghost use Rattle.check_rules.specs.TypeRules.{wire_type};
ghost use Rattle.check_wires.specs.types.NodeTypes.{node_types, type_between};

/// What is found between the ends of a wire is the wire's type.
pub fn types_between_ends()
    ensures { (types : Types) (decls : Decls) (w : WireDecl) → type_between (node_types types decls) w.from w.to ≡ wire_type types decls w }
{}
