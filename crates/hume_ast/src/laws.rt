//! Laws on depth.
ghost use Rattle.std.specs.Prelude.{◌↔◌, ◌≤◌, ℕ};
ghost use Rattle.hume_base.specs.declared.limits.TheConstants.{MAX_DEPTH};
ghost use Rattle.hume_ast.specs.declared.tree.TyExp.{TyExp};
ghost use Rattle.hume_ast.specs.declared.tree.Pat.{Pat};
ghost use Rattle.hume_ast.specs.declared.tree.Exp.{Exp};
ghost use Rattle.hume_ast.specs.declared.tree.Program.{Program};
ghost use Rattle.hume_ast.specs.Fits.{TypeFits, PatFits, ExpFits, DeclsFit, IsProper, IsFit};
ghost use Rattle.hume_ast.specs.Depth.{ty_depth, pat_depth, exp_depth, program_depth};

/// A type, a pattern or an expression that the grammar has at a level is within exactly the depths that are not less
/// than its own; and so is a program that is proper. So a program is fit exactly where it is proper and no deeper than
/// it may be.
pub fn depth_decides()
    ensures types { (some room : ℕ) (type : TyExp) → TypeFits some type → TypeFits room type ↔ (ty_depth type ≤ room) }
    ensures patterns { (some room level : ℕ) (pattern : Pat) → PatFits some level pattern → PatFits room level pattern ↔ (pat_depth pattern ≤ room) }
    ensures expressions { (bound some room level : ℕ) (exp : Exp) → ExpFits bound some level exp → ExpFits bound room level exp ↔ (exp_depth exp ≤ room) }
    ensures bounds { (bound : ℕ) (program : Program) → DeclsFit bound program.decls ↔ (IsProper program × (program_depth program ≤ bound)) }
    ensures programs { (program : Program) → IsFit program ↔ (IsProper program × (program_depth program ≤ MAX_DEPTH)) }
{}
