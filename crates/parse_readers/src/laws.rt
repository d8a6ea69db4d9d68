//! The law on spelling.
ghost use Rattle.std.specs.Prelude.{◌≡◌, ℕ, List};
ghost use Rattle.hume_base.specs.declared.token.Token.{Token};
ghost use Rattle.hume_ast.specs.declared.tree.TyExp.{TyExp};
ghost use Rattle.hume_ast.specs.declared.tree.Pat.{Pat};
ghost use Rattle.hume_ast.specs.declared.tree.Exp.{Exp};
ghost use Rattle.hume_ast.specs.declared.tree.Program.{Program};
ghost use Rattle.hume_ast.specs.Spelling.{spelled_ty, spelled_pat, spelled_exp, spelled};
ghost use Rattle.hume_ast.specs.Fits.{TypeFits, PatFits, ExpFits, IsProper};
ghost use Rattle.hume_ast.specs.Places.{unplaced, StandsFor};

/// Types, patterns and expressions of the grammar that are spelled the same are the same; and so are programs, but for
/// the places of their declarations. Tokens with their places stand for one program at most.
pub fn one_spelling()
    ensures types { (room : ℕ) (t u : TyExp) → TypeFits room t → TypeFits room u → spelled_ty t ≡ spelled_ty u → t ≡ u }
    ensures patterns { (room : ℕ) (p q : Pat) → PatFits room 1 p → PatFits room 1 q → spelled_pat p ≡ spelled_pat q → p ≡ q }
    ensures expressions { (bound m n : ℕ) (e f : Exp) → ExpFits bound m 1 e → ExpFits bound n 1 f → spelled_exp e ≡ spelled_exp f → e ≡ f }
    ensures programs { (p q : Program) → IsProper p → IsProper q → spelled p ≡ spelled q → unplaced p.decls ≡ unplaced q.decls }
    ensures tokens { (tokens : List Token) (p q : Program) → StandsFor tokens p → StandsFor tokens q → p ≡ q }
{}
