ghost use Rattle.std.specs.Prelude.{◌≡◌, ◌<◌, ◌^◌, ℕ, List, length};
ghost use Rattle.std.specs.List.{list_any};
ghost use Rattle.hume_base.specs.declared.limits.TheConstants.{MAX_FIELDS as MOST_FIELDS};
ghost use Rattle.hume_base.specs.Least.{IsFirst};
ghost use Rattle.hume_ast.specs.declared.tree.TyExp.{TyExp as TypeTree};
ghost use Rattle.check_counts.specs.Miscounts.{has_many};
ghost use Rattle.check_counts.specs.Limits.{PassesLimits, has_many_parts as many_parts_in};
ghost use Rattle.check_counts.specs.inner.Tallies.{passes};

use crate::counts::parameter_count;
use crate::tally::Tally;
use hume_ast::{Decl, Program, TyExp};
use hume_base::limits::{MAX_FIELDS, MAX_INPUTS, MAX_OUTPUTS, MAX_PARAMETERS, MAX_RULES};
use hume_base::{List, Text};

/// The first declaration that is one too many of its kind, or has too many parts.
pub fn first_past_limits(program: &Program) -> Option<u32>
    requires { length program.now.decls < 2 ^ 32 }
    ensures { IsFirst (PassesLimits program.now.decls) result }
{
    first_past(program.decls.as_slice())
}

fn first_past(decls: &[(u32, Decl)]) -> Option<u32>
    requires { length decls.now < 2 ^ 32 }
    ensures { IsFirst (PassesLimits decls.now) result }
{
    let mut before = Tally::none();
    for (i, decl) in decls.iter().enumerate() {
        if passes_limits(&before, &decl.1) {
            return Some(i as u32);
        }
        before.add(&decl.1);
    }
    None
}

// Whether the declaration is one too many, by those before it, or has too many parts.
fn passes_limits(before: &Tally, decl: &Decl) -> bool
    ensures { result ≡ passes before.now decl.now }
{
    before.is_full_for(decl) || has_many_parts(decl)
}

fn has_many_parts(decl: &Decl) -> bool
    ensures { result ≡ many_parts_in decl.now }
{
    match decl {
        Decl::Sum(_, cons) => a_constructor_has_many(cons.as_slice()),
        Decl::Exn(_, _) => false,
        Decl::Fun(_, tys, _) => parameter_count(tys.as_slice()) > MAX_PARAMETERS,
        Decl::BoxD(_, ins, outs, _, rules, _) => {
            ins.len() > MAX_INPUTS || (outs.len() > MAX_OUTPUTS || rules.len() > MAX_RULES)
        }
        Decl::Stream(_, _, _) => false,
        Decl::Wire(_, _, _, _) => false,
    }
}

fn a_constructor_has_many(cons: &[(Text, List<TyExp>)]) -> bool
    ensures { result ≡ list_any (λ (con : List ℕ × List TypeTree). has_many MOST_FIELDS con.1) cons.now }
{
    for con in cons {
        if con.1.len() > MAX_FIELDS {
            return true;
        }
    }
    false
}
