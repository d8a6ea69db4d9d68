ghost use Rattle.std.specs.Prelude.{◌≡◌, ℕ, ◌<◌, ◌^◌, [], ◌||◌, map, length, IfOk};
ghost use Rattle.std.specs.List.{list_any};
ghost use Rattle.hume_base.specs.Least.{IsFirst};
ghost use Rattle.check_names.specs.Names.{repeats};
ghost use Rattle.check_names.specs.Mentions.{bound_by};
ghost use Rattle.check_names.specs.Twice.{BindsTwice};
ghost use Rattle.check_names.specs.Twice as twice;

use crate::mention_types::bind_all;
use crate::name_list::NameList;
use crate::repeated::come_twice;
use crate::twice_exps::exp_binds_twice;
use hume_ast::{Decl, Exp, Pat, Program};
use hume_base::{List, Text};
use std::alloc::{AllocError, Global};

/// The first declaration that binds a variable twice in one place.
pub fn first_bound_twice(alloc: Global, program: &Program) -> Result<Option<u32>, AllocError>
    requires { length program.now.decls < 2 ^ 32 }
    ensures { IfOk result (IsFirst (BindsTwice program.now.decls)) }
{
    first_bound_twice_in(alloc, program.decls.as_slice())
}

fn first_bound_twice_in(alloc: Global, decls: &[(u32, Decl)]) -> Result<Option<u32>, AllocError>
    requires { length decls.now < 2 ^ 32 }
    ensures { IfOk result (IsFirst (BindsTwice decls.now)) }
{
    for (i, d) in decls.iter().enumerate() {
        if decl_binds_twice(alloc, &d.1)? {
            return Ok(Some(i as u32));
        }
    }
    Ok(None)
}

fn decl_binds_twice(alloc: Global, decl: &Decl) -> Result<bool, AllocError>
    ensures { IfOk result (λ yes. yes ≡ twice.decl_binds_twice decl.now) }
{
    match decl {
        Decl::Fun(_, _, equations) => equations_bind_twice(alloc, equations.as_slice()),
        Decl::BoxD(_, _, _, _, rules, handlers) => {
            let in_rules = rules_bind_twice(alloc, rules.as_slice())?;
            let in_handlers = handlers_bind_twice(alloc, handlers.as_slice())?;
            Ok(in_rules | in_handlers)
        }
        Decl::Wire(_, _, _, Some(initial)) => exp_binds_twice(alloc, initial),
        _ => Ok(false),
    }
}

fn equations_bind_twice(
    alloc: Global,
    equations: &[(Text, List<Pat>, Exp)],
) -> Result<bool, AllocError>
    ensures { IfOk result (λ yes. yes ≡ list_any (λ equation. twice.clause_binds_twice equation.1 equation.2) equations.now) }
{
    for equation in equations {
        if clause_binds_twice(alloc, equation.1.as_slice(), &equation.2)? {
            return Ok(true);
        }
    }
    Ok(false)
}

fn rules_bind_twice(alloc: Global, rules: &[(List<Pat>, Exp)]) -> Result<bool, AllocError>
    ensures { IfOk result (λ yes. yes ≡ list_any (λ rule. twice.clause_binds_twice rule.0 rule.1) rules.now) }
{
    for rule in rules {
        if clause_binds_twice(alloc, rule.0.as_slice(), &rule.1)? {
            return Ok(true);
        }
    }
    Ok(false)
}

fn handlers_bind_twice(
    alloc: Global,
    handlers: &[(Text, Option<Pat>, Exp)],
) -> Result<bool, AllocError>
    ensures { IfOk result (λ yes. yes ≡ list_any (λ handler. twice.exp_binds_twice handler.2) handlers.now) }
{
    for handler in handlers {
        if exp_binds_twice(alloc, &handler.2)? {
            return Ok(true);
        }
    }
    Ok(false)
}

fn clause_binds_twice(alloc: Global, patterns: &[Pat], exp: &Exp) -> Result<bool, AllocError>
    ensures { IfOk result (λ yes. yes ≡ twice.clause_binds_twice patterns.now exp.now) }
{
    let own = patterns_bind_twice(alloc, patterns)?;
    let inner = exp_binds_twice(alloc, exp)?;
    Ok(own | inner)
}

fn patterns_bind_twice(alloc: Global, patterns: &[Pat]) -> Result<bool, AllocError>
    ensures { IfOk result (λ yes. yes ≡ repeats [] (bound_by patterns.now)) }
{
    let mut names = NameList::new(alloc);
    bind_all(&mut names, patterns)?;
    come_twice(alloc, names)
}
