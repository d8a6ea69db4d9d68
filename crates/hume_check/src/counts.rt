//! The rules on names and counts.
ghost use Rattle.std.specs.Prelude.{◌<◌, ◌⊎◌, ◌^◌, length, IfOk};
ghost use Rattle.hume_base.specs.declared.finding.Finding.{Finding as BrokenRule};
ghost use Rattle.hume_base.specs.Least.{IsLeast};
ghost use Rattle.check_names.specs.Misnamed.{BreaksNames};
ghost use Rattle.check_rules.specs.CheckRules.{BreaksCounts};

use check_counts::{first_miscounted, first_stray_star};
use check_names::{first_bound_twice, first_misnamed};
use hume_ast::Program;
use hume_base::{Finding, Rule, earlier};
use std::alloc::{AllocError, Global};

/// The least rule on names or counts that the program breaks.
pub(crate) fn least_in_names_or_counts(
    alloc: Global,
    program: &Program,
) -> Result<Option<Finding>, AllocError>
    requires { length program.now.decls < 2 ^ 32 }
    ensures { IfOk result (IsLeast (λ (f : BrokenRule). BreaksNames program.now.decls f ⊎ BreaksCounts program.now.decls f)) }
{
    match first_misnamed(alloc, program)? {
        Some(finding) => Ok(Some(finding)),
        None => least_in_counts(alloc, program),
    }
}

fn least_in_counts(alloc: Global, program: &Program) -> Result<Option<Finding>, AllocError>
    requires { length program.now.decls < 2 ^ 32 }
    ensures { IfOk result (IsLeast (BreaksCounts program.now.decls)) }
{
    let miscounted = Finding::of(Rule::C42, first_miscounted(alloc, program)?);
    let bound_twice = Finding::of(Rule::C43, first_bound_twice(alloc, program)?);
    let stray_star = Finding::of(Rule::C44, first_stray_star(program));
    Ok(earlier(miscounted, earlier(bound_twice, stray_star)))
}
