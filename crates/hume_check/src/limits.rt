//! The rules on limits, and with them the least rule that is asked of a program whose names and counts are fine.
ghost use Rattle.std.specs.Prelude.{◌<◌, ◌⊎◌, ◌^◌, length, IfOk};
ghost use Rattle.hume_base.specs.declared.finding.Finding.{Finding as BrokenRule};
ghost use Rattle.hume_base.specs.Least.{IsLeast};
ghost use Rattle.check_rules.specs.SignaturesOf.{AreSignatures};
ghost use Rattle.check_rules.specs.CheckRules.{BreaksTypes, BreaksLimits};
ghost use Rattle.hume_check.specs.inner.Trees.{HaveTreesOr};

use crate::types::{trees_or_least_in_types, trees_unless};
use check_counts::first_past_limits;
use check_scopes::signatures::SignatureTable;
use check_sizes::{first_large_type, first_past_words};
use hume_ast::Program;
use hume_base::{Finding, List, Rule, earlier};
use std::alloc::{AllocError, Global};
use typed_core::TypedDeclaration;

/// The trees of the program's declarations, or the least rule on types or limits that it breaks.
pub(crate) fn trees_or_least(
    alloc: Global,
    program: &Program,
    table: &SignatureTable,
) -> Result<Result<List<TypedDeclaration>, Finding>, AllocError>
    requires few { length program.now.decls < 2 ^ 32 }
    requires are { AreSignatures program.now.decls table.now }
    ensures { IfOk result (HaveTreesOr
        (λ (f : BrokenRule). BreaksTypes program.now.decls f ⊎ BreaksLimits program.now.decls f) table.now program.now.decls) }
{
    match trees_or_least_in_types(alloc, program.decls.as_slice(), table)? {
        Ok(trees) => Ok(trees_unless(trees, least_in_limits(alloc, program, table)?)),
        Err(finding) => Ok(Err(finding)),
    }
}

fn least_in_limits(
    alloc: Global,
    program: &Program,
    table: &SignatureTable,
) -> Result<Option<Finding>, AllocError>
    requires few { length program.now.decls < 2 ^ 32 }
    requires are { AreSignatures program.now.decls table.now }
    ensures { IfOk result (IsLeast (BreaksLimits program.now.decls)) }
{
    let decls = program.decls.as_slice();
    let past_limits = Finding::of(Rule::C72, first_past_limits(program));
    let large_type = first_large_type(alloc, decls, table)?;
    let past_words = first_past_words(alloc, decls, table)?;
    Ok(earlier(past_limits, earlier(large_type, past_words)))
}
