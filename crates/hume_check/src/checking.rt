//! The check of a program.
ghost use Rattle.std.specs.Prelude.{◌≡◌, ◌≤◌, ◌<◌, ◌⊎◌, ◌^◌, length, Some, None, IfOk, IfErr, OnOk};
ghost use Rattle.hume_base.specs.declared.limits.TheConstants.{MAX_SOURCE_BYTES};
ghost use Rattle.hume_base.specs.declared.finding.Finding.{Finding as BrokenRule};
ghost use Rattle.hume_base.specs.Least.{IsLeast};
ghost use Rattle.hume_ast.specs.Fits.{IsFit};
ghost use Rattle.check_names.specs.Misnamed.{BreaksNames};
ghost use Rattle.check_rules.specs.SignaturesOf.{AreSignatures};
ghost use Rattle.check_rules.specs.CheckRules.{BreaksCounts, BreaksCheck};
ghost use Rattle.check_rules.specs.CoreOf.{IsCoreOf};
ghost use Rattle.hume_check.specs.Refused.{IsUnchecked};
ghost use Rattle.typed_core.specs.Trees.{AreTrees};
ghost use Rattle.hume_check.specs.inner.CoreTrees.{AreInOrder};
ghost use Rattle.hume_check.specs.inner.Parts.{AreParts};

use crate::assembly::{TypedParts, core_of, typed_parts};
use crate::core_trees::trees_are_those_of_the_core;
use crate::counts::least_in_names_or_counts;
use crate::limits::trees_or_least;
use crate::refused::refusal;
use check_scopes::signatures::SignatureTable;
use check_signatures::{Ordered, signatures_of};
use hume_ast::Program;
use hume_base::lines::LineTable;
use hume_base::{Finding, Refusal};
use hume_model::Core;
use std::alloc::{AllocError, Global};
use thiserror::Error;
use typed_core::Trees;

/// Why a program has no core.
#[derive(Debug, Drop, PartialEq, Eq, Error)]
pub enum CheckError {
    /// The least rule that it breaks.
    #[error("the program breaks a rule")]
    Refused(Refusal),
    #[error("out of memory")]
    NoMemory,
}

impl From<AllocError> for CheckError {
    ghost use Rattle.hume_check.specs.declared.checking.CheckError.TheVariants.{NoMemory};

    ghost from_gives = { λ _ error. error ≡ NoMemory };

    fn from(_: AllocError) -> Self {
        CheckError::NoMemory
    }
}

/// A core with its typed trees.
#[derive(Drop)]
pub struct Typed {
    pub core: Core,
    pub trees: Trees,
}

/// The core of the program in the source of that text, if it breaks no rule of its names, counts, types and limits.
pub fn check(alloc: Global, program: &Program, text: &[u8]) -> Result<Core, CheckError>
    requires fit { IsFit program.now }
    requires few { length program.now.decls < 2 ^ 32 }
    requires short { length text.now ≤ MAX_SOURCE_BYTES }
    ensures fine { OnOk result (IsLeast (BreaksCheck program.now.decls) None) }
    ensures core { IfOk result (IsCoreOf text.now program.now) }
    ensures error { IfErr result (IsUnchecked text.now program.now.decls) }
{
    let typed = check_typed(alloc, program, text)?;
    let Typed { core, trees: _ } = typed;
    Ok(core)
}

/// The same core with its typed trees, from which code can be generated.
pub fn check_typed(alloc: Global, program: &Program, text: &[u8]) -> Result<Typed, CheckError>
    requires fit { IsFit program.now }
    requires few { length program.now.decls < 2 ^ 32 }
    requires short { length text.now ≤ MAX_SOURCE_BYTES }
    ensures fine { OnOk result (IsLeast (BreaksCheck program.now.decls) None) }
    ensures core { IfOk result (λ typed. IsCoreOf text.now program.now typed.core) }
    ensures trees { IfOk result (λ typed. AreTrees typed.core typed.trees) }
    ensures error { IfErr result (IsUnchecked text.now program.now.decls) }
{
    let lines = LineTable::make(alloc, text)?;
    match least_in_names_or_counts(alloc, program)? {
        Some(finding) => Err(refused(&lines, program, finding)),
        None => check_named(alloc, program, &lines),
    }
}

fn refused(lines: &LineTable, program: &Program, finding: Finding) -> CheckError
    requires { IsLeast (BreaksCheck program.now.decls) (Some finding) }
    ensures { IsUnchecked lines.now program.now.decls result }
{
    CheckError::Refused(refusal(lines, program.decls.as_slice(), finding))
}

// Names and counts are fine, so that there are signatures.
fn check_named(alloc: Global, program: &Program, lines: &LineTable) -> Result<Typed, CheckError>
    requires fit { IsFit program.now }
    requires few { length program.now.decls < 2 ^ 32 }
    requires named { IsLeast (λ (f : BrokenRule). BreaksNames program.now.decls f ⊎ BreaksCounts program.now.decls f) None }
    ensures fine { OnOk result (IsLeast (BreaksCheck program.now.decls) None) }
    ensures core { IfOk result (λ typed. IsCoreOf lines.now program.now typed.core) }
    ensures trees { IfOk result (λ typed. AreTrees typed.core typed.trees) }
    ensures error { IfErr result (IsUnchecked lines.now program.now.decls) }
{
    match signatures_of(alloc, program.decls.as_slice())? {
        Some(ordered) => check_ordered(alloc, program, lines, ordered),
        None => unreachable!(),
    }
}

fn check_ordered(
    alloc: Global,
    program: &Program,
    lines: &LineTable,
    ordered: Ordered,
) -> Result<Typed, CheckError>
    requires few { length program.now.decls < 2 ^ 32 }
    requires named { IsLeast (λ (f : BrokenRule). BreaksNames program.now.decls f ⊎ BreaksCounts program.now.decls f) None }
    requires are { (are : AreSignatures program.now.decls ordered.signatures) × (are.funs.order ≡ ordered.functions) }
    ensures fine { OnOk result (IsLeast (BreaksCheck program.now.decls) None) }
    ensures core { IfOk result (λ typed. IsCoreOf lines.now program.now typed.core) }
    ensures trees { IfOk result (λ typed. AreTrees typed.core typed.trees) }
    ensures error { IfErr result (IsUnchecked lines.now program.now.decls) }
{
    // by this law the trees are those of the core
    trees_are_those_of_the_core();
    let typed = parts_checked(alloc, program, lines, &ordered)?;
    let core = core_of(ordered.signatures, typed.parts);
    Ok(Typed {
        core,
        trees: typed.trees,
    })
}

// The parts of the core and its trees, made with the one table of the signatures.
fn parts_checked(
    alloc: Global,
    program: &Program,
    lines: &LineTable,
    ordered: &Ordered,
) -> Result<TypedParts, CheckError>
    requires few { length program.now.decls < 2 ^ 32 }
    requires named { IsLeast (λ (f : BrokenRule). BreaksNames program.now.decls f ⊎ BreaksCounts program.now.decls f) None }
    requires are { (are : AreSignatures program.now.decls ordered.now.signatures) × (are.funs.order ≡ ordered.now.functions) }
    ensures fine { OnOk result (IsLeast (BreaksCheck program.now.decls) None) }
    ensures parts { IfOk result (λ typed. AreParts lines.now program.now.decls ordered.now.functions ordered.now.signatures typed.parts) }
    ensures trees { IfOk result (λ typed. AreInOrder ordered.now.signatures program.now.decls ordered.now.functions typed.trees) }
    ensures error { IfErr result (IsUnchecked lines.now program.now.decls) }
{
    let table = SignatureTable::make(alloc, &ordered.signatures)?;
    parts_by_table(alloc, program, lines, ordered.functions.as_slice(), &table)
}

fn parts_by_table(
    alloc: Global,
    program: &Program,
    lines: &LineTable,
    order: &[u32],
    table: &SignatureTable,
) -> Result<TypedParts, CheckError>
    requires few { length program.now.decls < 2 ^ 32 }
    requires named { IsLeast (λ (f : BrokenRule). BreaksNames program.now.decls f ⊎ BreaksCounts program.now.decls f) None }
    requires are { (are : AreSignatures program.now.decls table.now) × (are.funs.order ≡ order.now) }
    ensures fine { OnOk result (IsLeast (BreaksCheck program.now.decls) None) }
    ensures parts { IfOk result (λ typed. AreParts lines.now program.now.decls order.now table.now typed.parts) }
    ensures trees { IfOk result (λ typed. AreInOrder table.now program.now.decls order.now typed.trees) }
    ensures error { IfErr result (IsUnchecked lines.now program.now.decls) }
{
    match trees_or_least(alloc, program, table)? {
        Ok(trees) => Ok(typed_parts(alloc, lines, program, order, table, trees)?),
        Err(finding) => Err(refused(lines, program, finding)),
    }
}
