ghost use Rattle.std.specs.Prelude.{◌≡◌, ◌<◌, ◌^◌, length, option_map, IsTrue, IfOk};
ghost use Rattle.hume_base.specs.declared.rule.Rule.TheVariants.{C45};
ghost use Rattle.hume_base.specs.Least.{IsFirst, IsLeast, OfRule};
ghost use Rattle.check_names.specs.Names.{OfDecl};
ghost use Rattle.check_rules.specs.Constants.{constant as constant_of};
ghost use Rattle.check_rules.specs.SignaturesOf.{AreSignatures};
ghost use Rattle.check_rules.specs.TypeRules.{HasNoInitial};
ghost use Rattle.check_wires.specs.first_values.inner.Unfit.{is_missing, is_no_value as is_no_value_of, has_unfit_value as has_unfit_value_in};

use crate::constants::{constant, is_built};
use crate::types::WireTypes;
use check_rules::signatures_are_unique;
use check_scopes::signatures::SignatureTable;
use hume_ast::{Decl, Exp};
use hume_base::{Finding, Rule, Ty};
use std::alloc::{AllocError, Global};

/// The first wire with a first value that is none of its type, by the signatures of the program.
pub fn first_without_value(
    alloc: Global,
    decls: &[(u32, Decl)],
    table: &SignatureTable,
) -> Result<Option<Finding>, AllocError>
    requires few { length decls.now < 2 ^ 32 }
    requires are { AreSignatures decls.now table.now }
    ensures { IfOk result (IsLeast (OfRule C45 (HasNoInitial decls.now))) }
{
    // by this law the rule speaks of the signatures of the table
    signatures_are_unique();
    let types = WireTypes::make(alloc, table, decls)?;
    let first = first_unfit(alloc, decls, table, &types)?;
    Ok(Finding::of(Rule::C45, first))
}

// The first wire with a first value that is none of its type, by the types of wires.
fn first_unfit(
    alloc: Global,
    decls: &[(u32, Decl)],
    table: &SignatureTable,
    types: &WireTypes,
) -> Result<Option<u32>, AllocError>
    requires { length decls.now < 2 ^ 32 }
    ensures { IfOk result (IsFirst (λ i. OfDecl decls.now i (λ decl. IsTrue (has_unfit_value_in table.now types.now decl)))) }
{
    for (i, decl) in decls.iter().enumerate() {
        if has_unfit_value(alloc, table, types, &decl.1)? {
            return Ok(Some(i as u32));
        }
    }
    Ok(None)
}

fn has_unfit_value(
    alloc: Global,
    table: &SignatureTable,
    types: &WireTypes,
    decl: &Decl,
) -> Result<bool, AllocError>
    ensures { IfOk result (λ unfit. unfit ≡ has_unfit_value_in table.now types.now decl.now) }
{
    match decl {
        Decl::Wire(from, to, _, Some(value)) => is_no_value(
            alloc,
            table,
            types.between(from, to),
            value,
        ),
        _ => Ok(false),
    }
}

// Whether it isn't built as values are, or is no value of the type.
fn is_no_value(
    alloc: Global,
    table: &SignatureTable,
    ty: Option<&Ty>,
    value: &Exp,
) -> Result<bool, AllocError>
    ensures { IfOk result (λ unfit. unfit ≡ is_no_value_of table.now (option_map (λ ty. ty.now) ty.entry) value.now) }
{
    if !is_built(value) {
        return Ok(true);
    }
    match ty {
        None => Ok(false),
        Some(ty) => is_unfit(alloc, table, ty, value),
    }
}

fn is_unfit(alloc: Global, table: &SignatureTable, ty: &Ty, value: &Exp) -> Result<bool, AllocError>
    ensures { IfOk result (λ unfit. unfit ≡ is_missing (constant_of table.now value.now ty.now)) }
{
    let found = constant(alloc, table, value, ty)?;
    Ok(found.is_none())
}
