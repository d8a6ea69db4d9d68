//! Names with the places of what has them.
ghost use Rattle.std.specs.Prelude.{◌≡◌, IfOk};
ghost use Rattle.hume_base.specs.declared.types.SumDef.{SumDef as DataType};
ghost use Rattle.hume_model.specs.declared.core_tree.ExnDef.{ExnDef as Exception};
ghost use Rattle.check_typing.specs.declared.signatures.Signature.{Signature as Function};
ghost use Rattle.check_scopes.specs.signatures.inner.Tables.{table_of};

use check_tables::names::NameTable;
use check_typing::Signature;
use hume_base::SumDef;
use hume_model::ExnDef;
use std::alloc::{AllocError, Global};

#[tactic(auto, using(crate::proofs::signatures_lemmas::Steps::table_steps))]
pub(crate) fn function_names<'a>(
    alloc: Global,
    functions: &'a [Signature],
) -> Result<NameTable<'a>, AllocError>
    ensures { IfOk result (λ table. table ≡ table_of (λ (function : Function). function.name) functions.now) }
{
    let mut table = NameTable::new(alloc);
    for (number, function) in functions.iter().enumerate() {
        let _is_new = table.add(function.name.bytes(), number)?;
    }
    Ok(table)
}

#[tactic(auto, using(crate::proofs::signatures_lemmas::Steps::table_steps))]
pub(crate) fn exception_names<'a>(
    alloc: Global,
    exceptions: &'a [ExnDef],
) -> Result<NameTable<'a>, AllocError>
    ensures { IfOk result (λ table. table ≡ table_of (λ (exn : Exception). exn.name) exceptions.now) }
{
    let mut table = NameTable::new(alloc);
    for (number, exception) in exceptions.iter().enumerate() {
        let _is_new = table.add(exception.name.bytes(), number)?;
    }
    Ok(table)
}

#[tactic(auto, using(crate::proofs::signatures_lemmas::Steps::table_steps))]
pub(crate) fn data_type_names<'a>(
    alloc: Global,
    data_types: &'a [SumDef],
) -> Result<NameTable<'a>, AllocError>
    ensures { IfOk result (λ table. table ≡ table_of (λ (sum : DataType). sum.name) data_types.now) }
{
    let mut table = NameTable::new(alloc);
    for (number, data_type) in data_types.iter().enumerate() {
        let _is_new = table.add(data_type.name.bytes(), number)?;
    }
    Ok(table)
}
