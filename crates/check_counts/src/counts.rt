ghost use Rattle.std.specs.Prelude.{◌≡◌, [], ◌∷◌, ◌++◌, map, length, codes, IfOk, OnOk};
ghost use Rattle.check_tables.specs.names.Names.{with_names};
ghost use Rattle.check_counts.specs.Counted.{counted, all_declared, functions_of, constructors_of, exceptions_of, own_exceptions, is_other as differs_from, parameters, carried as carried_values};

use check_tables::names::NameTable;
use hume_ast::{Decl, TyExp};
use hume_base::{List, Text};
use std::alloc::{AllocError, Global};

/// How many parameters functions have, how many fields constructors, and how many values exceptions carry, by their names.
#[derive(Drop)]
pub struct Counts<'a> {
    pub functions: NameTable<'a>,
    pub constructors: NameTable<'a>,
    pub exceptions: NameTable<'a>,
}

/// The counts of all names that the declarations declare.
pub(crate) fn counts_of<'a>(
    alloc: Global,
    decls: &'a [(u32, Decl)],
) -> Result<Counts<'a>, AllocError>
    ensures { IfOk result (λ counts. counts ≡ counted decls.now) }
{
    Ok(Counts {
        functions: function_counts(alloc, decls)?,
        constructors: constructor_counts(alloc, decls)?,
        exceptions: exception_counts(alloc, decls)?,
    })
}

#[tactic(auto, using(crate::proofs::CountSteps::count_steps))]
fn function_counts<'a>(alloc: Global, decls: &'a [(u32, Decl)]) -> Result<NameTable<'a>, AllocError>
    ensures { IfOk result (λ table. table ≡ with_names [] (all_declared functions_of decls.now)) }
{
    let mut table = NameTable::new(alloc);
    for decl in decls {
        add_function(&mut table, &decl.1)?;
    }
    Ok(table)
}

#[tactic(auto, using(crate::proofs::CountSteps::count_steps))]
fn add_function<'a>(table: &mut NameTable<'a>, decl: &'a Decl) -> Result<(), AllocError>
    ensures { OnOk result (table.new ≡ with_names table.old (functions_of decl.now)) }
{
    match decl {
        Decl::Fun(name, tys, _) => {
            let _is_new = table.add(name.bytes(), parameter_count(tys.as_slice()))?;
            Ok(())
        }
        _ => Ok(()),
    }
}

/// How many parameters a function of these types has: the last type is that of its result.
pub(crate) fn parameter_count(tys: &[TyExp]) -> usize
    ensures { result ≡ parameters tys.now }
{
    tys.len().saturating_sub(1)
}

#[tactic(auto, using(crate::proofs::CountSteps::count_steps))]
fn constructor_counts<'a>(
    alloc: Global,
    decls: &'a [(u32, Decl)],
) -> Result<NameTable<'a>, AllocError>
    ensures { IfOk result (λ table. table ≡ with_names [] (all_declared constructors_of decls.now)) }
{
    let mut table = NameTable::new(alloc);
    for decl in decls {
        add_constructors_of(&mut table, &decl.1)?;
    }
    Ok(table)
}

#[tactic(auto, using(crate::proofs::CountSteps::count_steps))]
fn add_constructors_of<'a>(table: &mut NameTable<'a>, decl: &'a Decl) -> Result<(), AllocError>
    ensures { OnOk result (table.new ≡ with_names table.old (constructors_of decl.now)) }
{
    match decl {
        Decl::Sum(_, cons) => add_constructors(table, cons.as_slice()),
        _ => Ok(()),
    }
}

#[tactic(auto, using(crate::proofs::CountSteps::count_steps))]
fn add_constructors<'a>(
    table: &mut NameTable<'a>,
    cons: &'a [(Text, List<TyExp>)],
) -> Result<(), AllocError>
    ensures { OnOk result (table.new ≡ with_names table.old (map (λ con. (con.0, length con.1)) cons.now)) }
{
    for con in cons {
        let _is_new = table.add(con.0.bytes(), con.1.len())?;
    }
    Ok(())
}

#[tactic(auto, using(crate::proofs::CountSteps::count_steps))]
fn exception_counts<'a>(
    alloc: Global,
    decls: &'a [(u32, Decl)],
) -> Result<NameTable<'a>, AllocError>
    ensures { IfOk result (λ table. table ≡ with_names [] (own_exceptions ++ all_declared exceptions_of decls.now)) }
{
    let mut table = own_exception_counts(alloc)?;
    for decl in decls {
        add_exception(&mut table, &decl.1)?;
    }
    Ok(table)
}

#[tactic(auto, using(crate::proofs::CountSteps::count_steps))]
fn own_exception_counts<'a>(alloc: Global) -> Result<NameTable<'a>, AllocError>
    ensures { IfOk result (λ table. table ≡ with_names [] own_exceptions) }
{
    let mut table = NameTable::new(alloc);
    let _division = table.add(b"DivZero", 0)?;
    let _range = table.add(b"Range", 0)?;
    let _case = table.add(b"NoCase", 0)?;
    Ok(table)
}

#[tactic(auto, using(crate::proofs::CountSteps::count_steps))]
fn add_exception<'a>(table: &mut NameTable<'a>, decl: &'a Decl) -> Result<(), AllocError>
    ensures { OnOk result (table.new ≡ with_names table.old (exceptions_of decl.now)) }
{
    match decl {
        Decl::Exn(name, carried) => {
            let _is_new = table.add(name.bytes(), carried_count(carried))?;
            Ok(())
        }
        _ => Ok(()),
    }
}

fn carried_count(carried: &Option<TyExp>) -> usize
    ensures { result ≡ carried_values carried.now }
{
    match carried {
        None => 0,
        Some(_) => 1,
    }
}

/// Whether the name has a count, and another one.
pub(crate) fn is_other(table: &NameTable, name: &[u8], count: usize) -> bool
    ensures { result ≡ differs_from table.now name.now count }
{
    match table.find(name) {
        None => false,
        Some(other) => count != other,
    }
}
