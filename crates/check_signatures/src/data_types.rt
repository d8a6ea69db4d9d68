ghost use Rattle.std.specs.Prelude.{◌≡◌, [], ◌∷◌, ◌++◌, Some, map, option_map, IfOk, IfSome, OnOk};
ghost use Rattle.hume_base.specs.Sizes.{HaveTheirSizes};
ghost use Rattle.check_typing.specs.Partial.{given};
ghost use Rattle.check_typing.specs.WrittenTypes.{all_there};
ghost use Rattle.check_rules.specs.Declared.{data_of};
ghost use Rattle.check_signatures.specs.inner.Named.{constructor_by, data_type_by, data_types_in, without_size};

use crate::names::declaration;
use crate::sizes::words_of;
use crate::types::written_all;
use check_tables::names::NameTable;
use hume_ast::{Decl, TyExp};
use hume_base::{ConDef, List, SumDef, Text, Types};
use std::alloc::{AllocError, Global};

/// The data types in the order of their numbers, if their fields have types. The size of each is written beside it.
#[tactic(auto, using(crate::proofs::Gathered::gathered_steps))]
pub(crate) fn ordered_data_types(
    alloc: Global,
    names: &NameTable,
    decls: &[(u32, Decl)],
    order: &[u32],
) -> Result<Option<Types>, AllocError>
    ensures are { IfOk result (λ found.
        option_map (λ types. map without_size types.sums) found ≡ data_types_in names.now decls.now order.now) }
    ensures sizes { IfOk result (λ found. IfSome found HaveTheirSizes) }
{
    let mut types = Types {
        sums: List::new(alloc),
    };
    for number in order {
        match data_type_in(alloc, names, declaration(decls, *number))? {
            None => {}
            Some(None) => return Ok(None),
            Some(Some((name, cons))) => add_data_type(&mut types, name, cons)?,
        }
    }
    Ok(Some(types))
}

fn add_data_type(types: &mut Types, name: Text, cons: List<ConDef>) -> Result<(), AllocError>
    requires { HaveTheirSizes types.old }
    ensures added { OnOk result (map without_size types.new.sums ≡ map without_size types.old.sums ++ (name, cons) ∷ []) }
    ensures sizes { OnOk result (HaveTheirSizes types.new) }
{
    let words = words_of(types, cons.as_slice());
    types.sums.push(SumDef { name, cons, words })?;
    Ok(())
}

// The data type of a declaration, if it is of one; a field may have no type.
fn data_type_in(
    alloc: Global,
    names: &NameTable,
    d: Option<&(u32, Decl)>,
) -> Result<Option<Option<(Text, List<ConDef>)>>, AllocError>
    ensures { IfOk result (λ found. found
        ≡ option_map (data_type_by names.now) (given (option_map (λ one. one.now) d.entry) data_of)) }
{
    let Some(d) = d else {
        return Ok(None);
    };
    match &d.1 {
        Decl::Sum(name, cons) => {
            let data_type = data_type(alloc, names, name, cons.as_slice())?;
            Ok(Some(data_type))
        }
        _ => Ok(None),
    }
}

fn data_type(
    alloc: Global,
    names: &NameTable,
    name: &Text,
    cons: &[(Text, List<TyExp>)],
) -> Result<Option<(Text, List<ConDef>)>, AllocError>
    ensures { IfOk result (λ found. found ≡ data_type_by names.now (name.now, cons.now)) }
{
    match constructors(alloc, names, cons)? {
        None => Ok(None),
        Some(cons) => {
            let name = name.copy()?;
            Ok(Some((name, cons)))
        }
    }
}

fn constructors(
    alloc: Global,
    names: &NameTable,
    cons: &[(Text, List<TyExp>)],
) -> Result<Option<List<ConDef>>, AllocError>
    ensures { IfOk result (λ found. found ≡ all_there (map (constructor_by names.now) cons.now)) }
{
    let mut found = List::new(alloc);
    for con in cons {
        match constructor(alloc, names, &con.0, con.1.as_slice())? {
            None => return Ok(None),
            Some(con) => found.push(con)?,
        }
    }
    Ok(Some(found))
}

fn constructor(
    alloc: Global,
    names: &NameTable,
    name: &Text,
    tys: &[TyExp],
) -> Result<Option<ConDef>, AllocError>
    ensures { IfOk result (λ found. found ≡ constructor_by names.now (name.now, tys.now)) }
{
    match written_all(alloc, names, tys)? {
        None => Ok(None),
        Some(fields) => {
            let name = name.copy()?;
            Ok(Some(ConDef { name, fields }))
        }
    }
}
