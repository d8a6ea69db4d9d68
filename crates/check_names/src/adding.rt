ghost use Rattle.std.specs.Prelude.{◌≡◌, [], ◌++◌, IfOk, OnOk};
ghost use Rattle.check_tables.specs.names.Names.{names_of};
ghost use Rattle.check_names.specs.Names.{repeats};
ghost use Rattle.check_names.specs.DeclaredNames.{given_exceptions};
ghost use Rattle.check_names.specs.Leading.{names_of_kind};
ghost use Rattle.check_names.specs.inner.Spaces.{SameNames};

use crate::declared::names_declared;
use crate::mention_list::NameKind;
use crate::name_list::NameList;
use check_tables::names::NameTable;
use hume_ast::Decl;
use std::alloc::{AllocError, Global};

/// Adds the exceptions that nothing declares to an empty table.
pub(crate) fn add_given(table: &mut NameTable) -> Result<(), AllocError>
    requires { table.old ≡ [] }
    ensures { OnOk result (SameNames (names_of table.new) given_exceptions) }
{
    table.add(b"DivZero", 0)?;
    table.add(b"Range", 0)?;
    table.add(b"NoCase", 0)?;
    Ok(())
}

/// Adds the names of a kind that a declaration declares, and says whether one of them was there or comes twice.
pub(crate) fn add_declared_names<'a>(
    alloc: Global,
    table: &mut NameTable<'a>,
    kind: NameKind,
    decl: &'a Decl,
) -> Result<bool, AllocError>
    ensures again { IfOk result (λ again. again ≡ repeats (names_of table.old) (names_of_kind kind decl.now)) }
    ensures added { OnOk result (SameNames (names_of table.new) (names_of table.old ++ names_of_kind kind decl.now)) }
{
    let names = names_declared(alloc, kind, decl)?;
    add_names(table, names)
}

/// Adds names, and says whether one of them was there or comes twice.
pub(crate) fn add_names<'a>(
    table: &mut NameTable<'a>,
    names: NameList<'a>,
) -> Result<bool, AllocError>
    ensures again { IfOk result (λ again. again ≡ repeats (names_of table.old) names.entry) }
    ensures added { OnOk result (SameNames (names_of table.new) (names_of table.old ++ names.entry)) }
{
    add_all(table, &names, 0)
}

// Adds names, all with one number.
fn add_all<'a>(
    table: &mut NameTable<'a>,
    names: &NameList<'a>,
    number: usize,
) -> Result<bool, AllocError>
    ensures again { IfOk result (λ again. again ≡ repeats (names_of table.old) names.now) }
    ensures added { OnOk result (SameNames (names_of table.new) (names_of table.old ++ names.now)) }
{
    let mut again = false;
    for at in 0..names.len() {
        let is_new = table.add(names.get(at), number)?;
        again = again | !is_new;
    }
    Ok(again)
}
