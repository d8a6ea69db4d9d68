ghost use Rattle.std.specs.Prelude.{◌≡◌, ℕ, ◌<◌, ◌^◌, [], ◌++◌, length, ◌||◌, IfOk, OnOk};
ghost use Rattle.hume_base.specs.Least.{IsFirst};
ghost use Rattle.check_names.specs.Names.{repeats};
ghost use Rattle.check_tables.specs.names.Names.{names_of};
ghost use Rattle.check_names.specs.DeclaredNames as declared;
ghost use Rattle.check_names.specs.Repeated as shared;
ghost use Rattle.check_names.specs.Repeated.{RepeatsName, spaces_in, repeats_shared, repeats_own};
ghost use Rattle.check_names.specs.inner.Spaces.{SameNames, SameSpaces, spaces_of, with_declared};

use crate::adding::{add_declared_names, add_given, add_names};
use crate::declared::{capitals_of, handled_of, nodes_of, ports_of};
use crate::mention_list::NameKind;
use crate::name_list::NameList;
use check_tables::names::NameTable;
use hume_ast::{Decl, Program};
use std::alloc::{AllocError, Global};

// The names of the spaces that all declarations share.
#[derive(Drop)]
pub(crate) struct Tables<'a> {
    pub(crate) types: NameTable<'a>,
    pub(crate) capitals: NameTable<'a>,
    pub(crate) functions: NameTable<'a>,
    pub(crate) nodes: NameTable<'a>,
}

/// The first declaration that declares a name that its space has already, or one twice.
pub fn first_repeated(alloc: Global, program: &Program) -> Result<Option<u32>, AllocError>
    requires { length program.now.decls < 2 ^ 32 }
    ensures { IfOk result (IsFirst (RepeatsName program.now.decls)) }
{
    // Each way out of a function drops what it owns: so the tables are owned here, and lent to what can fail.
    let mut tables = Tables {
        types: NameTable::new(alloc),
        capitals: NameTable::new(alloc),
        functions: NameTable::new(alloc),
        nodes: NameTable::new(alloc),
    };
    let first = first_repeated_over(alloc, &mut tables, program.decls.as_slice());
    drop(tables);
    first
}

fn first_repeated_over<'a>(
    alloc: Global,
    tables: &mut Tables<'a>,
    decls: &'a [(u32, Decl)],
) -> Result<Option<u32>, AllocError>
    requires few { length decls.now < 2 ^ 32 }
    requires types { tables.old.types ≡ [] }
    requires capitals { tables.old.capitals ≡ [] }
    requires functions { tables.old.functions ≡ [] }
    requires nodes { tables.old.nodes ≡ [] }
    ensures { IfOk result (IsFirst (RepeatsName decls.now)) }
{
    add_given(&mut tables.capitals)?;
    first_repeated_in(alloc, tables, decls)
}

fn first_repeated_in<'a>(
    alloc: Global,
    tables: &mut Tables<'a>,
    decls: &'a [(u32, Decl)],
) -> Result<Option<u32>, AllocError>
    requires few { length decls.now < 2 ^ 32 }
    requires first { SameSpaces (spaces_of tables.old) (spaces_in []) }
    ensures { IfOk result (IsFirst (RepeatsName decls.now)) }
{
    for (i, d) in decls.iter().enumerate() {
        if add_declared(alloc, tables, &d.1)? {
            return Ok(Some(i as u32));
        }
    }
    Ok(None)
}

// Adds the names that a declaration declares, and says whether one was there or comes twice.
fn add_declared<'a>(
    alloc: Global,
    tables: &mut Tables<'a>,
    decl: &'a Decl,
) -> Result<bool, AllocError>
    ensures again { IfOk result (λ again. again ≡ (repeats_shared (spaces_of tables.old) decl.now || repeats_own decl.now)) }
    ensures added { OnOk result (SameSpaces (spaces_of tables.new) (with_declared (spaces_of tables.old) decl.now)) }
{
    let shared = add_shared(alloc, tables, decl)?;
    let own = repeats_within(alloc, decl)?;
    Ok(shared | own)
}

fn add_shared<'a>(
    alloc: Global,
    tables: &mut Tables<'a>,
    decl: &'a Decl,
) -> Result<bool, AllocError>
    ensures again { IfOk result (λ again. again ≡ repeats_shared (spaces_of tables.old) decl.now) }
    ensures added { OnOk result (SameSpaces (spaces_of tables.new) (with_declared (spaces_of tables.old) decl.now)) }
{
    let types = add_declared_names(alloc, &mut tables.types, NameKind::DataType, decl)?;
    let capitals = add_capitals(alloc, &mut tables.capitals, decl)?;
    let functions = add_declared_names(alloc, &mut tables.functions, NameKind::Function, decl)?;
    let nodes = add_nodes(alloc, &mut tables.nodes, decl)?;
    Ok(types | (capitals | (functions | nodes)))
}

fn add_capitals<'a>(
    alloc: Global,
    table: &mut NameTable<'a>,
    decl: &'a Decl,
) -> Result<bool, AllocError>
    ensures again { IfOk result (λ again. again ≡ repeats (names_of table.old) (shared.capitals_of decl.now)) }
    ensures added { OnOk result (SameNames (names_of table.new) (names_of table.old ++ shared.capitals_of decl.now)) }
{
    let names = capitals_of(alloc, decl)?;
    let again = add_names(table, names)?;
    Ok(again)
}

fn add_nodes<'a>(
    alloc: Global,
    table: &mut NameTable<'a>,
    decl: &'a Decl,
) -> Result<bool, AllocError>
    ensures again { IfOk result (λ again. again ≡ repeats (names_of table.old) (declared.nodes_of decl.now)) }
    ensures added { OnOk result (SameNames (names_of table.new) (names_of table.old ++ declared.nodes_of decl.now)) }
{
    let names = nodes_of(alloc, decl)?;
    let again = add_names(table, names)?;
    Ok(again)
}

// Whether a name comes twice in one of a box's own spaces.
fn repeats_within(alloc: Global, decl: &Decl) -> Result<bool, AllocError>
    ensures { IfOk result (λ again. again ≡ repeats_own decl.now) }
{
    let ports = come_twice(alloc, ports_of(alloc, decl)?)?;
    let handled = come_twice(alloc, handled_of(alloc, decl)?)?;
    Ok(ports | handled)
}

/// Whether one of the names comes twice.
pub(crate) fn come_twice(alloc: Global, names: NameList) -> Result<bool, AllocError>
    ensures { IfOk result (λ again. again ≡ repeats [] names.entry) }
{
    let mut table = NameTable::new(alloc);
    add_names(&mut table, names)
}
