ghost use Rattle.std.specs.Prelude.{◌≡◌, ◌<◌, ◌^◌, [], ◌++◌, map, length, if◌then◌else◌, OnOk, IfOk};
ghost use Rattle.hume_base.specs.Least.{IsFirst};
ghost use Rattle.check_names.specs.Mentions as mentioned;
ghost use Rattle.check_names.specs.inner.Indexed.{IsIndexed};
ghost use Rattle.check_names.specs.inner.NameNodes.{IsByNames};
ghost use Rattle.check_tables.specs.graph.Cycles.{InCycle};
ghost use Rattle.check_names.specs.Leading.{same_kind, owners_from, numbers_of, meant, graph_of, CallsItself, HoldsItself};

use crate::mention_decls::mentions_of;
use crate::mention_list::{MentionList, NameKind};
use crate::name_nodes::{NameNodes, name_nodes};
use crate::owner_index::{OwnerIndex, index_of};
use crate::owners::Owners;
use check_tables::graph::first_in_cycle;
use hume_ast::{Decl, Program};
use hume_base::List;
use std::alloc::{AllocError, Global};

/// The first function that is in a cycle of calls.
pub fn first_in_call_cycle(alloc: Global, program: &Program) -> Result<Option<u32>, AllocError>
    requires { length program.now.decls < 2 ^ 32 }
    ensures { IfOk result (IsFirst (CallsItself program.now.decls)) }
{
    first_leading_back(alloc, NameKind::Function, program.decls.as_slice())
}

/// The first data type that holds itself.
pub fn first_self_holding(alloc: Global, program: &Program) -> Result<Option<u32>, AllocError>
    requires { length program.now.decls < 2 ^ 32 }
    ensures { IfOk result (IsFirst (HoldsItself program.now.decls)) }
{
    first_leading_back(alloc, NameKind::DataType, program.decls.as_slice())
}

// The first declaration that leads to itself. Only where a name is declared again do names have nodes.
fn first_leading_back(
    alloc: Global,
    kind: NameKind,
    decls: &[(u32, Decl)],
) -> Result<Option<u32>, AllocError>
    requires { length decls.now < 2 ^ 32 }
    ensures { IfOk result (IsFirst (InCycle (graph_of kind decls.now))) }
{
    let owners = index_of(alloc, kind, decls)?;
    first_leading_over(alloc, kind, &owners, decls)
}

fn first_leading_over(
    alloc: Global,
    kind: NameKind,
    owners: &OwnerIndex,
    decls: &[(u32, Decl)],
) -> Result<Option<u32>, AllocError>
    requires few { length decls.now < 2 ^ 32 }
    requires owners { owners.now.owners ≡ owners_from kind 0 decls.now }
    requires indexed { IsIndexed owners.now }
    ensures { IfOk result (IsFirst (InCycle (graph_of kind decls.now))) }
{
    if owners.distinct {
        return first_by_declarations(alloc, kind, owners, decls);
    }
    first_by_names(alloc, kind, owners, decls)
}

fn first_by_declarations(
    alloc: Global,
    kind: NameKind,
    owners: &OwnerIndex,
    decls: &[(u32, Decl)],
) -> Result<Option<u32>, AllocError>
    requires few { length decls.now < 2 ^ 32 }
    requires owners { owners.now.owners ≡ owners_from kind 0 decls.now }
    requires indexed { IsIndexed owners.now }
    ensures { IfOk result (IsFirst (InCycle (graph_of kind decls.now))) }
{
    let graph = graph_by(alloc, kind, owners, decls)?;
    first_in_cycle(alloc, &graph)
}

fn first_by_names(
    alloc: Global,
    kind: NameKind,
    owners: &OwnerIndex,
    decls: &[(u32, Decl)],
) -> Result<Option<u32>, AllocError>
    requires few { length decls.now < 2 ^ 32 }
    requires owners { owners.now.owners ≡ owners_from kind 0 decls.now }
    ensures { IfOk result (IsFirst (InCycle (graph_of kind decls.now))) }
{
    let graph = graph_by_names(alloc, kind, &owners.owners, decls)?;
    first_in_cycle(alloc, &graph)
}

// A declaration leads to the nodes of the names that it mentions, and the node of a name to all its declarations: so there
// are no more edges than names in the source, however often each is declared.
fn graph_by_names(
    alloc: Global,
    kind: NameKind,
    owners: &Owners,
    decls: &[(u32, Decl)],
) -> Result<List<List<u32>>, AllocError>
    requires few { length decls.now < 2 ^ 32 }
    ensures few { IfOk result (λ graph. length graph < 2 ^ 32) }
    ensures by_names { IfOk result (IsByNames kind decls.now owners.now) }
{
    let NameNodes { index, rows } = name_nodes(alloc, decls.len(), owners)?;
    let graph = graph_of_index(alloc, kind, index, decls)?;
    let longer = with_rows(graph, rows)?;
    Ok(longer)
}

fn with_rows(graph: List<List<u32>>, rows: List<List<u32>>) -> Result<List<List<u32>>, AllocError>
    ensures { IfOk result (λ longer. longer ≡ graph ++ rows) }
{
    let mut longer = graph;
    longer.append(rows)?;
    Ok(longer)
}

/// Which declarations lead to which by the names of a kind that they mention.
pub fn name_graph(
    alloc: Global,
    kind: NameKind,
    decls: &[(u32, Decl)],
) -> Result<List<List<u32>>, AllocError>
    requires { length decls.now < 2 ^ 32 }
    ensures { IfOk result (λ graph. graph ≡ graph_of kind decls.now) }
{
    let owners = index_of(alloc, kind, decls)?;
    graph_of_index(alloc, kind, owners, decls)
}

// The names aren't needed any more.
fn graph_of_index(
    alloc: Global,
    kind: NameKind,
    owners: OwnerIndex,
    decls: &[(u32, Decl)],
) -> Result<List<List<u32>>, AllocError>
    requires { IsIndexed owners }
    ensures { IfOk result (λ graph. graph ≡ map (λ d. meant kind owners.entry.owners (mentioned.mentions_of d.1)) decls.now) }
{
    graph_by(alloc, kind, &owners, decls)
}

fn graph_by(
    alloc: Global,
    kind: NameKind,
    owners: &OwnerIndex,
    decls: &[(u32, Decl)],
) -> Result<List<List<u32>>, AllocError>
    requires { IsIndexed owners.now }
    ensures { IfOk result (λ graph. graph ≡ map (λ d. meant kind owners.now.owners (mentioned.mentions_of d.1)) decls.now) }
{
    let mut graph = List::new(alloc);
    for d in decls {
        let row = meant_by(alloc, kind, owners, &d.1)?;
        graph.push(row)?;
    }
    Ok(graph)
}

fn meant_by(
    alloc: Global,
    kind: NameKind,
    owners: &OwnerIndex,
    decl: &Decl,
) -> Result<List<u32>, AllocError>
    requires { IsIndexed owners.now }
    ensures { IfOk result (λ row. row ≡ meant kind owners.now.owners (mentioned.mentions_of decl.now)) }
{
    let mentions = mentions_of(alloc, decl)?;
    meant_in(alloc, kind, owners, &mentions)
}

fn meant_in(
    alloc: Global,
    kind: NameKind,
    owners: &OwnerIndex,
    mentions: &MentionList,
) -> Result<List<u32>, AllocError>
    requires { IsIndexed owners.now }
    ensures { IfOk result (λ row. row ≡ meant kind owners.now.owners mentions.now) }
{
    let mut row = List::new(alloc);
    for at in 0..mentions.len() {
        let (found, name) = mentions.get(at);
        push_meant(kind, owners, found, name, &mut row)?;
    }
    Ok(row)
}

fn push_meant(
    kind: NameKind,
    owners: &OwnerIndex,
    found: NameKind,
    name: &[u8],
    row: &mut List<u32>,
) -> Result<(), AllocError>
    requires { IsIndexed owners.now }
    ensures { OnOk result (row.new ≡ row.old ++ (if same_kind found kind then numbers_of name.now owners.now.owners else [])) }
{
    if !is_same_kind(found, kind) {
        return Ok(());
    }
    owners.push_numbers(name, row)
}

fn is_same_kind(a: NameKind, b: NameKind) -> bool
    ensures { result ≡ same_kind a b }
{
    match (a, b) {
        (NameKind::DataType, NameKind::DataType) => true,
        (NameKind::Constructor, NameKind::Constructor) => true,
        (NameKind::Exception, NameKind::Exception) => true,
        (NameKind::Function, NameKind::Function) => true,
        (NameKind::Unbound, NameKind::Unbound) => true,
        _ => false,
    }
}
