//! The core of a program that breaks no rule, of its parts, and the core's trees.
ghost use Rattle.std.specs.Prelude.{◌≡◌, ◌<◌, ◌^◌, ℕ, List as ListOf, length, IfOk};
ghost use Rattle.hume_ast.specs.declared.tree.Program.{Program as ProgramTree};
ghost use Rattle.check_typing.specs.Declarations.{InPlaces};
ghost use Rattle.check_rules.specs.Declared.{wires_in};
ghost use Rattle.check_rules.specs.SignaturesOf.{AreSignatures};
ghost use Rattle.check_rules.specs.CheckRules.{IsFine};
ghost use Rattle.check_rules.specs.CoreOf.{IsWireOf, IsCoreOf};
ghost use Rattle.hume_check.specs.inner.CoreTrees.{AreInOrder};
ghost use Rattle.hume_check.specs.inner.Parts.{AreNodes, AreParts};
ghost use Rattle.hume_check.specs.inner.Trees.{HaveTrees};

use crate::core_trees::core_trees;
use crate::fine::fine_wires_have_cores;
use crate::nodes::{functions_in_order, nodes};
use check_scopes::signatures::SignatureTable;
use check_typing::Signatures;
use check_wires::cores::wires;
use hume_ast::Program;
use hume_base::List;
use hume_base::lines::LineTable;
use hume_model::{Core, FunC, NodeC, WireC};
use std::alloc::{AllocError, Global};
use typed_core::{Trees, TypedDeclaration};

/// The parts of a core that stand on the signatures of its program.
#[derive(Drop)]
pub(crate) struct Parts {
    pub(crate) funs: List<FunC>,
    pub(crate) nodes: List<NodeC>,
    pub(crate) wires: List<WireC>,
}

/// The parts of a core and its typed trees.
#[derive(Drop)]
pub(crate) struct TypedParts {
    pub(crate) parts: Parts,
    pub(crate) trees: Trees,
}

/// The core of these signatures and parts.
pub(crate) fn core_of(signatures: Signatures, parts: Parts) -> Core
    ensures { (text : ListOf ℕ) (program : ProgramTree) (order : ListOf ℕ) → (are : AreSignatures program.decls signatures)
        → are.funs.order ≡ order → AreParts text program.decls order signatures parts → IsCoreOf text program result }
{
    let Signatures {
        types,
        exns,
        funs: _,
    } = signatures;
    Core {
        types,
        exns,
        funs: parts.funs,
        nodes: parts.nodes,
        wires: parts.wires,
    }
}

/// The parts of the core of a program that breaks no rule, and the core's trees, of the trees of its declarations.
pub(crate) fn typed_parts(
    alloc: Global,
    lines: &LineTable,
    program: &Program,
    order: &[u32],
    table: &SignatureTable,
    declared: List<TypedDeclaration>,
) -> Result<TypedParts, AllocError>
    requires few { length program.now.decls < 2 ^ 32 }
    requires fine { IsFine program.now.decls }
    requires are { (are : AreSignatures program.now.decls table.now) × (are.funs.order ≡ order.now) }
    requires trees { HaveTrees table.now program.now.decls declared }
    ensures parts { IfOk result (λ typed. AreParts lines.now program.now.decls order.now table.now typed.parts) }
    ensures trees { IfOk result (λ typed. AreInOrder table.now program.now.decls order.now typed.trees) }
{
    let parts = parts_of(alloc, lines, program, order, table, declared.as_slice())?;
    let trees = core_trees(alloc, declared, order)?;
    Ok(TypedParts { parts, trees })
}

fn parts_of(
    alloc: Global,
    lines: &LineTable,
    program: &Program,
    order: &[u32],
    table: &SignatureTable,
    trees: &[TypedDeclaration],
) -> Result<Parts, AllocError>
    requires few { length program.now.decls < 2 ^ 32 }
    requires fine { IsFine program.now.decls }
    requires are { (are : AreSignatures program.now.decls table.now) × (are.funs.order ≡ order.now) }
    requires trees { HaveTrees table.now program.now.decls trees.now }
    ensures { IfOk result (AreParts lines.now program.now.decls order.now table.now) }
{
    let decls = program.decls.as_slice();
    let funs = functions_in_order(alloc, lines, decls, trees, order, table)?;
    let nodes = nodes(alloc, lines, decls, trees, table)?;
    let wires = wires_of(alloc, lines, program, table, nodes.as_slice())?;
    Ok(Parts { funs, nodes, wires })
}

fn wires_of(
    alloc: Global,
    lines: &LineTable,
    program: &Program,
    table: &SignatureTable,
    nodes: &[NodeC],
) -> Result<List<WireC>, AllocError>
    requires few { length program.now.decls < 2 ^ 32 }
    requires fine { IsFine program.now.decls }
    requires are { AreSignatures program.now.decls table.now }
    requires nodes { AreNodes lines.now table.now program.now.decls nodes.now }
    ensures { IfOk result (InPlaces (IsWireOf lines.now table.now nodes.now) (wires_in program.now.decls)) }
{
    // by this law each wire has a core
    fine_wires_have_cores();
    match wires(alloc, lines, program.decls.as_slice(), table, nodes)? {
        Some(wires) => Ok(wires),
        None => unreachable!(),
    }
}
