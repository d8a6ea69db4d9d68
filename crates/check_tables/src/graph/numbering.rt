ghost use Rattle.std.specs.Prelude.{◌≡◌, ℕ, ◌<◌, ◌≤◌, ◌^◌, ◌↔◌, false, length, IsTrue, IfOk, OnOk, Some};
ghost use Rattle.std.specs.List.{All};
ghost use Rattle.hume_base.specs.Least.{IsFirst};
ghost use Rattle.check_tables.specs.graph.Orders.{IsNext, IsOrder};
ghost use Rattle.check_tables.specs.graph.inner.Progress.{AllHit, IsProgress, IsFree, IsWait, unmarked};

use crate::graph::rows::row_of;
use hume_base::List;
use std::alloc::{AllocError, Global};

// How far an order is found. Beside a mark for each node that has a number there are two more: of the last but one place,
// which never has a mark and for which numbered nodes wait, and of the last, which always has one. So many of the first nodes
// as `passed` says have numbers.
#[derive(Drop)]
pub(crate) struct Progress {
    pub(crate) order: List<u32>,
    pub(crate) marks: List<bool>,
    pub(crate) waits: List<usize>,
    pub(crate) fronts: List<usize>,
    pub(crate) passed: usize,
}

/// The nodes in the order of their numbers, as far as they get one. It takes a step for each edge, and for each number one
/// for each node.
pub fn order(alloc: Global, graph: &List<List<u32>>) -> Result<List<u32>, AllocError>
    requires { length graph.now < 2 ^ 32 }
    ensures { IfOk result (IsOrder graph.now) }
{
    let progress = whole_progress(alloc, graph)?;
    Ok(progress.order)
}

pub(crate) fn whole_progress(alloc: Global, graph: &List<List<u32>>) -> Result<Progress, AllocError>
    requires { length graph.now < 2 ^ 32 }
    ensures progress { IfOk result (IsProgress graph.now) }
    ensures whole { IfOk result (λ p. (a : ℕ) → IsNext graph.now p.order a → ⊥) }
{
    let mut progress = first_progress(alloc, graph)?;
    while number_next(graph, &mut progress)? {}
    Ok(progress)
}

// No node has a number.
fn first_progress(alloc: Global, graph: &List<List<u32>>) -> Result<Progress, AllocError>
    requires { length graph.now < 2 ^ 32 }
    ensures { IfOk result (IsProgress graph.now) }
{
    let count = graph.len();
    let mut marks = vec![in alloc; false; count + 2]?;
    marks[count + 1] = true;
    let waits = vec![in alloc; count + 1; count]?;
    let fronts = vec![in alloc; 0; count]?;
    Ok(Progress {
        order: List::new(alloc),
        marks: List::from_vec(marks),
        waits: List::from_vec(waits),
        fronts: List::from_vec(fronts),
        passed: 0,
    })
}

// Numbers the next node, if there is one, and says whether there was.
fn number_next(graph: &List<List<u32>>, progress: &mut Progress) -> Result<bool, AllocError>
    requires few { length graph.now < 2 ^ 32 }
    requires progress { IsProgress graph.now progress.old }
    ensures progress { OnOk result (IsProgress graph.now progress.new) }
    ensures fewer { IfOk result (λ more. IsTrue more → unmarked progress.new.marks < unmarked progress.old.marks) }
    ensures whole { IfOk result (λ more. more ≡ false → (a : ℕ) → IsNext graph.now progress.new.order a → ⊥) }
{
    match next_node(graph, progress) {
        None => Ok(false),
        Some(a) => {
            number_node(graph, progress, a)?;
            pass_numbered(graph, progress);
            Ok(true)
        }
    }
}

fn number_node(graph: &List<List<u32>>, progress: &mut Progress, a: usize) -> Result<(), AllocError>
    requires few { length graph.now < 2 ^ 32 }
    requires progress { IsProgress graph.now progress.old }
    requires next { IsFirst (IsNext graph.now progress.old.order) (Some a) }
    ensures progress { OnOk result (IsProgress graph.now progress.new) }
    ensures fewer { OnOk result (unmarked progress.new.marks < unmarked progress.old.marks) }
{
    progress.order.push(a as u32)?;
    progress.marks.set(a, true);
    progress.waits.set(a, graph.len());
    Ok(())
}

// Passes the first nodes that have a number, so that they aren't looked at again.
fn pass_numbered(graph: &List<List<u32>>, progress: &mut Progress)
    requires { IsProgress graph.now progress.old }
    ensures progress { IsProgress graph.now progress.new }
    ensures order { progress.new.order ≡ progress.old.order }
    ensures marks { progress.new.marks ≡ progress.old.marks }
{
    progress.passed = first_unmarked(progress.marks.as_slice(), graph.len(), progress.passed);
}

// The first of so many places, from one on, that has no mark; or how many there are.
fn first_unmarked(marks: &[bool], count: usize, from: usize) -> usize
    requires { count ≤ length marks.now }
    ensures { AllHit marks.now count from result }
{
    for a in from..count {
        if !marks[a] {
            return a;
        }
    }
    count
}

// The first node that has no number and leads only to numbered ones.
fn next_node(graph: &List<List<u32>>, progress: &mut Progress) -> Option<usize>
    requires few { length graph.now < 2 ^ 32 }
    requires progress { IsProgress graph.now progress.old }
    ensures progress { IsProgress graph.now progress.new }
    ensures order { progress.new.order ≡ progress.old.order }
    ensures marks { progress.new.marks ≡ progress.old.marks }
    ensures next { IsFirst (IsNext graph.now progress.old.order) result }
{
    let mut from = progress.passed;
    while let Some(a) = first_free(progress.marks.as_slice(), progress.waits.as_slice(), from) {
        if is_next(graph, progress, a) {
            return Some(a);
        }
        from = a + 1;
    }
    None
}

// The first node from a place on that waits for a marked one.
fn first_free(marks: &[bool], waits: &[usize], from: usize) -> Option<usize>
    requires { All (λ b. b < length marks.now) waits.now }
    ensures { IsFirst (λ a. (from ≤ a) × IsFree marks.now waits.now a) result }
{
    for a in from..waits.len() {
        if marks[waits[a]] {
            return Some(a);
        }
    }
    None
}

// Whether a node is next; if it isn't, it waits for one that it leads to.
fn is_next(graph: &List<List<u32>>, progress: &mut Progress, a: usize) -> bool
    requires few { length graph.now < 2 ^ 32 }
    requires progress { IsProgress graph.now progress.old }
    requires within { a < length graph.now }
    ensures progress { IsProgress graph.now progress.new }
    ensures order { progress.new.order ≡ progress.old.order }
    ensures marks { progress.new.marks ≡ progress.old.marks }
    ensures is { IsTrue result ↔ IsNext graph.now progress.old.order a }
{
    if progress.marks.as_slice()[a] {
        return false;
    }
    let row = row_of(graph, a);
    match first_wait(
        row,
        progress.marks.as_slice(),
        graph.len(),
        progress.fronts.as_slice()[a],
    ) {
        None => true,
        Some(k) => {
            progress.fronts.set(a, k);
            progress.waits.set(a, row[k] as usize);
            false
        }
    }
}

// The first place of a row, from a place on, with one of so many nodes that has no mark.
fn first_wait(row: &[u32], marks: &[bool], count: usize, from: usize) -> Option<usize>
    requires { count ≤ length marks.now }
    ensures { IsFirst (λ k. (from ≤ k) × IsWait count marks.now row.now k) result }
{
    for k in from..row.len() {
        let b = row[k] as usize;
        if b < count && !marks[b] {
            return Some(k);
        }
    }
    None
}
