//! A box as code, with all that it works on.
ghost use Rattle.std.specs.Prelude.{◌≡◌, ◌<◌, ◌≤◌, length, map, Some, None, IfOk, MatchOption};
ghost use Rattle.std.specs.Option.{is_some};
ghost use Rattle.hume_base.specs.Sizes.{HaveTheirSizes, written_size, size_of};
ghost use Rattle.hume_model.specs.declared.core_tree.BoxC.{BoxC as AnyBox};
ghost use Rattle.hume_model.specs.declared.core_tree.Core.{Core as AnyCore};
ghost use Rattle.hume_model.specs.BoxTyping.{port_types};
ghost use Rattle.hume_net.specs.declared.state.Part.{Part};
ghost use Rattle.box_code.specs.RepresentsBox.{RepresentsBox};
ghost use Rattle.box_step.specs.Boxes.{AreBareForms, IsBoxAt, IsUnused, TakesLittle, first_part};
ghost use Rattle.box_step.specs.Views.{pending_words};
ghost use Rattle.box_step.specs.inner.Buffers.{sizes_in, words_in};

use box_code::BoxProgram;
use box_heap::{BoxHeap, BoxStack, OutBuf};
use hume_base::{Types, size};
use hume_model::{BoxC, Core, PortC};
use match_rules::{RuleOrder, is_plain};
use std::alloc::{AllocError, Global};
use std::marker::Model;

/// A box as code: its program, the order of its rules, its heap and stack, and its outputs, which may be pending. It is plain where
/// its rules take all inputs as they are.
#[derive(Drop)]
pub struct CompiledBox {
    pub(crate) program: BoxProgram,
    pub(crate) order: RuleOrder,
    pub(crate) heap: BoxHeap,
    pub(crate) stack: BoxStack,
    pub(crate) outputs: OutBuf,
    pub(crate) pending: bool,
    pub(crate) effort: Effort,
    pub(crate) plain: bool,
}

/// How many instructions the last execute step ran, and how many those before it, of which contracts see nothing.
#[derive(Clone, Copy)]
pub struct Effort {
    pub(crate) last: u32,
    pub(crate) earlier: u64,
}

impl Model for CompiledBox {
    ghost use Rattle.std.specs.Coded.{codes};
    ghost use Rattle.hume_base.specs.contracts.types.Ty as ty;
    ghost use Rattle.box_step.specs.Views.{CompiledView};
    ghost use Rattle.box_step.specs.inner.Buffers.{pending_in, sizes_in};

    ghost Value = { CompiledView };

    ghost coded = { Prim.hlevel (codes, ty.the_row.coded) };

    ghost view = { λ box. record {
      program = box.program;
      order = box.order;
      heap = box.heap;
      stack = box.stack;
      sizes = sizes_in box.outputs;
      pending = pending_in box.pending box.outputs;
      work = box.effort.last;
      plain = box.plain;
    } };
}

impl CompiledBox {
    /// A box before its first step, by the bare forms of its core and of itself.
    pub fn make(
        alloc: Global,
        core: &Core,
        b: &BoxC,
        program: BoxProgram,
    ) -> Result<CompiledBox, AllocError>
        requires forms { (whole : AnyCore) × (its : AnyBox) × AreBareForms whole its core.now b.now }
        requires room { TakesLittle program }
        ensures at { IfOk result (λ box. (whole : AnyCore) (its : AnyBox) → AreBareForms whole its core.now b.now → RepresentsBox whole its program
            → IsBoxAt whole its (first_part its) box) }
        ensures unused { IfOk result IsUnused }
    {
        let sizes = output_sizes(alloc, &core.types, b.outs.as_slice())?;
        let outputs = OutBuf::make(alloc, &sizes)?;
        let heap = BoxHeap::make(alloc, program.heap)?;
        let stack = BoxStack::make(alloc, program.stack)?;
        let order = RuleOrder::make(b.rules.len() as u32);
        Ok(CompiledBox {
            program,
            order,
            heap,
            stack,
            outputs,
            pending: false,
            effort: Effort {
                last: 0,
                earlier: 0,
            },
            plain: is_plain(b),
        })
    }

    /// Whether outputs are pending: the box is blocked until they are asserted and forgotten.
    pub fn is_pending(&self) -> bool
        ensures { result ≡ is_some self.now.pending }
    {
        self.pending
    }

    /// The words of the pending output of the number, counted from 0; none where it is absent, and none where nothing is pending.
    pub fn output(&self, i: u32) -> Option<&[u64]>
        requires { i < length self.now.sizes }
        ensures { MatchOption result (pending_words self.now i ≡ None) (λ words. pending_words self.now i ≡ Some words.now) }
    {
        if self.pending {
            self.outputs.get(i)
        } else {
            None
        }
    }

    // The outputs that are pending, if some are.
    #[inline(always)]
    pub(crate) fn pending_outputs(&self) -> Option<&OutBuf>
        ensures { MatchOption result (self.now.pending ≡ None)
            (λ outputs. (self.now.pending ≡ Some (words_in outputs.now)) × (self.now.sizes ≡ sizes_in outputs.now)) }
    {
        if !self.pending {
            return None;
        }
        Some(&self.outputs)
    }

    /// Forgets the outputs that are pending, and nothing else.
    pub fn forget_outputs(&mut self)
        ensures forgets { self.new ≡ record self.old { pending = None } }
        ensures at { (core : AnyCore) (b : AnyBox) (part : Part) → IsBoxAt core b part self.old → IsBoxAt core b (record part { pending = None }) self.new }
    {
        self.pending = false;
    }

    /// The most words of heap that there were.
    pub fn heap_peak(&self) -> u32
        ensures { result ≡ self.now.heap.peak }
    {
        self.heap.peak()
    }

    /// The most words of stack that there were.
    pub fn stack_peak(&self) -> u32
        ensures { result ≡ self.now.stack.peak }
    {
        self.stack.peak()
    }

    /// How many words of heap are used.
    pub fn heap_used(&self) -> u32
        ensures { result ≡ length self.now.heap.words }
    {
        self.heap.used()
    }

    /// How many instructions the last execute step ran.
    pub fn work(&self) -> u32
        ensures { result ≡ self.now.work }
    {
        self.effort.last
    }

    /// How many instructions all its execute steps ran. What is made of the number is a guess, so no more is said of it.
    pub fn ran(&self) -> u64
        ensures { self.now.work ≤ result }
    {
        self.effort.earlier.saturating_add(self.effort.last as u64)
    }
}

// How many words a value of each output has.
fn output_sizes(alloc: Global, types: &Types, outs: &[PortC]) -> Result<Vec<u32>, AllocError>
    requires { HaveTheirSizes types.now }
    ensures { IfOk result (λ sizes. sizes.items ≡ map (λ ty. written_size (size_of types.now ty)) (port_types outs.now)) }
{
    let mut sizes = Vec::new(alloc);
    for port in outs {
        sizes.push(size(types, &port.ty))?;
    }
    Ok(sizes)
}
