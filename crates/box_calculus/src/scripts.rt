//! Scripts: lines that each ask for a step.
ghost use Rattle.std.specs.Prelude.{◌≡◌, ◌⊎◌, ◌≤◌, ◌<◌, ◌∷◌, ◌||◌, Err, IfErr, IfOk, IfSome, IsFalse, Ok, OnOk, length, nat_lt};
ghost use Rattle.std.specs.List.{position};
ghost use Rattle.box_calculus.specs.declared.scripts.ScriptError.TheVariants.{NoMemory as OutOfMemory};
ghost use Rattle.box_calculus.specs.Scripts.{is_newline, line_scripted, script_lines, scripted};
ghost use Rattle.box_calculus.specs.inner.Known.{IsKnown};

use crate::known::Known;
use crate::lines::{StepError, read_step};
use crate::rewriting::rewrite_known;
use calculus_laws::CalcError;
use hume_base::limits::MAX_NODES;
use hume_model::Core;
use std::alloc::Global;

/// The most lines that a script may have.
pub const MAX_SCRIPT_LINES: u32 = 256;

/// The most bytes that a line of it may have, besides its newline.
pub const MAX_SCRIPT_LINE_BYTES: usize = 256;

/// The most bytes that all its lines may have, with their newlines.
pub const MAX_SCRIPT_BYTES: usize = 65_792;

/// Why a script makes no core, and at which of its lines. Lines count from 1.
#[derive(Clone, Copy)]
pub enum ScriptError {
    /// The line asks for no step, is too long, or is one too many.
    Bad { line: u32 },
    /// The step that the line asks for isn't made.
    Refused { cause: CalcError, line: u32 },
    /// Memory has run out.
    NoMemory,
}

/// The core that the steps of a script make, one after the other.
pub fn run_script(alloc: Global, mut core: Core, script: &[u8]) -> Result<Core, ScriptError>
    requires { length core.nodes ≤ MAX_NODES }
    ensures new { IfOk result (λ new. scripted core script.now ≡ Ok new) }
    ensures refused { IfErr result (λ error. (error ≡ OutOfMemory) ⊎ (scripted core script.now ≡ Err error)) }
{
    let mut known = None;
    let mut number = 1;
    let mut rest = script;
    'lines: while !rest.is_empty() {
        let (line, after) = first_line(rest);
        (core, known) = make_line(alloc, core, number, line, known)?;
        number += 1;
        rest = after;
    }
    Ok(core)
}

// The first line of some bytes, and what comes after its newline.
#[tactic(auto, using(crate::proofs::ScriptLines::line_steps))]
fn first_line(bytes: &[u8]) -> (&[u8], &[u8])
    requires { 0 < length bytes.now }
    ensures lines { script_lines bytes.now ≡ result.0.now ∷ script_lines result.1.now }
    ensures shorter { length result.1.now < length bytes.now }
{
    match newline_place(bytes) {
        None => (bytes, &bytes[bytes.len()..]),
        Some(at) => (&bytes[..at], &bytes[at + 1..]),
    }
}

#[tactic(auto, using(crate::proofs::Cuts::position_within))]
fn newline_place(bytes: &[u8]) -> Option<usize>
    ensures place { result ≡ position is_newline bytes.now }
    ensures within { IfSome result (λ at. at < length bytes.now) }
{
    bytes.iter().position(|byte| *byte == b'\n')
}

// Whether the line is one too many, or too long.
fn is_too_much(number: u32, line: &[u8]) -> bool
    ensures same { result ≡ (nat_lt MAX_SCRIPT_LINES number || nat_lt MAX_SCRIPT_LINE_BYTES (length line.now)) }
    ensures few { IsFalse result → number ≤ MAX_SCRIPT_LINES }
{
    number > MAX_SCRIPT_LINES || line.len() > MAX_SCRIPT_LINE_BYTES
}

// The core that the step of one line makes, and what is known of it.
#[tactic(auto, using(crate::proofs::OnRules::on_rule, crate::proofs::KeptByLines::line_nodes))]
fn make_line(
    alloc: Global,
    core: Core,
    number: u32,
    line: &[u8],
    known: Option<Known>,
) -> Result<(Core, Option<Known>), ScriptError>
    requires nodes { length core.nodes ≤ MAX_NODES }
    requires known { IfSome known (IsKnown core) }
    ensures new { IfOk result (λ made. line_scripted number core line.now ≡ Ok made.0) }
    ensures known { IfOk result (λ made. IfSome made.1 (IsKnown made.0)) }
    ensures few { OnOk result (number ≤ MAX_SCRIPT_LINES) }
    ensures nodes { IfOk result (λ made. length made.0.nodes ≤ MAX_NODES) }
    ensures refused { IfErr result (λ error. (error ≡ OutOfMemory) ⊎ (line_scripted number core line.now ≡ Err error)) }
{
    if is_too_much(number, line) {
        return Err(ScriptError::Bad { line: number });
    }
    let step = match read_step(alloc, &core, line) {
        Ok(step) => step,
        Err(StepError::Bad) => return Err(ScriptError::Bad { line: number }),
        Err(StepError::NoMemory) => return Err(ScriptError::NoMemory),
    };
    match rewrite_known(alloc, core, &step, known) {
        Ok(made) => Ok(made),
        Err(CalcError::NoMemory) => Err(ScriptError::NoMemory),
        Err(cause) => Err(ScriptError::Refused {
            cause,
            line: number,
        }),
    }
}
