//! The acceptance of a source.
ghost use Rattle.std.specs.Prelude.{◌≡◌, ◌≤◌, ℕ, List, length, IfOk, IfErr, OnOk};
ghost use Rattle.hume_base.specs.declared.limits.TheConstants.{MAX_SOURCE_BYTES as MOST_BYTES};
ghost use Rattle.hume_exceptions.specs.Sets.{IsRaisesOf};
ghost use Rattle.hume_lex.specs.BadPlaces.{IsRead};
ghost use Rattle.typed_core.specs.Trees.{AreTrees};
ghost use Rattle.hume_front.specs.Accepted.{IsAccepted, IsProgramOf, IsSound, IsUnaccepted, IsUnsound};
ghost use Rattle.hume_front.specs.inner.Stages.{IsChecked};

use crate::error::FrontError;
use crate::refused::{bad_token, no_program, refused};
use hume_ast::Program;
use hume_base::limits::MAX_SOURCE_BYTES;
use hume_base::{Rule, Token};
use hume_check::{check, check_typed};
use hume_exceptions::{Raises, check_handlers, raises};
use hume_lex::lex;
use hume_model::Core;
use hume_parse::parse;
use space_costs::{Costs, costs};
use std::alloc::Global;
use typed_core::Trees;
use wiring_check::{Wiring, check_wires};

/// What an accepted source stands for.
#[derive(Drop)]
pub struct Accepted {
    pub program: Program,
    pub core: Core,
    /// The wires of the core's inputs and outputs.
    pub wiring: Wiring,
    /// The most that an execute step of each node may take.
    pub costs: Costs,
}

/// What an accepted source stands for, with the typed trees of its core.
#[derive(Drop)]
pub struct TypedSource {
    pub accepted: Accepted,
    pub trees: Trees,
}

/// A source that breaks no rule but perhaps some on what its boxes may take.
#[derive(Drop)]
pub struct Sound {
    pub program: Program,
    pub core: Core,
    /// The wires of the core's inputs and outputs.
    pub wiring: Wiring,
    /// The exceptions that the core's functions may raise.
    pub raised: Raises,
}

/// The program that the source stands for with its core, if the source breaks no rule. The rules on what boxes may take are asked
/// last.
pub fn accept(alloc: Global, text: &[u8]) -> Result<Accepted, FrontError>
    ensures accepted { IfOk result (IsAccepted text.now) }
    ensures error { IfErr result (IsUnaccepted text.now) }
{
    let sound = check_source(alloc, text)?;
    accepted_of(alloc, sound)
}

/// The same with the typed trees of the core, from which code can be generated.
pub fn accept_typed(alloc: Global, text: &[u8]) -> Result<TypedSource, FrontError>
    ensures accepted { IfOk result (λ source. IsAccepted text.now source.accepted) }
    ensures trees { IfOk result (λ source. AreTrees source.accepted.core source.trees) }
    ensures error { IfErr result (IsUnaccepted text.now) }
{
    let program = program_in(alloc, text)?;
    let typed = check_typed(alloc, &program, text)?;
    let sound = sound_of(alloc, program, typed.core)?;
    let accepted = accepted_of(alloc, sound)?;
    Ok(TypedSource {
        accepted,
        trees: typed.trees,
    })
}

// The rules on what boxes may take.
fn accepted_of(alloc: Global, sound: Sound) -> Result<Accepted, FrontError>
    requires sound { (text : List ℕ) × IsSound text sound }
    requires raised { IsRaisesOf sound.core sound.raised }
    ensures accepted { (text : List ℕ) → IsSound text sound → IfOk result (IsAccepted text) }
    ensures core { IfOk result (λ accepted. accepted.core ≡ sound.core) }
    ensures error { (text : List ℕ) → IsSound text sound → IfErr result (IsUnaccepted text) }
{
    let costs = costs(alloc, &sound.core, &sound.raised)?;
    let Sound {
        program,
        core,
        wiring,
        ..
    } = sound;
    Ok(Accepted {
        program,
        core,
        wiring,
        costs,
    })
}

/// What is accepted, but for a source whose boxes may take too much. The phases ask their rules one after the other: on tokens, on the grammar, on
/// the program by itself, and on the core's wires and exceptions.
pub fn check_source(alloc: Global, text: &[u8]) -> Result<Sound, FrontError>
    ensures sound { IfOk result (IsSound text.now) }
    ensures raised { IfOk result (λ sound. IsRaisesOf sound.core sound.raised) }
    ensures error { IfErr result (IsUnsound text.now) }
{
    let program = program_in(alloc, text)?;
    let core = check(alloc, &program, text)?;
    sound_of(alloc, program, core)
}

// The program that the text stands for: the rules on tokens and on the grammar.
fn program_in(alloc: Global, text: &[u8]) -> Result<Program, FrontError>
    ensures program { IfOk result (IsProgramOf text.now) }
    ensures error { IfErr result (IsUnsound text.now) }
{
    in_length(text)?;
    let tokens = tokens_of(alloc, text)?;
    program_of(alloc, text, &tokens)
}

// The rules on wires and exceptions.
fn sound_of(alloc: Global, program: Program, core: Core) -> Result<Sound, FrontError>
    requires { (text : List ℕ) × IsChecked text program core }
    ensures sound { (text : List ℕ) → IsChecked text program core → IfOk result (IsSound text) }
    ensures raised { IfOk result (λ sound. IsRaisesOf sound.core sound.raised) }
    ensures core { IfOk result (λ sound. sound.core ≡ core) }
    ensures error { (text : List ℕ) → IsChecked text program core → IfErr result (IsUnsound text) }
{
    let wiring = check_wires(alloc, &core)?;
    let raised = raises(alloc, &core)?;
    check_handlers(&core, &raised)?;
    Ok(Sound {
        program,
        core,
        wiring,
        raised,
    })
}

fn in_length(text: &[u8]) -> Result<(), FrontError>
    ensures short { OnOk result (length text.now ≤ MOST_BYTES) }
    ensures error { IfErr result (IsUnsound text.now) }
{
    if text.len() > MAX_SOURCE_BYTES {
        return Err(refused(Rule::C70, 1));
    }
    Ok(())
}

fn tokens_of(alloc: Global, text: &[u8]) -> Result<Vec<Token>, FrontError>
    requires { length text.now ≤ MOST_BYTES }
    ensures read { IfOk result (λ tokens. IsRead text.now tokens.items) }
    ensures error { IfErr result (IsUnsound text.now) }
{
    match lex(alloc, text) {
        Ok(tokens) => Ok(tokens),
        Err(error) => Err(bad_token(text, error)),
    }
}

fn program_of(alloc: Global, text: &[u8], tokens: &[Token]) -> Result<Program, FrontError>
    requires short { length text.now ≤ MOST_BYTES }
    requires read { IsRead text.now tokens.now }
    ensures program { IfOk result (IsProgramOf text.now) }
    ensures error { IfErr result (IsUnsound text.now) }
{
    match parse(alloc, tokens, text.len() as u32) {
        Ok(program) => Ok(program),
        Err(error) => Err(no_program(text, tokens, error)),
    }
}
