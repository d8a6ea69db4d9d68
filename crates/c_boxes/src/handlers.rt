//! Handlers: the outputs of a box for the exceptions that its rules raise.
ghost use Rattle.std.specs.Prelude.{◌≡◌, IfOk, option_copied};
ghost use Rattle.c_analysis.specs.Targets.{target};
ghost use Rattle.c_boxes.specs.Boxes.{exn_parameter, handler_body, handler_cases, handler_function, handler_label, handler_scope};
ghost use Rattle.c_boxes.specs.Boxes.{static_function};

use crate::fair::Cases;
use crate::results::result_made;
use c_analysis::Setting;
use c_expressions::Made;
use c_forms::{name, text, truth};
use c_tree::{CExp, CFunction, CHead, CItem, CParameter, CStm, CType, Linkage, Passing, Width};
use hume_base::{Box, List, Text};
use hume_model::{BoxC, ExnDef};
use std::alloc::{AllocError, Global};
use typed_core::TypedHandler;

/// The function that handles what a box's rules raise.
pub(crate) fn handler_function(
    s: Setting,
    b: &BoxC,
    handlers: &[TypedHandler],
) -> Result<CItem, AllocError>
    ensures { IfOk result (λ item. item ≡ handler_function (target s.entry) b.now handlers.now) }
{
    let (cases, _) = handler_cases(s, b, handlers)?;
    let subject = name(s.alloc, b"exn").ok_or(AllocError)?;
    let choice = CStm::Switch(subject, cases, List::new(s.alloc));
    let body = List::of_one(s.alloc, choice)?;
    let parameters = List::of_one(s.alloc, exn_parameter(s.alloc)?)?;
    let name = s.names().handler(s.alloc, b.name.bytes())?;
    Ok(static_function(None, name, parameters, body))
}

fn exn_parameter(alloc: Global) -> Result<CParameter, AllocError>
    ensures { IfOk result (λ parameter. parameter ≡ exn_parameter) }
{
    Ok(CParameter {
        ty: CType::Unsigned(Width::W8),
        passing: Passing::Value,
        name: text(alloc, b"exn")?,
    })
}

/// A static function.
pub(crate) fn static_function(
    gives: Option<CType>,
    name: Text,
    parameters: List<CParameter>,
    body: List<CStm>,
) -> CItem
    ensures { result ≡ static_function gives name parameters body }
{
    CItem::Function(CFunction {
        comment: None,
        head: CHead {
            linkage: Linkage::Static,
            result: gives,
            name,
            parameters,
        },
        body,
    })
}

#[tactic(auto, using(crate::proofs::CaseSteps::case_steps))]
fn handler_cases(s: Setting, b: &BoxC, handlers: &[TypedHandler]) -> Result<Cases, AllocError>
    ensures cases { IfOk result (λ all. all.0 ≡ (handler_cases (target s.entry) b.now handlers.now 1).cases) }
    ensures next { IfOk result (λ all. all.1 ≡ (handler_cases (target s.entry) b.now handlers.now 1).next) }
{
    let mut cases = List::new(s.alloc);
    let mut next = 1u32;
    for handler in handlers {
        let exn = s.core.exns.get(handler.exn as usize);
        let body = handler_body(s, b, handler, exn, next)?;
        next = body.next;
        let label = handler_label(s, exn)?;
        cases.push((label.into_inner(), body.statements))?;
    }
    Ok((cases, next))
}

// What is done where the exception is the handler's.
fn handler_body(
    s: Setting,
    b: &BoxC,
    handler: &TypedHandler,
    exn: Option<&ExnDef>,
    next: u32,
) -> Result<Made, AllocError>
    ensures { IfOk result (λ all. all ≡ handler_body (target s.entry) b.now handler.now (option_copied exn.entry) next) }
{
    let mut scope = handler_scope(s, exn, handler.bound)?;
    result_made(s, b, &mut scope, next, &handler.result)
}

fn handler_label(s: Setting, exn: Option<&ExnDef>) -> Result<Box<CExp>, AllocError>
    ensures { IfOk result (λ e. e ≡ handler_label (target s.entry).file.names (option_copied exn.entry)) }
{
    match exn {
        None => truth(s.alloc, false).ok_or(AllocError),
        Some(exn) => {
            let name = s.names().exception(s.alloc, exn.name.bytes())?;
            Box::new(s.alloc, CExp::Name(name))
        }
    }
}

// What an exception carries is the handler's variable, if it has one.
fn handler_scope(s: Setting, exn: Option<&ExnDef>, bound: bool) -> Result<List<CExp>, AllocError>
    ensures { IfOk result (λ scope. scope ≡ handler_scope (target s.entry).file.names (option_copied exn.entry) bound) }
{
    match exn {
        Some(exn) if bound => {
            let name = s.names().carried(s.alloc, exn.name.bytes())?;
            List::of_one(s.alloc, CExp::Name(name))
        }
        _ => Ok(List::new(s.alloc)),
    }
}
