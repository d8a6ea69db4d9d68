//! Each function of a core, one after the other: a function calls only those before it.
ghost use Rattle.std.specs.Prelude.{◌≡◌, ◌++◌, [], ◌∷◌, Some, IfOk, OnOk, slice_get};
ghost use Rattle.c_tree.specs.declared.tree.CExp.TheVariants as tree;
ghost use Rattle.c_tree.specs.declared.tree.CStm.TheVariants as statement;
ghost use Rattle.c_tree.specs.declared.tree.Width.TheVariants.{W8};
ghost use Rattle.c_types.specs.Gathered.{gathered};
ghost use Rattle.c_analysis.specs.Targets.{target};
ghost use Rattle.c_functions.specs.Functions.{by_value, called_of, declaration_of, function_added, function_body, function_of, functions, functions_from, result_destination, result_type, target_of, with_function};

use crate::equations::equations_built;
use crate::parameters::{parameters, used_parameters};
use c_analysis::{Called, Setting};
use c_expressions::Destination;
use c_forms::{mentions, number, text};
use c_tree::{CExp, CFunction, CHead, CItem, CStm, CType, Linkage, Width};
use c_types::CTypes;
use hume_base::{Box, List, Ty};
use hume_model::{Core, FunC};
use std::alloc::{AllocError, Global};
use typed_core::TypedEquation;

/// A function of the file, and what calls of it need to know.
#[derive(Drop)]
pub struct Function {
    pub item: CItem,
    pub called: Called,
}

/// Functions of the file, and what calls of them need to know.
#[derive(Drop)]
pub struct Functions {
    pub items: List<CItem>,
    pub called: List<Called>,
}

impl Functions {
    fn add(&mut self, one: Function) -> Result<(), AllocError>
        ensures { OnOk result (self.new ≡ with_function self.old one) }
    {
        self.items.push(one.item)?;
        self.called.push(one.called)
    }
}

/// The functions of a core. Each is told whether it may raise.
pub fn functions_of(
    alloc: Global,
    core: &Core,
    types: &CTypes,
    raises: &[bool],
    trees: &[List<TypedEquation>],
) -> Result<Functions, AllocError>
    ensures { IfOk result (λ all. all ≡ functions core.now (gathered types.now) raises.now trees.now) }
{
    let mut all = Functions {
        items: List::new(alloc),
        called: List::new(alloc),
    };
    for (place, function) in core.funs.as_slice().iter().enumerate() {
        add_function(alloc, core, types, &mut all, place, function, raises, trees)?;
    }
    Ok(all)
}

// A function that has trees, behind those before it.
fn add_function(
    alloc: Global,
    core: &Core,
    types: &CTypes,
    all: &mut Functions,
    place: usize,
    function: &FunC,
    raises: &[bool],
    trees: &[List<TypedEquation>],
) -> Result<(), AllocError>
    ensures { OnOk result (all.new ≡ function_added core.now (gathered types.now) function.now (slice_get trees.now place)
        (slice_get raises.now place) all.old) }
{
    let Some(equations) = trees.get(place) else {
        return Ok(());
    };
    let Some(raises) = raises.get(place) else {
        return Ok(());
    };
    let called = all.called.as_slice();
    let equations = equations.as_slice();
    let one = next_function(alloc, core, types, called, function, *raises, equations)?;
    all.add(one)
}

fn next_function<'a>(
    alloc: Global,
    core: &'a Core,
    types: &'a CTypes<'a>,
    called: &'a [Called],
    function: &FunC,
    raises: bool,
    equations: &[TypedEquation],
) -> Result<Function, AllocError>
    ensures { IfOk result (λ one. one ≡ function_of (target_of core.now (gathered types.now) called.now) function.now raises equations.now) }
{
    let s = Setting {
        alloc,
        core,
        types,
        called,
    };
    function_of(s, function, raises, equations)
}

fn function_of(
    s: Setting,
    function: &FunC,
    raises: bool,
    equations: &[TypedEquation],
) -> Result<Function, AllocError>
    ensures { IfOk result (λ one. one ≡ function_of (target s.entry) function.now raises equations.now) }
{
    let body = function_body(s, function, raises, equations)?;
    let called = called_of(s, function, raises, body.as_slice())?;
    let item = declaration_of(s, function, &called, body)?;
    Ok(Function { item, called })
}

fn by_value(s: Setting, function: &FunC, raises: bool) -> bool
    ensures { result ≡ by_value (target s.entry) function.now raises }
{
    !raises && s.is_scalar(&function.gives)
}

// What a function does: it gives its value back, or writes it through a pointer.
fn function_body(
    s: Setting,
    function: &FunC,
    raises: bool,
    equations: &[TypedEquation],
) -> Result<List<CStm>, AllocError>
    ensures { IfOk result (λ body. body ≡ function_body (target s.entry) function.now raises equations.now) }
{
    let to = result_destination(s.alloc, by_value(s, function, raises))?;
    let made = equations_built(s, &to, function, equations)?;
    if raises {
        return with_zero(s.alloc, made.statements);
    }
    Ok(made.statements)
}

// A function that may raise returns 0 behind its result.
fn with_zero(alloc: Global, statements: List<CStm>) -> Result<List<CStm>, AllocError>
    ensures { IfOk result (λ body. body ≡ statements ++ statement.Return (Some (tree.Unsigned W8 0)) ∷ []) }
{
    let mut body = statements;
    let zero = number(alloc, 0).ok_or(AllocError)?;
    body.push(CStm::Return(Some(zero)))?;
    Ok(body)
}

fn result_destination(alloc: Global, by_value: bool) -> Result<Destination, AllocError>
    ensures { IfOk result (λ to. to ≡ result_destination by_value) }
{
    if by_value {
        return Ok(Destination::Returned);
    }
    let name = text(alloc, b"out")?;
    Ok(Destination::Place(Box::new(alloc, CExp::Pointed(name))?))
}

// What calls need to know of a function with that body.
fn called_of(s: Setting, function: &FunC, raises: bool, body: &[CStm]) -> Result<Called, AllocError>
    ensures { IfOk result (λ called. called ≡ called_of (target s.entry) function.now raises body.now) }
{
    Ok(Called {
        name: s.names().function(s.alloc, function.name.bytes())?,
        raises,
        gives: by_value(s, function, raises) || mentions(b"out", body),
        used: used_parameters(s.alloc, function, body)?,
    })
}

fn declaration_of(
    s: Setting,
    function: &FunC,
    called: &Called,
    body: List<CStm>,
) -> Result<CItem, AllocError>
    ensures { IfOk result (λ item. item ≡ declaration_of (target s.entry) function.now called.now body) }
{
    let writes = called.gives && !by_value(s, function, called.raises);
    let head = CHead {
        linkage: Linkage::Static,
        result: result_type(s, &function.gives, called.raises)?,
        name: called.name.copy()?,
        parameters: parameters(s, function, called.used.as_slice(), writes)?,
    };
    Ok(CItem::Function(CFunction {
        comment: None,
        head,
        body,
    }))
}

fn result_type(s: Setting, gives: &Ty, raises: bool) -> Result<Option<CType>, AllocError>
    ensures { IfOk result (λ ty. ty ≡ result_type (target s.entry) gives.now raises) }
{
    if raises {
        return Ok(Some(CType::Unsigned(Width::W8)));
    }
    if s.is_scalar(gives) {
        return Ok(Some(s.types.c_type(s.alloc, gives)?));
    }
    Ok(None)
}
