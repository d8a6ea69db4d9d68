//! What is written of an expression: statements, and an expression of C behind them.
ghost use Rattle.std.specs.Prelude.{◌≡◌, ℕ, ◌+◌, [], ◌∷◌, ◌++◌, false, List, IfOk, OnOk};
ghost use Rattle.c_tree.specs.declared.tree.CExp.TheVariants as tree;
ghost use Rattle.c_tree.specs.declared.tree.CStm.TheVariants as stm;
ghost use Rattle.c_expressions.specs.declared.made.Destination.TheVariants as goes;
ghost use Rattle.c_forms.specs.Gives.{Gives};
ghost use Rattle.c_forms.specs.Statements.{tested, variable};
ghost use Rattle.c_expressions.specs.Made.{code, made, variable_name, nothing, plain, behind, behind_code, followed, ended, with_value, without_value, declared, defined, defined_divisor, given};
ghost use Rattle.c_analysis.specs.Targets.{target, type_of};

use c_analysis::Setting;
use c_forms::{appended, assign, copy_exp, define, named, of_one, returns, tested, with};
use c_names::variable;
use c_tree::{CExp, CStm, CType, CVariable};
use hume_base::{Box, List, Text, Ty};
use std::alloc::{AllocError, Global};

/// Where a value goes. Trees of C stand behind a `Box` here and in `Code`, so that dropping one is a call.
#[derive(Drop)]
pub enum Destination {
    /// To an object.
    Place(Box<CExp>),
    /// Out of the function.
    Returned,
    /// Nowhere: it is evaluated for the exceptions that it may raise.
    Nowhere,
}

/// Statements, and the first number that no name of the function has then.
#[derive(Drop)]
pub struct Made {
    pub statements: List<CStm>,
    pub next: u32,
}

/// Statements, the expression of C that has the value behind them, and the first number that no name of the function has then.
#[derive(Drop)]
pub struct Code {
    pub statements: List<CStm>,
    pub exp: Box<CExp>,
    pub next: u32,
}

impl Made {
    /// What is made behind it.
    pub fn add(&mut self, more: Made) -> Result<(), AllocError>
        ensures { OnOk result (self.new ≡ followed self.old more) }
    {
        self.statements.append(more.statements)?;
        self.next = more.next;
        Ok(())
    }
}

pub fn nothing(alloc: Global, next: u32) -> Made
    ensures { result ≡ nothing next }
{
    Made {
        statements: List::new(alloc),
        next,
    }
}

/// An expression with no statement before it.
pub fn plain(alloc: Global, exp: Box<CExp>, next: u32) -> Code
    ensures { result ≡ plain exp next }
{
    Code {
        statements: List::new(alloc),
        exp,
        next,
    }
}

/// Statements, or that memory ran out.
pub(crate) fn made_whole(statements: Option<List<CStm>>, next: u32) -> Result<Made, AllocError>
    ensures { (s : List CStm) → Gives statements s → IfOk result (λ it. it ≡ made s next) }
{
    match statements {
        Some(statements) => Ok(Made { statements, next }),
        None => Err(AllocError),
    }
}

/// An expression behind statements, or that memory ran out.
pub(crate) fn code_whole(
    statements: Option<List<CStm>>,
    exp: Option<Box<CExp>>,
    next: u32,
) -> Result<Code, AllocError>
    ensures { (s : List CStm) (e : CExp) → Gives statements s → Gives exp e → IfOk result (λ it. it ≡ code s e next) }
{
    match (statements, exp) {
        (Some(statements), Some(exp)) => Ok(Code {
            statements,
            exp,
            next,
        }),
        _ => Err(AllocError),
    }
}

/// An expression with no statement before it, or that memory ran out.
pub(crate) fn plain_whole(
    alloc: Global,
    exp: Option<Box<CExp>>,
    next: u32,
) -> Result<Code, AllocError>
    ensures { (e : CExp) → Gives exp e → IfOk result (λ it. it ≡ plain e next) }
{
    code_whole(Some(List::new(alloc)), exp, next)
}

/// An object as a destination, or that memory ran out.
pub(crate) fn place_whole(object: Option<Box<CExp>>) -> Result<Destination, AllocError>
    ensures { (o : CExp) → Gives object o → IfOk result (λ it. it ≡ goes.Place o) }
{
    match object {
        Some(object) => Ok(Destination::Place(object)),
        None => Err(AllocError),
    }
}

/// An object, as a destination.
pub(crate) fn place_of(alloc: Global, object: &CExp) -> Result<Destination, AllocError>
    ensures { IfOk result (λ it. it ≡ goes.Place object.now) }
{
    place_whole(copy_exp(alloc, object))
}

/// Statements with others before them.
pub fn behind(before: List<CStm>, made: Made) -> Result<Made, AllocError>
    ensures { IfOk result (λ it. it ≡ behind before made) }
{
    made_whole(appended(Some(before), Some(made.statements)), made.next)
}

/// What is made with an object, behind the statements of the object.
pub fn behind_object(object: Code, made: Made) -> Result<Made, AllocError>
    ensures { IfOk result (λ it. it ≡ behind object.statements made) }
{
    behind(object.statements, made)
}

/// An object behind the statements that write its value.
pub(crate) fn in_object(object: Code, made: Made) -> Result<Code, AllocError>
    ensures { IfOk result (λ it. it ≡ with_value (behind object.statements made) object.exp) }
{
    let statements = appended(Some(object.statements), Some(made.statements));
    code_whole(statements, Some(object.exp), made.next)
}

/// Brings an object into scope; its statements are left.
pub fn enter(scope: &mut List<CExp>, object: Code) -> Result<Made, AllocError>
    ensures made { IfOk result (λ it. it ≡ without_value object) }
    ensures scope { OnOk result (scope.new ≡ scope.old ++ object.exp ∷ []) }
{
    let Code {
        statements,
        exp,
        next,
    } = object;
    scope.push(exp.into_inner())?;
    Ok(Made { statements, next })
}

/// An expression with further statements before its own.
pub(crate) fn behind_code(before: List<CStm>, code: Code) -> Result<Code, AllocError>
    ensures { IfOk result (λ it. it ≡ behind_code before code) }
{
    let statements = appended(Some(before), Some(code.statements));
    code_whole(statements, Some(code.exp), code.next)
}

/// Statements with one more behind them.
pub fn ended(statements: List<CStm>, last: CStm, next: u32) -> Result<Made, AllocError>
    ensures { IfOk result (λ it. it ≡ ended statements last next) }
{
    let mut statements = statements;
    statements.push(last)?;
    Ok(Made { statements, next })
}

/// A choice between statements, behind others.
pub(crate) fn tested_behind(
    alloc: Global,
    before: List<CStm>,
    test: Box<CExp>,
    body: List<CStm>,
    otherwise: Made,
) -> Result<Made, AllocError>
    ensures { IfOk result (λ it. it ≡ ended before (tested test body otherwise.statements) otherwise.next) }
{
    let last = tested(alloc, test, body, otherwise.statements)?;
    ended(before, last, otherwise.next)
}

/// Statements with one more behind them, if it was made.
pub(crate) fn ended_whole(
    statements: List<CStm>,
    last: Option<Box<CStm>>,
    next: u32,
) -> Result<Made, AllocError>
    ensures { (l : CStm) → Gives last l → IfOk result (λ it. it ≡ ended statements l next) }
{
    made_whole(with(Some(statements), last), next)
}

pub(crate) fn with_value(made: Made, exp: Box<CExp>) -> Code
    ensures { result ≡ with_value made exp }
{
    Code {
        statements: made.statements,
        exp,
        next: made.next,
    }
}

/// The statements alone, for what they may raise.
pub(crate) fn without_value(code: Code) -> Made
    ensures { result ≡ without_value code }
{
    Made {
        statements: code.statements,
        next: code.next,
    }
}

// The number behind that of a name.
fn number_behind(number: u32) -> Result<u32, AllocError>
    ensures { IfOk result (λ it. it ≡ number + 1) }
{
    if number == u32::MAX {
        return Err(AllocError);
    }
    Ok(number + 1)
}

// The variable of a number, behind the statements that make it.
fn new_variable(
    alloc: Global,
    statements: Option<List<CStm>>,
    number: u32,
) -> Result<Code, AllocError>
    ensures { (s : List CStm) → Gives statements s → IfOk result (λ it. it ≡ code s (tree.Name (variable_name number)) (number + 1)) }
{
    match number_behind(number) {
        Ok(next) => code_whole(statements, named(alloc, variable(alloc, number).ok()), next),
        Err(_) => Err(AllocError),
    }
}

/// A variable of the type that has no value yet.
pub(crate) fn declared(s: Setting, next: u32, ty: &Ty) -> Result<Code, AllocError>
    ensures { IfOk result (λ it. it ≡ declared (type_of (target s.entry) ty.now) next) }
{
    let ty = s.types.c_type(s.alloc, ty)?;
    let statement = declaration(s.alloc, ty, variable(s.alloc, next).ok());
    new_variable(s.alloc, of_one(s.alloc, statement), next)
}

fn declaration(alloc: Global, ty: CType, name: Option<Text>) -> Option<Box<CStm>>
    ensures { (n : List ℕ) → Gives name n → Gives result (stm.Declare (variable false ty n)) }
{
    match name {
        Some(name) => Box::new(alloc, CStm::Declare(variable_of(ty, name))).ok(),
        None => None,
    }
}

/// A variable with the value.
pub fn defined(alloc: Global, ty: CType, code: Code) -> Result<Code, AllocError>
    ensures { IfOk result (λ it. it ≡ defined ty code) }
{
    let name = variable(alloc, code.next).ok();
    let last = define(alloc, ty, name, Some(code.exp));
    new_variable(alloc, with(Some(code.statements), last), code.next)
}

/// A variable with the value of a divisor. It isn't `const`, as compilers warn of a constant divisor that is 0.
pub(crate) fn defined_divisor(alloc: Global, ty: CType, code: Code) -> Result<Code, AllocError>
    ensures { IfOk result (λ it. it ≡ defined_divisor ty code) }
{
    let name = variable(alloc, code.next).ok();
    let last = definition(alloc, ty, name, code.exp);
    new_variable(alloc, with(Some(code.statements), last), code.next)
}

fn definition(alloc: Global, ty: CType, name: Option<Text>, value: Box<CExp>) -> Option<Box<CStm>>
    ensures { (n : List ℕ) → Gives name n → Gives result (stm.Define (variable false ty n) value) }
{
    match name {
        Some(name) => Box::new(alloc, CStm::Define(variable_of(ty, name), value)).ok(),
        None => None,
    }
}

fn variable_of(ty: CType, name: Text) -> CVariable
    ensures { result ≡ variable false ty name }
{
    CVariable {
        constant: false,
        ty,
        name,
    }
}

/// The value goes to the destination.
pub(crate) fn given(alloc: Global, to: &Destination, code: Code) -> Result<Made, AllocError>
    ensures { IfOk result (λ it. it ≡ given to.now code) }
{
    match to {
        Destination::Place(object) => {
            let last = assign(alloc, copy_exp(alloc, object), Some(code.exp));
            ended_whole(code.statements, last, code.next)
        }
        Destination::Returned => {
            let last = returns(alloc, Some(code.exp));
            ended_whole(code.statements, last, code.next)
        }
        Destination::Nowhere => Ok(without_value(code)),
    }
}
