//! The types of expressions of a core, as far as their forms tell: a constructor in a tuple has a type only if one data type alone
//! has such a constructor, and a literal has none.
ghost use Rattle.std.specs.Prelude.{◌≤◌};

use hume_base::{List, Shared, Ty, Types, same_ty};
use hume_model::{Core, Forms, PatC};
use std::alloc::{AllocError, Global};

/// One level of a type.
#[derive(Clone, Copy)]
pub(crate) enum Known<'a> {
    /// A type that the program declares.
    Declared(&'a Ty),
    Truth,
    /// A data type, by its number.
    Data(u32),
    /// The type of a constructor, by its place, the number of the first of its fields, and how many they are.
    Made(u32, usize, usize),
    /// The type of a literal: of numbers, `char` or `bool`.
    Literal,
    /// Its parts: the number of the first of them, and how many they are.
    Tuple(usize, usize),
    /// The number of its element.
    Vector(usize),
    Nothing,
}

/// The types of the variables in scope, outermost first, and the parts of tuples and vectors, by number.
#[derive(Drop)]
pub(crate) struct Scope<'a> {
    core: &'a Core,
    parts: Vec<Known<'a>>,
    variables: Vec<Known<'a>>,
    failed: bool,
}

impl<'a> Scope<'a> {
    pub(crate) fn begin(alloc: Global, core: &'a Core) -> Scope<'a> {
        Scope {
            core,
            parts: Vec::new(alloc),
            variables: Vec::new(alloc),
            failed: false,
        }
    }

    pub(crate) fn has_failed(&self) -> bool {
        self.failed
    }

    pub(crate) fn types(&self) -> &'a Types {
        &self.core.types
    }

    /// How many variables are in scope.
    pub(crate) fn variables(&self) -> usize {
        self.variables.len()
    }

    pub(crate) fn enter(&mut self, known: Known<'a>) {
        if self.variables.push(known).is_err() {
            self.failed = true;
        }
    }

    /// Leaves all but the first variables.
    pub(crate) fn leave(&mut self, count: usize) {
        self.variables.truncate(count);
    }

    pub(crate) fn variable(&self, number: u32) -> Known<'a> {
        match self.variables.get(number as usize) {
            None => Known::Nothing,
            Some(known) => *known,
        }
    }

    /// What the function of that number gives.
    pub(crate) fn given(&self, number: u32) -> Known<'a> {
        match self.core.funs.get(number as usize) {
            None => Known::Nothing,
            Some(function) => Known::Declared(&function.gives),
        }
    }

    /// What the exception of that number carries.
    pub(crate) fn carried(&self, number: u32) -> Known<'a> {
        match self.core.exns.get(number as usize) {
            None => Known::Nothing,
            Some(exn) => match &exn.carries {
                None => Known::Nothing,
                Some(ty) => Known::Declared(ty),
            },
        }
    }

    /// A tuple of these parts.
    pub(crate) fn tuple(&mut self, parts: &[Known<'a>]) -> Known<'a> {
        let first = self.parts.len();
        for part in parts {
            if self.parts.push(*part).is_err() {
                self.failed = true;
            }
        }
        Known::Tuple(first, parts.len())
    }

    /// What the constructor of that place makes of fields that are given as the parts of a tuple.
    pub(crate) fn made(&self, place: u32, fields: Known<'a>) -> Known<'a> {
        match fields {
            Known::Tuple(first, count) => Known::Made(place, first, count),
            _ => Known::Nothing,
        }
    }

    // A vector of such elements.
    fn vector(&mut self, item: Known<'a>) -> Known<'a> {
        let number = self.parts.len();
        if self.parts.push(item).is_err() {
            self.failed = true;
        }
        Known::Vector(number)
    }

    /// A vector of elements that are given as the parts of a tuple.
    pub(crate) fn vector_of(&mut self, items: Known<'a>) -> Known<'a> {
        let item = self.part_of(items, 0);
        self.vector(item)
    }

    fn part(&self, number: usize) -> Known<'a> {
        match self.parts.get(number) {
            None => Known::Nothing,
            Some(known) => *known,
        }
    }

    /// The elements of a vector.
    pub(crate) fn item_of(&self, vector: Known<'a>) -> Known<'a> {
        match vector {
            Known::Declared(Ty::Vector(_, item)) => Known::Declared(item),
            Known::Vector(number) => self.part(number),
            _ => Known::Nothing,
        }
    }

    /// A part of a tuple.
    pub(crate) fn part_of(&self, tuple: Known<'a>, at: usize) -> Known<'a> {
        match tuple {
            Known::Declared(Ty::Tuple(parts)) => match parts.get(at) {
                None => Known::Nothing,
                Some(ty) => Known::Declared(ty),
            },
            Known::Tuple(first, count) if at < count => self.part(first.saturating_add(at)),
            _ => Known::Nothing,
        }
    }

    // A field of the constructor at the place of the data type.
    fn field_of(&self, data: Known<'a>, place: u32, at: usize) -> Known<'a> {
        let number = match data {
            Known::Declared(Ty::Named(number)) => *number,
            Known::Data(number) => number,
            Known::Made(place, first, count) => match self.only_with(place, first, count) {
                None => return Known::Nothing,
                Some(number) => number,
            },
            _ => return Known::Nothing,
        };
        let Some(sum) = self.core.types.sums.get(number as usize) else {
            return Known::Nothing;
        };
        let Some(constructor) = sum.cons.get(place as usize) else {
            return Known::Nothing;
        };
        match constructor.fields.get(at) {
            None => Known::Nothing,
            Some(ty) => Known::Declared(ty),
        }
    }

    // The data type whose constructor at the place may have such fields, if there is only one.
    fn only_with(&self, place: u32, first: usize, count: usize) -> Option<u32> {
        let mut found = None;
        for number in 0..self.core.types.sums.len() {
            if self.may_make(number, place, first, count) {
                if found.is_some() {
                    return None;
                }
                found = u32::try_from(number).ok();
            }
        }
        found
    }

    // Whether the constructor at the place of the data type may have such fields.
    fn may_make(&self, number: usize, place: u32, first: usize, count: usize) -> bool {
        let Some(sum) = self.core.types.sums.get(number) else {
            return false;
        };
        let Some(constructor) = sum.cons.get(place as usize) else {
            return false;
        };
        if constructor.fields.len() != count {
            return false;
        }
        for at in 0..count {
            if !may_be(self.part(first.saturating_add(at)), &constructor.fields[at]) {
                return false;
            }
        }
        true
    }
}

// Whether it may be the type.
fn may_be(known: Known, ty: &Ty) -> bool {
    match known {
        Known::Declared(other) => same_ty(other, ty),
        Known::Truth => matches!(ty, Ty::Bool),
        Known::Data(number) => is_data(ty, number),
        Known::Made(_, _, _) => matches!(ty, Ty::Named(_)),
        Known::Literal => !matches!(ty, Ty::Named(_) | Ty::Tuple(_) | Ty::Vector(_, _)),
        Known::Tuple(_, _) => matches!(ty, Ty::Tuple(_)),
        Known::Vector(_) => matches!(ty, Ty::Vector(_, _)),
        Known::Nothing => true,
    }
}

fn is_data(ty: &Ty, number: u32) -> bool {
    match ty {
        Ty::Named(other) => *other == number,
        _ => false,
    }
}

/// The type of values of these forms.
pub(crate) fn with_forms<'a>(known: Known<'a>, forms: Forms) -> Known<'a> {
    match forms {
        Forms::Truths => Known::Truth,
        Forms::Constructors(number) => Known::Data(number),
        Forms::Others => known,
    }
}

/// The one of two that says more of one type.
pub(crate) fn better<'a>(first: Known<'a>, second: Known<'a>) -> Known<'a> {
    match first {
        Known::Nothing => second,
        Known::Literal | Known::Made(_, _, _) => match second {
            Known::Nothing => first,
            _ => second,
        },
        _ => first,
    }
}

/// Enters the variables of the pattern for values of the type.
#[cycle(enter_pattern)]
pub(crate) fn enter_pattern<'a>(scope: &mut Scope<'a>, pattern: &PatC, known: Known<'a>) {
    match pattern {
        PatC::Var => scope.enter(known),
        PatC::Any | PatC::Word(_) => {}
        PatC::Con(place, patterns) => enter_fields(scope, patterns.as_slice(), *place, known),
        PatC::Tuple(patterns) => enter_parts(scope, patterns.as_slice(), known),
    }
}

#[cycle(enter_pattern)]
fn enter_fields<'a>(scope: &mut Scope<'a>, patterns: &[PatC], place: u32, known: Known<'a>) {
    for i in 0..patterns.len() {
        let field = scope.field_of(known, place, i);
        enter_pattern(scope, &patterns[i], field);
    }
}

#[cycle(enter_pattern)]
fn enter_parts<'a>(scope: &mut Scope<'a>, patterns: &[PatC], known: Known<'a>) {
    for i in 0..patterns.len() {
        let part = scope.part_of(known, i);
        enter_pattern(scope, &patterns[i], part);
    }
}

/// The type as a tree of at most so many nodes, in which a tuple of no parts stands for each vector and for what isn't known, as also
/// where it has more nodes. What it takes goes off the room.
#[cycle(tree)]
pub(crate) fn tree<'a>(
    alloc: Global,
    scope: &Scope<'a>,
    known: Known<'a>,
    room: &mut usize,
) -> Result<Ty, AllocError>
    ensures room { room.new ≤ room.old }
{
    if *room == 0 {
        return Ok(unknown(alloc));
    }
    *room -= 1;
    match known {
        Known::Declared(Ty::Tuple(parts)) => trees(alloc, scope, known, parts.len(), room),
        Known::Declared(ty) => Ok(leaf(alloc, ty)),
        Known::Truth => Ok(Ty::Bool),
        Known::Data(number) => Ok(Ty::Named(number)),
        Known::Made(place, first, count) => Ok(match scope.only_with(place, first, count) {
            None => unknown(alloc),
            Some(number) => Ty::Named(number),
        }),
        Known::Tuple(_, count) => trees(alloc, scope, known, count, room),
        Known::Literal | Known::Vector(_) | Known::Nothing => Ok(unknown(alloc)),
    }
}

#[cycle(tree)]
fn trees<'a>(
    alloc: Global,
    scope: &Scope<'a>,
    tuple: Known<'a>,
    count: usize,
    room: &mut usize,
) -> Result<Ty, AllocError>
    ensures room { room.new ≤ room.old }
{
    let mut parts = List::new(alloc);
    for at in 0..count {
        let part = tree(alloc, scope, scope.part_of(tuple, at), room)?;
        parts.push(Shared::new(alloc, part)?)?;
    }
    Ok(Ty::Tuple(parts))
}

fn unknown(alloc: Global) -> Ty {
    Ty::Tuple(List::new(alloc))
}

fn leaf(alloc: Global, ty: &Ty) -> Ty {
    match ty {
        Ty::Bool => Ty::Bool,
        Ty::Char => Ty::Char,
        Ty::Int(bits) => Ty::Int(*bits),
        Ty::Nat(bits) => Ty::Nat(*bits),
        Ty::Named(number) => Ty::Named(*number),
        Ty::Tuple(_) | Ty::Vector(_, _) => unknown(alloc),
    }
}
