//! What the names of a source stand for: each name in turn is looked up where it stands.
ghost use Rattle.std.specs.Prelude.{◌≡◌, IfOk, length, vec_len};

use crate::name_table::{Meaning, NameTable};
use crate::names::is_given;
use crate::site::name_of;
use hume_base::Token;
use look_sources::{Sort, Span};
use std::alloc::{AllocError, Global};

/// The names that nothing declares, in the order of the source, and which variables are used.
#[derive(Drop)]
pub struct Resolved {
    unknown: Vec<Span>,
    used: Vec<bool>,
    declared: NameTable,
}

impl Resolved {
    /// The names of a source with these tokens and parts.
    pub fn of(alloc: Global, tokens: &[Token], spans: &[Span]) -> Result<Resolved, AllocError>
        ensures { IfOk result (λ resolved. vec_len resolved.used ≡ length tokens.now) }
    {
        let mut resolved = Resolved {
            unknown: Vec::new(alloc),
            used: vec![in alloc; false; tokens.len()]?,
            declared: declared_in(alloc, tokens, spans)?,
        };
        let mut scopes = Scopes::make(alloc)?;
        for span in spans {
            scopes.pass(tokens, span)?;
            resolved.look_up(tokens, span, &scopes)?;
        }
        Ok(resolved)
    }

    /// The names that nothing declares.
    pub fn unknown(&self) -> &[Span]
        ensures { result.now ≡ self.now.unknown.items }
    {
        self.unknown.as_slice()
    }

    /// Whether the variable that the token binds is used.
    pub(crate) fn is_used(&self, token: usize) -> bool {
        match self.used.get(token) {
            None => false,
            Some(used) => *used,
        }
    }

    /// What is declared of that name and meaning.
    pub(crate) fn declared(
        &self,
        tokens: &[Token],
        name: &[u8],
        meaning: Meaning<'_>,
    ) -> Option<Span> {
        self.declared.find(tokens, name, meaning)
    }

    fn look_up(&mut self, tokens: &[Token], span: &Span, scopes: &Scopes) -> Result<(), AllocError>
        ensures { vec_len self.new.used ≡ vec_len self.old.used }
    {
        let name = name_of(tokens, span.first);
        if span.sort == Sort::VariableUse {
            match scopes.known.find(tokens, name, Meaning::Variable) {
                None => self.unknown.push(*span)?,
                Some(variable) => self.mark_used(variable.first),
            }
        } else if span.sort == Sort::EquationName {
            if name != name_of(tokens, scopes.function) {
                self.unknown.push(*span)?;
            }
        } else if is_undeclared(tokens, span, &self.declared) {
            self.unknown.push(*span)?;
        }
        Ok(())
    }

    fn mark_used(&mut self, token: usize)
        ensures { vec_len self.new.used ≡ vec_len self.old.used }
    {
        if token < self.used.len() {
            self.used[token] = true;
        }
    }
}

/// The variables that are known at a place, those that will be known a little later, and the token that names the last function.
#[derive(Drop)]
struct Scopes {
    known: NameTable,
    bound: Vec<Span>,
    function: usize,
}

impl Scopes {
    fn make(alloc: Global) -> Result<Scopes, AllocError> {
        Ok(Scopes {
            known: NameTable::make(alloc)?,
            bound: Vec::new(alloc),
            function: 0,
        })
    }

    fn pass(&mut self, tokens: &[Token], span: &Span) -> Result<(), AllocError> {
        match span.sort {
            Sort::FunctionName => self.function = span.first,
            Sort::Variable => self.bound.push(*span)?,
            Sort::Known => self.make_known(tokens, span.first)?,
            Sort::Scope => self.known.forget_from(tokens, span.first),
            _ => {}
        }
        Ok(())
    }

    // The variables that are bound from the token on are known now.
    fn make_known(&mut self, tokens: &[Token], first: usize) -> Result<(), AllocError> {
        for _ in 0..self.bound.len() {
            match self.bound.last() {
                Some(variable) if variable.first >= first => {
                    self.known.push(tokens, *variable, 0)?;
                }
                _ => return Ok(()),
            }
            let _ = self.bound.pop();
        }
        Ok(())
    }
}

// All that the source declares.
fn declared_in(alloc: Global, tokens: &[Token], spans: &[Span]) -> Result<NameTable, AllocError> {
    let mut declared = NameTable::make(alloc)?;
    let mut owner: usize = 0;
    for span in spans {
        if span.sort == Sort::NodeName {
            owner = span.first;
        }
        if is_declaration(span.sort) {
            declared.push(tokens, *span, owner)?;
        }
    }
    Ok(declared)
}

fn is_declaration(sort: Sort) -> bool {
    matches!(
        sort,
        Sort::TypeName
            | Sort::ConstructorName
            | Sort::FunctionName
            | Sort::NodeName
            | Sort::Input
            | Sort::Output
    )
}

// Whether the part is a name, or the end of a wire, that nothing declares.
fn is_undeclared(tokens: &[Token], span: &Span, declared: &NameTable) -> bool {
    let name = name_of(tokens, span.first);
    let meaning = match span.sort {
        Sort::TypeUse => Meaning::DataType,
        Sort::ConstructorUse => Meaning::Constructor,
        Sort::FunctionUse => Meaning::Function,
        Sort::ExceptionUse | Sort::HandledName if is_given(name) => return false,
        Sort::ExceptionUse | Sort::HandledName => Meaning::Exception,
        Sort::WireFrom | Sort::WireTo => return is_no_end(tokens, span, declared),
        _ => return false,
    };
    declared.find(tokens, name, meaning).is_none()
}

// Whether no wire can begin or end there.
fn is_no_end(tokens: &[Token], span: &Span, declared: &NameTable) -> bool {
    let first = name_of(tokens, span.first);
    let is_from = span.sort == Sort::WireFrom;
    if span.after > span.first.saturating_add(1) {
        let port = name_of(tokens, span.first.saturating_add(2));
        let meaning = if is_from {
            Meaning::Output(first)
        } else {
            Meaning::Input(first)
        };
        return declared.find(tokens, port, meaning).is_none();
    }
    let meaning = if is_from {
        Meaning::StreamIn
    } else {
        Meaning::StreamOut
    };
    declared.find(tokens, first, meaning).is_none()
}
