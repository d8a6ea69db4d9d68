//! The patterns of equations and alternatives, and whether they leave nothing out by their forms alone.
use crate::guess::Guess;
use hume_base::Types;
use hume_model::{EqC, Expr, Forms, PatC, Res, forms_of};
use std::alloc::{AllocError, Global};

/// Equations of a function, or alternatives of a `case`, of which the first that fits is taken: their patterns.
#[derive(Drop)]
pub(crate) struct Alternatives<'a> {
    // Those of one after those of the other.
    patterns: Vec<Option<&'a PatC>>,
    count: usize,
    // How many patterns each has.
    width: usize,
    failed: bool,
}

impl<'a> Alternatives<'a> {
    fn begin(alloc: Global, width: usize) -> Alternatives<'a> {
        Alternatives {
            patterns: Vec::new(alloc),
            count: 0,
            width,
            failed: false,
        }
    }

    /// The equations of a function with so many parameters.
    pub(crate) fn of_equations(
        alloc: Global,
        equations: &'a [EqC],
        parameters: usize,
    ) -> Alternatives<'a> {
        let mut made = Alternatives::begin(alloc, parameters);
        for i in 0..equations.len() {
            made.add_equation(&equations[i]);
        }
        made
    }

    pub(crate) fn of_values(alloc: Global, arms: &'a [(PatC, Expr)]) -> Alternatives<'a> {
        let mut made = Alternatives::begin(alloc, 1);
        for i in 0..arms.len() {
            made.add(&arms[i].0);
        }
        made
    }

    pub(crate) fn of_results(alloc: Global, arms: &'a [(PatC, Res)]) -> Alternatives<'a> {
        let mut made = Alternatives::begin(alloc, 1);
        for i in 0..arms.len() {
            made.add(&arms[i].0);
        }
        made
    }

    fn add_equation(&mut self, equation: &'a EqC) {
        self.count = self.count.saturating_add(1);
        for parameter in 0..self.width {
            let pattern = equation.pats.get(parameter);
            self.push(pattern);
        }
    }

    fn add(&mut self, pattern: &'a PatC) {
        self.count = self.count.saturating_add(1);
        self.push(Some(pattern));
    }

    fn push(&mut self, pattern: Option<&'a PatC>) {
        if self.patterns.push(pattern).is_err() {
            self.failed = true;
        }
    }

    pub(crate) fn len(&self) -> usize {
        self.count
    }

    /// The pattern of an alternative for a parameter, both counted from 0. A `case` has one parameter.
    pub(crate) fn pattern(&self, alternative: usize, parameter: usize) -> Option<&'a PatC> {
        let place = alternative
            .saturating_mul(self.width)
            .saturating_add(parameter);
        if parameter < self.width && place < self.patterns.len() {
            self.patterns[place]
        } else {
            None
        }
    }

    /// Whether the rule on exceptions sees that they leave nothing out for the parameters of the guess.
    pub(crate) fn are_complete(&self, alloc: Global, guess: &Guess) -> Result<bool, AllocError> {
        match guess.first_type() {
            Some(ty) if guess.parameters == 1 => {
                self.are_complete_for(alloc, guess.types, forms_of(ty))
            }
            _ => self.last_is_plain(guess.parameters),
        }
    }

    /// Whether the rule on exceptions sees that they leave nothing out for one parameter, whose values are of these forms.
    pub(crate) fn are_complete_for(
        &self,
        alloc: Global,
        types: &Types,
        forms: Forms,
    ) -> Result<bool, AllocError> {
        if self.last_is_plain(1)? {
            return Ok(true);
        }
        match forms {
            Forms::Truths => self.are_each(alloc, 2),
            Forms::Constructors(number) => match types.sums.get(number as usize) {
                None => Ok(false),
                Some(sum) => self.are_each(alloc, sum.cons.len()),
            },
            Forms::Others => Ok(false),
        }
    }

    // Whether the last one takes all values; an error where memory ran out for the patterns.
    fn last_is_plain(&self, parameters: usize) -> Result<bool, AllocError> {
        if self.failed {
            return Err(AllocError);
        }
        if self.count == 0 {
            return Ok(false);
        }
        let last = self.count.saturating_sub(1);
        for parameter in 0..parameters {
            if !is_plain_if_there(self.pattern(last, parameter)) {
                return Ok(false);
            }
        }
        Ok(true)
    }

    fn taken_wholly(&self, alternative: usize) -> usize {
        match self.pattern(alternative, 0) {
            None => usize::MAX,
            Some(pattern) => taken_by(pattern),
        }
    }

    // Whether they are so many, and each word below that or constructor is taken by one of them.
    fn are_each(&self, alloc: Global, count: usize) -> Result<bool, AllocError> {
        if self.count != count {
            return Ok(false);
        }
        let mut taken = vec![in alloc; false; count]?;
        for alternative in 0..count {
            let place = self.taken_wholly(alternative);
            if place >= taken.len() || taken[place] {
                return Ok(false);
            }
            taken[place] = true;
        }
        Ok(true)
    }
}

// The word, or the place of the constructor, that the pattern takes wholly; the greatest number where there is none.
fn taken_by(pattern: &PatC) -> usize {
    match pattern {
        PatC::Word(word) => *word as usize,
        PatC::Con(place, parts) => {
            if are_plain(parts.as_slice()) {
                *place as usize
            } else {
                usize::MAX
            }
        }
        _ => usize::MAX,
    }
}

fn is_plain_if_there(pattern: Option<&PatC>) -> bool {
    match pattern {
        None => false,
        Some(pattern) => is_plain(pattern),
    }
}

// Whether the pattern consists of variables, `_` and tuples alone.
#[cycle(is_plain)]
fn is_plain(pattern: &PatC) -> bool {
    match pattern {
        PatC::Var | PatC::Any => true,
        PatC::Word(_) | PatC::Con(_, _) => false,
        PatC::Tuple(parts) => are_plain(parts.as_slice()),
    }
}

#[cycle(is_plain)]
fn are_plain(patterns: &[PatC]) -> bool {
    for i in 0..patterns.len() {
        if !is_plain(&patterns[i]) {
            return false;
        }
    }
    true
}
