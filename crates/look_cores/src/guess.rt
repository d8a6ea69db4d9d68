//! Values that are known in part: what isn't known yet is chosen when a pattern asks for it, in each way in turn.
use hume_base::{ConDef, Shared, SumDef, Ty, Types};
use hume_model::PatC;
use std::alloc::{AllocError, Global};

// How many letters there are.
const LETTERS: u64 = 97;

/// A part of the values.
#[derive(Clone, Copy)]
pub(crate) struct Part<'a> {
    /// A tuple of no parts where the type isn't known.
    pub(crate) ty: &'a Ty,
    /// The word, or the place of the constructor, once it is chosen.
    pub(crate) word: Option<u64>,
    /// The number of the first of its own parts, or 0 while it has none.
    pub(crate) first: usize,
}

/// The values that the parameters of a function or a `case` have.
#[derive(Drop)]
pub(crate) struct Guess<'a> {
    pub(crate) types: &'a Types,
    /// The parameters, and then parts of earlier ones.
    pub(crate) parts: Vec<Part<'a>>,
    pub(crate) parameters: usize,
    // The words and constructors that parts aren't.
    denied: Vec<(usize, u64)>,
    // What was chosen, the earliest first, and how many of these choices are used so far.
    choices: Vec<bool>,
    used: usize,
    // How many steps may still be made.
    steps: usize,
    // Whether a part was asked for whose type isn't known.
    asked: bool,
    failed: bool,
}

impl<'a> Guess<'a> {
    pub(crate) fn begin(alloc: Global, types: &'a Types, steps: usize) -> Guess<'a> {
        Guess {
            types,
            parts: Vec::new(alloc),
            parameters: 0,
            denied: Vec::new(alloc),
            choices: Vec::new(alloc),
            used: 0,
            steps,
            asked: false,
            failed: false,
        }
    }

    /// Adds a parameter of the type.
    pub(crate) fn add(&mut self, ty: &'a Ty) {
        self.parameters = self.parameters.saturating_add(1);
        self.push(ty);
    }

    fn push(&mut self, ty: &'a Ty) {
        let part = Part {
            ty,
            word: None,
            first: 0,
        };
        if self.parts.push(part).is_err() {
            self.failed = true;
        }
    }

    /// The type of the first parameter.
    pub(crate) fn first_type(&self) -> Option<&'a Ty> {
        match self.parts.get(0) {
            None => None,
            Some(part) => Some(part.ty),
        }
    }

    /// How many steps may still be made.
    pub(crate) fn steps(&self) -> usize {
        self.steps
    }

    pub(crate) fn has_failed(&self) -> bool {
        self.failed
    }

    /// Whether no more steps may be made, so that what fits isn't known.
    pub(crate) fn is_over(&self) -> bool {
        self.steps == 0 || self.failed
    }

    fn spend(&mut self, count: usize) {
        self.steps = self.steps.saturating_sub(count);
    }

    /// Forgets what is known, and not what is to be chosen.
    pub(crate) fn begin_again(&mut self) {
        let count = self.parts.len().saturating_add(1);
        self.spend(count);
        self.parts.truncate(self.parameters);
        for parameter in 0..self.parameters {
            self.set_word(parameter, None);
            self.set_first(parameter, 0);
        }
        self.denied.clear();
        self.used = 0;
        self.asked = false;
    }

    /// Whether something rests on a part whose type isn't known.
    pub(crate) fn has_asked(&self) -> bool {
        self.asked
    }

    // Whether the type of the part is known, which is asked for.
    fn is_known(&mut self, part: &Part) -> bool {
        let known = match part.ty {
            Ty::Tuple(parts) => parts.len() > 0,
            _ => true,
        };
        self.asked = self.asked || !known;
        known
    }

    /// Forgets what is to be chosen, too.
    pub(crate) fn forget_choices(&mut self) {
        self.choices.clear();
    }

    pub(crate) fn has_chosen(&self) -> bool {
        !self.choices.is_empty()
    }

    /// Chooses otherwise next time, or tells that all ways have been gone.
    pub(crate) fn turn(&mut self) -> bool {
        for _ in 0..self.choices.len() {
            if let Some(false) = self.choices.pop() {
                if self.choices.push(true).is_err() {
                    self.failed = true;
                }
                return true;
            }
        }
        false
    }

    // Whether a part is what it is asked for, where it may be or not: at first it isn't.
    fn choose(&mut self) -> bool {
        let at = self.used;
        self.used = at.saturating_add(1);
        if let Some(chosen) = self.choices.get(at) {
            return *chosen;
        }
        if self.choices.push(false).is_err() {
            self.failed = true;
        }
        false
    }

    // Whether the part is the word, or made by the constructor of that place.
    fn is_word(&mut self, number: usize, word: u64) -> bool {
        let Some(part) = self.parts.get(number).copied() else {
            return false;
        };
        if !self.is_known(&part) {
            return false;
        }
        if let Some(known) = part.word {
            return known == word;
        }
        let count = self.denied.len();
        self.spend(count);
        if self.is_denied(number, word) {
            return false;
        }
        let others = self.denials(number).saturating_add(1);
        let holds = others >= values_of(self.types, part.ty) || self.choose();
        if holds {
            self.set_word(number, Some(word));
        } else if self.denied.push((number, word)).is_err() {
            self.failed = true;
        }
        holds
    }

    // Whether the part is a tuple.
    fn is_tuple(&mut self, number: usize) -> bool {
        match self.parts.get(number).copied() {
            None => false,
            Some(part) => self.is_known(&part),
        }
    }

    fn set_word(&mut self, number: usize, word: Option<u64>) {
        if number < self.parts.len() {
            self.parts[number].word = word;
        }
    }

    fn set_first(&mut self, number: usize, first: usize) {
        if number < self.parts.len() {
            self.parts[number].first = first;
        }
    }

    /// Whether the part isn't that word or constructor.
    pub(crate) fn is_denied(&self, number: usize, word: u64) -> bool {
        for denied in self.denied.as_slice() {
            if denied.0 == number && denied.1 == word {
                return true;
            }
        }
        false
    }

    /// How many words or constructors the part isn't.
    pub(crate) fn denials(&self, number: usize) -> u64 {
        let mut count: u64 = 0;
        for denied in self.denied.as_slice() {
            if denied.0 == number {
                count = count.saturating_add(1);
            }
        }
        count
    }

    // The number of the first of its own parts.
    fn first_part(&mut self, number: usize) -> usize {
        let Some(part) = self.parts.get(number).copied() else {
            return 0;
        };
        if part.first > 0 {
            return part.first;
        }
        let first = self.parts.len();
        for ty in part_types(self.types, &part) {
            self.push(ty);
        }
        self.set_first(number, first);
        first
    }
}

/// The types of its own parts.
pub(crate) fn part_types<'a>(types: &'a Types, part: &Part<'a>) -> &'a [Shared<Ty>] {
    if let Ty::Tuple(parts) = part.ty {
        return parts.as_slice();
    }
    match (sum_of(types, part.ty), part.word) {
        (Some(sum), Some(place)) => match constructor_at(sum, place) {
            None => &[],
            Some(constructor) => constructor.fields.as_slice(),
        },
        _ => &[],
    }
}

/// The data type, if it is one.
pub(crate) fn sum_of<'a>(types: &'a Types, ty: &Ty) -> Option<&'a SumDef> {
    match ty {
        Ty::Named(number) => types.sums.get(*number as usize),
        _ => None,
    }
}

/// The constructor at the place of the data type.
pub(crate) fn constructor_at(sum: &SumDef, place: u64) -> Option<&ConDef> {
    sum.cons.get(place as usize)
}

// How many words or constructors the type has, at most 2^64 - 1.
fn values_of(types: &Types, ty: &Ty) -> u64 {
    match ty {
        Ty::Bool => 2,
        Ty::Char => LETTERS,
        Ty::Int(bits) | Ty::Nat(bits) => words_of_bits(*bits),
        Ty::Named(_) => match sum_of(types, ty) {
            None => u64::MAX,
            Some(sum) => sum.cons.len() as u64,
        },
        Ty::Tuple(_) | Ty::Vector(_, _) => u64::MAX,
    }
}

/// How many words so many bits have, at most 2^64 - 1.
pub(crate) fn words_of_bits(bits: u8) -> u64 {
    if bits < 64 { 1 << bits } else { u64::MAX }
}

/// Whether the part fits the pattern. What isn't known of it yet is chosen.
#[cycle(fits)]
pub(crate) fn fits(guess: &mut Guess, pattern: &PatC, part: usize) -> bool {
    guess.spend(1);
    if guess.is_over() {
        return false;
    }
    match pattern {
        PatC::Var | PatC::Any => true,
        PatC::Word(word) => guess.is_word(part, *word),
        PatC::Con(place, patterns) => {
            guess.is_word(part, u64::from(*place)) && parts_fit(guess, patterns.as_slice(), part)
        }
        PatC::Tuple(patterns) => {
            guess.is_tuple(part) && parts_fit(guess, patterns.as_slice(), part)
        }
    }
}

#[cycle(fits)]
fn parts_fit(guess: &mut Guess, patterns: &[PatC], part: usize) -> bool {
    let first = guess.first_part(part);
    for i in 0..patterns.len() {
        if !fits(guess, &patterns[i], first.saturating_add(i)) {
            return false;
        }
    }
    true
}
