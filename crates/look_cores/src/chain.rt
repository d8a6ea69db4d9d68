//! What decides a bound: from a rule or a handler, part by part, to what costs most.
use crate::bound::{Bound, Measure};
use crate::box_bounds::equation_bound;
use crate::expression_bounds::{call_bound, expression_bound};
use crate::pattern_counts::variables;
use crate::result_bounds::result_bound;
use crate::slices;
use hume_base::{Box, List};
use hume_model::{EqC, Expr, FunC, PatC, Res};

/// A form that a chain goes through.
#[derive(Clone, Copy, Debug, PartialEq, Eq)]
pub(crate) enum Form {
    /// Nothing costs anything any more.
    End,
    /// The part of a tuple, a constructor, a vector or an operation, by its number from 1.
    Part,
    Vector,
    Place,
    Item,
    Test,
    Then,
    Else,
    /// What a `case` looks at.
    Subject,
    /// An alternative of a `case`, by its number from 1.
    Alternative,
    /// What a `let` names.
    Value,
    Body,
    /// The argument of a call, by its number from 1.
    Argument,
    /// The call of the function of that number.
    Call,
    /// An equation of a function, by its number from 1.
    Equation,
    /// What an exception carries.
    Carried,
    /// An output, by its number from 1.
    Output,
}

impl Form {
    pub(crate) fn name(self) -> &'static [u8] {
        match self {
            Form::End => b"end",
            Form::Part => b"part",
            Form::Vector => b"vector",
            Form::Place => b"place",
            Form::Item => b"element",
            Form::Test => b"test of if",
            Form::Then => b"then",
            Form::Else => b"else",
            Form::Subject => b"subject of case",
            Form::Alternative => b"case alternative",
            Form::Value => b"value of let",
            Form::Body => b"body of let",
            Form::Argument => b"argument",
            Form::Call => b"call of",
            Form::Equation => b"equation",
            Form::Carried => b"carried by raise",
            Form::Output => b"output",
        }
    }
}

/// Where a chain is.
#[derive(Clone, Copy)]
pub(crate) enum Stage<'a> {
    /// Behind the last part.
    Past,
    /// An output that gets nothing.
    Nothing,
    Expression(&'a Expr),
    Outcome(&'a Res),
    /// The function of that number is called with so many arguments.
    Called(u32, usize),
    Equation(&'a EqC),
}

/// What a part is: its form, its number where it has one, and the words that are on the stack below it.
#[derive(Clone, Copy)]
struct Role {
    form: Form,
    number: usize,
    below: u64,
}

impl Role {
    fn of(form: Form, below: u64) -> Role {
        Role {
            form,
            number: 0,
            below,
        }
    }

    fn numbered(form: Form, number: usize, below: u64) -> Role {
        Role {
            form,
            number,
            below,
        }
    }

    // One of several, counted from 0, each above those before it.
    fn in_row(form: Form, place: usize) -> Role {
        Role::numbered(form, place.saturating_add(1), place as u64)
    }
}

/// A link of a chain: the form and the number of a part, what it adds, and its place among the parts.
#[derive(Clone, Copy)]
pub(crate) struct Link {
    pub(crate) form: Form,
    pub(crate) number: usize,
    pub(crate) amount: u64,
    place: usize,
}

fn end() -> Link {
    Link {
        form: Form::End,
        number: 0,
        amount: 0,
        place: 0,
    }
}

// The dearer of two links; the first one of equal ones.
fn dearer(first: Link, second: Link) -> Link {
    if second.amount > first.amount {
        second
    } else {
        first
    }
}

/// What decides the bounds of a program's boxes.
#[derive(Clone, Copy)]
pub(crate) struct Deciding<'a> {
    pub(crate) measure: Measure,
    pub(crate) functions: &'a [FunC],
    pub(crate) bounds: &'a [Bound],
}

impl<'a> Deciding<'a> {
    /// The dearest part of what is at that stage.
    pub(crate) fn next(&self, stage: Stage<'a>) -> Link {
        let mut best = end();
        for place in 0..usize::MAX {
            let part = self.part(stage, place);
            if is_past(part) {
                return best;
            }
            let role = role_in(stage, place);
            let amount = self.amount(part, role.below);
            best = dearer(
                best,
                Link {
                    form: role.form,
                    number: role.number,
                    amount,
                    place,
                },
            );
        }
        best
    }

    /// Where a link leads from that stage.
    pub(crate) fn behind(&self, stage: Stage<'a>, link: Link) -> Stage<'a> {
        self.part(stage, link.place)
    }

    // The part at a place of what is at that stage.
    fn part(&self, stage: Stage<'a>, place: usize) -> Stage<'a> {
        match stage {
            Stage::Past | Stage::Nothing => Stage::Past,
            Stage::Expression(e) => part_of_expression(e, place),
            Stage::Outcome(res) => part_of_result(res, place),
            Stage::Called(function, _) => equation_of(self.functions, function, place),
            Stage::Equation(equation) => part_of_expression(&equation.body, place),
        }
    }

    // What a part adds above so many words of stack.
    fn amount(&self, part: Stage<'a>, below: u64) -> u64 {
        match part {
            Stage::Past | Stage::Nothing => 0,
            Stage::Expression(e) => self.share(expression_bound(self.bounds, e), below),
            Stage::Outcome(res) => self.share(result_bound(self.bounds, res), below),
            Stage::Called(function, arguments) => {
                call_bound(self.bounds, function, arguments).by(self.measure)
            }
            Stage::Equation(equation) => equation_bound(self.bounds, equation).by(self.measure),
        }
    }

    // What is measured of a bound above so many words of stack.
    fn share(&self, bound: Bound, below: u64) -> u64 {
        match self.measure {
            Measure::Stack => bound.stack.saturating_add(below),
            _ => bound.by(self.measure),
        }
    }
}

fn is_past(stage: Stage) -> bool {
    match stage {
        Stage::Past => true,
        _ => false,
    }
}

fn role_in(stage: Stage, place: usize) -> Role {
    match stage {
        Stage::Past | Stage::Nothing => Role::of(Form::End, 0),
        Stage::Expression(e) => role_in_expression(e, place),
        Stage::Outcome(res) => role_in_result(res, place),
        Stage::Called(_, _) => Role::in_row(Form::Equation, place),
        Stage::Equation(equation) => role_in_expression(&equation.body, place),
    }
}

fn equation_of(functions: &[FunC], function: u32, place: usize) -> Stage<'_> {
    let number = function as usize;
    if number >= functions.len() {
        return Stage::Past;
    }
    let equations = slices::equations(&functions[number]);
    if place < equations.len() {
        Stage::Equation(&equations[place])
    } else {
        Stage::Past
    }
}

fn part_of_expression(e: &Expr, place: usize) -> Stage<'_> {
    match e {
        Expr::Word(_) | Expr::Var(_) | Expr::Raise(_, None) => Stage::Past,
        Expr::Con(_, parts) | Expr::Tuple(parts) | Expr::Vect(parts) | Expr::Prim(_, _, parts) => {
            one_of(parts, place)
        }
        Expr::Index(_, first, second) | Expr::Let(first, second) => {
            one_of_two(first, second, place)
        }
        Expr::Update(_, first, second, third) | Expr::If(first, second, third) => {
            one_of_three(first, second, third, place)
        }
        Expr::Case(subject, _, arms) => {
            if place == 0 {
                Stage::Expression(slices::part(subject))
            } else {
                body_of(arms, place - 1)
            }
        }
        Expr::Call(function, parts) => {
            if place == 0 {
                Stage::Called(*function, slices::parts(parts).len())
            } else {
                one_of(parts, place - 1)
            }
        }
        Expr::Raise(_, Some(part)) => only(part, place),
    }
}

fn one_of(parts: &List<Expr>, place: usize) -> Stage<'_> {
    let parts = slices::parts(parts);
    if place < parts.len() {
        Stage::Expression(&parts[place])
    } else {
        Stage::Past
    }
}

fn only(part: &Box<Expr>, place: usize) -> Stage<'_> {
    if place == 0 {
        Stage::Expression(slices::part(part))
    } else {
        Stage::Past
    }
}

fn one_of_two<'a>(first: &'a Box<Expr>, second: &'a Box<Expr>, place: usize) -> Stage<'a> {
    if place == 0 {
        Stage::Expression(slices::part(first))
    } else {
        only(second, place - 1)
    }
}

fn one_of_three<'a>(
    first: &'a Box<Expr>,
    second: &'a Box<Expr>,
    third: &'a Box<Expr>,
    place: usize,
) -> Stage<'a> {
    if place == 0 {
        Stage::Expression(slices::part(first))
    } else {
        one_of_two(second, third, place - 1)
    }
}

fn body_of(arms: &List<(PatC, Expr)>, place: usize) -> Stage<'_> {
    let arms = slices::arms(arms);
    if place < arms.len() {
        Stage::Expression(&arms[place].1)
    } else {
        Stage::Past
    }
}

fn role_in_expression(e: &Expr, place: usize) -> Role {
    match e {
        Expr::Con(_, _) | Expr::Tuple(_) | Expr::Vect(_) | Expr::Prim(_, _, _) => {
            Role::in_row(Form::Part, place)
        }
        Expr::Index(_, _, _) | Expr::Update(_, _, _, _) => {
            Role::of(form_in_vector(place), place as u64)
        }
        Expr::If(_, _, _) => Role::of(form_in_if(place), 0),
        Expr::Case(_, _, arms) => {
            if place == 0 {
                Role::of(Form::Subject, 0)
            } else {
                Role::numbered(Form::Alternative, place, below_body(arms, place - 1))
            }
        }
        Expr::Let(_, _) => Role::of(form_in_let(place), place as u64),
        Expr::Call(function, _) => {
            if place == 0 {
                Role::numbered(Form::Call, *function as usize, 0)
            } else {
                Role::in_row(Form::Argument, place - 1)
            }
        }
        Expr::Word(_) | Expr::Var(_) | Expr::Raise(_, _) => Role::of(Form::Carried, 0),
    }
}

fn form_in_vector(place: usize) -> Form {
    match place {
        0 => Form::Vector,
        1 => Form::Place,
        _ => Form::Item,
    }
}

fn form_in_if(place: usize) -> Form {
    match place {
        0 => Form::Test,
        1 => Form::Then,
        _ => Form::Else,
    }
}

fn form_in_let(place: usize) -> Form {
    if place == 0 { Form::Value } else { Form::Body }
}

// The words below the body of an alternative: what is matched, and the variables of the pattern.
fn below_body(arms: &List<(PatC, Expr)>, place: usize) -> u64 {
    let arms = slices::arms(arms);
    if place < arms.len() {
        variables(&arms[place].0).saturating_add(1)
    } else {
        0
    }
}

fn part_of_result(res: &Res, place: usize) -> Stage<'_> {
    match res {
        Res::Outs(outs) => output_at(outs, place),
        Res::If(test, when_true, when_false) => match place {
            0 => Stage::Expression(test),
            1 => Stage::Outcome(slices::result_part(when_true)),
            2 => Stage::Outcome(slices::result_part(when_false)),
            _ => Stage::Past,
        },
        Res::Case(subject, _, arms) => {
            if place == 0 {
                Stage::Expression(subject)
            } else {
                result_of(arms, place - 1)
            }
        }
        Res::Let(value, body) => match place {
            0 => Stage::Expression(value),
            1 => Stage::Outcome(slices::result_part(body)),
            _ => Stage::Past,
        },
        Res::Raise(_, None) => Stage::Past,
        Res::Raise(_, Some(part)) => {
            if place == 0 {
                Stage::Expression(part)
            } else {
                Stage::Past
            }
        }
    }
}

fn output_at(outs: &List<Option<Expr>>, place: usize) -> Stage<'_> {
    let outs = slices::outputs(outs);
    if place >= outs.len() {
        return Stage::Past;
    }
    match &outs[place] {
        None => Stage::Nothing,
        Some(e) => Stage::Expression(e),
    }
}

fn result_of(arms: &List<(PatC, Res)>, place: usize) -> Stage<'_> {
    let arms = slices::result_arms(arms);
    if place < arms.len() {
        Stage::Outcome(&arms[place].1)
    } else {
        Stage::Past
    }
}

fn role_in_result(res: &Res, place: usize) -> Role {
    match res {
        Res::Outs(outs) => {
            Role::numbered(
                Form::Output,
                place.saturating_add(1),
                outputs_before(outs, place),
            )
        }
        Res::If(_, _, _) => Role::of(form_in_if(place), 0),
        Res::Case(_, _, arms) => {
            if place == 0 {
                Role::of(Form::Subject, 0)
            } else {
                Role::numbered(Form::Alternative, place, below_result(arms, place - 1))
            }
        }
        Res::Let(_, _) => Role::of(form_in_let(place), place as u64),
        Res::Raise(_, _) => Role::of(Form::Carried, 0),
    }
}

// How many outputs before that place get a value.
fn outputs_before(outs: &List<Option<Expr>>, place: usize) -> u64 {
    let outs = slices::outputs(outs);
    let mut count: u64 = 0;
    for i in 0..place.min(outs.len()) {
        if let Some(_) = &outs[i] {
            count = count.saturating_add(1);
        }
    }
    count
}

fn below_result(arms: &List<(PatC, Res)>, place: usize) -> u64 {
    let arms = slices::result_arms(arms);
    if place < arms.len() {
        variables(&arms[place].0).saturating_add(1)
    } else {
        0
    }
}
