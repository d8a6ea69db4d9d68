//! What lets a rule or a handler raise `NoCase`: equations and alternatives that leave something out, and `raise NoCase` itself.
ghost use Rattle.hume_exceptions.specs.Sets.{IsRaisesOf};
ghost use Rattle.std.specs.Prelude.{◌≡◌, ◌≤◌, ◌<◌, IfOk, false, vec_len};
ghost use Rattle.look_cores.specs.declared.gaps.TheConstants.{MAX_GAPS};

use crate::alternatives::Alternatives;
use crate::broken::{Culprit, tell_box};
use crate::guess::Guess;
use crate::known::{Known, Scope, better, enter_pattern, tree, with_forms};
use crate::left_out::{Cause, left_out_by};
use crate::raised::raises_it;
use crate::slices;
use hume_base::{Box, List, Refusal, Ty};
use hume_exceptions::{Raises, raises};
use hume_model::{BoxC, Core, EqC, Expr, Forms, FunC, InPat, NO_CASE, NodeC, Op, PatC, Res};
use look_sources::{Page, Sort};
use std::alloc::{AllocError, Global};

// How many are told at most, and how many steps they may take together.
const MAX_GAPS: usize = 3;

const MAX_STEPS: usize = 100_000;

// How many nodes the type of what a `case` matches has at most.
const MAX_NODES: usize = 100_000;

/// A place that may raise `NoCase`.
#[derive(Drop)]
pub struct Gap {
    /// The number of the function that it is in; without one it is in the rule or handler itself.
    pub function: Option<usize>,
    /// The number of the equation that it is in, from 1; or 0 where the equations themselves are meant.
    pub equation: usize,
    /// The number of the `case` among those of the equation, rule or handler, from 1; or 0 where none is meant.
    pub case: usize,
    pub cause: Cause,
}

/// The first places that let the rule or handler raise `NoCase`, unless the box handles it: those of its result, and then those
/// of the functions that are called.
pub fn gaps_of(
    alloc: Global,
    core: &Core,
    refusal: Refusal,
    culprit: Culprit,
) -> Result<Vec<Gap>, AllocError>
    ensures { IfOk result (λ gaps. vec_len gaps ≤ MAX_GAPS) }
{
    let mut search = Search::begin(alloc, core)?;
    search_culprit(&mut search, core, refusal, culprit)?;
    search.finish()
}

// Searches the rule or handler, if it may raise `NoCase`, and then the functions that are called.
fn search_culprit<'a>(
    search: &mut Search<'a>,
    core: &'a Core,
    refusal: Refusal,
    culprit: Culprit,
) -> Result<(), AllocError> {
    let raised = raises(search.alloc, core)?;
    if let Some(b) = raising_box(search.alloc, core, &raised, refusal, culprit) {
        search_part(search, b, culprit);
        search_called(search, core);
    }
    Ok(())
}

fn search_called<'a>(search: &mut Search<'a>, core: &'a Core) {
    let functions = slices::functions(core);
    for number in (0..functions.len()).rev() {
        if search.is_called(number) {
            search_function(search, &functions[number], number);
        }
    }
}

// The first box that breaks the rule in the line, if its rule or handler may raise `NoCase`.
fn raising_box<'a>(
    alloc: Global,
    core: &'a Core,
    raised: &Raises,
    refusal: Refusal,
    culprit: Culprit,
) -> Option<&'a BoxC>
    requires { IsRaisesOf core.now raised.now }
{
    let mut note = Page::make(alloc);
    let nodes = slices::nodes(core);
    for n in 0..nodes.len() {
        if let NodeC::Rules(b) = &nodes[n] {
            if breaks(core, raised, b, refusal, &mut note) {
                return if raises_it(core, raised, b, culprit, NO_CASE) {
                    Some(b)
                } else {
                    None
                };
            }
        }
    }
    None
}

fn breaks(core: &Core, raised: &Raises, b: &BoxC, refusal: Refusal, note: &mut Page) -> bool
    requires { IsRaisesOf core.now raised.now }
{
    b.line == refusal.line && tell_box(core, raised, b, refusal.rule, note).is_some()
}

// Searches the result of the rule or handler, whose variables are entered.
fn search_part<'a>(search: &mut Search<'a>, b: &'a BoxC, culprit: Culprit) {
    let place = culprit.number.saturating_sub(1);
    match culprit.sort {
        Sort::Handler => search_handler(search, b, place),
        _ => search_rule(search, b, place),
    }
}

fn search_handler<'a>(search: &mut Search<'a>, b: &'a BoxC, place: usize) {
    let handlers = slices::handlers(b);
    if place < handlers.len() {
        if handlers[place].bound {
            let carried = search.scope.carried(handlers[place].exn);
            search.scope.enter(carried);
        }
        search_result(search, &handlers[place].result);
    }
}

fn search_rule<'a>(search: &mut Search<'a>, b: &'a BoxC, place: usize) {
    let rules = slices::rules(b);
    if place < rules.len() {
        enter_positions(&mut search.scope, b, rules[place].pats.as_slice());
        search_result(search, &rules[place].result);
    }
}

fn enter_positions<'a>(scope: &mut Scope<'a>, b: &'a BoxC, positions: &[InPat]) {
    for at in 0..positions.len() {
        if let InPat::Built(pattern) = &positions[at] {
            if let Some(port) = b.ins.get(at) {
                enter_pattern(scope, pattern, Known::Declared(&port.ty));
            }
        }
    }
}

/// What is found so far, and where the search is.
#[derive(Drop)]
struct Search<'a> {
    alloc: Global,
    scope: Scope<'a>,
    // Whether only the type of a part is looked for.
    quiet: bool,
    gaps: Vec<Gap>,
    // Of each function, whether it is called.
    called: Vec<bool>,
    function: Option<usize>,
    equation: usize,
    // How many of the `case` of the equation, rule or handler are passed.
    cases: usize,
    steps: usize,
    failed: bool,
    ghost few: { vec_len gaps ≤ MAX_GAPS },
}

impl<'a> Search<'a> {
    fn begin(alloc: Global, core: &'a Core) -> Result<Search<'a>, AllocError> {
        Ok(Search {
            alloc,
            scope: Scope::begin(alloc, core),
            quiet: false,
            gaps: Vec::new(alloc),
            called: vec![in alloc; false; core.funs.len()]?,
            function: None,
            equation: 0,
            cases: 0,
            steps: MAX_STEPS,
            failed: false,
        })
    }

    // Goes on in the equation of that number, or at the equations themselves.
    fn enter(&mut self, function: usize, equation: usize) {
        self.function = Some(function);
        self.equation = equation;
        self.cases = 0;
    }

    fn call(&mut self, function: u32) {
        let number = function as usize;
        if number < self.called.len() {
            self.called[number] = true;
        }
    }

    fn is_called(&self, number: usize) -> bool {
        match self.called.get(number) {
            None => false,
            Some(is_called) => *is_called,
        }
    }

    fn is_full(&self) -> bool
        ensures { result ≡ false → vec_len self.now.gaps < MAX_GAPS }
    {
        self.gaps.len() >= MAX_GAPS
    }

    // Notes what is wrong with the `case` of that number, or what is where there is none.
    fn note(&mut self, case: usize, cause: Cause) {
        if self.quiet || self.is_full() {
            return;
        }
        let gap = Gap {
            function: self.function,
            equation: self.equation,
            case,
            cause,
        };
        if self.gaps.push(gap).is_err() {
            self.failed = true;
        }
    }

    // Begins the next `case`, on values of these forms: whether what its alternatives leave out is to be noted.
    fn is_open_case(&mut self, forms: Forms, alternatives: &Alternatives) -> bool {
        self.cases = self.cases.saturating_add(1);
        if self.quiet || self.is_full() {
            return false;
        }
        match alternatives.are_complete_for(self.alloc, self.scope.types(), forms) {
            Err(_) => {
                self.failed = true;
                false
            }
            Ok(complete) => !complete,
        }
    }

    // Notes the alternatives of that number for the parameters of the guess, unless the rule sees that they are complete.
    fn judge(&mut self, case: usize, guess: &mut Guess, alternatives: &Alternatives, name: &[u8]) {
        if self.is_full() {
            return;
        }
        match alternatives.are_complete(self.alloc, guess) {
            Err(_) => self.failed = true,
            Ok(true) => {}
            Ok(false) => self.note_left_out(case, guess, alternatives, name),
        }
    }

    fn note_left_out(
        &mut self,
        case: usize,
        guess: &mut Guess,
        alternatives: &Alternatives,
        name: &[u8],
    ) {
        let cause = left_out_by(self.alloc, guess, alternatives, name);
        self.steps = guess.steps();
        self.failed = self.failed || guess.has_failed();
        self.note(case, cause);
    }

    fn finish(self) -> Result<Vec<Gap>, AllocError>
        ensures { IfOk result (λ gaps. vec_len gaps ≤ MAX_GAPS) }
    {
        let failed = self.failed || self.scope.has_failed();
        let Search { gaps, .. } = self;
        if failed { Err(AllocError) } else { Ok(gaps) }
    }
}

fn search_function<'a>(search: &mut Search<'a>, function: &'a FunC, number: usize) {
    let equations = slices::equations(function);
    search.enter(number, 0);
    judge_equations(search, function, equations);
    for i in 0..equations.len() {
        search.enter(number, i.saturating_add(1));
        enter_equation(&mut search.scope, function, &equations[i]);
        let _known = search_expression(search, &equations[i].body);
    }
}

// Notes what the equations leave out.
fn judge_equations<'a>(search: &mut Search<'a>, function: &'a FunC, equations: &'a [EqC]) {
    let parameters = function.params.as_slice();
    let mut guess = Guess::begin(search.alloc, search.scope.types(), search.steps);
    for ty in parameters {
        guess.add(ty);
    }
    let alternatives = Alternatives::of_equations(search.alloc, equations, parameters.len());
    search.judge(0, &mut guess, &alternatives, function.name.bytes());
}

// Enters the variables of the equation, and no others.
fn enter_equation<'a>(scope: &mut Scope<'a>, function: &'a FunC, equation: &EqC) {
    scope.leave(0);
    let patterns = equation.pats.as_slice();
    for at in 0..patterns.len() {
        if let Some(ty) = function.params.get(at) {
            enter_pattern(scope, &patterns[at], Known::Declared(ty));
        }
    }
}

#[cycle(search_result)]
fn search_result<'a>(search: &mut Search<'a>, res: &'a Res) {
    match res {
        Res::Outs(outs) => search_outputs(search, slices::outputs(outs)),
        Res::If(test, when_true, when_false) => {
            let _known = search_expression(search, test);
            search_result(search, slices::result_part(when_true));
            search_result(search, slices::result_part(when_false));
        }
        Res::Case(part, forms, arms) => search_results(search, part, *forms, arms),
        Res::Let(part, body) => {
            let count = search.scope.variables();
            enter_value(search, part);
            search_result(search, slices::result_part(body));
            search.scope.leave(count);
        }
        Res::Raise(exn, part) => search_raised(search, *exn, part),
    }
}

#[cycle(search_result)]
fn search_results<'a>(
    search: &mut Search<'a>,
    part: &'a Expr,
    forms: Forms,
    arms: &'a List<(PatC, Res)>,
) {
    let arms = slices::result_arms(arms);
    let known = matched_by_results(search, part, forms, arms);
    let count = search.scope.variables();
    for i in 0..arms.len() {
        enter_pattern(&mut search.scope, &arms[i].0, known);
        search_result(search, &arms[i].1);
        search.scope.leave(count);
    }
}

// The type of what is matched. What the alternatives leave out is noted.
fn matched_by_results<'a>(
    search: &mut Search<'a>,
    part: &'a Expr,
    forms: Forms,
    arms: &'a [(PatC, Res)],
) -> Known<'a> {
    let alternatives = Alternatives::of_results(search.alloc, arms);
    judge_case(search, part, forms, &alternatives);
    with_forms(search_expression(search, part), forms)
}

// Searches the value of a `let`, and enters its variable.
fn enter_value<'a>(search: &mut Search<'a>, value: &'a Expr) {
    let known = search_expression(search, value);
    search.scope.enter(known);
}

fn search_raised<'a>(search: &mut Search<'a>, exn: u32, part: &'a Option<Expr>) {
    note_raise(search, exn);
    if let Some(part) = part {
        let _known = search_expression(search, part);
    }
}

fn search_outputs<'a>(search: &mut Search<'a>, outs: &'a [Option<Expr>]) {
    for i in 0..outs.len() {
        if let Some(e) = &outs[i] {
            let _known = search_expression(search, e);
        }
    }
}

fn note_raise(search: &mut Search, exn: u32) {
    if exn == NO_CASE {
        search.note(0, Cause::Raised);
    }
}

// The type of the expression.
#[cycle(search_expression)]
fn search_expression<'a>(search: &mut Search<'a>, e: &'a Expr) -> Known<'a> {
    match e {
        Expr::Word(_) => Known::Literal,
        Expr::Var(number) => search.scope.variable(*number),
        Expr::Con(place, parts) => {
            let fields = search_parts(search, parts);
            search.scope.made(*place, fields)
        }
        Expr::Prim(op, ty, parts) => {
            let _parts = search_parts(search, parts);
            given_by(*op, ty)
        }
        Expr::Tuple(parts) => search_parts(search, parts),
        Expr::Vect(parts) => {
            let items = search_parts(search, parts);
            search.scope.vector_of(items)
        }
        Expr::Index(_, first, second) => {
            let vector = search_two(search, first, second);
            search.scope.item_of(vector)
        }
        Expr::Update(_, first, second, third) => {
            let vector = search_two(search, first, second);
            let _item = search_expression(search, slices::part(third));
            vector
        }
        Expr::If(first, second, third) => {
            let _test = search_expression(search, slices::part(first));
            let when_true = search_expression(search, slices::part(second));
            better(when_true, search_expression(search, slices::part(third)))
        }
        Expr::Case(part, forms, arms) => search_arms(search, part, *forms, arms),
        Expr::Let(first, second) => {
            let known = search_expression(search, slices::part(first));
            let count = search.scope.variables();
            search.scope.enter(known);
            let body = search_expression(search, slices::part(second));
            search.scope.leave(count);
            body
        }
        Expr::Call(function, parts) => {
            search.call(*function);
            let _parts = search_parts(search, parts);
            search.scope.given(*function)
        }
        Expr::Raise(exn, part) => search_raise(search, *exn, part),
    }
}

// What an operation at the type gives.
fn given_by<'a>(op: Op, ty: &'a Ty) -> Known<'a> {
    match op {
        Op::Eq | Op::Ne | Op::Lt | Op::Le | Op::Gt | Op::Ge | Op::Not => Known::Truth,
        _ => Known::Declared(ty),
    }
}

// The type of the first part.
#[cycle(search_expression)]
fn search_two<'a>(
    search: &mut Search<'a>,
    first: &'a Box<Expr>,
    second: &'a Box<Expr>,
) -> Known<'a> {
    let known = search_expression(search, slices::part(first));
    let _other = search_expression(search, slices::part(second));
    known
}

#[cycle(search_expression)]
fn search_raise<'a>(search: &mut Search<'a>, exn: u32, part: &'a Option<Box<Expr>>) -> Known<'a> {
    note_raise(search, exn);
    if let Some(part) = part {
        let _known = search_expression(search, slices::part(part));
    }
    Known::Nothing
}

// The types of the parts, as one of a tuple.
#[cycle(search_expression)]
fn search_parts<'a>(search: &mut Search<'a>, parts: &'a List<Expr>) -> Known<'a> {
    let parts = slices::parts(parts);
    let mut known = Vec::new(search.alloc);
    for i in 0..parts.len() {
        let part = search_expression(search, &parts[i]);
        if known.push(part).is_err() {
            search.failed = true;
        }
    }
    search.scope.tuple(known.as_slice())
}

#[cycle(search_expression)]
fn search_arms<'a>(
    search: &mut Search<'a>,
    part: &'a Box<Expr>,
    forms: Forms,
    arms: &'a List<(PatC, Expr)>,
) -> Known<'a> {
    let arms = slices::arms(arms);
    let known = matched_by_arms(search, slices::part(part), forms, arms);
    let count = search.scope.variables();
    let mut given = Known::Nothing;
    for i in 0..arms.len() {
        enter_pattern(&mut search.scope, &arms[i].0, known);
        let body = search_expression(search, &arms[i].1);
        search.scope.leave(count);
        given = better(given, body);
    }
    given
}

// The type of what is matched. What the alternatives leave out is noted.
#[cycle(search_expression)]
fn matched_by_arms<'a>(
    search: &mut Search<'a>,
    part: &'a Expr,
    forms: Forms,
    arms: &'a [(PatC, Expr)],
) -> Known<'a> {
    let alternatives = Alternatives::of_values(search.alloc, arms);
    judge_case(search, part, forms, &alternatives);
    with_forms(search_expression(search, part), forms)
}

// Notes what the alternatives of the next `case` leave out of the values of the part, unless the rule sees that they are complete.
#[cycle(search_expression)]
fn judge_case<'a>(
    search: &mut Search<'a>,
    part: &'a Expr,
    forms: Forms,
    alternatives: &Alternatives<'a>,
) {
    if search.is_open_case(forms, alternatives) {
        let known = known_quietly(search, part);
        note_case(search, with_forms(known, forms), alternatives);
    }
}

// The type of the part, of which nothing is noted.
#[cycle(search_expression)]
fn known_quietly<'a>(search: &mut Search<'a>, part: &'a Expr) -> Known<'a> {
    let cases = search.cases;
    search.quiet = true;
    let known = search_expression(search, part);
    search.quiet = false;
    search.cases = cases;
    known
}

// Notes what the alternatives of the last `case` leave out of the values of the type.
fn note_case<'a>(search: &mut Search<'a>, known: Known<'a>, alternatives: &Alternatives) {
    let mut room = MAX_NODES;
    match tree(search.alloc, &search.scope, known, &mut room) {
        Err(_) => search.failed = true,
        Ok(ty) => note_type(search, &ty, alternatives),
    }
}

fn note_type(search: &mut Search, ty: &Ty, alternatives: &Alternatives) {
    let mut guess = Guess::begin(search.alloc, search.scope.types(), search.steps);
    guess.add(ty);
    search.judge(search.cases, &mut guess, alternatives, b"");
}
