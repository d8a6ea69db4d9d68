ghost use Rattle.std.specs.Prelude.{◌≡◌, ◌+◌, ◌<◌, ◌≤◌, length, IfSome, IsTrue};
ghost use Rattle.hume_ast.specs.Fits.{op_level as level_of_op};
ghost use Rattle.hume_ast.specs.Places.{kinds};
ghost use Rattle.parse_readers.specs.inner.Readers.{next};
ghost use Rattle.parse_readers.specs.inner.Expressions.{operator_of as operator_said, starts_atom as atom_starts, begins_part as part_begins};
ghost use Rattle.parse_expressions.specs.inner.Climbing.{operator_within, within, limit_behind as limit, operand_level};
ghost use Rattle.parse_expressions.specs.inner.Parts.{opens_form as form_opens, opens_parts as parts_open, too_deep};

use hume_ast::BinOp;
use hume_base::{Keyword, Kind, Symbol, Token};

/// The operator that the next token is, if it is of the level or tighter, and looser than the limit.
pub fn next_operator(rest: &[Token], level: u32, limit: u32) -> Option<BinOp>
    ensures is { result ≡ operator_within level limit (kinds rest.now) }
    ensures some { IfSome result (λ _. 0 < length rest.now) }
{
    match rest {
        [] => None,
        [token, ..] => between(operator_of(&token.kind), level, limit),
    }
}

#[tactic(auto, using(crate::proofs::Climbing::within_steps))]
fn between(operator: Option<BinOp>, level: u32, limit: u32) -> Option<BinOp>
    ensures { result ≡ within level limit operator }
{
    let operator = operator?;
    let own = op_level(operator);
    if level <= own {
        if own < limit {
            return Some(operator);
        }
    }
    None
}

/// The level of an operator's right part.
pub fn right_level(operator: BinOp) -> u32
    ensures is { result ≡ level_of_op operator + 1 }
    ensures low { 2 ≤ result }
    ensures high { result ≤ 9 }
{
    op_level(operator) + 1
}

/// The limit of the operators that may follow when an operator and its right part are read. Comparisons don't group.
pub fn limit_behind(operator: BinOp) -> u32
    ensures { result ≡ limit operator }
{
    let level = op_level(operator);
    if level == 4 { level } else { level + 1 }
}

/// The limit of the operators behind the first part.
pub fn first_limit(level: u32) -> u32
    ensures { result ≡ operand_level level }
{
    if level <= 7 { 7 } else { 9 }
}

fn operator_of(kind: &Kind) -> Option<BinOp>
    ensures { result ≡ operator_said kind.now }
{
    match kind {
        Kind::Word(Keyword::Or) => Some(BinOp::Or),
        Kind::Word(Keyword::And) => Some(BinOp::And),
        Kind::Sign(Symbol::DoubleEquals) => Some(BinOp::Eq),
        Kind::Sign(Symbol::SlashEquals) => Some(BinOp::Ne),
        Kind::Sign(Symbol::Less) => Some(BinOp::Lt),
        Kind::Sign(Symbol::LessEquals) => Some(BinOp::Le),
        Kind::Sign(Symbol::Greater) => Some(BinOp::Gt),
        Kind::Sign(Symbol::GreaterEquals) => Some(BinOp::Ge),
        Kind::Sign(Symbol::Plus) => Some(BinOp::Add),
        Kind::Sign(Symbol::Minus) => Some(BinOp::Sub),
        Kind::Sign(Symbol::Star) => Some(BinOp::Mul),
        Kind::Word(Keyword::Div) => Some(BinOp::Div),
        Kind::Word(Keyword::Mod) => Some(BinOp::Mod),
        Kind::Sign(Symbol::At) => Some(BinOp::At),
        _ => None,
    }
}

fn op_level(operator: BinOp) -> u32
    ensures is { result ≡ level_of_op operator }
    ensures low { 2 ≤ result }
    ensures high { result ≤ 8 }
{
    match operator {
        BinOp::Or => 2,
        BinOp::And => 3,
        BinOp::Eq | BinOp::Ne | BinOp::Lt | BinOp::Le | BinOp::Gt | BinOp::Ge => 4,
        BinOp::Add | BinOp::Sub => 5,
        BinOp::Mul | BinOp::Div | BinOp::Mod => 6,
        BinOp::At => 8,
    }
}

/// Whether an atom begins with the next token.
pub fn starts_atom(rest: &[Token]) -> bool
    ensures is { result ≡ next atom_starts (kinds rest.now) }
    ensures some { IsTrue result → 0 < length rest.now }
{
    match rest {
        [] => false,
        [token, ..] => match token.kind {
            Kind::Lower(_) | Kind::Upper(_) | Kind::Number(_) | Kind::Letter(_) => true,
            Kind::Word(Keyword::True | Keyword::False) => true,
            Kind::Sign(Symbol::OpenParen | Symbol::OpenAngles) => true,
            _ => false,
        },
    }
}

/// Whether `let`, `if` or `case` is next, and no part of it has room.
pub fn is_form_too_deep(rest: &[Token], room: u32) -> bool
    ensures { result ≡ too_deep form_opens room (kinds rest.now) }
{
    room == 1 && opens_form(rest)
}

/// Whether parentheses or a vector are next, and no part of them has room.
pub fn are_parts_too_deep(rest: &[Token], room: u32) -> bool
    ensures { result ≡ too_deep parts_open room (kinds rest.now) }
{
    room == 1 && opens_parts(rest)
}

fn opens_form(rest: &[Token]) -> bool
    ensures is { result ≡ next form_opens (kinds rest.now) }
    ensures some { IsTrue result → 0 < length rest.now }
{
    match rest {
        [] => false,
        [token, ..] => match token.kind {
            Kind::Word(Keyword::Let | Keyword::If | Keyword::Case) => true,
            _ => false,
        },
    }
}

fn opens_parts(rest: &[Token]) -> bool
    ensures is { result ≡ next parts_open (kinds rest.now) }
    ensures some { IsTrue result → 0 < length rest.now }
{
    match rest {
        [] => false,
        [token, ..] => match token.kind {
            Kind::Sign(Symbol::OpenParen | Symbol::OpenAngles) => true,
            _ => false,
        },
    }
}

/// Whether a part behind a sign begins with the next token.
pub fn begins_part(rest: &[Token]) -> bool
    ensures is { result ≡ next part_begins (kinds rest.now) }
    ensures some { IsTrue result → 0 < length rest.now }
{
    match rest {
        [] => false,
        [token, ..] => match token.kind {
            Kind::Lower(_) | Kind::Upper(_) | Kind::Number(_) | Kind::Letter(_) => true,
            Kind::Word(Keyword::True | Keyword::False | Keyword::Not | Keyword::Update) => true,
            Kind::Sign(Symbol::OpenParen | Symbol::OpenAngles | Symbol::Minus | Symbol::Star) =>
                true,
            _ => false,
        },
    }
}
