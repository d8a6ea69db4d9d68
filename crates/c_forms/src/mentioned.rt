//! Which names stand in a text.
ghost use Rattle.std.specs.Prelude.{◌≡◌, ◌||◌};
ghost use Rattle.c_forms.specs.Mentions.{exp_mentions, mentions, statement_mentions, some_mention};
ghost use Rattle.c_forms.specs.inner.Arms.{tree_arms_mention};
ghost use Rattle.c_tree.specs.declared.tree.CExp.{out-CExp};
ghost use Rattle.c_forms.specs.Same.{is_same, is_truth, is_unsigned, is_signed, is_name, is_pointed, is_member, is_element};

use c_tree::{CExp, CStm};
use hume_base::List;

/// Whether the name stands in the statements as that of an object.
#[cycle(mentions)]
#[tactic(auto, using(crate::proofs::MentionForms::statement_forms))]
pub fn mentions(name: &[u8], statements: &[CStm]) -> bool
    ensures { result ≡ mentions name.now statements.now }
{
    for statement in statements {
        if statement_mentions(name, statement) {
            return true;
        }
    }
    false
}

#[cycle(mentions)]
#[tactic(auto, using(crate::proofs::MentionForms::statement_forms))]
fn statement_mentions(name: &[u8], statement: &CStm) -> bool
    ensures { result ≡ statement_mentions name.now statement.now }
{
    match statement {
        CStm::Comment(_) | CStm::Declare(_) | CStm::Break | CStm::Return(None) => false,
        CStm::Define(_, value) | CStm::Return(Some(value)) => exp_mentions(name, value),
        CStm::Assign(object, value) => exp_mentions(name, object) || exp_mentions(name, value),
        CStm::Increment(object) | CStm::Decrement(object) => exp_mentions(name, object),
        CStm::Call(_, arguments) => some_mention(name, arguments.as_slice()),
        CStm::If(test, body, others, otherwise) => {
            exp_mentions(name, test) || blocks_mention(name, body, others, otherwise)
        }
        CStm::Switch(subject, cases, otherwise) => {
            exp_mentions(name, subject) || last_blocks_mention(name, cases, otherwise)
        }
        CStm::For(count, body) => {
            exp_mentions(name, &count.limit) || mentions(name, body.as_slice())
        }
    }
}

#[cycle(mentions)]
fn blocks_mention(
    name: &[u8],
    body: &List<CStm>,
    others: &List<(CExp, List<CStm>)>,
    otherwise: &List<CStm>,
) -> bool
    ensures { result ≡ (mentions name.now body.now || (tree_arms_mention name.now others.now || mentions name.now otherwise.now)) }
{
    mentions(name, body.as_slice()) || last_blocks_mention(name, others, otherwise)
}

#[cycle(mentions)]
fn last_blocks_mention(name: &[u8], arms: &List<(CExp, List<CStm>)>, otherwise: &List<CStm>) -> bool
    ensures { result ≡ (tree_arms_mention name.now arms.now || mentions name.now otherwise.now) }
{
    arms_mention(name, arms.as_slice()) || mentions(name, otherwise.as_slice())
}

#[cycle(mentions)]
#[tactic(auto, using(crate::proofs::MentionForms::statement_forms))]
fn arms_mention(name: &[u8], arms: &[(CExp, List<CStm>)]) -> bool
    ensures { result ≡ tree_arms_mention name.now arms.now }
{
    for arm in arms {
        if exp_mentions(name, &arm.0) || mentions(name, arm.1.as_slice()) {
            return true;
        }
    }
    false
}

#[cycle(exp_mentions)]
#[tactic(auto, using(crate::proofs::MentionForms::exp_forms))]
pub fn exp_mentions(name: &[u8], exp: &CExp) -> bool
    ensures { result ≡ exp_mentions name.now exp.now }
{
    match exp {
        CExp::Truth(_) | CExp::Unsigned(_, _) | CExp::Signed(_, _, _) => false,
        CExp::Name(other) | CExp::Pointed(other) => other.bytes() == name,
        CExp::Member(object, _) => exp_mentions(name, object),
        CExp::Element(array, index) => exp_mentions(name, array) || exp_mentions(name, index),
        CExp::Call(_, arguments) => some_mention(name, arguments.as_slice()),
        CExp::Cast(_, part) | CExp::Negate(part) => exp_mentions(name, part),
        CExp::Not(part) | CExp::Address(part) => exp_mentions(name, part),
        CExp::Binary(_, left, right) => exp_mentions(name, left) || exp_mentions(name, right),
        CExp::All(parts) | CExp::Any(parts) => some_mention(name, parts.as_slice()),
        CExp::Choice(test, first, second) => {
            exp_mentions(name, test) || exp_mentions(name, first) || exp_mentions(name, second)
        }
    }
}

#[cycle(exp_mentions)]
#[tactic(auto, using(crate::proofs::MentionForms::exp_forms))]
fn some_mention(name: &[u8], parts: &[CExp]) -> bool
    ensures { result ≡ some_mention name.now parts.now }
{
    for part in parts {
        if exp_mentions(name, part) {
            return true;
        }
    }
    false
}

/// Whether both name one object, or are one constant.
#[cycle(is_same)]
#[tactic(auto, using(crate::proofs::SameForms::same_forms))]
pub fn is_same(left: &CExp, right: &CExp) -> bool
    ensures { result ≡ is_same left.now right.now }
{
    match left {
        CExp::Truth(holds) => is_truth(*holds, right),
        CExp::Unsigned(_, amount) => is_unsigned(*amount, right),
        CExp::Signed(_, negative, amount) => is_signed(*negative, *amount, right),
        CExp::Name(name) => is_name(name.bytes(), right),
        CExp::Pointed(name) => is_pointed(name.bytes(), right),
        CExp::Member(object, name) => is_member(object, name.bytes(), right),
        CExp::Element(array, index) => is_element(array, index, right),
        _ => false,
    }
}

#[cycle(is_same)]
#[tactic(auto, using(crate::proofs::OpenedForms::opened_forms))]
fn is_member(object: &CExp, name: &[u8], right: &CExp) -> bool
    ensures { result ≡ is_member (is_same object.now) name.now (out-CExp right.now) }
{
    match right {
        CExp::Member(other, it) => name == it.bytes() && is_same(object, other),
        _ => false,
    }
}

#[cycle(is_same)]
#[tactic(auto, using(crate::proofs::OpenedForms::opened_forms))]
fn is_element(array: &CExp, index: &CExp, right: &CExp) -> bool
    ensures { result ≡ is_element (is_same array.now) (is_same index.now) (out-CExp right.now) }
{
    match right {
        CExp::Element(other, at) => is_same(array, other) && is_same(index, at),
        _ => false,
    }
}

#[tactic(auto, using(crate::proofs::OpenedForms::opened_forms))]
fn is_truth(holds: bool, right: &CExp) -> bool
    ensures { result ≡ is_truth holds (out-CExp right.now) }
{
    match right {
        CExp::Truth(other) => holds == *other,
        _ => false,
    }
}

#[tactic(auto, using(crate::proofs::OpenedForms::opened_forms))]
fn is_unsigned(amount: u64, right: &CExp) -> bool
    ensures { result ≡ is_unsigned amount (out-CExp right.now) }
{
    match right {
        CExp::Unsigned(_, other) => amount == *other,
        _ => false,
    }
}

#[tactic(auto, using(crate::proofs::OpenedForms::opened_forms))]
fn is_signed(negative: bool, amount: u64, right: &CExp) -> bool
    ensures { result ≡ is_signed negative amount (out-CExp right.now) }
{
    match right {
        CExp::Signed(_, sign, other) => negative == *sign && amount == *other,
        _ => false,
    }
}

#[tactic(auto, using(crate::proofs::OpenedForms::opened_forms))]
fn is_name(name: &[u8], right: &CExp) -> bool
    ensures { result ≡ is_name name.now (out-CExp right.now) }
{
    match right {
        CExp::Name(other) => name == other.bytes(),
        _ => false,
    }
}

#[tactic(auto, using(crate::proofs::OpenedForms::opened_forms))]
fn is_pointed(name: &[u8], right: &CExp) -> bool
    ensures { result ≡ is_pointed name.now (out-CExp right.now) }
{
    match right {
        CExp::Pointed(other) => name == other.bytes(),
        _ => false,
    }
}
