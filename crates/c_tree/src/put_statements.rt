//! The text of statements.
ghost use Rattle.std.specs.Prelude.{◌≡◌, ◌++◌, OnOk, map, codes};
ghost use Rattle.std.specs.List.{flat_map};
ghost use Rattle.c_tree.specs.Words.{closed, ended};
ghost use Rattle.c_tree.specs.Expressions.{expression_text};
ghost use Rattle.c_tree.specs.Statements.{arm_text, assign_text, block_text, call_line, case_end};
ghost use Rattle.c_tree.specs.Statements.{case_text, const_text, count_start, count_steps, count_text, declare_text};
ghost use Rattle.c_tree.specs.Statements.{default_text, define_text, each_behind, else_if_text, else_text, for_text, if_text, return_text, statement_text};
ghost use Rattle.c_tree.specs.Statements.{step_text, switch_start, switch_text, variable_text};
ghost use Rattle.c_tree.specs.inner.Arms.{written_arm};

use crate::put_expressions::{put_call, put_expression, put_operand};
use crate::put_words::{deeper, put_comment, put_type};
use crate::rank::PREFIX;
use crate::tree::{CCount, CExp, CStm, CVariable};
use hume_base::{Box, List};
use std::alloc::AllocError;

// The ends of the first lines of blocks, and the last line of a block.
const OPENED: &[u8] = b") {\n";

const CASE_OPENED: &[u8] = b": {\n";

const CLOSED: &[u8] = b"}\n";

/// Adds the text of a statement behind a margin.
#[cycle(put_statements)]
#[tactic(auto, using(crate::proofs::StatementForms::statement_forms))]
fn put_statement(text: &mut Vec<u8>, margin: &[u8], statement: &CStm) -> Result<(), AllocError>
    ensures { OnOk result (text.new.items ≡ text.old.items ++ statement_text statement.now margin.now) }
{
    match statement {
        CStm::Comment(comment) => put_comment(text, margin, comment.bytes()),
        CStm::Declare(variable) => put_declare(text, margin, variable),
        CStm::Define(variable, value) => put_define(text, margin, variable, value),
        CStm::Assign(object, value) => put_assign(text, margin, object, value),
        CStm::Increment(object) => put_step(text, margin, b"++", object),
        CStm::Decrement(object) => put_step(text, margin, b"--", object),
        CStm::Call(name, arguments) => put_call_line(
            text,
            margin,
            name.bytes(),
            arguments.as_slice(),
        ),
        CStm::If(test, body, others, otherwise) => put_if(
            text,
            margin,
            test,
            body.as_slice(),
            others.as_slice(),
            otherwise.as_slice(),
        ),
        CStm::Switch(subject, cases, otherwise) => put_switch(
            text,
            margin,
            subject,
            cases.as_slice(),
            otherwise.as_slice(),
        ),
        CStm::For(count, body) => put_for(text, margin, count, body.as_slice()),
        CStm::Break => put_break(text, margin),
        CStm::Return(value) => put_return(text, margin, value),
    }
}

/// Adds the text of each statement behind a margin.
#[cycle(put_statements)]
#[tactic(auto, using(crate::proofs::Steps::text_steps))]
fn put_statements(text: &mut Vec<u8>, margin: &[u8], statements: &[CStm]) -> Result<(), AllocError>
    ensures { OnOk result (text.new.items ≡ text.old.items ++ each_behind margin.now (map statement_text statements.now)) }
{
    for statement in statements {
        put_statement(text, margin, statement)?;
    }
    Ok(())
}

/// Adds the text of what stands in a block whose first line has the margin.
#[cycle(put_statements)]
#[tactic(auto, using(crate::proofs::Steps::text_steps))]
pub fn put_block(text: &mut Vec<u8>, margin: &[u8], statements: &[CStm]) -> Result<(), AllocError>
    ensures { OnOk result (text.new.items ≡ text.old.items ++ block_text margin.now (map statement_text statements.now)) }
{
    let inner = deeper(*text.allocator(), margin)?;
    put_statements(text, inner.as_slice(), statements)
}

#[cycle(put_statements)]
#[tactic(auto, using(crate::proofs::Steps::text_steps))]
fn put_if(
    text: &mut Vec<u8>,
    margin: &[u8],
    test: &CExp,
    body: &[CStm],
    others: &[(CExp, List<CStm>)],
    otherwise: &[CStm],
) -> Result<(), AllocError>
    ensures { OnOk result (text.new.items ≡ text.old.items
        ++ if_text test.now (map statement_text body.now) (map written_arm others.now) (map statement_text otherwise.now) margin.now) }
{
    text.extend_from_slice(margin)?;
    text.extend_from_slice(b"if (")?;
    put_arm(text, margin, test, body)?;
    put_else_ifs(text, margin, others)?;
    put_else(text, margin, otherwise)?;
    put_closed(text, margin)
}

/// Adds a test and the statements that it guards.
#[cycle(put_statements)]
#[tactic(auto, using(crate::proofs::Steps::text_steps))]
fn put_arm(text: &mut Vec<u8>, margin: &[u8], test: &CExp, body: &[CStm]) -> Result<(), AllocError>
    ensures { OnOk result (text.new.items ≡ text.old.items ++ arm_text margin.now test.now (map statement_text body.now)) }
{
    put_expression(text, test)?;
    text.extend_from_slice(OPENED)?;
    put_block(text, margin, body)
}

#[cycle(put_statements)]
#[tactic(auto, using(crate::proofs::Steps::text_steps))]
fn put_else_ifs(
    text: &mut Vec<u8>,
    margin: &[u8],
    others: &[(CExp, List<CStm>)],
) -> Result<(), AllocError>
    ensures { OnOk result (text.new.items ≡ text.old.items ++ flat_map (else_if_text margin.now) (map written_arm others.now)) }
{
    for other in others {
        put_clause(text, margin, b"} else if (", &other.0, other.1.as_slice())?;
    }
    Ok(())
}

/// Adds a keyword with its parenthesis, a test, and the statements that it guards.
#[cycle(put_statements)]
#[tactic(auto, using(crate::proofs::Steps::text_steps))]
fn put_clause(
    text: &mut Vec<u8>,
    margin: &[u8],
    keyword: &[u8],
    test: &CExp,
    body: &[CStm],
) -> Result<(), AllocError>
    ensures { OnOk result (text.new.items ≡ text.old.items
        ++ (margin.now ++ (keyword.now ++ arm_text margin.now test.now (map statement_text body.now)))) }
{
    text.extend_from_slice(margin)?;
    text.extend_from_slice(keyword)?;
    put_arm(text, margin, test, body)
}

#[cycle(put_statements)]
#[tactic(auto, using(crate::proofs::StatementForms::else_steps))]
fn put_else(text: &mut Vec<u8>, margin: &[u8], body: &[CStm]) -> Result<(), AllocError>
    ensures { OnOk result (text.new.items ≡ text.old.items ++ else_text margin.now (map statement_text body.now)) }
{
    if body.is_empty() {
        return Ok(());
    }
    text.extend_from_slice(margin)?;
    text.extend_from_slice(b"} else {\n")?;
    put_block(text, margin, body)
}

#[cycle(put_statements)]
#[tactic(auto, using(crate::proofs::Steps::text_steps))]
fn put_switch(
    text: &mut Vec<u8>,
    margin: &[u8],
    subject: &CExp,
    cases: &[(CExp, List<CStm>)],
    otherwise: &[CStm],
) -> Result<(), AllocError>
    ensures { OnOk result (text.new.items ≡ text.old.items
        ++ switch_text subject.now (map written_arm cases.now) (map statement_text otherwise.now) margin.now) }
{
    put_switch_start(text, margin, subject)?;
    put_cases(text, margin, cases)?;
    put_default(text, margin, otherwise)?;
    put_closed(text, margin)
}

#[cycle(put_statements)]
#[tactic(auto, using(crate::proofs::Steps::text_steps))]
fn put_cases(
    text: &mut Vec<u8>,
    margin: &[u8],
    cases: &[(CExp, List<CStm>)],
) -> Result<(), AllocError>
    ensures { OnOk result (text.new.items ≡ text.old.items ++ flat_map (case_text margin.now) (map written_arm cases.now)) }
{
    for one in cases {
        put_case(text, margin, &one.0, one.1.as_slice())?;
    }
    Ok(())
}

#[cycle(put_statements)]
#[tactic(auto, using(crate::proofs::Steps::text_steps))]
fn put_case(
    text: &mut Vec<u8>,
    margin: &[u8],
    label: &CExp,
    body: &[CStm],
) -> Result<(), AllocError>
    ensures { OnOk result (text.new.items ≡ text.old.items ++ case_text margin.now (label.now, map statement_text body.now)) }
{
    text.extend_from_slice(margin)?;
    text.extend_from_slice(b"case ")?;
    put_expression(text, label)?;
    put_case_end(text, margin, body)
}

#[cycle(put_statements)]
#[tactic(auto, using(crate::proofs::Steps::text_steps))]
fn put_default(text: &mut Vec<u8>, margin: &[u8], body: &[CStm]) -> Result<(), AllocError>
    ensures { OnOk result (text.new.items ≡ text.old.items ++ default_text margin.now (map statement_text body.now)) }
{
    text.extend_from_slice(margin)?;
    text.extend_from_slice(b"default")?;
    put_case_end(text, margin, body)
}

/// Adds the statements of a case and the `break` behind them.
#[cycle(put_statements)]
#[tactic(auto, using(crate::proofs::Steps::text_steps))]
fn put_case_end(text: &mut Vec<u8>, margin: &[u8], body: &[CStm]) -> Result<(), AllocError>
    ensures { OnOk result (text.new.items ≡ text.old.items ++ case_end margin.now (map statement_text body.now)) }
{
    text.extend_from_slice(CASE_OPENED)?;
    put_block(text, margin, body)?;
    text.extend_from_slice(margin)?;
    text.extend_from_slice(b"    break;\n")?;
    // The `}` of the case.
    put_closed(text, margin)
}

#[cycle(put_statements)]
#[tactic(auto, using(crate::proofs::Steps::text_steps))]
fn put_for(
    text: &mut Vec<u8>,
    margin: &[u8],
    count: &CCount,
    body: &[CStm],
) -> Result<(), AllocError>
    ensures { OnOk result (text.new.items ≡ text.old.items ++ for_text count.now (map statement_text body.now) margin.now) }
{
    text.extend_from_slice(margin)?;
    text.extend_from_slice(b"for (")?;
    put_count(text, count)?;
    text.extend_from_slice(OPENED)?;
    put_block(text, margin, body)?;
    // The `}` of the loop.
    put_closed(text, margin)
}

#[tactic(auto, using(crate::proofs::Steps::text_steps))]
fn put_count(text: &mut Vec<u8>, count: &CCount) -> Result<(), AllocError>
    ensures { OnOk result (text.new.items ≡ text.old.items ++ count_text count.now) }
{
    put_count_start(text, count)?;
    put_count_steps(text, count)
}

#[tactic(auto, using(crate::proofs::Steps::text_steps))]
fn put_count_start(text: &mut Vec<u8>, count: &CCount) -> Result<(), AllocError>
    ensures { OnOk result (text.new.items ≡ text.old.items ++ count_start count.now) }
{
    put_type(text, &count.ty)?;
    text.extend_from_slice(b" ")?;
    text.extend_from_slice(count.name.bytes())?;
    text.extend_from_slice(b" = 0; ")
}

#[tactic(auto, using(crate::proofs::Steps::text_steps))]
fn put_count_steps(text: &mut Vec<u8>, count: &CCount) -> Result<(), AllocError>
    ensures { OnOk result (text.new.items ≡ text.old.items ++ count_steps count.now) }
{
    text.extend_from_slice(count.name.bytes())?;
    text.extend_from_slice(b" < ")?;
    put_operand(text, PREFIX, &count.limit)?;
    text.extend_from_slice(b"; ")?;
    text.extend_from_slice(count.name.bytes())?;
    text.extend_from_slice(b"++")
}

#[tactic(auto, using(crate::proofs::Steps::text_steps))]
fn put_switch_start(text: &mut Vec<u8>, margin: &[u8], subject: &CExp) -> Result<(), AllocError>
    ensures { OnOk result (text.new.items ≡ text.old.items ++ switch_start margin.now subject.now) }
{
    text.extend_from_slice(margin)?;
    text.extend_from_slice(b"switch (")?;
    put_expression(text, subject)?;
    text.extend_from_slice(OPENED)
}

/// Adds the last line of a block.
#[tactic(auto, using(crate::proofs::Steps::text_steps))]
fn put_closed(text: &mut Vec<u8>, margin: &[u8]) -> Result<(), AllocError>
    ensures { OnOk result (text.new.items ≡ text.old.items ++ (margin.now ++ closed)) }
{
    text.extend_from_slice(margin)?;
    text.extend_from_slice(CLOSED)
}

#[tactic(auto, using(crate::proofs::Steps::text_steps))]
fn put_break(text: &mut Vec<u8>, margin: &[u8]) -> Result<(), AllocError>
    ensures { OnOk result (text.new.items ≡ text.old.items ++ (margin.now ++ (codes "break" ++ ended))) }
{
    text.extend_from_slice(margin)?;
    text.extend_from_slice(b"break;\n")
}

fn put_const(text: &mut Vec<u8>, constant: bool) -> Result<(), AllocError>
    ensures { OnOk result (text.new.items ≡ text.old.items ++ const_text constant) }
{
    if constant {
        text.extend_from_slice(b"const ")
    } else {
        Ok(())
    }
}

#[tactic(auto, using(crate::proofs::Steps::text_steps))]
fn put_variable(text: &mut Vec<u8>, variable: &CVariable) -> Result<(), AllocError>
    ensures { OnOk result (text.new.items ≡ text.old.items ++ variable_text variable.now) }
{
    put_const(text, variable.constant)?;
    put_type(text, &variable.ty)?;
    text.extend_from_slice(b" ")?;
    text.extend_from_slice(variable.name.bytes())
}

#[tactic(auto, using(crate::proofs::Steps::text_steps))]
fn put_declare(text: &mut Vec<u8>, margin: &[u8], variable: &CVariable) -> Result<(), AllocError>
    ensures { OnOk result (text.new.items ≡ text.old.items ++ declare_text variable.now margin.now) }
{
    text.extend_from_slice(margin)?;
    put_variable(text, variable)?;
    text.extend_from_slice(b";\n")
}

#[tactic(auto, using(crate::proofs::Steps::text_steps))]
fn put_define(
    text: &mut Vec<u8>,
    margin: &[u8],
    variable: &CVariable,
    value: &CExp,
) -> Result<(), AllocError>
    ensures { OnOk result (text.new.items ≡ text.old.items ++ define_text variable.now value.now margin.now) }
{
    text.extend_from_slice(margin)?;
    put_variable(text, variable)?;
    text.extend_from_slice(b" = ")?;
    put_expression(text, value)?;
    text.extend_from_slice(b";\n")
}

#[tactic(auto, using(crate::proofs::Steps::text_steps))]
fn put_assign(
    text: &mut Vec<u8>,
    margin: &[u8],
    object: &CExp,
    value: &CExp,
) -> Result<(), AllocError>
    ensures { OnOk result (text.new.items ≡ text.old.items ++ assign_text object.now value.now margin.now) }
{
    text.extend_from_slice(margin)?;
    put_expression(text, object)?;
    text.extend_from_slice(b" = ")?;
    put_expression(text, value)?;
    text.extend_from_slice(b";\n")
}

/// Adds a line that changes an object by one: the sign is `++` or `--`.
#[tactic(auto, using(crate::proofs::Steps::text_steps))]
fn put_step(text: &mut Vec<u8>, margin: &[u8], sign: &[u8], object: &CExp) -> Result<(), AllocError>
    ensures { OnOk result (text.new.items ≡ text.old.items ++ step_text sign.now object.now margin.now) }
{
    text.extend_from_slice(margin)?;
    put_expression(text, object)?;
    text.extend_from_slice(sign)?;
    text.extend_from_slice(b";\n")
}

#[tactic(auto, using(crate::proofs::Steps::text_steps))]
fn put_call_line(
    text: &mut Vec<u8>,
    margin: &[u8],
    name: &[u8],
    arguments: &[CExp],
) -> Result<(), AllocError>
    ensures { OnOk result (text.new.items ≡ text.old.items ++ call_line name.now arguments.now margin.now) }
{
    text.extend_from_slice(margin)?;
    put_call(text, name, arguments)?;
    text.extend_from_slice(b";\n")
}

#[tactic(auto, using(crate::proofs::Steps::text_steps))]
fn put_return(
    text: &mut Vec<u8>,
    margin: &[u8],
    value: &Option<Box<CExp>>,
) -> Result<(), AllocError>
    ensures { OnOk result (text.new.items ≡ text.old.items ++ return_text value.now margin.now) }
{
    match value {
        None => put_bare_return(text, margin),
        Some(value) => put_return_of(text, margin, value),
    }
}

#[tactic(auto, using(crate::proofs::Steps::text_steps))]
fn put_bare_return(text: &mut Vec<u8>, margin: &[u8]) -> Result<(), AllocError>
    ensures { OnOk result (text.new.items ≡ text.old.items ++ (margin.now ++ (codes "return" ++ ended))) }
{
    text.extend_from_slice(margin)?;
    text.extend_from_slice(b"return;\n")
}

#[tactic(auto, using(crate::proofs::Steps::text_steps))]
fn put_return_of(text: &mut Vec<u8>, margin: &[u8], value: &CExp) -> Result<(), AllocError>
    ensures { OnOk result (text.new.items ≡ text.old.items ++ (margin.now ++ (codes "return " ++ (expression_text value.now ++ ended)))) }
{
    text.extend_from_slice(margin)?;
    text.extend_from_slice(b"return ")?;
    put_expression(text, value)?;
    text.extend_from_slice(b";\n")
}
