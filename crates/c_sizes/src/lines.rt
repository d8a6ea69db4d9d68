//! The lines of the table of a file.
ghost use Rattle.std.specs.Prelude.{◌≡◌, ◌++◌, OnOk, codes};
ghost use Rattle.std.specs.List.{flat_map};
ghost use Rattle.c_tree.specs.Words.{separated};
ghost use Rattle.c_sizes.specs.Table.{chain_text, column, columns, greatest_alignments, indent, line, row_line, rows_text, spaces, table_text};

use crate::bytes::Bytes;
use crate::calls::{Chain, deepest_calls};
use crate::memory::{Row, static_memory, together};
use c_tree::CProgram;
use hume_base::Text;
use itoa::Buffer;
use std::alloc::{AllocError, Global};

/// Appends the lines that tell the static memory and the deepest calls of a file.
pub fn put_table(alloc: Global, text: &mut Vec<u8>, program: &CProgram) -> Result<(), AllocError>
    ensures { OnOk result (text.new.items ≡ text.old.items ++ table_text program.now.items) }
{
    let rows = static_memory(alloc, program)?;
    let calls = deepest_calls(alloc, program)?;
    put_parts(text, rows.as_slice(), &calls)
}

fn put_parts(text: &mut Vec<u8>, rows: &[Row], calls: &Chain) -> Result<(), AllocError>
    ensures { OnOk result (text.new.items ≡ text.old.items ++ (rows_text rows.now ++ chain_text calls.now)) }
{
    put_rows(text, rows)?;
    put_chain(text, calls)
}

#[tactic(auto, using(crate::proofs::Steps::text_steps))]
fn put_rows(text: &mut Vec<u8>, rows: &[Row]) -> Result<(), AllocError>
    ensures { OnOk result (text.new.items ≡ text.old.items ++ rows_text rows.now) }
{
    put_line(
        text,
        b"bytes of static memory, by the greatest alignment of numbers",
        greatest_alignments(),
    )?;
    put_each_row(text, rows)?;
    put_line(text, b"  together", together(rows))
}

fn greatest_alignments() -> Bytes
    ensures { result ≡ greatest_alignments }
{
    Bytes {
        one: 1,
        two: 2,
        four: 4,
        eight: 8,
    }
}

#[tactic(auto, using(crate::proofs::Steps::text_steps))]
fn put_each_row(text: &mut Vec<u8>, rows: &[Row]) -> Result<(), AllocError>
    ensures { OnOk result (text.new.items ≡ text.old.items ++ flat_map row_line rows.now) }
{
    for row in rows {
        put_row(text, row)?;
    }
    Ok(())
}

fn put_row(text: &mut Vec<u8>, row: &Row) -> Result<(), AllocError>
    ensures { OnOk result (text.new.items ≡ text.old.items ++ row_line row.now) }
{
    let mut label = Vec::from_slice(*text.allocator(), indent(row.inner))?;
    label.extend_from_slice(row.name.bytes())?;
    put_line(text, label.as_slice(), row.bytes)
}

fn indent(inner: bool) -> &'static [u8]
    ensures { result.now ≡ indent inner }
{
    if inner { b"    " } else { b"  " }
}

#[tactic(auto, using(crate::proofs::Steps::text_steps))]
fn put_chain(text: &mut Vec<u8>, calls: &Chain) -> Result<(), AllocError>
    ensures { OnOk result (text.new.items ≡ text.old.items ++ chain_text calls.now) }
{
    text.extend_from_slice(b"\n")?;
    text.extend_from_slice(b"deepest calls: ")?;
    put_names(text, calls.names.as_slice())?;
    put_line(text, b"  bytes of their variables", calls.bytes)
}

#[tactic(auto, using(crate::proofs::Steps::text_steps))]
fn put_names(text: &mut Vec<u8>, names: &[Text]) -> Result<(), AllocError>
    ensures { OnOk result (text.new.items ≡ text.old.items ++ separated (codes ", ") names.now) }
{
    match names.split_first() {
        None => Ok(()),
        Some((first, others)) => {
            text.extend_from_slice(first.bytes())?;
            put_others(text, others)
        }
    }
}

#[tactic(auto, using(crate::proofs::Steps::text_steps))]
fn put_others(text: &mut Vec<u8>, others: &[Text]) -> Result<(), AllocError>
    ensures { OnOk result (text.new.items ≡ text.old.items ++ flat_map (λ name. codes ", " ++ name) others.now) }
{
    for name in others {
        text.extend_from_slice(b", ")?;
        text.extend_from_slice(name.bytes())?;
    }
    Ok(())
}

/// Adds a line: a label, and the numbers in their columns.
#[tactic(auto, using(crate::proofs::Steps::text_steps))]
fn put_line(text: &mut Vec<u8>, label: &[u8], bytes: Bytes) -> Result<(), AllocError>
    ensures { OnOk result (text.new.items ≡ text.old.items ++ line label.now bytes) }
{
    text.extend_from_slice(b"\n")?;
    text.extend_from_slice(label)?;
    put_spaces(text, 60usize.saturating_sub(label.len()))?;
    put_columns(text, bytes)
}

#[tactic(auto, using(crate::proofs::Steps::text_steps))]
fn put_columns(text: &mut Vec<u8>, bytes: Bytes) -> Result<(), AllocError>
    ensures { OnOk result (text.new.items ≡ text.old.items ++ columns bytes) }
{
    put_column(text, bytes.one)?;
    put_column(text, bytes.two)?;
    put_column(text, bytes.four)?;
    put_column(text, bytes.eight)
}

#[tactic(auto, using(crate::proofs::Steps::text_steps))]
fn put_column(text: &mut Vec<u8>, number: u64) -> Result<(), AllocError>
    ensures { OnOk result (text.new.items ≡ text.old.items ++ column number) }
{
    let mut buffer = Buffer::new();
    let digits = buffer.format(number).as_bytes();
    text.extend_from_slice(b" ")?;
    put_spaces(text, 4usize.saturating_sub(digits.len()))?;
    text.extend_from_slice(digits)
}

#[tactic(auto, using(crate::proofs::Steps::text_steps))]
fn put_spaces(text: &mut Vec<u8>, count: usize) -> Result<(), AllocError>
    ensures { OnOk result (text.new.items ≡ text.old.items ++ spaces count) }
{
    for _ in 0..count {
        text.push(b' ')?;
    }
    Ok(())
}
