//! The code of patterns: their tests, and the words of their variables.
ghost use Rattle.std.specs.Prelude.{◌≡◌, ◌+◌, ◌<◌, length, IfOk, OnOk, Some, ℕ};
ghost use Rattle.box_code.specs.Paths.{Spot as AnySpot, spots_from, tests_from};
ghost use Rattle.box_code.specs.Represents.{depth_of, instr_of_test, FieldsStand, TestsStand};
ghost use Rattle.box_code.specs.Words.{path_of, words_of};
ghost use Rattle.box_compile.specs.inner.Emitted.{Emitted};
ghost use Rattle.box_compile.specs.inner.Parts.{FieldStands, TestStands};
ghost use Rattle.box_compile.specs.inner.Patterns.{FoundWritten, PatternWritten};
ghost use Rattle.box_compile.specs.inner.Tests.{test_of};

use crate::counts::{count, plus};
use crate::finding::{Found, found_at, found_in_words};
use crate::spots::{Spot, Test, Wanted};
use crate::writer::Writer;
use box_code::{Instr, Path};
use hume_model::PatC;
use std::alloc::{AllocError, Global};

/// The tests of a pattern whose value is the word at a place, and then the words of its variables, on a stack of so many words. It gives how
/// many variables there are. It is never inlined, so that a level of nested alternatives takes little of the stack.
#[inline(never)]
pub(crate) fn emit_pattern(
    alloc: Global,
    writer: &mut Writer,
    place: u32,
    high: u32,
    other: u32,
    pat: &PatC,
) -> Result<u32, AllocError>
    ensures { IfOk result (λ count. PatternWritten writer.old writer.new place high other pat.now count) }
{
    let found = found_at(alloc, pat, place)?;
    emit_found(writer, high, other, &found)
}

/// The tests of patterns whose values are the words from the bottom of the frame on, and then the words of their variables, on a stack of
/// so many words. It gives how many variables there are.
pub(crate) fn emit_patterns(
    alloc: Global,
    writer: &mut Writer,
    high: u32,
    other: u32,
    pats: &[PatC],
) -> Result<u32, AllocError>
    ensures { IfOk result (λ count. FoundWritten writer.old writer.new high other (tests_from pats.now 0) (spots_from pats.now 0) count) }
{
    let found = found_in_words(alloc, pats)?;
    emit_found(writer, high, other, &found)
}

fn emit_found(writer: &mut Writer, high: u32, other: u32, found: &Found) -> Result<u32, AllocError>
    ensures { IfOk result (λ count. FoundWritten writer.old writer.new high other found.now.tests found.now.spots count) }
{
    let count = count(found.spots.len())?;
    emit_tests(writer, high, other, found.tests.as_slice())?;
    emit_fields(writer, high, found.spots.as_slice())?;
    Ok(count)
}

// Tests that jump to a place if they fail, on a stack of so many words.
fn emit_tests(writer: &mut Writer, high: u32, other: u32, tests: &[Test]) -> Result<(), AllocError>
    ensures { OnOk result (Emitted writer.old writer.new (λ code from to. TestsStand code high other from to tests.now)) }
{
    for test in tests {
        emit_test(writer, high, other, test)?;
    }
    Ok(())
}

fn emit_test(writer: &mut Writer, high: u32, other: u32, test: &Test) -> Result<(), AllocError>
    ensures { OnOk result (Emitted writer.old writer.new (λ code from to. TestStands code high other from to test.now)) }
{
    let spot = test.spot();
    let depth = depth(high, spot.place())?;
    let numbers = spot.path();
    let path = path_behind(writer, 3, numbers)?;
    let instr = test_instr(test.wanted(), depth, path, other);
    match writer.emit_at_path(instr, path, numbers) {
        Err(error) => Err(error),
        Ok(()) => Ok(()),
    }
}

fn test_instr(wanted: Wanted, depth: u32, path: Path, other: u32) -> Instr
    ensures same { (spot : AnySpot) (high : ℕ) → depth ≡ depth_of high spot.place → result ≡ instr_of_test high other path (test_of spot wanted) }
    ensures path { path_of result ≡ Some path }
    ensures words { length (words_of result) ≡ 3 }
{
    match wanted {
        Wanted::Word(word) => Instr::MatchWord {
            depth,
            path,
            word,
            to: other,
        },
        Wanted::Tag(tag) => Instr::MatchTag {
            depth,
            path,
            tag,
            to: other,
        },
    }
}

/// The words at the spots, one after another, above so many words.
pub(crate) fn emit_fields(writer: &mut Writer, high: u32, spots: &[Spot]) -> Result<(), AllocError>
    ensures { OnOk result (Emitted writer.old writer.new (λ code from to. FieldsStand code high from to spots.now)) }
{
    let count = count(spots.len())?;
    for i in 0..count {
        emit_field(writer, plus(high, i)?, &spots[i as usize])?;
    }
    Ok(())
}

fn emit_field(writer: &mut Writer, high: u32, spot: &Spot) -> Result<(), AllocError>
    ensures { OnOk result (Emitted writer.old writer.new (λ code from to. FieldStands code high from to spot.now)) }
{
    let depth = depth(high, spot.place())?;
    let numbers = spot.path();
    let path = path_behind(writer, 1, numbers)?;
    match writer.emit_at_path(Instr::Field { depth, path }, path, numbers) {
        Err(error) => Err(error),
        Ok(()) => Ok(()),
    }
}

/// The depth of the word at a place under so many words, if it is one of them.
pub(crate) fn depth(high: u32, place: u32) -> Result<u32, AllocError>
    ensures { IfOk result (λ depth. (place < high) × (depth ≡ depth_of high place)) }
{
    if place >= high {
        return Err(AllocError);
    }
    Ok(high - (1 + place))
}

// The path of these field numbers that will stand behind so many words more.
fn path_behind(writer: &Writer, words: u32, numbers: &[u32]) -> Result<Path, AllocError>
    ensures { IfOk result (λ path. (path.at ≡ length writer.now + words) × (path.length ≡ length numbers.now)) }
{
    let at = plus(writer.len(), words)?;
    let length = count(numbers.len())?;
    Ok(Path { at, length })
}
