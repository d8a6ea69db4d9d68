//! Streams: their files, and the hooks that read and write them.
ghost use Rattle.std.specs.Prelude.{◌≡◌, IfOk};
ghost use Rattle.c_types.specs.Gathered.{gathered};
ghost use Rattle.c_main.specs.Streams.{filling, input_opening, input_text, opening, output_opening, output_text, passed_sign, passed_type};

use crate::gathered::number_text;
use crate::lines::{filled, string};
use crate::type_names::type_text;
use c_forms::{joined, numbered};
use c_types::{CTypes, is_scalar};
use hume_base::{Text, Ty};
use hume_model::{StreamC, WireC};
use std::alloc::{AllocError, Global};

// The values of an input stream that were read and not yet asked for, at most those of a round, and its hook.
const INPUT: [&[u8]; 36] = [
    b"static FILE *file@0;",
    b"static @1 queue@0[64];",
    b"static int held@0;",
    b"static unsigned long number@0;",
    b"static unsigned long blank@0;",
    b"",
    b"static bool fill@0(int wanted)",
    b"{",
    b"    while (held@0 < wanted) {",
    b"        const int found = takeLine(file@0, &number@0, &blank@0);",
    b"        if (found == 0) {",
    b"            return true;",
    b"        }",
    b"        if (found == 2 || !take@2(&queue@0[held@0], false)) {",
    b"            return false;",
    b"        }",
    b"        takeBlanks();",
    b"        if (at != end) {",
    b"            return false;",
    b"        }",
    b"        held@0++;",
    b"    }",
    b"    return true;",
    b"}",
    b"",
    b"bool @3(@1 *value)",
    b"{",
    b"    if (held@0 == 0) {",
    b"        return false;",
    b"    }",
    b"    *value = queue@0[0];",
    b"    held@0--;",
    b"    memmove(queue@0, queue@0 + 1, (size_t)held@0 * sizeof queue@0[0]);",
    b"    return true;",
    b"}",
    b"",
];

/// What belongs to an input stream.
pub(crate) fn input_text(
    alloc: Global,
    types: &CTypes,
    found: &[Ty],
    number: usize,
    stream: &StreamC,
    wire: &WireC,
) -> Result<Text, AllocError>
    ensures { IfOk result (λ text. text ≡ input_text (gathered types.now) found.now number stream.now wire.now) }
{
    let node = numbered(alloc, b"", number as u64)?;
    let ty = type_text(alloc, types, &wire.ty)?;
    let take = number_text(alloc, found, &wire.ty)?;
    let hook = types.names().read_hook(alloc, stream.name.bytes())?;
    filled(
        alloc,
        &INPUT,
        &[node.bytes(), ty.bytes(), take.bytes(), hook.bytes()],
    )
}

const OUTPUT: [&[u8]; 8] = [
    b"static FILE *file@0;",
    b"",
    b"void @1(@2value)",
    b"{",
    b"    show@3(file@0, @4value, false);",
    b"    fputs(\"\\n\", file@0);",
    b"}",
    b"",
];

/// The hook of an output stream.
pub(crate) fn output_text(
    alloc: Global,
    types: &CTypes,
    found: &[Ty],
    number: usize,
    stream: &StreamC,
    wire: &WireC,
) -> Result<Text, AllocError>
    ensures { IfOk result (λ text. text ≡ output_text (gathered types.now) found.now number stream.now wire.now) }
{
    let scalar = is_scalar(types.types(), &wire.ty);
    let node = numbered(alloc, b"", number as u64)?;
    let hook = types.names().write_hook(alloc, stream.name.bytes())?;
    let ty = passed_type(alloc, types, &wire.ty, scalar)?;
    let show = number_text(alloc, found, &wire.ty)?;
    filled(
        alloc,
        &OUTPUT,
        &[
            node.bytes(),
            hook.bytes(),
            ty.bytes(),
            show.bytes(),
            passed_sign(scalar),
        ],
    )
}

// The type of a parameter with what stands before its name.
fn passed_type(alloc: Global, types: &CTypes, ty: &Ty, scalar: bool) -> Result<Text, AllocError>
    ensures { IfOk result (λ text. text ≡ passed_type (gathered types.now) ty.now scalar) }
{
    let name = type_text(alloc, types, ty)?;
    if scalar {
        joined(alloc, &[name.bytes(), b" "])
    } else {
        joined(alloc, &[b"const ", name.bytes(), b" *"])
    }
}

fn passed_sign(scalar: bool) -> &'static [u8]
    ensures { result.now ≡ passed_sign scalar }
{
    if scalar { b"&" } else { b"" }
}

const STANDARD: [&[u8]; 1] = [b"    file@0 = @1;"];

const OPENING: [&[u8]; 4] = [
    b"    file@0 = fopen(@1, \"@2\");",
    b"    if (file@0 == NULL) {",
    b"        return 4;",
    b"    }",
];

/// The statements that open the file of an input stream.
pub(crate) fn input_opening(
    alloc: Global,
    number: usize,
    stream: &StreamC,
) -> Result<Text, AllocError>
    ensures { IfOk result (λ text. text ≡ input_opening number stream.now) }
{
    let node = numbered(alloc, b"", number as u64)?;
    if stream.port.bytes() == b"std_in".as_slice() {
        return filled(alloc, &STANDARD, &[node.bytes(), b"stdin"]);
    }
    opening(alloc, node.bytes(), stream.port.bytes(), b"rb")
}

/// The statements that open the file of an output stream.
pub(crate) fn output_opening(
    alloc: Global,
    number: usize,
    stream: &StreamC,
) -> Result<Text, AllocError>
    ensures { IfOk result (λ text. text ≡ output_opening number stream.now) }
{
    let node = numbered(alloc, b"", number as u64)?;
    if stream.port.bytes() == b"std_out".as_slice() {
        return filled(alloc, &STANDARD, &[node.bytes(), b"stdout"]);
    }
    opening(alloc, node.bytes(), stream.port.bytes(), b"wb")
}

fn opening(alloc: Global, node: &[u8], port: &[u8], mode: &[u8]) -> Result<Text, AllocError>
    ensures { IfOk result (λ text. text ≡ opening node.now port.now mode.now) }
{
    let name = string(alloc, port)?;
    filled(alloc, &OPENING, &[node, name.bytes(), mode])
}

const FILLING: [&[u8]; 4] = [
    b"        if (!fill@0(count)) {",
    b"            printf(\"bad value @1 line %lu\\n\", number@0);",
    b"            return 3;",
    b"        }",
];

/// The statements that fill the queue of an input stream, and tell of a bad line.
pub(crate) fn filling(alloc: Global, number: usize, stream: &StreamC) -> Result<Text, AllocError>
    ensures { IfOk result (λ text. text ≡ filling number stream.now) }
{
    let node = numbered(alloc, b"", number as u64)?;
    filled(alloc, &FILLING, &[node.bytes(), stream.name.bytes()])
}
