//! The sentence and the remedy of each rule, as `docs/REFUSALS.md` has them.
ghost use Rattle.std.specs.Prelude.{IsTrue};
ghost use Rattle.look_reasons.specs.Sentences.{is_line};

use hume_base::Rule;

/// What is wrong.
pub fn sentence(rule: Rule) -> &'static [u8]
    ensures { IsTrue (is_line result.now) }
{
    match rule {
        Rule::C10 => b"no token, space or comment starts here",
        Rule::C11 => b"the number is over 18446744073709551615",
        Rule::C12 => b"the name has more than 32 bytes",
        Rule::C20 => b"no program goes on with this token",
        Rule::C30 => b"a name is declared again",
        Rule::C31 => b"a name is unknown",
        Rule::C32 => b"a function calls itself, directly or through others",
        Rule::C33 => b"a data type holds itself, directly or through others",
        Rule::C40 => b"this has no type, or another one than is expected",
        Rule::C41 => b"a number literal is out of the range of its type",
        Rule::C42 => b"there are too many or too few, or a number is out of bounds",
        Rule::C43 => b"a variable is bound twice in one place",
        Rule::C44 => b"a `*` is no output of a result",
        Rule::C45 => b"the first value of the wire is no constant of its type",
        Rule::C50 => b"no wire leads to an input of the box, or to the stream",
        Rule::C51 => b"an earlier wire leads to the same input or stream",
        Rule::C52 => b"no wire starts from an output of the box, or from the stream",
        Rule::C53 => b"an earlier wire starts from the same output or stream",
        Rule::C54 => b"the ends of the wire have different types, or both are streams",
        Rule::C55 => b"the port of the stream is not handed in, or is taken",
        Rule::C56 => b"the programs together pass a limit, or take too much",
        Rule::C57 =>
            b"the port of the stream is the source of another program, or a stream of an earlier program has it",
        Rule::C60 => b"a rule of the box may raise an exception that it doesn't handle",
        Rule::C61 => b"a handler of the box may raise an exception",
        Rule::C70 => b"the source has more than 262144 bytes",
        Rule::C71 => b"the source has more than 65536 tokens",
        Rule::C72 => b"there are too many parts",
        Rule::C73 => b"a type takes more than 1024 words",
        Rule::C74 => b"with this wire, all wires take more than 65536 words",
        Rule::C75 => b"a step of the box may take more than 65536 words of heap",
        Rule::C76 => b"a step of the box may take more than 16384 words of stack",
        Rule::C77 => b"this is more than 64 deep",
        Rule::C78 => b"with this box, all boxes take more than 4194304 words",
        Rule::C79 => b"a step of the box may run more than 1000000 instructions",
        Rule::C90 => b"the line of the script is no step of the program",
        Rule::C91 =>
            b"the rule calls nothing that can be unfolded, or its result would be more than 1024 deep or have more than 1048576 parts",
        Rule::C92 => b"the output of the rule is not one that can be named so",
        Rule::C93 => b"the box is fair, or the rule is its last one",
        Rule::C94 => b"some values fit both rules",
    }
}

/// How it is mended.
pub fn remedy(rule: Rule) -> &'static [u8]
    ensures { IsTrue (is_line result.now) }
{
    match rule {
        Rule::C10 =>
            b"take the sign out; a comment begins with `--`, and a letter is one byte between single quotes",
        Rule::C11 => b"write a smaller number",
        Rule::C12 => b"shorten the name",
        Rule::C20 => b"write one of the tokens that go on here",
        Rule::C30 => b"give one of them another name",
        Rule::C31 =>
            b"declare it, or correct the spelling; call a function with its arguments; name a box's end as `box.output`",
        Rule::C32 => b"send the value around a wire, and let the box do one step each time",
        Rule::C33 => b"use a `vector` of a fixed length",
        Rule::C40 =>
            b"convert a number by `as`; give an untyped number its type, as `(1 as nat 8)`; compare data types by `case`",
        Rule::C41 => b"widen the type, or write what it would wrap to",
        Rule::C42 =>
            b"count against the declaration; put parentheses around an argument or pattern that has arguments itself; write a result out as a tuple",
        Rule::C43 => b"name them apart, and compare by `==`",
        Rule::C44 =>
            b"choose with `if` or `case` outside of the tuple, and put the `*` in the place of the output",
        Rule::C45 => b"write the value itself out, of literals, constructors, tuples and vectors",
        Rule::C50 => b"draw the wire, or take the input out",
        Rule::C51 => b"give the box an input for each, or join the two in a `fair` box",
        Rule::C52 => b"draw the wire, or take the output out",
        Rule::C53 => b"give the box two outputs, or split in a box of its own",
        Rule::C54 =>
            b"convert in a box between them; put a box with the rule `(x) -> x` between two streams",
        Rule::C55 => b"hand in a port of that name for each stream",
        Rule::C56 => b"run some of the programs by a call of their own",
        Rule::C57 => b"name ports apart in the programs",
        Rule::C60 =>
            b"add a handler; divide by a literal; end a `case` or a function with a pattern for all the rest",
        Rule::C61 => b"let the handler give a value or `*`",
        Rule::C70 => b"shorten the source",
        Rule::C71 => b"shorten the source",
        Rule::C72 => b"put several values into a tuple or data type; split a box",
        Rule::C73 => b"shorten the vector, or send its parts one after another",
        Rule::C74 => b"make wires less deep, or send smaller values",
        Rule::C75 => b"give parts of the work to further boxes; SPACE.md says what takes heap",
        Rule::C76 => b"call before a long tuple or vector is begun, by a `let`",
        Rule::C77 => b"name parts by `let`, or move them into functions",
        Rule::C78 => b"use fewer or smaller boxes",
        Rule::C79 =>
            b"name a value that is needed twice by `let`; go around a wire, a part of the work in each step",
        Rule::C90 =>
            b"write `unfold BOX RULE`, `name BOX RULE FUNCTION` or `swap BOX RULE`, with rules counted from 1",
        Rule::C91 =>
            b"unfold a call to a function of one equation whose patterns are variables or `_`",
        Rule::C92 => b"name the one output of a rule with 1 to 16 variables, by a new name",
        Rule::C93 => b"take another rule of a box that is not fair",
        Rule::C94 => b"swap rules of which no value fits both",
    }
}
