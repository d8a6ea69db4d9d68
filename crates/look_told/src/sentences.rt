//! The sentence of each rule, as `docs/REFUSALS.md` has it, for a line that names the line alone.
ghost use Rattle.std.specs.Prelude.{◌==◌, not, IsTrue};
ghost use Rattle.std.specs.List.{list_all};

use hume_base::Rule;

/// What is wrong where the rule is broken.
pub fn sentence_of_line(rule: Rule) -> &'static [u8]
    ensures { IsTrue (list_all (λ byte. not (byte == 10)) result.now) }
{
    match rule {
        Rule::C10 => b"no token, space or comment starts there",
        Rule::C11 => b"a number is over 18446744073709551615",
        Rule::C12 => b"a name has more than 32 bytes",
        Rule::C20 => b"no program goes on with this token",
        Rule::C30 => b"a name is declared again in its space",
        Rule::C31 => b"a name is unknown where it stands",
        Rule::C32 => b"a function calls itself, directly or through others",
        Rule::C33 => b"a data type holds itself, directly or through others",
        Rule::C40 => b"something has no type, or another one than is expected",
        Rule::C41 => b"a number literal is out of the range of its type",
        Rule::C42 => b"there are too many or too few of something, or a number is out of bounds",
        Rule::C43 => b"a variable is bound twice",
        Rule::C44 => b"a * is no output of a result",
        Rule::C45 =>
            b"a wire's first value isn't built of literals, or is no value of the wire's type",
        Rule::C50 => b"no wire leads to an input of the box, or to the stream",
        Rule::C51 => b"an earlier wire leads to the same input or stream",
        Rule::C52 => b"no wire starts from an output of the box, or from the stream",
        Rule::C53 => b"an earlier wire starts from the same output or stream",
        Rule::C54 => b"the ends of the wire have different types, or both are streams",
        Rule::C55 =>
            b"the port of a stream is not handed in, is the source's, or is that of an earlier stream",
        Rule::C56 =>
            b"together the programs have more of something than one program may have, or more heap and stack",
        Rule::C57 =>
            b"the port of a stream is the source of another program, or is that of an earlier program's stream",
        Rule::C60 => b"a rule of the box may raise an exception that the box doesn't handle",
        Rule::C61 => b"a handler of the box may raise an exception",
        Rule::C70 => b"the source has more than 262,144 bytes",
        Rule::C71 => b"the source has more than 65,536 tokens",
        Rule::C72 => b"there are more of something than there may be",
        Rule::C73 => b"a type takes more than 1,024 words",
        Rule::C74 => b"all wires together take more than 65,536 words",
        Rule::C75 => b"a step of the box may take more than 65,536 words of heap",
        Rule::C76 => b"a step of the box may take more than 16,384 words of stack",
        Rule::C77 => b"an expression, pattern or type is more than 64 deep",
        Rule::C78 => b"heap and stack of all boxes are more than 4,194,304 words",
        Rule::C79 => b"a step of the box may run more than 1,000,000 instructions",
        Rule::C90 => b"the line of the script is no step of the program",
        Rule::C91 =>
            b"the rule calls nothing that can be unfolded, or its result would be more than 1024 deep or have more than 1048576 parts",
        Rule::C92 => b"the output of the rule is not one that can be named so",
        Rule::C93 => b"the box is fair, or the rule is its last one",
        Rule::C94 => b"some values fit both rules",
    }
}
