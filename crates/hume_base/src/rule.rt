ghost use Rattle.std.specs.Prelude.{◌≡◌};
ghost use Rattle.hume_base.specs.Rules.{code_of, phase_of};

/// A rule that a program may break. Each has a code that never changes (docs/REFUSALS.md).
#[derive(Clone, Copy, Debug, PartialEq, Eq)]
pub enum Rule {
    /// No token, space or comment starts here.
    C10,
    /// A number is over 18446744073709551615.
    C11,
    /// A name has more than 32 bytes.
    C12,
    /// The source isn't a program.
    C20,
    /// A name is declared again.
    C30,
    /// A name is unknown.
    C31,
    /// A function calls itself, directly or through others.
    C32,
    /// A data type holds itself, directly or through others.
    C33,
    /// Something has no type.
    C40,
    /// A number is outside of its type.
    C41,
    /// There are too many or too few of something, or a width, a length or a depth is out of bounds.
    C42,
    /// A variable is bound twice in one place.
    C43,
    /// A `*` stands where no output does.
    C44,
    /// A wire's first value isn't a constant of its type.
    C45,
    /// No wire leads to an input, or to a stream that goes out.
    C50,
    /// A second wire leads to one place.
    C51,
    /// No wire comes from an output, or from a stream that comes in.
    C52,
    /// A second wire comes from one place.
    C53,
    /// The ends of a wire have different types, or both are streams.
    C54,
    /// A stream's port isn't handed in, is the source's, or is an earlier stream's.
    C55,
    /// The united programs pass a limit, or their boxes may take too much together.
    C56,
    /// A stream's port is the source of another program, or a stream's of an earlier one.
    C57,
    /// A rule of the box may raise what the box doesn't handle.
    C60,
    /// A handler may raise.
    C61,
    /// The source has more than 262,144 bytes.
    C70,
    /// The source has more than 65,536 tokens.
    C71,
    /// The program, a box, a function or a constructor has too many parts.
    C72,
    /// A type has more than 1,024 words.
    C73,
    /// The wires hold more than 65,536 words together.
    C74,
    /// A box may take more than 65,536 words of heap.
    C75,
    /// A box may take more than 16,384 words of stack.
    C76,
    /// An expression, a pattern or a type is more than 64 deep.
    C77,
    /// The boxes may take more than 4,194,304 words of heap and stack together.
    C78,
    /// A box may take more than 1,000,000 instructions for a step.
    C79,
    /// A line of the script asks for no step of the program.
    C90,
    /// The rule calls no function that can be unfolded, or the result would be more than 1,024 deep.
    C91,
    /// The output of the rule can't be named so.
    C92,
    /// The box is fair, or no rule comes after this one.
    C93,
    /// Some values fit both rules.
    C94,
}

impl Rule {
    pub fn code(&self) -> u32
        ensures { result ≡ code_of self.now }
    {
        match self {
            Rule::C10 => 10,
            Rule::C11 => 11,
            Rule::C12 => 12,
            Rule::C20 => 20,
            Rule::C30 => 30,
            Rule::C31 => 31,
            Rule::C32 => 32,
            Rule::C33 => 33,
            Rule::C40 => 40,
            Rule::C41 => 41,
            Rule::C42 => 42,
            Rule::C43 => 43,
            Rule::C44 => 44,
            Rule::C45 => 45,
            Rule::C50 => 50,
            Rule::C51 => 51,
            Rule::C52 => 52,
            Rule::C53 => 53,
            Rule::C54 => 54,
            Rule::C55 => 55,
            Rule::C56 => 56,
            Rule::C57 => 57,
            Rule::C60 => 60,
            Rule::C61 => 61,
            Rule::C70 => 70,
            Rule::C71 => 71,
            Rule::C72 => 72,
            Rule::C73 => 73,
            Rule::C74 => 74,
            Rule::C75 => 75,
            Rule::C76 => 76,
            Rule::C77 => 77,
            Rule::C78 => 78,
            Rule::C79 => 79,
            Rule::C90 => 90,
            Rule::C91 => 91,
            Rule::C92 => 92,
            Rule::C93 => 93,
            Rule::C94 => 94,
        }
    }

    /// The phase in which it is asked, from 1. A rule of an earlier phase is told first.
    pub fn phase(&self) -> u32
        ensures { result ≡ phase_of self.now }
    {
        match self {
            Rule::C10 => 2,
            Rule::C11 => 2,
            Rule::C12 => 2,
            Rule::C20 => 3,
            Rule::C30 => 4,
            Rule::C31 => 4,
            Rule::C32 => 4,
            Rule::C33 => 4,
            Rule::C40 => 6,
            Rule::C41 => 6,
            Rule::C42 => 5,
            Rule::C43 => 5,
            Rule::C44 => 5,
            Rule::C45 => 6,
            Rule::C50 => 8,
            Rule::C51 => 8,
            Rule::C52 => 8,
            Rule::C53 => 8,
            Rule::C54 => 8,
            Rule::C55 => 11,
            Rule::C56 => 11,
            Rule::C57 => 11,
            Rule::C60 => 9,
            Rule::C61 => 9,
            Rule::C70 => 1,
            Rule::C71 => 2,
            Rule::C72 => 7,
            Rule::C73 => 7,
            Rule::C74 => 7,
            Rule::C75 => 10,
            Rule::C76 => 10,
            Rule::C77 => 3,
            Rule::C78 => 10,
            Rule::C79 => 10,
            Rule::C90 => 11,
            Rule::C91 => 11,
            Rule::C92 => 11,
            Rule::C93 => 11,
            Rule::C94 => 11,
        }
    }
}

/// A broken rule, and the line in which it is broken, counted from 1.
#[derive(Clone, Copy, Debug, PartialEq, Eq)]
pub struct Refusal {
    pub rule: Rule,
    pub line: u32,
}
