//! The tokens of a part of a program.
ghost use Rattle.std.specs.Prelude.{◌≤◌, IsTrue};

/// What a part is.
#[derive(Clone, Copy, Debug, PartialEq, Eq)]
pub enum Sort {
    Declaration,
    Type,
    Pattern,
    /// A name that a pattern or a `let` binds.
    Variable,
    Expression,
    /// What a variable is known in, with the place that binds it.
    Scope,
    /// From here on the variables of the scope are known that begins with the same token.
    Known,
    Equation,
    Rule,
    Handler,
    Alternative,
    /// The name of an input or an output.
    Input,
    Output,
    /// The first or the second end of a wire.
    WireFrom,
    WireTo,
    /// The declared name of a data type; of a constructor or an exception; of a function; of a box or a stream.
    TypeName,
    ConstructorName,
    FunctionName,
    NodeName,
    /// The exception that a handler is for.
    HandledName,
    /// The name of an equation.
    EquationName,
    /// A name that is used: of a data type, of a constructor, of an exception that is raised, of a function, or of a variable.
    TypeUse,
    ConstructorUse,
    ExceptionUse,
    FunctionUse,
    VariableUse,
    /// A comparison of two parts.
    Comparison,
    /// A rule, equation or alternative behind the one of that number, which takes all that it takes.
    Shadowed,
}

/// A part of a program: the tokens from number `first` to before number `after`, counted from 0.
#[derive(Clone, Copy, Debug)]
pub struct Span {
    pub sort: Sort,
    pub first: usize,
    pub after: usize,
    /// The number of the declaration that it is a part of, from 0.
    pub declaration: usize,
    /// Its number among its like in what holds it, from 1; or 0.
    pub number: usize,
    /// How many arguments, parameters or parts it has.
    pub parts: usize,
}

impl Span {
    /// Whether the other part is a smaller part of this one.
    pub fn holds(&self, other: &Span) -> bool
        ensures first { IsTrue result → self.now.first ≤ other.now.first }
        ensures after { IsTrue result → other.now.after ≤ self.now.after }
    {
        self.first <= other.first
            && other.after <= self.after
            && (self.first < other.first || other.after < self.after)
    }
}
