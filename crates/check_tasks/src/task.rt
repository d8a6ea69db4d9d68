//! What is still to be done of an elaboration. Each form of expression is a list of tasks: first this, then that.
use hume_ast::{Exp, Pat};
use hume_model::Op;

/// A task. It works on the stacks of types, of cores and of patterns, and on the variables in scope.
#[derive(Clone, Copy)]
pub enum Task<'a> {
    /// The type and the core of an expression by itself.
    Own(&'a Exp),
    /// The core of an expression against the last type.
    Against(&'a Exp),
    /// A pattern against the last type; its variables come into scope.
    Match(&'a Pat),
    /// Patterns against the types of the last type, a tuple, from a part on; their variables come into scope.
    MatchParts(&'a [Pat], usize),
    /// The last type goes to a new variable.
    Enter(&'a [u8]),
    /// All but the first variables go out of scope.
    Leave(usize),
    /// Two expressions by themselves, of one type: that of the first that isn't open.
    Two(&'a Exp, &'a Exp),
    /// Expressions against the types of the last type, a tuple, from a part on.
    Parts(&'a [Exp], usize),
    /// Expressions against the last type.
    Each(&'a [Exp]),
    /// The types and the cores of expressions by themselves.
    OwnParts(&'a [Exp]),
    /// Expressions by themselves, of one type: that of the first that isn't open.
    OwnEach(&'a [Exp]),
    /// Alternatives of a `case`: their patterns against the last but one type, their bodies against the last one.
    Arms(&'a [(Pat, Exp)]),
    /// Alternatives of a `case` of the last type, their bodies by themselves, of one type: that of the first that isn't open.
    OwnArms(&'a [(Pat, Exp)]),
    /// The place of an element of the last core, a vector.
    Index(&'a Exp),
    /// The place of an element of the last core, a vector, and what is there instead.
    Update(&'a Exp, &'a Exp),
    /// What is done to the types alone.
    Types(TypeTask),
    /// What is done to the cores.
    Cores(CoreTask),
}

/// What is done to the stack of types.
#[derive(Clone, Copy)]
pub enum TypeTask {
    PushBool,
    PushInt32,
    PushNamed(u32),
    /// A part of the last type, a tuple, goes on the stack.
    PushPart(usize),
    /// The type of the elements of the last type, a vector, goes on the stack.
    PushItem,
    /// The last but one type goes on the stack once more.
    RepeatBelow,
    /// The last type goes.
    Pop,
    /// The last but one type goes.
    PopBelow,
    /// The last type must be one of numbers.
    IsNumber,
    /// The operation must compare operands of the last type.
    IsCompared(Op),
    /// The last two types must be the same, and the last one goes.
    IsSame,
}

/// What is done to the stacks of cores, at the last type where the core has a type.
#[derive(Clone, Copy)]
pub enum CoreTask {
    /// `let`, with the last two cores, of which the first is the last variable.
    Binding,
    /// `if`, with the last three cores.
    Branches,
    Both,
    Either,
    Operation(Op),
    Negation,
    Opposite,
    /// From the last type to the one before it.
    Conversion,
    /// An element of a vector of the last but one type, at a place of the last one.
    Element,
    /// A vector of the last type with another element, at a place of the last but one.
    Update,
    RaiseWith(u32),
    /// A call of a function with so many of the last cores.
    Call(u32, usize),
    /// A constructor with so many of the last cores.
    Constructor(u32, usize),
    Tuple(usize),
    Vector(usize),
    /// A tuple of so many of the last cores and of the last types.
    OwnTuple(usize),
    /// A vector of so many of the last cores, with elements of the last type.
    OwnVector(usize),
    /// An alternative of the last pattern and the last core.
    Arm,
    /// A `case` of the last core, which is of the last type, with so many of the last alternatives.
    Alternatives(usize),
    /// A pattern of a constructor with so many of the last patterns.
    SameConstructor(u32, usize),
    /// A pattern of a tuple of so many of the last patterns.
    SameTuple(usize),
    /// The core below so many others goes to the end.
    Lift(usize),
    /// The alternative below so many others goes to the end.
    LiftArm(usize),
}
