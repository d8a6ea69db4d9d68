ghost use Rattle.std.specs.Prelude.{◌≡◌, ◌+◌, ◌<◌, ◌∷◌, ◌++◌, [], ℕ, max, nat_le, IfOk, IsTrue, Some, None};
ghost use Rattle.hume_ast.specs.Depth.{exp_depth};
ghost use Rattle.hume_ast.specs.declared.tree.Exp.{roll-Exp, Let, If, Case, Raise, Binary, Neg, Not, Update, Cast, Vect, Star};
ghost use Rattle.parse_expressions.specs.inner.Measures.{counted, parts_depth, alternatives_depth};
ghost use Rattle.parse_expressions.specs.inner.Parts.{in_list, call_of};

use hume_ast::{BinOp, Exp, Pat, TyExp};
use hume_base::{Box, List, Text};
use std::alloc::{AllocError, Global};

/// An expression, and how deep it is. It stands behind a pointer, so that one call drops it where a reader stops:
/// the forms of expressions are no part of the proofs there.
#[derive(Drop)]
pub struct Tree {
    pub exp: Box<Exp>,
    pub depth: u32,
    ghost counts: { depth ≡ counted (exp_depth exp) },
}

/// Expressions, and how deep the deepest is.
#[derive(Drop)]
pub struct Trees {
    pub items: List<Exp>,
    pub depth: u32,
    ghost counts: { depth ≡ counted (parts_depth items) },
}

/// Alternatives of a `case`, and how deep their deepest expression is.
#[derive(Drop)]
pub struct Alternatives {
    pub items: List<(Pat, Exp)>,
    pub depth: u32,
    ghost counts: { depth ≡ counted (alternatives_depth items) },
}

/// A name that arguments may stand behind.
#[derive(Drop)]
pub enum Head {
    Function(Text),
    Constructor(Text),
}

fn one_deeper(depth: u32) -> u32
    ensures { (n : ℕ) → depth ≡ counted n → result ≡ counted (1 + n) }
{
    if depth < u32::MAX { depth + 1 } else { depth }
}

fn deeper(first: u32, second: u32) -> u32
    ensures { (m n : ℕ) → first ≡ counted m → second ≡ counted n → result ≡ counted (max m n) }
{
    first.max(second)
}

impl Tree {
    /// An expression with no expression in it.
    pub fn leaf(alloc: Global, exp: Exp) -> Result<Tree, AllocError>
        requires { exp_depth exp ≡ 1 }
        ensures { IfOk result (λ made. made.exp ≡ exp) }
    {
        Tree::with_depth(alloc, exp, 1)
    }

    fn with_depth(alloc: Global, exp: Exp, depth: u32) -> Result<Tree, AllocError>
        requires { depth ≡ counted (exp_depth exp) }
        ensures { IfOk result (λ made. made.exp ≡ exp) }
    {
        let exp = Box::new(alloc, exp)?;
        Ok(Tree { exp, depth })
    }

    /// Whether it may be a part where parts are at most so deep.
    pub fn leaves_room(&self, room: u32) -> bool
        requires { room < 4294967295 }
        ensures is { result ≡ nat_le (exp_depth self.now.exp) room }
        ensures some { IsTrue result → 0 < room }
    {
        self.depth <= room
    }
}

impl Trees {
    pub fn new(alloc: Global) -> Trees
        ensures { result.items ≡ [] }
    {
        Trees {
            items: List::new(alloc),
            depth: 0,
        }
    }

    /// With one more at the end.
    pub fn with(self, tree: Tree) -> Result<Trees, AllocError>
        ensures { IfOk result (λ trees. trees.items ≡ self.items ++ tree.exp ∷ []) }
    {
        let Trees { mut items, depth } = self;
        let Tree { exp, depth: other } = tree;
        items.push(exp.into_inner())?;
        Ok(Trees {
            items,
            depth: deeper(depth, other),
        })
    }
}

impl Alternatives {
    pub fn new(alloc: Global) -> Alternatives
        ensures { result.items ≡ [] }
    {
        Alternatives {
            items: List::new(alloc),
            depth: 0,
        }
    }

    /// With one more at the end.
    pub fn with(self, pattern: Pat, tree: Tree) -> Result<Alternatives, AllocError>
        ensures { IfOk result (λ alternatives. alternatives.items ≡ self.items ++ (pattern, tree.exp) ∷ []) }
    {
        let Alternatives { mut items, depth } = self;
        let Tree { exp, depth: other } = tree;
        items.push((pattern, exp.into_inner()))?;
        Ok(Alternatives {
            items,
            depth: deeper(depth, other),
        })
    }
}

/// `let name = value in body`.
pub fn let_tree(alloc: Global, name: Text, value: Tree, body: Tree) -> Result<Tree, AllocError>
    ensures { IfOk result (λ made. made.exp ≡ Let name value.exp body.exp) }
{
    let depth = one_deeper(deeper(value.depth, body.depth));
    Tree::with_depth(alloc, Exp::Let(name, value.exp, body.exp), depth)
}

/// `if test then first else second`.
pub fn if_tree(alloc: Global, test: Tree, first: Tree, second: Tree) -> Result<Tree, AllocError>
    ensures { IfOk result (λ made. made.exp ≡ If test.exp first.exp second.exp) }
{
    let depth = one_deeper(deeper(test.depth, deeper(first.depth, second.depth)));
    Tree::with_depth(alloc, Exp::If(test.exp, first.exp, second.exp), depth)
}

/// `case subject of` the alternatives.
pub fn case_tree(alloc: Global, subject: Tree, found: Alternatives) -> Result<Tree, AllocError>
    ensures { IfOk result (λ made. made.exp ≡ Case subject.exp found.items) }
{
    let depth = one_deeper(deeper(subject.depth, found.depth));
    Tree::with_depth(alloc, Exp::Case(subject.exp, found.items), depth)
}

/// `raise name`.
pub fn bare_raise_tree(alloc: Global, name: Text) -> Result<Tree, AllocError>
    ensures { IfOk result (λ made. made.exp ≡ Raise name None) }
{
    Tree::leaf(alloc, Exp::Raise(name, None))
}

/// `raise name value`.
pub fn raise_tree(alloc: Global, name: Text, value: Tree) -> Result<Tree, AllocError>
    ensures { IfOk result (λ made. made.exp ≡ Raise name (Some value.exp)) }
{
    let depth = one_deeper(value.depth);
    Tree::with_depth(alloc, Exp::Raise(name, Some(value.exp)), depth)
}

/// Two parts with an operator between them.
pub fn binary_tree(
    alloc: Global,
    operator: BinOp,
    left: Tree,
    right: Tree,
) -> Result<Tree, AllocError>
    ensures { IfOk result (λ made. made.exp ≡ Binary operator left.exp right.exp) }
{
    let depth = one_deeper(deeper(left.depth, right.depth));
    Tree::with_depth(alloc, Exp::Binary(operator, left.exp, right.exp), depth)
}

/// A part behind a minus.
pub fn neg_tree(alloc: Global, part: Tree) -> Result<Tree, AllocError>
    ensures { IfOk result (λ made. made.exp ≡ Neg part.exp) }
{
    let depth = one_deeper(part.depth);
    Tree::with_depth(alloc, Exp::Neg(part.exp), depth)
}

/// A part behind `not`.
pub fn not_tree(alloc: Global, part: Tree) -> Result<Tree, AllocError>
    ensures { IfOk result (λ made. made.exp ≡ Not part.exp) }
{
    let depth = one_deeper(part.depth);
    Tree::with_depth(alloc, Exp::Not(part.exp), depth)
}

/// `*`.
pub fn star_tree(alloc: Global) -> Result<Tree, AllocError>
    ensures { IfOk result (λ made. made.exp ≡ Star) }
{
    Tree::leaf(alloc, Exp::Star)
}

/// A name with its arguments.
pub fn call_tree(alloc: Global, head: Head, arguments: Trees) -> Result<Tree, AllocError>
    ensures { IfOk result (λ made. made.exp ≡ roll-Exp (call_of head arguments.items)) }
{
    let depth = one_deeper(arguments.depth);
    match head {
        Head::Function(name) => Tree::with_depth(alloc, Exp::App(name, arguments.items), depth),
        Head::Constructor(name) => Tree::with_depth(alloc, Exp::Con(name, arguments.items), depth),
    }
}

/// `update vector at item`.
pub fn update_tree(alloc: Global, vector: Tree, at: Tree, item: Tree) -> Result<Tree, AllocError>
    ensures { IfOk result (λ made. made.exp ≡ Update vector.exp at.exp item.exp) }
{
    let depth = one_deeper(deeper(vector.depth, deeper(at.depth, item.depth)));
    Tree::with_depth(alloc, Exp::Update(vector.exp, at.exp, item.exp), depth)
}

/// `(inner as type)`.
pub fn cast_tree(alloc: Global, inner: Tree, type_exp: TyExp) -> Result<Tree, AllocError>
    ensures { IfOk result (λ made. made.exp ≡ Cast inner.exp type_exp) }
{
    let depth = one_deeper(inner.depth);
    Tree::with_depth(alloc, Exp::Cast(inner.exp, type_exp), depth)
}

/// A vector of the items.
pub fn vect_tree(alloc: Global, items: Trees) -> Result<Tree, AllocError>
    ensures { IfOk result (λ made. made.exp ≡ Vect items.items) }
{
    let depth = one_deeper(items.depth);
    Tree::with_depth(alloc, Exp::Vect(items.items), depth)
}

/// One expression in parentheses, or a tuple.
pub fn parens_tree(alloc: Global, parts: Trees) -> Result<Tree, AllocError>
    ensures { IfOk result (λ made. made.exp ≡ roll-Exp (in_list parts.items)) }
{
    let depth = one_deeper(parts.depth);
    let exp = in_parens(alloc, parts.items)?;
    Tree::with_depth(alloc, exp, depth)
}

fn in_parens(alloc: Global, parts: List<Exp>) -> Result<Exp, AllocError>
    ensures { IfOk result (λ made. made ≡ roll-Exp (in_list parts)) }
{
    let mut parts = parts;
    if parts.len() == 1
        && let Some(first) = parts.take_first()
    {
        return Ok(Exp::Paren(Box::new(alloc, first)?));
    }
    Ok(Exp::Tuple(parts))
}
