//! Expressions as they are written, each with the line of its first token. Lines count from 1.

use kripke_model::Name;

/// An operator between two operands, as `->`, `|` or `mod`. McMillan's SMV manual has them all.
#[derive(Clone, Copy)]
pub enum BinaryOperator {
    Implies,
    Iff,
    Or,
    And,
    Equal,
    Less,
    Greater,
    LessOrEqual,
    GreaterOrEqual,
    In,
    Union,
    Mod,
    Add,
    Subtract,
    Multiply,
    Divide,
}

/// An operator in front of its operand: `!`, or a path operator of CTL with one operand, as `EX` or `AG`.
#[derive(Clone, Copy)]
pub enum PrefixOperator {
    Not,
    ExistsNext,
    AllNext,
    ExistsFinally,
    AllFinally,
    ExistsGlobally,
    AllGlobally,
}

/// The `E` or `A` of an until: some fair path, or every one.
#[derive(Clone, Copy)]
pub enum PathQuantifier {
    Exists,
    All,
}

/// An expression.
#[derive(Drop)]
#[cycle(expr)]
pub struct Expr {
    pub kind: ExprKind,
    /// The line of its first token, which for a binary operator is that of the left operand.
    pub line: u32,
}

/// What an expression is.
#[derive(Drop)]
#[cycle(expr)]
pub enum ExprKind {
    /// From 0 to 2,147,483,647.
    Number(u32),
    /// `TRUE` or `FALSE`.
    Truth(bool),
    Running,
    Path(Path),
    /// `next ( .. )`
    Next(Box<Expr>),
    /// `( .. )`
    Parens(Box<Expr>),
    /// `{ .. }`, of at least one expression.
    Braces(Vec<Expr>),
    /// `case .. esac`, of at least one arm.
    Case(Vec<Arm>),
    /// `E [ .. U .. ]` or `A [ .. U .. ]`
    Until(PathQuantifier, Box<Expr>, Box<Expr>),
    Prefix(PrefixOperator, Box<Expr>),
    Binary(BinaryOperator, Box<Expr>, Box<Expr>),
}

/// One `guard : right ;` of a `case`. It begins where its guard does.
#[derive(Drop)]
#[cycle(expr)]
pub struct Arm {
    pub guard: Expr,
    pub right: Expr,
}

/// A name with what follows it, as `a.b[3]`.
#[derive(Drop)]
#[cycle(expr)]
pub struct Path {
    pub first: Name,
    pub parts: Vec<PathPart>,
    /// The line of the first name.
    pub line: u32,
}

/// What may follow the first name of a path.
#[derive(Drop)]
#[cycle(expr)]
pub enum PathPart {
    /// `.name`
    Field(Name),
    /// `[ .. ]`
    Index(Expr),
}
