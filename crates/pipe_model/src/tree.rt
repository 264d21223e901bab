//! Syntax trees of programs.

ghost use Rattle.std.specs.Prelude.{◌≡◌};
ghost use Rattle.pipe_model.specs.Language.SyntaxTree.{kind_of_stage};

use crate::list::ListOf;
use crate::name::Name;
use crate::node::Kind;

/// An expression. Round brackets leave no trace in it.
#[derive(Drop)]
pub enum Expr {
    Number(i64),
    /// A local or a plain cell.
    Name(Name),
    /// An element of an array.
    Element(Name, Box<Expr>),
    /// A binary operator by its code.
    Binary(u8, Box<Expr>, Box<Expr>),
    /// A unary operator by its code: 1 is the negative, 2 is `!`.
    Unary(u8, Box<Expr>),
    /// Whether an input number is left.
    More,
    /// The next input number.
    Take,
    /// The iteration's number.
    Iter,
}

/// How a statement enters the next stage. Stage 0 begins without a statement, so there is no third
/// kind.
#[derive(Clone, Copy)]
pub enum StageKind {
    /// By `pipe_wait`.
    Wait,
    /// By `pipe_continue`.
    Continue,
}

impl StageKind {
    /// Returns the kind of the stage instance that the statement begins.
    pub fn kind(self) -> Kind
        ensures { result ≡ kind_of_stage self }
    {
        match self {
            StageKind::Wait => Kind::Wait,
            StageKind::Continue => Kind::Continue,
        }
    }
}

/// A statement.
#[derive(Drop)]
#[cycle(tree)]
pub enum Stmt {
    Let(Name, Expr),
    Assign(Name, Expr),
    AssignElement(Name, Expr, Expr),
    Emit(Expr),
    If(Expr, Block, Block),
    While(Expr, Block),
    /// `pipe_wait`, with or without a stage number.
    Wait(Option<Expr>),
    /// `pipe_continue`, with or without a stage number.
    Continue(Option<Expr>),
}

/// Statements in order.
#[derive(Drop)]
#[cycle(tree)]
pub struct Block {
    pub statements: Vec<Stmt>,
}

/// A cell with its declared value, or an array of `size` cells that each have it.
#[derive(Drop)]
pub struct Declaration {
    pub name: Name,
    pub size: Option<i64>,
    pub value: i64,
}

/// The declarations of a program, in order.
pub type Declarations = ListOf<Declaration>;

/// What a program may use. The ranges hold for a program that obeys the rules.
#[derive(Clone, Copy)]
pub struct Limits {
    /// The most iterations of the loop that run its body, 1 to 65,536.
    pub iterations: i64,
    /// The most stage instances of an iteration, 1 to 4,096; times the iterations at most 262,144.
    pub stages: i64,
    /// The most steps of a stage instance, 1 to 1,000,000.
    pub steps: i64,
    /// The most numbers that are emitted, 0 to 1,048,576.
    pub emits: i64,
}

/// A program: what runs before the loop, the loop with its test and body, and what runs after it.
#[derive(Drop)]
pub struct Program {
    pub limits: Limits,
    pub cells: Declarations,
    pub init: Block,
    pub test: Expr,
    pub body: Block,
    pub last: Block,
}
