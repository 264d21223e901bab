//! Programs whose iterations only name stages.

ghost use Rattle.std.specs.Prelude.{◌≡◌, ◌<◌, ◌≤◌, ◌*◌, IfOk, pos};
ghost use Rattle.std.specs.Bool.{OnTrue};
ghost use Rattle.pipe_model.specs.declared.operator_codes.TheConstants as operator_codes;
ghost use Rattle.pipe_model.specs.declared.tree.StageKind.TheVariants as kinds;
ghost use Rattle.pipe_model.specs.Language.SyntaxTree.{Stage, Number, Binary, Iter, statement_of, statements_of, expression_of, tree_of};
ghost use Rattle.schedule_laws.specs.StartCounts.{most_instances};
ghost use Rattle.om_relabel.specs.declared.links.TheConstants.{MOST_ELEMENTS};
ghost use Rattle.book_tests.specs.ScriptPrograms.{IsSmall, tree_of_source, waits_after, waits_of};

use pipe_model::memory::NoMemory;
use pipe_model::operator_codes::LESS;
use pipe_model::tree::{Block, Declarations, Expr, Limits, Program, Stmt};
use std::alloc::Global;

/// A program: how many iterations and stages it may have, how many iterations go through their
/// stages, and whether each of them waits for three stages or for one.
#[derive(Clone, Copy)]
pub struct Source {
    pub iterations: u32,
    pub stages: u32,
    pub turns: u32,
    pub three: bool,
}

impl Source {
    /// Returns for how many stages an iteration waits.
    pub fn waits(&self) -> u32
        ensures { result ≡ waits_of self.now.three }
    {
        if self.three { 3 } else { 1 }
    }

    /// Returns whether a book has room for the program, and its loop is closed before the limit on
    /// iterations.
    pub fn is_small(&self) -> bool
        ensures { OnTrue result (IsSmall self.now) }
    {
        self.turns <= self.iterations
            && self.iterations <= 65_536
            && 0 < self.stages
            && self.stages <= 4
    }

    /// Returns the capacity of a list with room for the starts of all instances.
    pub fn capacity(&self) -> u32
        requires { IsSmall self.now }
        ensures room { 2 * most_instances (tree_of_source self.now) < result }
        ensures bounded { result ≤ MOST_ELEMENTS }
    {
        2 * (self.iterations * self.stages + 1) + 1
    }
}

fn wait(number: i64) -> Stmt
    ensures { statement_of result ≡ Stage kinds.Wait (Number number) }
{
    Stmt::Wait(Some(Expr::Number(number)))
}

fn body(alloc: Global, three: bool) -> Result<Block, NoMemory>
    ensures { IfOk result (λ b. statements_of b.statements.items ≡ waits_after 0 (waits_of three)) }
{
    if three {
        let statements = Vec::from_array(alloc, [wait(1), wait(2), wait(3)])?;
        return Ok(Block { statements });
    }
    let statements = Vec::from_array(alloc, [wait(1)])?;
    Ok(Block { statements })
}

// `iter() < turns`.
fn test(alloc: Global, turns: u32) -> Result<Expr, NoMemory>
    ensures { IfOk result (λ e. expression_of e ≡ Binary operator_codes.LESS Iter (Number (pos turns))) }
{
    let iteration = Box::new(alloc, Expr::Iter)?;
    let limit = Box::new(alloc, Expr::Number(turns as i64))?;
    Ok(Expr::Binary(LESS, iteration, limit))
}

/// Returns the program.
pub fn program(alloc: Global, source: Source) -> Result<Program, NoMemory>
    ensures { IfOk result (λ p. tree_of p ≡ tree_of_source source) }
{
    let test = test(alloc, source.turns)?;
    let body = body(alloc, source.three)?;
    Ok(Program {
        limits: Limits {
            iterations: source.iterations as i64,
            stages: source.stages as i64,
            steps: 10,
            emits: 0,
        },
        cells: Declarations::new(alloc),
        init: Block {
            statements: Vec::new(alloc),
        },
        test,
        body,
        last: Block {
            statements: Vec::new(alloc),
        },
    })
}
