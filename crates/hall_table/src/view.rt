//! What a seat knows. No value of it is made.

ghost use Rattle.pipe_model.specs.contracts.tree.Expr as expr;
ghost use Rattle.pipe_model.specs.contracts.tree.Stmt as stmt;
ghost use Rattle.std.specs.Coded.{codes};
ghost use Rattle.hall_table.specs.SeatViews.{SeatView};

use std::marker::Model;

/// What a seat of a hall knows.
pub struct View {
    pub ghost it: { SeatView } by { Prim.hlevel (codes, expr.the_row.coded, stmt.the_row.coded) },
}

impl Model for View {
    ghost use Rattle.std.specs.Borrow.{ftrue};

    ghost also_owns = { λ _. ftrue };
}
