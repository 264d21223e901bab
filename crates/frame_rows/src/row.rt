//! The row of an iteration: its instances, its status, and its token if the book keeps it.

ghost use Rattle.std.specs.Prelude.{◌≡◌, ◌+◌, ◌-◌, ◌<◌, ◌≤◌, ◌^◌, [], ◌∷◌, ◌++◌, length, Some, None, ◌↔◌, IsTrue, IsSome};
ghost use Rattle.std.specs.Prelude.{slice_index_or, pos};
ghost use Rattle.pipe_model.specs.Runs.State.{is_completed};
ghost use Rattle.frame_rows.specs.IterationRows.{RowEndedFirst, empty_row, row_counter, suspended_row, with_instance, with_trace};

use pipe_frame::past::Past;
use pipe_frame::token::FrameToken;
use pipe_frame::trace::Trace;
use pipe_model::marks::Marks;
use pipe_model::node::Kind;
use pipe_model::stage::Counter;
use pipe_model::status::Status;
use std::marker::Model;

/// The row of an iteration, with room for a number of instances. The numbers and marks of its instances
/// lie in `Places`; their traces are not kept, since nobody reads them again. Contracts see all three.
#[derive(Drop)]
pub struct Iteration<M> {
    status: Status,
    // The number of the last instance, or 0.
    last: i64,
    // How many instances have started.
    len: usize,
    room: usize,
    numbers: Past<i64>,
    marks: Past<Marks>,
    traces: Past<Trace>,
    token: Option<FrameToken<M>>,
}

impl<M> Model for Iteration<M> {
    ghost use Rattle.std.specs.Prelude.{◌≡◌, ◌-◌, length, pos, slice_index_or};
    ghost use Rattle.frame_rows.specs.IterationRows.{IterationRow};

    ghost Value = { IterationRow M };

    ghost view = { λ i. record {
      numbers = i.numbers;
      marks = i.marks;
      traces = i.traces;
      status = i.status;
      token = i.token;
      room = i.room;
    } };

    ghost invariant = { λ i. (i.len ≡ length i.numbers) × (i.last ≡ slice_index_or i.numbers (length i.numbers - 1) (pos 0)) };
}

impl<M> Iteration<M> {
    /// Returns the row of an iteration that has not begun.
    pub fn new(room: usize) -> Iteration<M>
        ensures { result ≡ empty_row room }
    {
        Iteration {
            status: Status::Running,
            last: 0,
            len: 0,
            room,
            numbers: Past::new(),
            marks: Past::new(),
            traces: Past::new(),
            token: None,
        }
    }

    /// Returns how many instances have started.
    pub fn len(&self) -> usize
        ensures { result ≡ length self.now.numbers }
    {
        self.len
    }

    /// Adds an instance, which runs.
    pub fn enter(&mut self, number: i64, marks: Marks)
        requires { length self.old.numbers < self.old.room }
        ensures { self.new ≡ with_instance number marks self.old }
    {
        self.numbers.note(&number);
        self.marks.note(&marks);
        self.len += 1;
        self.last = number;
        self.status = Status::Running;
    }

    /// Adds the trace of the running instance, and sets the status.
    pub fn end(&mut self, trace: Trace, status: Status)
        ensures { self.new ≡ with_trace trace status self.old }
    {
        self.traces.note(&trace);
        self.status = status;
    }

    /// Adds the trace of the running instance, names the next stage, and keeps the token.
    pub fn suspend(&mut self, trace: Trace, kind: Kind, number: i64, token: FrameToken<M>)
    where
        M: Drop,
        ensures { self.new ≡ suspended_row trace kind number token self.old }
    {
        self.traces.note(&trace);
        self.status = Status::Pending(kind, number);
        self.token = Some(token);
    }

    /// Keeps the token.
    pub fn keep(&mut self, token: FrameToken<M>)
    where
        M: Drop,
        ensures { self.new ≡ record self.old { token = Some token } }
    {
        self.token = Some(token);
    }

    /// Takes the token, if it is kept.
    pub fn take_token(&mut self) -> Option<FrameToken<M>>
        ensures token { result ≡ self.old.token }
        ensures row { self.new ≡ record self.old { token = None } }
    {
        self.token.take()
    }

    /// Returns the status.
    pub fn status(&self) -> Status
        ensures { result ≡ self.now.status }
    {
        self.status
    }

    /// Returns whether the token is kept.
    pub fn has_token(&self) -> bool
        ensures { IsTrue result ↔ IsSome self.now.token }
    {
        self.token.is_some()
    }

    /// Returns whether the iteration has ended.
    pub fn has_ended(&self) -> bool
        ensures { result ≡ is_completed self.now.status }
    {
        match self.status {
            Status::Running => false,
            Status::Pending(_, _) => false,
            Status::Completed(_) => true,
        }
    }

    /// Returns the stage counter.
    pub fn counter(&self) -> Counter
        ensures { result ≡ row_counter self.now.status self.now.numbers }
    {
        match self.status {
            Status::Running => Counter::At(self.last),
            Status::Pending(_, number) => Counter::At(number),
            Status::Completed(_) => Counter::Ended,
        }
    }

    /// Returns whether instance 0 has ended.
    pub fn has_ended_first(&self) -> bool
        ensures { IsTrue result ↔ RowEndedFirst self.now.status self.now.numbers }
    {
        match self.status {
            Status::Running => self.len > 1,
            Status::Pending(_, _) => true,
            Status::Completed(_) => true,
        }
    }
}
