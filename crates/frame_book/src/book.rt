//! The book, and its calls.

ghost use Rattle.std.specs.Prelude.{◌≡◌, ◌≢◌, ◌↔◌, ◌+◌, ◌-◌, ◌*◌, ◌<◌, ◌≤◌, ◌^◌, [], ◌∷◌, ◌++◌, true, false, IsTrue, None, cond, ◌||◌};
ghost use Rattle.std.specs.Prelude.{length, All, IfNone, IfOk, IfSome, ℕ};
ghost use Rattle.pipe_model.specs.Runs.Allowed.{IsRunning, LeftHasPassed, MayBegin, MayEnter};
ghost use Rattle.pipe_model.specs.Runs.Run.{IsFinished};
ghost use Rattle.pipe_model.specs.Pipelines.Behaviour.{Performs, Staged, Ended, closes_at_once};
ghost use Rattle.pipe_model.specs.Races.Columns.{nodes_at};
ghost use Rattle.pipe_model.specs.Runs.ControlRun.{ControlRun};
ghost use Rattle.pipe_model.specs.Runs.RunLogs.{columns_after};
ghost use Rattle.pipe_model.specs.Orders.Starts.{starts_of};
ghost use Rattle.pipe_model.specs.Orders.TwoOrders.{down_first_log, right_first_log};
ghost use Rattle.pipe_model.specs.Orders.OrderList.{IsLog};
ghost use Rattle.pipe_model.specs.Runs.State.{own_columns};
ghost use Rattle.pipe_model.specs.Language.SyntaxTree.{tree_of};
ghost use Rattle.pipe_model.specs.declared.event.Event.TheVariants as events;
ghost use Rattle.pipe_model.specs.Runs.State.{frame_at};
ghost use Rattle.pipe_frame.specs.CallResults.{resume_events, BeginReturns, AdvanceReturns, NameReturns, EnterReturns, RescueReturns};
ghost use Rattle.pipe_frame.specs.CallResults.{CanGoOn, StartsNothing};
ghost use Rattle.pipe_frame.specs.StageEndCases.{NamesNextStage};
ghost use Rattle.pipe_frame.specs.Ties.{KnowsMarks, BelongsTo};
ghost use Rattle.pipe_frame.specs.TokenFields.{fields_of};
ghost use Rattle.pipe_frame.specs.ResultTokens.{IfStarted, IfGo, IfNothing, IfToken};
ghost use Rattle.frame_book.specs.BookStates.{HasRisingTickets, actions_at, events_of, state_of, with_events, with_last_raised, left_of};
ghost use Rattle.frame_book.specs.BookStates.{pipeline_in, replies_at, item_or, last_ticket, IsOut, Spent};
ghost use Rattle.pipe_frame.specs.Replies.{IsPerformed, accessed, replies_of};
ghost use Rattle.order_2d.specs.SeenOrders.{AreOfLists, AreSameLists, HasSeen};
ghost use Rattle.frame_book.specs.NewBooks.{IsPlannedProgram, new_book};
ghost use Rattle.schedule_laws.specs.StartCounts.{most_instances};
ghost use Rattle.frame_book.specs.CallEffects.{identities_of_orders, after_stop, after_begin, with_named, with_finished, with_held};
ghost use Rattle.frame_book.specs.CallEffects.{with_entered, after_enter, after_advance, folded_after, after_name_next, after_rescue};
ghost use Rattle.frame_book.specs.CallEffects.{with_passed, with_resumed, after_leave_ready, IsReady, kept_folded};
ghost use Rattle.frame_rows.specs.NamedStages.{stage_end};
ghost use Rattle.frame_book.specs.GivenTokens.{IsGivenBeside, IsGivenBy, IsOutOf, IsPayloadOf};

use crate::ledger::Tickets;
use crate::payload::Payload;
use crate::rooms::rooms_for;
use crate::start::{left_place, start_below, start_head};
use dep_fold::folded::Folded;
use frame_rows::course::{Course, course_after};
use frame_rows::folding::{count_of, fold_left, lets_enter, needs_left};
use frame_rows::places::Places;
use frame_rows::row::Iteration;
use frame_rows::rows::{drop_ended, first_to_go_on, last_has_ended_first, may_enter};
use om_shared::writer::OmWriter;
use order_2d::list_writer::ListWriter;
use order_2d::two_orders::TwoOrders;
use order_2d::two_passes::TwoPasses;
use pipe_frame::results::{Begun, Named, Next, Rescue};
use pipe_frame::token::FrameToken;
use pipe_frame::trace::Trace;
use pipe_model::column::ColumnEnd;
use pipe_model::event::Event;
use pipe_model::list::Numbers;
use pipe_model::memory::NoMemory;
use pipe_model::node::Kind;
use pipe_model::stage::StageEnd;
use pipe_model::status::Status;
use pipe_model::ticket::{BookEntry, BookLog};
use pipe_model::tree::Program;
use program_copy::copy::{copy_numbers, copy_program};
use std::alloc::Global;
use std::marker::Model;
use throttle::pool::Pool;

/// The scheduler's state in a run of a program. Contracts see the program, the input and the
/// throttling limit, the identities of the order lists, the log of its events, for each iteration the
/// traces of the instances that have ended and where its token is, and how often a left counter was
/// read. Only `new` allocates.
///
/// The ticket of an event is one more than the greater of the book's last ticket and the token's.
/// A token that a call returns is that of a running instance, at whose start its payload is. Its ticket
/// is that of the event that the call made; one that was left ready comes back with all its fields.
#[derive(Drop)]
pub struct Book<M: Payload<L>, L: ListWriter + Drop> {
    // What each call changes comes first, close together: with several threads each of its cache lines
    // comes from the thread that called before.
    ledger: Tickets,
    reads: u64,
    closed: bool,
    stopped: bool,
    orders: TwoOrders<L>,
    rows: Vec<Iteration<M>>,
    places: Places,
    // In order. Some may have ended; `rescue` drops those.
    alive: Vec<u32>,
    pool: Pool<M>,
    throttle: u32,
    program: Program,
    input: Numbers,
}

impl<M: Payload<L>, L: ListWriter + Drop> Model for Book<M, L> {
    ghost use Rattle.pipe_model.specs.contracts.tree.Expr as expr;
    ghost use Rattle.pipe_model.specs.contracts.tree.Stmt as stmt;
    ghost use Rattle.std.specs.Coded.{codes};
    ghost use Rattle.frame_book.specs.BookStates.{BookState};

    ghost Value = { BookState };

    ghost coded = { Prim.hlevel (codes, expr.the_row.coded, stmt.the_row.coded) };

    ghost use Rattle.frame_book.specs.Tables.{book_state};
    ghost use Rattle.frame_book.specs.BookTables.{tables_of};
    ghost use Rattle.frame_book.specs.Invariant.{IsBook};
    ghost use Rattle.frame_rows.specs.AliveLists.{HasAliveList};
    ghost use Rattle.frame_rows.specs.Places.{HoldsRows, spare_rows};
    ghost use Rattle.std.specs.Prelude.{vec_capacity};

    ghost view = { λ b. book_state (tables_of b) };

    ghost invariant = { λ b. IsBook M.whole M.ready_at M.tie (tables_of b) × HasAliveList b.rows.items (spare_rows b.places.spare)
        b.alive.items (vec_capacity b.alive) × HoldsRows b.rows.items b.places };
}

impl<M: Payload<L>, L: ListWriter + Drop> Book<M, L> {
    /// Returns a book without events of a program and its input, of which it keeps copies. At most
    /// `throttle` iterations may be alive, each with one of the payloads. There must be room for every
    /// instance of the program in the two lists, which must be empty, and for each iteration in the
    /// book, as there is for every program that breaks no rule. Returns an error only if memory runs
    /// out.
    pub fn new(
        alloc: Global,
        program: &Program,
        input: &Numbers,
        throttle: u32,
        payloads: Vec<M>,
        orders: TwoOrders<L>,
    ) -> Result<Book<M, L>, NoMemory>
        requires planned { IsPlannedProgram (tree_of program.now) input.now }
        requires throttle { 0 < throttle }
        requires payloads { length payloads.items ≡ throttle }
        requires whole { All (λ m. M.whole (tree_of program.now) m × BelongsTo (M.tie m) (identities_of_orders orders)) payloads.items }
        requires started { (orders.down.log ≡ []) × (orders.right.log ≡ []) }
        requires room { (2 * most_instances (tree_of program.now) < orders.down.capacity)
            × (2 * most_instances (tree_of program.now) < orders.right.capacity) }
        ensures tree { IfOk result (λ book. tree_of book.program ≡ tree_of program.now) }
        ensures book { IfOk result (λ book. book ≡ new_book book.program input.now throttle (identities_of_orders orders)) }
    {
        match copies(alloc, program, input) {
            Ok((program, input)) => Book::opened(alloc, program, input, throttle, payloads, orders),
            Err(refused) => {
                drop(payloads);
                drop(orders);
                Err(refused)
            }
        }
    }

    // The same, with the program and the input themselves.
    fn opened(
        alloc: Global,
        program: Program,
        input: Numbers,
        throttle: u32,
        payloads: Vec<M>,
        orders: TwoOrders<L>,
    ) -> Result<Book<M, L>, NoMemory>
        requires planned { IsPlannedProgram (tree_of program) input }
        requires throttle { 0 < throttle }
        requires payloads { length payloads.items ≡ throttle }
        requires whole { All (λ m. M.whole (tree_of program) m × BelongsTo (M.tie m) (identities_of_orders orders)) payloads.items }
        requires started { (orders.down.log ≡ []) × (orders.right.log ≡ []) }
        requires room { (2 * most_instances (tree_of program) < orders.down.capacity)
            × (2 * most_instances (tree_of program) < orders.right.capacity) }
        ensures { IfOk result (λ book. book ≡ new_book program input throttle (identities_of_orders orders)) }
    {
        match rooms_for(alloc, program.limits) {
            Ok(rooms) => Ok(Book {
                program,
                input,
                throttle,
                rows: rooms.rows,
                places: rooms.places,
                alive: rooms.alive,
                pool: Pool::new(payloads),
                orders,
                ledger: rooms.ledger,
                closed: false,
                stopped: false,
                reads: 0,
            }),
            Err(_) => {
                drop(program);
                drop(input);
                drop(payloads);
                drop(orders);
                Err(NoMemory)
            }
        }
    }

    /// Returns whether the run was stopped.
    pub fn is_stopped(&self) -> bool
        ensures { result ≡ (state_of self.now).stopped }
    {
        self.stopped
    }

    /// Returns how often `advance` has read the stage counter of a left neighbour.
    pub fn reads(&self) -> u64
        ensures { result ≡ self.now.reads }
    {
        self.reads
    }

    /// Returns the two order lists, which the starts in the log have made.
    pub fn orders(&self) -> &TwoOrders<L>
        ensures down { result.now.down.log ≡ down_first_log (starts_of (events_of self.now.log)) }
        ensures right { result.now.right.log ≡ right_first_log (columns_after (events_of self.now.log))
            (starts_of (events_of self.now.log)) }
        ensures lists { identities_of_orders result.now ≡ self.now.lists }
    {
        &self.orders
    }

    /// Returns the log so far. Its events are a run of the control part, its tickets rise, and each
    /// iteration has done what its program does. If the run was not stopped, a token that is out is
    /// that of a running instance.
    pub fn entries(&self) -> &[BookEntry]
        ensures log { result.now ≡ self.now.log }
        ensures rise { HasRisingTickets result.now }
        ensures control { ControlRun self.now.limit (events_of self.now.log) (state_of self.now) }
        ensures performs { (i : ℕ) → Performs ((pipeline_in self.now).behaviour i) (actions_at self.now i) }
        ensures out { (state_of self.now).stopped ≡ false → (i : ℕ) → IsOut self.now i → IsRunning (state_of self.now) i }
    {
        self.ledger.entries()
    }

    /// Returns the log, with the facts of `entries`.
    pub fn into_log(self) -> BookLog
        ensures log { result ≡ self.log }
        ensures rise { HasRisingTickets result }
        ensures control { ControlRun self.limit (events_of self.log) (state_of self) }
        ensures performs { (i : ℕ) → Performs ((pipeline_in self).behaviour i) (actions_at self i) }
        ensures out { (state_of self).stopped ≡ false → (i : ℕ) → IsOut self i → IsRunning (state_of self) i }
    {
        let Book {
            program,
            input,
            rows,
            places,
            alive,
            pool,
            orders,
            ledger,
            ..
        } = self;
        drop(program);
        drop(input);
        drop(rows);
        drop(places);
        drop(alive);
        drop(pool);
        drop(orders);
        ledger.into_log()
    }

    /// Stops the run: the event `Stop`, if it was not stopped before.
    pub fn stop(&mut self)
        ensures { self.new ≡ after_stop self.old }
    {
        if !self.stopped {
            self.ledger.stamp(0, Event::Stop);
            self.stopped = true;
        }
    }

    /// Begins the next iteration: the event `Begin` and the token of its instance 0. Otherwise returns
    /// the first that holds: the run was stopped; the loop is closed; instance 0 of the last iteration
    /// has not ended; as many iterations are alive as the throttling limit allows.
    pub fn begin(&mut self) -> Begun<M>
        ensures returned { BeginReturns self.old.limit (state_of self.old) result }
        ensures book { self.new ≡ after_begin self.old result }
        ensures token { IfStarted result (IsGivenBy M.ready_at M.tie self.new) }
        ensures now { IfStarted result (λ t. t.now ≡ last_ticket self.new.log) }
        ensures folded { IfStarted result (λ t. t.folded ≡ None) }
    {
        if self.stopped {
            return Begun::Stopped;
        }
        if self.closed {
            return Begun::Closed;
        }
        if !last_has_ended_first(self.rows.as_slice()) {
            return Begun::NotYet;
        }
        let Some(mut payload) = self.pool.take() else {
            return Begun::Throttled;
        };
        let iteration = self.rows.len() as u32;
        payload.begin(iteration);
        let marks = start_head(
            self.rows.as_slice(),
            &self.places,
            &mut self.orders,
            &mut payload,
        );
        let now = self.ledger.stamp(0, Event::Begin(iteration));
        let mut row = Iteration::new(self.places.add_row());
        self.places.put(iteration, 0, 0, marks);
        row.enter(0, marks);
        self.rows.push_reserved(row);
        self.alive.push_reserved(iteration);
        Begun::Started(FrameToken {
            iteration,
            index: 0,
            now,
            joined: 0,
            folded: Folded::new(),
            marks,
            payload,
        })
    }

    // The event `Advance` of the token's instance; keeps the token.
    fn name(&mut self, mut token: FrameToken<M>, kind: Kind, number: i64, trace: Trace)
        requires going { (state_of self.old).stopped ≡ false }
        requires out { IsOutOf self.old (fields_of token) }
        requires performs { Performs (left_of self.old token.iteration) (accessed trace ++ Staged kind number ∷ []) }
        requires payload { IsPayloadOf M.ready_at M.tie self.old token.iteration
            (replies_at self.old token.iteration ++ replies_of trace ∷ []) token.payload }
        ensures { self.new ≡ with_named self.old (fields_of token) (events.Advance token.iteration kind number) trace }
    {
        let iteration = token.iteration;
        token.now = self
            .ledger
            .stamp(token.now, Event::Advance(iteration, kind, number));
        let row = &mut self.rows[iteration as usize];
        row.suspend(trace, kind, number, token);
    }

    // The event `Finish` of the token's instance; puts the payload into the pool.
    fn finish(&mut self, token: FrameToken<M>, end: ColumnEnd, trace: Trace)
        requires going { (state_of self.old).stopped ≡ false }
        requires out { IsOutOf self.old (fields_of token) }
        requires performs { Performs (left_of self.old token.iteration) (accessed trace ++ Ended end ∷ []) }
        requires whole { M.whole (tree_of self.old.program) token.payload }
        requires belongs { BelongsTo (M.tie token.payload) self.old.lists }
        ensures { self.new ≡ with_finished self.old (fields_of token) (events.Finish token.iteration end) trace }
    {
        let iteration = token.iteration;
        let shut = closes(end, token.index);
        self.ledger.stamp(token.now, Event::Finish(iteration, end));
        let row = &mut self.rows[iteration as usize];
        row.end(trace, Status::Completed(end));
        self.closed = either(self.closed, shut);
        self.pool.give(token.payload);
    }

    // Keeps the token and the trace of an instance that was stopped.
    fn hold(&mut self, token: FrameToken<M>, trace: Trace)
        requires stopped { (state_of self.old).stopped ≡ true }
        requires out { IsOutOf self.old (fields_of token) }
        requires performs { Performs (left_of self.old token.iteration) (accessed trace) }
        ensures { self.new ≡ with_held self.old (fields_of token) trace }
    {
        let row = &mut self.rows[token.iteration as usize];
        row.end(trace, Status::Running);
        row.keep(token);
    }

    // The events `Advance` and `Enter` of the token's instance, whose iteration may enter the stage that it
    // names, and the token of the next instance; counts the left counter if it was `read`. The token does
    // not lie in the row in between, and what is read comes before what changes, so that a processor can
    // fetch the cache lines of other threads all at the same time.
    fn enter_next(
        &mut self,
        mut token: FrameToken<M>,
        kind: Kind,
        number: i64,
        trace: Trace,
        read: bool,
    ) -> FrameToken<M>
        requires going { (state_of self.old).stopped ≡ false }
        requires out { IsOutOf self.old (fields_of token) }
        requires performs { Performs (left_of self.old token.iteration) (accessed trace ++ Staged kind number ∷ []) }
        requires payload { IsPayloadOf M.ready_at M.tie self.old token.iteration
            (replies_at self.old token.iteration ++ replies_of trace ∷ []) token.payload }
        requires free { kind ≡ Kind.Wait → LeftHasPassed (state_of self.old).frames token.iteration number }
        ensures book { self.new ≡ with_passed self.old (fields_of token) kind number trace read }
        ensures instance { (result.iteration ≡ token.iteration) × (result.index ≡ token.index + 1) }
        ensures folded { result.folded ≡ token.folded }
        ensures now { result.now ≡ last_ticket self.new.log }
        ensures token { IsGivenBy M.ready_at M.tie self.new result }
    {
        let iteration = token.iteration;
        let row = &mut self.rows[iteration as usize];
        row.end(trace, Status::Pending(kind, number));
        let rows = self.rows.as_slice();
        let left = left_place(rows, &self.places, iteration, kind, number, token.joined);
        let marks = start_below(
            rows,
            &self.places,
            &mut self.orders,
            &mut token.payload,
            iteration,
            token.index,
            left,
        );
        let advance = Event::Advance(iteration, kind, number);
        let named = self.ledger.stamp(token.now, advance);
        let index = token.index + 1;
        let joined = left.unwrap_or(token.joined);
        token.now = self.ledger.stamp(named, Event::Enter(iteration));
        token.index = index;
        token.joined = joined;
        token.marks = marks;
        self.places.put(iteration, index as usize, number, marks);
        let row = &mut self.rows[iteration as usize];
        row.enter(number, marks);
        let counted = count_of(read);
        self.reads += counted;
        token
    }

    // The event `Enter` of an iteration that may enter the stage that it has named, and its token.
    fn enter_named(&mut self, iteration: u32) -> FrameToken<M>
        requires going { (state_of self.old).stopped ≡ false }
        requires may { MayEnter (state_of self.old) iteration }
        ensures book { self.new ≡ with_entered self.old iteration }
        ensures instance { (result.iteration ≡ iteration) × (result.index ≡ length (nodes_at (own_columns (state_of self.old)) iteration)) }
        ensures folded { result.folded ≡ kept_folded (item_or Spent self.old.tokens iteration) }
        ensures now { result.now ≡ last_ticket self.new.log }
        ensures token { IsGivenBy M.ready_at M.tie self.new result }
    {
        let row = &mut self.rows[iteration as usize];
        let Some(mut token) = row.take_token() else {
            unreachable!()
        };
        let Status::Pending(kind, number) = row.status() else {
            unreachable!()
        };
        let left = left_place(
            self.rows.as_slice(),
            &self.places,
            iteration,
            kind,
            number,
            token.joined,
        );
        let marks = start_below(
            self.rows.as_slice(),
            &self.places,
            &mut self.orders,
            &mut token.payload,
            iteration,
            token.index,
            left,
        );
        token.now = self.ledger.stamp(token.now, Event::Enter(iteration));
        token.index += 1;
        token.joined = left.unwrap_or(token.joined);
        token.marks = marks;
        self.places
            .put(iteration, token.index as usize, number, marks);
        let row = &mut self.rows[iteration as usize];
        row.enter(number, marks);
        token
    }

    /// Ends the token's instance, which has made the accesses of `trace` and ended with `end`: the
    /// event `Advance` or `Finish`. If the iteration names a stage that it may enter at once, the event
    /// `Enter` follows, and the token of the next instance is returned; otherwise the book keeps the
    /// token until the left neighbour has passed the stage. The left neighbour's counter is read, and
    /// then kept, exactly if the token's kept one does not let the iteration go on. A stopped book makes
    /// no event, and keeps the token and the trace.
    pub fn advance(&mut self, token: FrameToken<M>, end: StageEnd, trace: Trace) -> Next<M>
        requires out { IsOutOf self.old (fields_of token) }
        requires whole { M.whole (tree_of self.old.program) token.payload }
        requires belongs { BelongsTo (M.tie token.payload) self.old.lists }
        requires performs { IsPerformed (pipeline_in self.old) token.iteration (replies_at self.old token.iteration) trace end }
        requires ready { NamesNextStage end → M.ready_at (tree_of self.old.program) self.old.input token.payload token.iteration
            (replies_at self.old token.iteration ++ replies_of trace ∷ []) }
        requires stopped { end ≡ StageEnd.Stopped → (state_of self.old).stopped ≡ true }
        ensures returned { AdvanceReturns (state_of self.old) token.iteration token.index end result }
        ensures book { self.new ≡ after_advance self.old (fields_of token) end trace result }
        ensures token { IfGo result (λ t. IsGivenBy M.ready_at M.tie self.new t
            × (t.folded ≡ folded_after self.old (fields_of token) end)) }
        ensures now { IfGo result (λ t. t.now ≡ last_ticket self.new.log) }
    {
        if self.stopped {
            self.hold(token, trace);
            return Next::Stopped;
        }
        match course_after(end) {
            Course::Stage(kind, number) => self.go_on(token, kind, number, trace),
            Course::Over(last) => {
                self.finish(token, last, trace);
                Next::Ended
            }
        }
    }

    // Ends the token's instance, whose iteration names this stage.
    fn go_on(&mut self, mut token: FrameToken<M>, kind: Kind, number: i64, trace: Trace) -> Next<M>
        requires going { (state_of self.old).stopped ≡ false }
        requires out { IsOutOf self.old (fields_of token) }
        requires kind { kind ≢ Kind.Zero }
        requires performs { Performs (left_of self.old token.iteration) (accessed trace ++ Staged kind number ∷ []) }
        requires payload { IsPayloadOf M.ready_at M.tie self.old token.iteration
            (replies_at self.old token.iteration ++ replies_of trace ∷ []) token.payload }
        ensures returned { AdvanceReturns (state_of self.old) token.iteration token.index (stage_end kind number) result }
        ensures book { self.new ≡ after_advance self.old (fields_of token) (stage_end kind number) trace result }
        ensures token { IfGo result (λ t. IsGivenBy M.ready_at M.tie self.new t
            × (t.folded ≡ folded_after self.old (fields_of token) (stage_end kind number))) }
        ensures now { IfGo result (λ t. t.now ≡ last_ticket self.new.log) }
    {
        let iteration = token.iteration;
        let read = needs_left(&token.folded, kind, iteration, number);
        fold_left(self.rows.as_slice(), iteration, read, &mut token.folded);
        let enters = lets_enter(&token.folded, kind, iteration, number);
        if enters {
            return Next::Go(self.enter_next(token, kind, number, trace, read));
        }
        self.name(token, kind, number, trace);
        self.reads += count_of(read);
        Next::Suspended
    }

    /// Does the first half of `advance`: the event `Advance` or `Finish`. The book keeps the token of
    /// an iteration that goes on. It reads no counter.
    pub fn name_next(&mut self, token: FrameToken<M>, end: StageEnd, trace: Trace) -> Named
        requires out { IsOutOf self.old (fields_of token) }
        requires whole { M.whole (tree_of self.old.program) token.payload }
        requires belongs { BelongsTo (M.tie token.payload) self.old.lists }
        requires performs { IsPerformed (pipeline_in self.old) token.iteration (replies_at self.old token.iteration) trace end }
        requires ready { NamesNextStage end → M.ready_at (tree_of self.old.program) self.old.input token.payload token.iteration
            (replies_at self.old token.iteration ++ replies_of trace ∷ []) }
        requires stopped { end ≡ StageEnd.Stopped → (state_of self.old).stopped ≡ true }
        ensures returned { NameReturns (state_of self.old) end result }
        ensures book { self.new ≡ after_name_next self.old (fields_of token) end trace result }
    {
        if self.stopped {
            self.hold(token, trace);
            return Named::Stopped;
        }
        match course_after(end) {
            Course::Stage(kind, number) => {
                self.name(token, kind, number, trace);
                Named::Waits
            }
            Course::Over(last) => {
                self.finish(token, last, trace);
                Named::Ended
            }
        }
    }

    /// Starts the instance that an iteration has named, if it may start: the event `Enter` and its
    /// token. Returns `None` if the iteration has named none, or must wait, or the run was stopped.
    pub fn enter(&mut self, iteration: u32) -> Option<FrameToken<M>>
        ensures returned { EnterReturns (state_of self.old) iteration result }
        ensures book { self.new ≡ after_enter self.old result }
        ensures token { IfSome result (IsGivenBy M.ready_at M.tie self.new) }
        ensures now { IfSome result (λ t. t.now ≡ last_ticket self.new.log) }
        ensures folded { IfSome result (λ t. t.folded ≡ kept_folded (item_or Spent self.old.tokens iteration)) }
    {
        if !self.may_start(iteration) {
            return None;
        }
        Some(self.enter_named(iteration))
    }

    // Returns whether `enter` of this iteration would return a token.
    fn may_start(&self, iteration: u32) -> bool
        ensures yes { IsTrue result → ((state_of self.now).stopped ≡ false) × MayEnter (state_of self.now) iteration }
        ensures no { result ≡ false → StartsNothing (state_of self.now) iteration }
    {
        if self.stopped {
            return false;
        }
        may_enter(self.rows.as_slice(), iteration)
    }

    // Returns the right neighbour of an iteration, if it has begun.
    fn right_of(&self, iteration: u32) -> Option<u32>
        ensures some { IfSome result (λ right. right ≡ iteration + 1) }
        ensures none { IfNone result (MayEnter (state_of self.now) (iteration + 1) → ⊥) }
    {
        if iteration as usize + 1 >= self.rows.len() {
            return None;
        }
        Some(iteration + 1)
    }

    /// Returns whether `check_right` of this iteration would return a token.
    pub fn right_may_start(&self, iteration: u32) -> bool
        ensures yes { IsTrue result → ((state_of self.now).stopped ≡ false) × MayEnter (state_of self.now) (iteration + 1) }
        ensures no { result ≡ false → StartsNothing (state_of self.now) (iteration + 1) }
    {
        match self.right_of(iteration) {
            Some(right) => self.may_start(right),
            None => false,
        }
    }

    /// Does `enter` for the right neighbour of an iteration.
    pub fn check_right(&mut self, iteration: u32) -> Option<FrameToken<M>>
        ensures returned { EnterReturns (state_of self.old) (iteration + 1) result }
        ensures book { self.new ≡ after_enter self.old result }
        ensures token { IfSome result (IsGivenBy M.ready_at M.tie self.new) }
        ensures now { IfSome result (λ t. t.now ≡ last_ticket self.new.log) }
        ensures folded { IfSome result (λ t. t.folded ≡ kept_folded (item_or Spent self.old.tokens (iteration + 1))) }
    {
        let right = self.right_of(iteration)?;
        self.enter(right)
    }

    /// Returns the first that holds: the run was stopped; it is finished; the token of the least
    /// iteration that was left ready, or that may enter the stage that it has named, after its event
    /// `Enter`; the next iteration may begin; nothing, which it returns only while a token is out. Looks
    /// at the alive iterations in order, up to the one that it returns, and at most at as many that have
    /// ended as may be alive; now and then it drops those.
    pub fn rescue(&mut self) -> Rescue<M>
        ensures returned { RescueReturns self.old.limit (state_of self.old) (IsReady self.old) result }
        ensures book { self.new ≡ after_rescue self.old result }
        ensures token { IfToken result (IsGivenBy M.ready_at M.tie self.new) }
        ensures now { IfToken result (λ t. IsGivenBeside (resume_events (frame_at (state_of self.old).frames t.iteration) t.iteration)
            self.old self.new (fields_of t)) }
        ensures folded { IfToken result (λ t. t.folded ≡ kept_folded (item_or Spent self.old.tokens t.iteration)) }
        ensures nothing { IfNothing result ((i : ℕ) × IsOut self.old i) }
    {
        if self.stopped {
            return Rescue::Stopped;
        }
        if self.is_finished() {
            return Rescue::Finished;
        }
        self.drop_ended();
        if let Some(iteration) = first_to_go_on(self.rows.as_slice(), self.alive.as_slice()) {
            return Rescue::Token(self.resume(iteration));
        }
        if self.may_begin() {
            return Rescue::MayBegin;
        }
        Rescue::Nothing
    }

    // Returns whether the run is finished.
    fn is_finished(&self) -> bool
        requires going { (state_of self.now).stopped ≡ false }
        ensures { IsTrue result ↔ IsFinished (state_of self.now) }
    {
        if !self.closed {
            return false;
        }
        self.pool.is_full()
    }

    // Returns whether the next iteration may begin.
    fn may_begin(&self) -> bool
        ensures { IsTrue result ↔ MayBegin self.now.limit (state_of self.now) (length (state_of self.now).frames) }
    {
        if self.closed {
            return false;
        }
        if self.pool.is_empty() {
            return false;
        }
        last_has_ended_first(self.rows.as_slice())
    }

    // Drops iterations that have ended from the list of alive ones, if the list is long or begins with one.
    fn drop_ended(&mut self)
        ensures { self.new ≡ self.old }
    {
        let most = 2 * self.throttle as usize;
        drop_ended(self.rows.as_slice(), &mut self.alive, most);
    }

    // The token of an iteration that was left ready, or may enter the stage that it has named.
    fn resume(&mut self, iteration: u32) -> FrameToken<M>
        requires going { (state_of self.old).stopped ≡ false }
        requires can { CanGoOn (IsReady self.old) (state_of self.old) iteration }
        ensures iteration { result.iteration ≡ iteration }
        ensures book { self.new ≡ with_resumed self.old iteration }
        ensures token { IsGivenBy M.ready_at M.tie self.new result }
        ensures now { IsGivenBeside (resume_events (frame_at (state_of self.old).frames iteration) iteration) self.old self.new
            (fields_of result) }
        ensures folded { result.folded ≡ kept_folded (item_or Spent self.old.tokens iteration) }
    {
        let row = &mut self.rows[iteration as usize];
        match row.status() {
            Status::Running => match row.take_token() {
                Some(token) => token,
                None => unreachable!(),
            },
            Status::Pending(_, _) => self.enter_named(iteration),
            Status::Completed(_) => unreachable!(),
        }
    }

    /// Keeps the token of an instance that has started and made no access, for `rescue`.
    pub fn leave_ready(&mut self, token: FrameToken<M>)
        requires out { IsOutOf self.old (fields_of token) }
        requires payload { IsPayloadOf M.ready_at M.tie self.old token.iteration (replies_at self.old token.iteration) token.payload }
        requires knows { KnowsMarks (M.tie token.payload) token.marks }
        ensures { self.new ≡ after_leave_ready self.old (fields_of token) }
    {
        self.rows[token.iteration as usize].keep(token);
    }

    /// Raises the ticket of `Stop`, the last event of a stopped run, to at least `least`.
    pub fn raise_stop(&mut self, least: u64)
        requires stopped { (state_of self.old).stopped ≡ true }
        requires least { least ≤ 2 ^ 62 + length self.old.log }
        ensures { self.new ≡ record self.old { log = with_last_raised self.old.log least } }
    {
        self.ledger.raise_last(least);
    }
}

// Copies a program and its input.
fn copies(alloc: Global, program: &Program, input: &Numbers) -> Result<(Program, Numbers), NoMemory>
    ensures program { IfOk result (λ copies. tree_of copies.0 ≡ tree_of program.now) }
    ensures input { IfOk result (λ copies. copies.1 ≡ input.now) }
{
    let input = copy_numbers(alloc, input)?;
    Ok((copy_program(alloc, program)?, input))
}

// Returns whether an iteration closes the loop if its instance `index` has this end.
fn closes(end: ColumnEnd, index: u32) -> bool
    ensures { IsTrue result ↔ (closes_at_once end ≡ true) × (index ≡ 0) }
{
    match end {
        ColumnEnd::End => false,
        ColumnEnd::Closed => index == 0,
        ColumnEnd::Trapped(_) => index == 0,
    }
}

// Returns whether one of the two holds.
fn either(a: bool, b: bool) -> bool
    ensures { result ≡ (a || b) }
{
    a || b
}

impl<M: Payload<OmWriter>> Book<M, OmWriter> {
    /// Shows the passes all elements of the two order lists. They must be of these lists.
    pub fn confirm(&mut self, passes: &mut TwoPasses)
        requires { AreOfLists passes.old self.old.lists.down self.old.lists.right }
        ensures unchanged { self.new ≡ self.old }
        ensures down { passes.new.down_log ≡ down_first_log (starts_of (events_of self.old.log)) }
        ensures right { passes.new.right_log ≡ right_first_log (columns_after (events_of self.old.log))
            (starts_of (events_of self.old.log)) }
        ensures lists { AreSameLists passes.new passes.old }
        ensures later { HasSeen passes.new passes.old }
        ensures logs { IsLog 1 passes.new.down_log × IsLog 1 passes.new.right_log }
    {
        self.orders.confirm(passes);
    }

    /// Gives the elements of the two order lists their labels, if they were put off.
    pub fn settle_orders(&mut self)
        ensures { self.new ≡ self.old }
    {
        self.orders.settle();
    }
}
