//! A book, and the tokens that it has given out.

ghost use Rattle.std.specs.Prelude.{◌≡◌, ◌<◌, ◌≤◌, [], IfOk, IfSome, None, ℕ};
ghost use Rattle.om_relabel.specs.declared.links.TheConstants.{MOST_ELEMENTS};
ghost use Rattle.pipe_model.specs.Language.SyntaxTree.{tree_of};
ghost use Rattle.pipe_model.specs.Runs.ControlRun.{ControlRun};
ghost use Rattle.frame_book.specs.BookStates.{events_of, state_of};
ghost use Rattle.book_tests.specs.HeldTokens.{AreHeld, AreHeldBut, IsGiven, token_of};
ghost use Rattle.book_tests.specs.ScriptPrograms.{IsSmall, tree_of_source};

use crate::plan::Plan;
use crate::program::{Source, program};
use frame_book::book::Book;
use om_list::om_list::OmList;
use order_2d::two_orders::TwoOrders;
use pipe_frame::results::{Begun, Named, Next, Rescue};
use pipe_frame::token::FrameToken;
use pipe_frame::trace::Trace;
use pipe_model::list::Numbers;
use pipe_model::memory::NoMemory;
use pipe_model::stage::StageEnd;
use pipe_model::ticket::BookLog;
use pipe_model::tree::Program;
use std::alloc::Global;

/// A call of the book; `u32` is an iteration.
#[derive(Clone, Copy)]
pub enum Call {
    Begin,
    Advance(u32, StageEnd),
    NameNext(u32, StageEnd),
    CheckRight(u32),
    Enter(u32),
    LeaveReady(u32),
    Rescue,
    Stop,
    Reads,
}

/// The result of a call.
#[derive(Clone, Copy, PartialEq, Eq)]
pub enum Seen {
    /// The token of an instance, by its iteration and index.
    Token(u32, u32),
    Throttled,
    Closed,
    NotYet,
    Stopped,
    Suspended,
    Ended,
    Waits,
    Absent,
    MayBegin,
    Nothing,
    Finished,
    Done,
    Count(u64),
    /// The token is not out, or its instance ends otherwise.
    Refused,
}

/// A book and its tokens, by iteration.
#[derive(Drop)]
pub struct Play {
    book: Book<Plan, OmList>,
    tokens: Vec<Option<FrameToken<Plan>>>,
    /// The ticket of the last event.
    ticket: u64,
}

fn list(alloc: Global, capacity: u32) -> Result<OmList, NoMemory>
    requires positive { 0 < capacity }
    requires bounded { capacity ≤ MOST_ELEMENTS }
    ensures { IfOk result (λ l. (l.log ≡ []) × (l.capacity ≡ capacity)) }
{
    Ok(OmList::new(alloc, capacity)?)
}

// Two order lists without elements, each with room for this many.
fn orders(alloc: Global, capacity: u32) -> Result<TwoOrders<OmList>, NoMemory>
    requires positive { 0 < capacity }
    requires bounded { capacity ≤ MOST_ELEMENTS }
    ensures logs { IfOk result (λ o. (o.down.log ≡ []) × (o.right.log ≡ [])) }
    ensures room { IfOk result (λ o. (o.down.capacity ≡ capacity) × (o.right.capacity ≡ capacity)) }
    ensures identity { IfOk result (λ o. o.down.identity ≡ []) }
{
    let down = list(alloc, capacity)?;
    let right = list(alloc, capacity)?;
    Ok(TwoOrders::new(down, right))
}

// A book of the program of a source, which has given no token.
fn book_of(
    alloc: Global,
    program: &Program,
    source: Source,
    throttle: u32,
) -> Result<Book<Plan, OmList>, NoMemory>
    requires small { IsSmall source }
    requires throttle { 0 < throttle }
    requires program { tree_of program.now ≡ tree_of_source source }
{
    let plan = Plan::new(source.turns, source.waits(), source.stages);
    let payloads = vec![in alloc; plan; throttle as usize]?;
    let orders = orders(alloc, source.capacity())?;
    let input = Numbers::new(alloc);
    Book::new(alloc, program, &input, throttle, payloads, orders)
}

fn new_book(alloc: Global, source: Source, throttle: u32) -> Result<Book<Plan, OmList>, NoMemory>
    requires small { IsSmall source }
    requires throttle { 0 < throttle }
{
    let program = program(alloc, source)?;
    let book = book_of(alloc, &program, source, throttle);
    drop(program);
    book
}

// Room for the tokens of some iterations; none is held.
fn places(alloc: Global, count: u32) -> Result<Vec<Option<FrameToken<Plan>>>, NoMemory>
    ensures { IfOk result (λ places. (i : ℕ) → token_of places.items i ≡ None) }
{
    let mut places = Vec::new(alloc);
    for _ in 0..count {
        places.push(None)?;
    }
    Ok(places)
}

// The ticket of the last event.
fn last_ticket(book: &Book<Plan, OmList>) -> u64
    ensures { ControlRun book.now.limit (events_of book.now.log) (state_of book.now) }
{
    match book.entries().last() {
        Some(entry) => entry.ticket,
        None => 0,
    }
}

impl Play {
    /// Returns a new book of a program.
    pub fn new(alloc: Global, source: Source, throttle: u32) -> Result<Play, NoMemory>
        requires small { IsSmall source }
        requires throttle { 0 < throttle }
        ensures { IfOk result (λ p. AreHeld p.book p.tokens.items) }
    {
        let tokens = places(alloc, source.iterations + 1)?;
        let book = new_book(alloc, source, throttle)?;
        Ok(Play {
            book,
            tokens,
            ticket: 0,
        })
    }

    /// Makes a call, and returns its result and the last ticket after it.
    pub fn make(&mut self, call: Call) -> (Seen, u64)
        requires { AreHeld self.old.book self.old.tokens.items }
        ensures { AreHeld self.new.book self.new.tokens.items }
    {
        let seen = match call {
            Call::Begin => self.begin(),
            Call::Advance(iteration, end) => self.advance(iteration, end),
            Call::NameNext(iteration, end) => self.name_next(iteration, end),
            Call::CheckRight(iteration) => self.check_right(iteration),
            Call::Enter(iteration) => self.enter(iteration),
            Call::LeaveReady(iteration) => self.leave_ready(iteration),
            Call::Rescue => self.rescue(),
            Call::Stop => self.stop(),
            Call::Reads => Seen::Count(self.book.reads()),
        };
        (seen, self.ticket)
    }

    /// Returns the log.
    pub fn into_log(self) -> BookLog {
        self.book.into_log()
    }

    // Keeps a token that the book has given.
    fn hold(&mut self, token: FrameToken<Plan>) -> Seen
        requires given { IsGiven self.old.book token }
        requires others { AreHeldBut token.iteration self.old.book self.old.tokens.items }
        ensures { AreHeld self.new.book self.new.tokens.items }
    {
        let seen = Seen::Token(token.iteration, token.index);
        let iteration = token.iteration as usize;
        if iteration < self.tokens.len() {
            self.tokens[iteration] = Some(token);
        }
        seen
    }

    // The token of an iteration, if it is held.
    fn take(&mut self, iteration: u32) -> Option<FrameToken<Plan>>
        requires { AreHeld self.old.book self.old.tokens.items }
        ensures book { self.new.book ≡ self.old.book }
        ensures held { AreHeld self.new.book self.new.tokens.items }
        ensures gone { token_of self.new.tokens.items iteration ≡ None }
        ensures token { IfSome result (λ t. (t.iteration ≡ iteration) × IsGiven self.new.book t) }
    {
        if (iteration as usize) < self.tokens.len() {
            self.tokens[iteration as usize].take()
        } else {
            None
        }
    }

    fn begin(&mut self) -> Seen
        requires { AreHeld self.old.book self.old.tokens.items }
        ensures { AreHeld self.new.book self.new.tokens.items }
    {
        let begun = self.book.begin();
        self.ticket = last_ticket(&self.book);
        match begun {
            Begun::Started(token) => self.hold(token),
            Begun::Throttled => Seen::Throttled,
            Begun::Closed => Seen::Closed,
            Begun::NotYet => Seen::NotYet,
            Begun::Stopped => Seen::Stopped,
        }
    }

    fn advance(&mut self, iteration: u32, end: StageEnd) -> Seen
        requires { AreHeld self.old.book self.old.tokens.items }
        ensures { AreHeld self.new.book self.new.tokens.items }
    {
        let Some(mut token) = self.take(iteration) else {
            return Seen::Refused;
        };
        if !token.payload.ends_by(end, self.book.is_stopped()) {
            return Seen::Refused;
        }
        let next = self.book.advance(token, end, Trace::new());
        self.ticket = last_ticket(&self.book);
        match next {
            Next::Go(token) => self.hold(token),
            Next::Suspended => Seen::Suspended,
            Next::Ended => Seen::Ended,
            Next::Stopped => Seen::Stopped,
        }
    }

    fn name_next(&mut self, iteration: u32, end: StageEnd) -> Seen
        requires { AreHeld self.old.book self.old.tokens.items }
        ensures { AreHeld self.new.book self.new.tokens.items }
    {
        let Some(mut token) = self.take(iteration) else {
            return Seen::Refused;
        };
        if !token.payload.ends_by(end, self.book.is_stopped()) {
            return Seen::Refused;
        }
        let named = self.book.name_next(token, end, Trace::new());
        self.ticket = last_ticket(&self.book);
        match named {
            Named::Waits => Seen::Waits,
            Named::Ended => Seen::Ended,
            Named::Stopped => Seen::Stopped,
        }
    }

    fn check_right(&mut self, iteration: u32) -> Seen
        requires { AreHeld self.old.book self.old.tokens.items }
        ensures { AreHeld self.new.book self.new.tokens.items }
    {
        let entered = self.book.check_right(iteration);
        self.ticket = last_ticket(&self.book);
        match entered {
            Some(token) => self.hold(token),
            None => Seen::Absent,
        }
    }

    fn enter(&mut self, iteration: u32) -> Seen
        requires { AreHeld self.old.book self.old.tokens.items }
        ensures { AreHeld self.new.book self.new.tokens.items }
    {
        let entered = self.book.enter(iteration);
        self.ticket = last_ticket(&self.book);
        match entered {
            Some(token) => self.hold(token),
            None => Seen::Absent,
        }
    }

    fn leave_ready(&mut self, iteration: u32) -> Seen
        requires { AreHeld self.old.book self.old.tokens.items }
        ensures { AreHeld self.new.book self.new.tokens.items }
    {
        match self.take(iteration) {
            Some(token) => {
                self.book.leave_ready(token);
                self.ticket = last_ticket(&self.book);
                Seen::Done
            }
            None => Seen::Refused,
        }
    }

    fn rescue(&mut self) -> Seen
        requires { AreHeld self.old.book self.old.tokens.items }
        ensures { AreHeld self.new.book self.new.tokens.items }
    {
        let rescue = self.book.rescue();
        self.ticket = last_ticket(&self.book);
        match rescue {
            Rescue::Token(token) => self.hold(token),
            Rescue::MayBegin => Seen::MayBegin,
            Rescue::Nothing => Seen::Nothing,
            Rescue::Finished => Seen::Finished,
            Rescue::Stopped => Seen::Stopped,
        }
    }

    fn stop(&mut self) -> Seen
        requires { AreHeld self.old.book self.old.tokens.items }
        ensures { AreHeld self.new.book self.new.tokens.items }
    {
        self.book.stop();
        self.ticket = last_ticket(&self.book);
        Seen::Done
    }
}
