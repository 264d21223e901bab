//! The locks of a hall, and what they protect.

ghost use Rattle.std.specs.Prelude.{◌≡◌, ◌<◌, ◌+◌, ◌⊎◌, ◌∷◌, [], ℕ, Some, None, IfSome, IfNone, Option};
ghost use Rattle.atomic_table.specs.Table.{rest};
ghost use Rattle.pipe_frame.specs.TokenFields.{fields_of};
ghost use Rattle.frame_book.specs.BookStates.{BookState};
ghost use Rattle.hall_table.specs.SeatViews.{HallConstants, InstanceData, SlotValue, TheBook, TheShard};
ghost use Rattle.hall_shards.specs.ShardValues.{ShardValue};
ghost use Rattle.hall_table.specs.HallRule.{lock_count, slot_of, view_of, width};
ghost use Rattle.hall_table.specs.WorkerSeats.{HoldsBook};
ghost use Rattle.hall_table.specs.InstanceSeats.{badge_view};
ghost use Rattle.std.specs.Prelude.{IsTrue, false};
ghost use Rattle.hall_table.specs.Steps.{
  having,
  BookSnapshot,
  ShardSnapshot,
  IsSnapshot,
  after_book,
  after_shard,
  holding,
  new_instance,
  run_seat,
};
ghost use Rattle.hall_table.specs.Steps.{with_run, without_run};
ghost use Rattle.hall_table.specs.BookCalls.{IsBookCall};
ghost use Rattle.hall_table.specs.SeatAccesses.{MadeBy};
ghost use Rattle.hall_table.specs.declared.view.View.{View};
ghost use Rattle.pipe_frame.specs.declared.token.FrameToken.{FrameToken};

use crate::carrier::Carrier;
use crate::rule::{
    HallTable, JoinsInstance, ReturnsBook, ReturnsBookAndToken, ReturnsShard, SplitsInstance,
    TakesSlot,
};
use crate::run_seat::RunSeat;
use crate::slot::Slot;
use crate::view::View;
use crate::witness::Witness;
use atomic_table::Seat;
use frame_book::book::Book;
use hall_shards::shard::Shard;
use om_shared::writer::OmWriter;
use pipe_frame::token::FrameToken;
use std::sync::Wait;
use std::thread;
use std::thread::Parker;
use std::time::Duration;

/// The book and the shards of a run, each protected by a lock of its own.
#[derive(Drop)]
pub struct Locks<M: Carrier> {
    /// The table of the locks and of the slots.
    pub table: HallTable<M>,
    pub ghost sized: { (table.shared.table_id.words ≡ width) × (table.shared.table_id.slots ≡ lock_count) },
}

/// How many words the words of two locks are apart: lock `k` is the word at index `STRIDE * k`, and its
/// value is in slot `k`. Eight words have 64 bytes, so each lock is on a cache line of its own, and
/// threads that take different locks do not wait for each other's cache lines.
pub const STRIDE: usize = 8;

// How often a thread looks at a lock that is taken before it gives the processor to others between its
// looks. A look takes a nanosecond or two, and a lock is held for a microsecond or less, unless its
// thread was put off the processor.
const SHORT_LOOKS: u32 = 4000;

// How often the thread gives the processor away before it sleeps between its looks. By then the thread that
// has the lock is most likely off its processor, for some milliseconds.
const GIVING_LOOKS: u32 = 60;

// The microseconds of a sleep.
const SLEEP: u64 = 50;

// Pauses after this number of looks at a lock that is taken.
fn pause<R: Wait>(rt: &R, sleep: &Parker, looks: u32) {
    if looks >= SHORT_LOOKS + GIVING_LOOKS {
        sleep.park_timeout(rt, Duration::from_micros(SLEEP));
    } else if looks >= SHORT_LOOKS {
        thread::yield_now();
    }
}

impl<M: Carrier> Locks<M> {
    // Takes a lock, if nobody has taken it. Its value is the seat's then, and stays in its slot.
    fn try_take(&self, seat: &mut Seat<Slot<M>, View>, lock: usize) -> bool
        requires own { seat.old.table_id ≡ self.now.table.shared.table_id }
        requires lock { lock < 17 }
        ensures own { (seat.new.table_id ≡ seat.old.table_id) × (seat.new.id ≡ seat.old.id) }
        ensures taken { IsTrue result → (x : SlotValue) × (seat.new.me ≡ having seat.old.me lock x) × IsSnapshot seat.old.me.0.it lock x }
        ensures none { result ≡ false → seat.new.me ≡ seat.old.me }
    {
        let shared = &self.table.shared;
        if shared.swap::<TakesSlot>(seat, STRIDE * lock, 1) != 0 {
            return false;
        }
        true
    }

    // Takes a lock, as soon as nobody has taken it.
    fn take<R: Wait>(&self, rt: &R, seat: &mut Seat<Slot<M>, View>, lock: usize)
        requires own { seat.old.table_id ≡ self.now.table.shared.table_id }
        requires lock { lock < 17 }
        ensures own { (seat.new.table_id ≡ seat.old.table_id) × (seat.new.id ≡ seat.old.id) }
        ensures taken { (x : SlotValue) × (seat.new.me ≡ having seat.old.me lock x) × IsSnapshot seat.old.me.0.it lock x }
    {
        if self.try_take(seat, lock) {
            return;
        }
        let mut looks = 0u32;
        let sleep = Parker::new();
        for _ in rt.forever() {
            if self.seems_free(lock) {
                if self.try_take(seat, lock) {
                    return;
                }
            }
            looks = looks.saturating_add(1);
            pause(rt, &sleep, looks);
        }
        unreachable!()
    }

    // Returns whether nobody had taken the value of a lock a moment ago. To look does not take the cache
    // line of the lock from the thread that has it.
    fn seems_free(&self, lock: usize) -> bool
        requires lock { lock < 17 }
    {
        self.table.shared.peek(STRIDE * lock) == 0
    }

    /// Takes the book, which stays in its slot.
    pub fn take_book<R: Wait>(&self, rt: &R, seat: &mut Seat<Slot<M>, View>)
        requires own { seat.old.table_id ≡ self.now.table.shared.table_id }
        ensures own { (seat.new.table_id ≡ seat.old.table_id) × (seat.new.id ≡ seat.old.id) }
        ensures taken { (b : BookState) × (seat.new.me ≡ having seat.old.me 0 (TheBook b)) × BookSnapshot seat.old.me.0.it 0 b }
    {
        self.take(rt, seat, 0);
    }

    /// Takes the book that the seat has out of its slot, which is `Out` then.
    pub fn book_out(&self, seat: &mut Seat<Slot<M>, View>) -> Book<M, OmWriter>
        requires own { seat.old.table_id ≡ self.now.table.shared.table_id }
        requires taken { (b : BookState) × (seat.old.me.1 ≡ (0, Slot.Book b) ∷ rest seat.old.me.1) }
        ensures own { (seat.new.table_id ≡ seat.old.table_id) × (seat.new.id ≡ seat.old.id) }
        ensures view { seat.new.me.0 ≡ seat.old.me.0 }
        ensures book { seat.old.me.1 ≡ (0, Slot.Book result) ∷ rest seat.old.me.1 }
        ensures slot { seat.new.me.1 ≡ (0, Slot.Out) ∷ rest seat.old.me.1 }
    {
        match self.table.shared.exchange(seat, 0, Slot::Out) {
            Slot::Book(book) => book,
            Slot::Shard(_) => unreachable!(),
            Slot::Token(_) => unreachable!(),
            Slot::Out => unreachable!(),
        }
    }

    /// Takes a shard, which stays in its slot.
    pub fn take_shard<R: Wait>(&self, rt: &R, seat: &mut Seat<Slot<M>, View>, number: u32)
        requires own { seat.old.table_id ≡ self.now.table.shared.table_id }
        requires there { number < 16 }
        ensures own { (seat.new.table_id ≡ seat.old.table_id) × (seat.new.id ≡ seat.old.id) }
        ensures taken { (x : ShardValue) × (seat.new.me ≡ having seat.old.me (1 + number) (TheShard x))
            × ShardSnapshot seat.old.me.0.it (1 + number) x }
    {
        self.take(rt, seat, 1 + number as usize);
    }

    /// Takes the shard that the seat has out of its slot, which is `Out` then.
    pub fn shard_out(&self, seat: &mut Seat<Slot<M>, View>, number: u32) -> Shard
        requires own { seat.old.table_id ≡ self.now.table.shared.table_id }
        requires there { number < 16 }
        requires taken { (x : ShardValue) × (seat.old.me.1 ≡ (1 + number, Slot.Shard x) ∷ rest seat.old.me.1) }
        ensures own { (seat.new.table_id ≡ seat.old.table_id) × (seat.new.id ≡ seat.old.id) }
        ensures view { seat.new.me.0 ≡ seat.old.me.0 }
        ensures shard { seat.old.me.1 ≡ (1 + number, Slot.Shard result) ∷ rest seat.old.me.1 }
        ensures slot { seat.new.me.1 ≡ (1 + number, Slot.Out) ∷ rest seat.old.me.1 }
    {
        match self
            .table
            .shared
            .exchange(seat, 1 + number as usize, Slot::Out)
        {
            Slot::Book(_) => unreachable!(),
            Slot::Shard(shard) => shard,
            Slot::Token(_) => unreachable!(),
            Slot::Out => unreachable!(),
        }
    }

    /// Gives the book back.
    pub fn return_book(&self, seat: &mut Seat<Slot<M>, View>)
        requires own { seat.old.table_id ≡ self.now.table.shared.table_id }
        requires call { (b : BookState) × (c : BookState) × (back : Option InstanceData) × HoldsBook seat.old.me b c back
            × IsBookCall b back c None }
        ensures own { (seat.new.table_id ≡ seat.old.table_id) × (seat.new.id ≡ seat.old.id) }
        ensures given { (c : BookState) → seat.old.me.1 ≡ (0, Slot.Book c) ∷ []
            → seat.new.me ≡ (view_of (after_book seat.old.me.0.it c None), []) }
    {
        self.table.shared.store::<ReturnsBook>(seat, 0, 0);
    }

    /// Gives the book back beside a token that it has given out, whose payload gets a seat.
    pub fn return_book_and_token(
        &self,
        seat: &mut Seat<Slot<M>, View>,
        mut token: FrameToken<M>,
    ) -> FrameToken<M>
        requires own { seat.old.table_id ≡ self.now.table.shared.table_id }
        requires call { (b : BookState) × (c : BookState) × (back : Option InstanceData) × HoldsBook seat.old.me b c back
            × IsBookCall b back c (Some (new_instance c (fields_of token))) }
        requires constants { (a : HallConstants) × (seat.old.me.0.it.constants ≡ Some a) }
        ensures own { (seat.new.table_id ≡ seat.old.table_id) × (seat.new.id ≡ seat.old.id) }
        ensures given { (c : BookState) → seat.old.me.1 ≡ (0, Slot.Book c) ∷ []
            → seat.new.me ≡ (view_of (without_run (after_book seat.old.me.0.it c None)), []) }
        ensures token { (c : BookState) → seat.old.me.1 ≡ (0, Slot.Book c) ∷ []
            → (r : RunSeat) × (result ≡ record token { payload = M.with_seat token.payload (Some r) })
            × (r.badge.table_id ≡ seat.old.table_id) × (r.badge.views ≡ view_of
            (run_seat (after_book seat.old.me.0.it c (Some (new_instance c (fields_of token))))) ∷ []) }
    {
        let shared = &self.table.shared;
        let witness = Witness::of(&token);
        self.return_beside(seat, &Slot::Token(witness));
        let run = shared.split_seat::<SplitsInstance>(seat);
        token.payload.put_seat(RunSeat {
            badge: run.into_badge(),
        });
        token
    }

    // The step in which the book is given back beside the token of `said`.
    fn return_beside(&self, seat: &mut Seat<Slot<M>, View>, said: &Slot<M>)
        requires own { seat.old.table_id ≡ self.now.table.shared.table_id }
        requires call { (t : FrameToken M) × (c : BookState) × (v : View) × (b : BookState) × (back : Option InstanceData)
            × (said.now ≡ Slot.Token t) × (seat.old.me ≡ (v, (0, Slot.Book c) ∷ [])) × (v.it.held ≡ (0, TheBook b) ∷ [])
            × (v.it.run ≡ back) × IsBookCall b back c (Some (new_instance c (fields_of t))) }
        ensures own { (seat.new.table_id ≡ seat.old.table_id) × (seat.new.id ≡ seat.old.id) }
        ensures given { (t : FrameToken M) (c : BookState) → said.now ≡ Slot.Token t → seat.old.me.1 ≡ (0, Slot.Book c) ∷ []
            → seat.new.me ≡ (view_of (after_book seat.old.me.0.it c (Some (new_instance c (fields_of t)))), []) }
    {
        self.table
            .shared
            .compare_exchange_with::<ReturnsBookAndToken>(seat, 0, 1, 0, said);
    }

    /// Takes in the seat of an instance.
    pub fn join_instance(&self, seat: &mut Seat<Slot<M>, View>, run: RunSeat)
        requires own { (seat.old.table_id ≡ self.now.table.shared.table_id) × (run.badge.table_id ≡ self.now.table.shared.table_id) }
        requires free { seat.old.me.0.it.run ≡ None }
        ensures own { (seat.new.table_id ≡ seat.old.table_id) × (seat.new.id ≡ seat.old.id) }
        ensures joined { seat.new.me ≡ (view_of (with_run seat.old.me.0.it (badge_view run.badge.views)), seat.old.me.1) }
    {
        let RunSeat { badge } = run;
        let other = badge.into_seat::<Slot<M>>();
        self.table.shared.join_seat::<JoinsInstance>(seat, other);
    }

    /// Gives a shard back.
    pub fn return_shard(&self, seat: &mut Seat<Slot<M>, View>, number: u32)
        requires own { seat.old.table_id ≡ self.now.table.shared.table_id }
        requires there { number < 16 }
        requires made { (x : ShardValue) × (y : ShardValue) × (seat.old.me.1 ≡ (1 + number, Slot.Shard y) ∷ [])
            × (seat.old.me.0.it.held ≡ (1 + number, TheShard x) ∷ [])
            × ((y ≡ x) ⊎ ((d : InstanceData) × (seat.old.me.0.it.run ≡ Some d) × MadeBy d number x y)) }
        ensures own { (seat.new.table_id ≡ seat.old.table_id) × (seat.new.id ≡ seat.old.id) }
        ensures given { (x : ShardValue) (y : ShardValue) → seat.old.me.0.it.held ≡ (1 + number, TheShard x) ∷ []
            → seat.old.me.1 ≡ (1 + number, Slot.Shard y) ∷ []
            → seat.new.me ≡ (view_of (after_shard seat.old.me.0.it x y), []) }
    {
        let word = STRIDE * (1 + number as usize);
        self.table.shared.store::<ReturnsShard>(seat, word, 0);
    }
}
