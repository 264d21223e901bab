//! The cells of a hall, as the memory of a machine.

ghost use Rattle.std.specs.Prelude.{◌≡◌, [], false};
ghost use Rattle.instance_laws.specs.EndedInstances.{accesses_of};
ghost use Rattle.pipe_frame.specs.TokenCounts.{Exchanges};
ghost use Rattle.pipe_frame.specs.TokenFields.{fields_of};
ghost use Rattle.pipe_worker.specs.HeldInstances.{IsHeld, StopsSeen};

use crate::lent::LentHall;
use pipe_frame::hall::Hall;
use pipe_frame::results::Reply;
use pipe_frame::stands::Stands;
use pipe_frame::token::FrameToken;
use pipe_frame::trace::Trace;
use pipe_model::access::CellId;
use stage_interp::memory::Memory;
use std::marker::{Brand, Model, PhantomData};
use std::sync::Wait;

/// The instance that runs, its hall, and the reference to that. They exist in proofs only, and the call
/// that runs an instance picks them.
pub trait RunningInstance {
    ghost use Rattle.std.specs.Prelude.{ℕ, ℤ, List};
    ghost use Rattle.pipe_frame.specs.Ties.{HallName};
    ghost use Rattle.pipe_frame.specs.TokenCounts.{TokenCounts};

    /// The name of the reference to the hall.
    ghost reference: { ℕ };

    /// The hall.
    ghost named: { HallName };

    /// The tokens that the hall had given and taken back at the start of the instance.
    ghost counts: { TokenCounts };

    /// The iteration.
    ghost iteration: { ℕ };

    /// The replies of the iteration before the instance.
    ghost replies: { List (List ℤ) };
}

impl RunningInstance for Brand {
    ghost use Rattle.std.specs.Prelude.{[]};
    ghost use Rattle.pipe_frame.specs.TokenCounts.{no_tokens};
    ghost use Rattle.pipe_worker.specs.HeldInstances.{no_hall};

    ghost reference = { 0 };

    ghost named = { no_hall };

    ghost counts = { no_tokens };

    ghost iteration = { 0 };

    ghost replies = { [] };
}

/// The cells of a hall, for the instance of a token. Each access is appended to the instance's trace. It
/// has stopped only if the hall has seen the run stopped.
#[derive(Drop)]
pub struct InstanceMemory<'r, 'a, R: Wait, M: Stands + Drop, H: Hall<M>, J: RunningInstance> {
    rt: &'r R,
    lent: LentHall<'a, H>,
    token: FrameToken<M>,
    trace: Trace,
    // How many accesses the instance has asked for.
    count: u64,
    stopped: bool,
    of: PhantomData<J>,
}

impl<'r, 'a, R: Wait, M: Stands + Drop, H: Hall<M>, J: RunningInstance> Model
    for InstanceMemory<'r, 'a, R, M, H, J> {
    ghost use Rattle.std.specs.Prelude.{◌≡◌};
    ghost use Rattle.instance_laws.specs.EndedInstances.{accesses_of};
    ghost use Rattle.pipe_frame.specs.TokenCounts.{Exchanges};
    ghost use Rattle.pipe_frame.specs.TokenFields.{fields_of};
    ghost use Rattle.pipe_worker.specs.HeldInstances.{IsHeld, MemoryState, StopsSeen};

    ghost Value = { MemoryState };

    ghost view = { λ m. record { made = accesses_of m.trace; stopped = m.stopped } };

    ghost invariant = { λ m. (m.lent.hall.ghost_name ≡ J.reference) × (H.named m.lent.hall.now ≡ J.named)
        × IsHeld J.named J.iteration J.replies (fields_of m.token) (M.tie m.token.payload) m.trace
        × StopsSeen m.stopped (H.seen m.lent.hall.now) × Exchanges 0 0 J.counts (H.tokens m.lent.hall.now) };
}

impl<'r, 'a, R: Wait, M: Stands + Drop, H: Hall<M>, J: RunningInstance> InstanceMemory<
    'r,
    'a,
    R,
    M,
    H,
    J,
> {
    /// Returns the memory of an instance that has made no access.
    pub fn new(rt: &'r R, lent: LentHall<'a, H>, token: FrameToken<M>) -> Self
        requires reference { lent.hall.ghost_name ≡ J.reference }
        requires named { H.named lent.hall.now ≡ J.named }
        requires counts { H.tokens lent.hall.now ≡ J.counts }
        requires held { IsHeld J.named J.iteration J.replies (fields_of token) (M.tie token.payload) [] }
        ensures { result ≡ record { made = []; stopped = false } }
    {
        InstanceMemory {
            rt,
            lent,
            token,
            trace: Trace::new(),
            count: 0,
            stopped: false,
            of: PhantomData,
        }
    }

    /// Returns the hall, the token, the accesses of the instance, and how many it has asked for.
    pub fn finish(self) -> (LentHall<'a, H>, FrameToken<M>, Trace, u64)
        ensures reference { result.0.hall.ghost_name ≡ J.reference }
        ensures named { H.named result.0.hall.now ≡ J.named }
        ensures held { IsHeld J.named J.iteration J.replies (fields_of result.1) (M.tie result.1.payload) result.2 }
        ensures stopped { StopsSeen self.entry.stopped (H.seen result.0.hall.now) }
        ensures tokens { Exchanges 0 0 J.counts (H.tokens result.0.hall.now) }
        ensures made { self.entry.made ≡ accesses_of result.2 }
    {
        let InstanceMemory {
            rt: _,
            lent,
            token,
            trace,
            count,
            stopped: _,
            of: _,
        } = self;
        (lent, token, trace, count)
    }
}

impl<'r, 'a, R: Wait, M: Stands + Drop, H: Hall<M>, J: RunningInstance> Memory
    for InstanceMemory<'r, 'a, R, M, H, J> {
    ghost use Rattle.pipe_worker.specs.Machines.{cells_of};

    ghost made = { λ m. m.made };

    ghost stopped = { λ m. m.stopped };

    ghost served = { λ m. cells_of J.named.tree };

    fn read(&mut self, cell: CellId) -> Option<i64> {
        self.count = self.count.saturating_add(1);
        let reply = self
            .lent
            .hall
            .access(self.rt, &mut self.token, &mut self.trace, cell, None);
        match reply {
            Reply::Value(value) => {
                self.stopped = false;
                Some(value)
            }
            Reply::Stopped => {
                self.stopped = true;
                None
            }
            Reply::Done => unreachable!(),
        }
    }

    fn write(&mut self, cell: CellId, value: i64) -> bool {
        self.count = self.count.saturating_add(1);
        let reply = self.lent.hall.access(
            self.rt,
            &mut self.token,
            &mut self.trace,
            cell,
            Some(value),
        );
        match reply {
            Reply::Done => {
                self.stopped = false;
                true
            }
            Reply::Stopped => {
                self.stopped = true;
                false
            }
            Reply::Value(_) => unreachable!(),
        }
    }
}
