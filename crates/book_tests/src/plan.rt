//! A payload for programs whose iterations only name stages.

ghost use Rattle.std.specs.Prelude.{◌≡◌, IsTrue, [], true};
ghost use Rattle.pipe_model.specs.Pipelines.Behaviour.{Performs};
ghost use Rattle.pipe_model.specs.Runs.StageEnds.{stage_end_actions};
ghost use Rattle.pipe_frame.specs.Replies.{after_instance};
ghost use Rattle.pipe_frame.specs.StageEndCases.{NamesNextStage};
ghost use Rattle.book_tests.specs.PlanStates.{left_in};

use frame_book::payload::Payload;
use om_list::om_list::OmList;
use order_2d::two_orders::TwoOrders;
use pipe_frame::stands::Stands;
use pipe_model::stage::StageEnd;
use pipe_model::trap::Trap;

/// What an iteration does: it waits for the stages 1, 2 and so on. It runs no program, but knows how
/// each instance ends.
#[derive(Clone, Copy)]
pub struct Plan {
    /// How many iterations go through their stages; the next one closes the loop.
    pub turns: u32,
    /// For how many stages each of them waits.
    pub waits: u32,
    /// The most instances of an iteration.
    pub stages: u32,
    /// The iteration goes through its stages.
    going: bool,
    /// The stage of the running instance.
    here: u32,
    /// For how many more stages the iteration waits.
    left: u32,
}

impl Plan {
    /// Returns the plan of a program.
    pub fn new(turns: u32, waits: u32, stages: u32) -> Plan
        ensures { (result.turns ≡ turns) × (result.waits ≡ waits) × (result.stages ≡ stages) }
    {
        Plan {
            turns,
            waits,
            stages,
            going: false,
            here: 0,
            left: 0,
        }
    }

    // Ends the running instance, and goes on to the next one.
    fn pass(&mut self) -> StageEnd
        ensures performs { Performs (left_in self.old) (stage_end_actions result) }
        ensures next { NamesNextStage result → after_instance (left_in self.old) [] ≡ left_in self.new }
        ensures unchanged { (self.new.turns ≡ self.old.turns) × (self.new.waits ≡ self.old.waits) × (self.new.stages ≡ self.old.stages) }
    {
        if !self.going {
            return StageEnd::Closed;
        }
        if self.left == 0 {
            return StageEnd::End;
        }
        if self.stages <= 1 || self.here >= self.stages - 1 {
            return StageEnd::Trap(Trap::StageLimit);
        }
        self.here += 1;
        self.left -= 1;
        StageEnd::Wait(self.here as i64)
    }

    /// Ends the running instance, and returns whether this is how it ends. A stopped one may end
    /// anywhere.
    pub fn ends_by(&mut self, end: StageEnd, stopped: bool) -> bool
        ensures performs { IsTrue result → Performs (left_in self.old) (stage_end_actions end) }
        ensures next { IsTrue result → NamesNextStage end → after_instance (left_in self.old) [] ≡ left_in self.new }
        ensures unchanged { (self.new.turns ≡ self.old.turns) × (self.new.waits ≡ self.old.waits) × (self.new.stages ≡ self.old.stages) }
        ensures stopped { IsTrue result → end ≡ StageEnd.Stopped → stopped ≡ true }
    {
        if end == StageEnd::Stopped {
            return stopped;
        }
        self.pass() == end
    }
}

impl Stands for Plan {
    ghost use Rattle.book_tests.specs.PlanStates.{IsPlanAt, IsPlanOf, plan_tie};

    ghost whole = { IsPlanOf };

    ghost ready_at = { IsPlanAt };

    ghost tie = { plan_tie };

    ghost ready_whole = { λ tree input x i replies s. s.0 };
}

impl Payload<OmList> for Plan {
    fn begin(&mut self, iteration: u32) {
        self.going = iteration < self.turns;
        self.here = 0;
        self.left = self.waits;
    }

    fn started(&mut self, _orders: &mut TwoOrders<OmList>) {}
}
