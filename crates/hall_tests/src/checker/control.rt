//! The control part: which iterations have begun, and what each does.

use crate::checker::Verdict;
use pipe_model::column::ColumnEnd;
use pipe_model::event::Event;
use pipe_model::node::Kind;
use pipe_model::status::Status;
use std::alloc::Global;

// An iteration: how many instances it has entered, the number of the last one's stage, and its
// status.
#[derive(Clone, Copy)]
struct Iteration {
    instances: u64,
    stage: i64,
    status: Status,
}

const BEGUN: Iteration = Iteration {
    instances: 1,
    stage: 0,
    status: Status::Running,
};

// Whether the end closes the loop, if instance 0 has it.
fn closes(end: ColumnEnd) -> bool {
    match end {
        ColumnEnd::End => false,
        ColumnEnd::Closed => true,
        ColumnEnd::Trapped(_) => true,
    }
}

impl Iteration {
    // Whether it has not ended.
    fn is_alive(self) -> bool {
        match self.status {
            Status::Completed(_) => false,
            Status::Running | Status::Pending(_, _) => true,
        }
    }

    // Whether it runs an instance.
    fn is_running(self) -> bool {
        self.status == Status::Running
    }

    // Whether its instance 0 has ended, and did not close the loop.
    fn continues_loop(self) -> bool {
        match self.status {
            Status::Running => self.instances > 1,
            Status::Pending(_, _) => true,
            Status::Completed(end) => self.instances > 1 || !closes(end),
        }
    }

    // Whether its instance 0 has closed the loop.
    fn has_closed_loop(self) -> bool {
        match self.status {
            Status::Running | Status::Pending(_, _) => false,
            Status::Completed(end) => self.instances == 1 && closes(end),
        }
    }

    // Whether it is past this stage: it has named a greater number, or has ended.
    fn has_passed(self, stage: i64) -> bool {
        match self.status {
            Status::Running => self.stage > stage,
            Status::Pending(_, named) => named > stage,
            Status::Completed(_) => true,
        }
    }

    // After it has entered the stage that it has named.
    fn entered(self) -> Iteration {
        match self.status {
            Status::Pending(_, stage) => Iteration {
                instances: self.instances.saturating_add(1),
                stage,
                status: Status::Running,
            },
            Status::Running | Status::Completed(_) => self,
        }
    }
}

// The iterations that have begun, and whether the run was stopped.
#[derive(Drop)]
struct Control {
    iterations: Vec<Iteration>,
    stopped: bool,
}

impl Control {
    fn get(&self, iteration: u32) -> Option<Iteration> {
        self.iterations.get(iteration as usize).copied()
    }

    // How many iterations have not ended.
    fn alive(&self) -> u64 {
        let mut alive = 0u64;
        for iteration in self.iterations.iter() {
            if iteration.is_alive() {
                alive = alive.saturating_add(1);
            }
        }
        alive
    }

    // Whether the next iteration may begin, and has this number.
    fn may_begin(&self, throttle: u32, iteration: u32) -> bool {
        let follows = match self.iterations.last() {
            Some(last) => last.continues_loop(),
            None => true,
        };
        iteration as usize == self.iterations.len() && self.alive() < u64::from(throttle) && follows
    }

    // Whether an iteration has begun, and is past this stage.
    fn has_passed(&self, iteration: u32, stage: i64) -> bool {
        match self.get(iteration) {
            Some(passing) => passing.has_passed(stage),
            None => false,
        }
    }

    // Whether an iteration has named a stage that does not wait, or that its left neighbour has passed.
    fn may_enter(&self, iteration: u32) -> bool {
        let Some(entering) = self.get(iteration) else {
            return false;
        };
        match entering.status {
            Status::Pending(Kind::Wait, stage) => match iteration.checked_sub(1) {
                Some(left) => self.has_passed(left, stage),
                None => true,
            },
            Status::Pending(_, _) => true,
            Status::Running | Status::Completed(_) => false,
        }
    }

    // The iteration, if it runs an instance.
    fn running(&self, iteration: u32) -> Option<Iteration> {
        let found = self.get(iteration)?;
        if found.is_running() {
            Some(found)
        } else {
            None
        }
    }

    // Whether the instance that an iteration runs may name a stage.
    fn may_name(&self, iteration: u32, kind: Kind, stage: i64) -> bool {
        match self.running(iteration) {
            Some(naming) => kind != Kind::Zero && naming.stage < stage,
            None => false,
        }
    }

    // Whether an iteration may end so.
    fn may_finish(&self, iteration: u32, end: ColumnEnd) -> bool {
        match self.running(iteration) {
            Some(ending) => end != ColumnEnd::Closed || ending.instances == 1,
            None => false,
        }
    }

    // Whether an event may come next.
    fn allows(&self, throttle: u32, event: Event) -> bool {
        match event {
            Event::Begin(i) => self.may_begin(throttle, i),
            Event::Access(i, _) => self.running(i).is_some(),
            Event::Advance(i, kind, stage) => self.may_name(i, kind, stage),
            Event::Enter(i) => self.may_enter(i),
            Event::Finish(i, end) => self.may_finish(i, end),
            Event::Stop => true,
        }
    }

    fn set(&mut self, iteration: u32, changed: Iteration) {
        let index = iteration as usize;
        if index < self.iterations.len() {
            self.iterations[index] = changed;
        }
    }

    fn set_status(&mut self, iteration: u32, status: Status) {
        if let Some(changed) = self.get(iteration) {
            self.set(iteration, Iteration { status, ..changed });
        }
    }

    // Enters the stage that an iteration has named.
    fn enter(&mut self, iteration: u32) {
        if let Some(entering) = self.get(iteration) {
            self.set(iteration, entering.entered());
        }
    }

    // Makes an event. Returns whether there is memory for that.
    fn make(&mut self, event: Event) -> bool {
        match event {
            Event::Begin(_) => return self.iterations.push(BEGUN).is_ok(),
            Event::Access(_, _) => {}
            Event::Advance(i, kind, stage) => self.set_status(i, Status::Pending(kind, stage)),
            Event::Enter(i) => self.enter(i),
            Event::Finish(i, end) => self.set_status(i, Status::Completed(end)),
            Event::Stop => self.stopped = true,
        }
        true
    }

    // Whether all iterations have ended, and the loop is closed.
    fn is_finished(&self) -> bool {
        let closed = match self.iterations.last() {
            Some(last) => last.has_closed_loop(),
            None => false,
        };
        closed && self.alive() == 0
    }

    // Makes the events, up to the first that is not allowed. At the end, the run has to be finished.
    fn verdict(&mut self, throttle: u32, events: &[Event]) -> Verdict {
        for (index, event) in events.iter().enumerate() {
            if self.stopped || !self.allows(throttle, *event) {
                return Verdict::Control(index);
            }
            if !self.make(*event) {
                return Verdict::OutOfMemory;
            }
        }
        if self.is_finished() {
            Verdict::Finished
        } else {
            Verdict::Control(events.len())
        }
    }
}

/// Returns what is wrong with the control part of a log.
pub fn control_verdict(alloc: Global, throttle: u32, events: &[Event]) -> Verdict {
    let mut control = Control {
        iterations: Vec::new(alloc),
        stopped: false,
    };
    control.verdict(throttle, events)
}
