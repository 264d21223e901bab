//! How often a worker makes each call of a hall. One worker alone does one thing after another, so the
//! numbers are exact. The program has iterations 0 to 2 of two instances, and instance 0 of iteration 3
//! closes the loop. Instance 1 waits for instance 1 of the iteration before.

ghost use Rattle.std.specs.Prelude.{◌≡◌, ◌<◌};
ghost use Rattle.hall_tests.specs.PreparedPrograms.{IsPrepared};
ghost use Rattle.pipe_frame.specs.SeatedTokens.{IsGivenToken};
ghost use Rattle.pipe_model.specs.Language.SyntaxTree.{tree_of};
ghost use Rattle.pipe_worker.specs.Machines.{CanDrive};

use crate::counting::{Calls, Counting};
use crate::opening::open_new;
use crate::sources::{PREFIX_SUMS, Prepared, prepare};
use pipe_frame::hall::Hall;
use pipe_frame::results::{Begun, Next};
use pipe_frame::token::{FrameToken, Task};
use pipe_hall::seat::HallSeat;
use pipe_model::list::Numbers;
use pipe_worker::advance::run_and_advance;
use pipe_worker::gate::OpenGate;
use pipe_worker::runs::Runs;
use pipe_worker::worker::Worker;
use program_hall::carried::{Carried, RunCode};
use stage_code::code::Code;
use std::alloc::Global;
use std::marker::Brand;
use std::sync::Wait;
use work_deques::deques::deques;
use work_deques::ends::Ends;
use worker_threads::task_test::{DrivenHall, TestOf};

// For how many tasks a deque has room. The tests need no more.
const CAPACITY: u32 = 4;

// Where there are tasks when the worker starts: instance 1 of iteration 0, and after it instance 0 of
// iteration 1.
#[derive(Clone, Copy)]
enum Tasks {
    Nowhere,
    InOwnDeque,
    InOtherDeque,
}

// How many iterations may be alive, where there are tasks, and how often the worker makes each call.
type Row = (u32, Tasks, Calls);

static ROWS: [Row; 4] = [
    // The worker takes its tasks from its own deque. The book is asked for a task only at the start, when no
    // iteration has begun, and at the end, when it says that the run is finished. Iterations 1 to 3 begin by
    // the tasks that instance 0 of the one before leaves in the deque. Each of the four iterations ends, and
    // is never suspended.
    (
        4,
        Tasks::Nowhere,
        Calls {
            begin: 4,
            advance: 7,
            check_right: 4,
            rescue: 2,
            leave_ready: 0,
        },
    ),
    // The worker finds suspended iterations to the right. It pops (1, 0), and begins 2 and 3. Iterations 1
    // and 2 are suspended, 3 ends. Then it pops (0, 1), whose end lets it find (1, 1) to the right, and then
    // (2, 1). So it looks to the right after two suspensions and four ends, and asks the book only at the
    // end.
    (
        4,
        Tasks::InOwnDeque,
        Calls {
            begin: 2,
            advance: 6,
            check_right: 6,
            rescue: 1,
            leave_ready: 0,
        },
    ),
    // A throttled iteration begins by the book. As before, but 2 cannot begin while 0 and 1 are alive. So
    // the worker pops (0, 1) next, and finds (1, 1). Its deque is then empty, and the book lets it begin 2;
    // 3 begins by a task. It looks to the right after one suspension and four ends.
    (
        2,
        Tasks::InOwnDeque,
        Calls {
            begin: 3,
            advance: 6,
            check_right: 5,
            rescue: 2,
            leave_ready: 0,
        },
    ),
    // The worker steals before it asks the book. It steals (0, 1) and runs it, and then (1, 0), since it
    // looks at other deques before it asks the book. No iteration is suspended.
    (
        4,
        Tasks::InOtherDeque,
        Calls {
            begin: 2,
            advance: 6,
            check_right: 4,
            rescue: 1,
            leave_ready: 0,
        },
    ),
];

// The ends of the deques that two workers have.
#[derive(Drop)]
struct TwoEnds<J: DrivenHall, M: Runs + Drop> {
    own: Ends<Task<M>, TestOf<J, M>>,
    other: Ends<Task<M>, TestOf<J, M>>,
}

// Pushes the instance of a token.
fn push<J: DrivenHall, M: Runs + Drop>(ends: &mut Ends<Task<M>, TestOf<J, M>>, token: FrameToken<M>)
    requires { IsGivenToken M.ready_at M.tie J.named token }
{
    let _refused = ends.push(Task::Resume(token));
}

// Begins an iteration, and pushes its instance 0. Returns whether it has begun.
fn push_begun<J: DrivenHall, R: Wait, M: Runs + Drop, H: Hall<M>>(
    rt: &R,
    hall: &mut H,
    ends: &mut Ends<Task<M>, TestOf<J, M>>,
) -> bool
    requires named { H.named hall.old ≡ J.named }
    ensures named { H.named hall.new ≡ J.named }
{
    let Begun::Started(token) = hall.begin(rt) else {
        return false;
    };
    push(ends, token);
    true
}

// Begins an iteration, runs its instance 0, and pushes the next one. Returns whether there is one.
fn push_resumed<J: DrivenHall, R: Wait, M: Runs + Drop, H: Hall<M>>(
    rt: &R,
    code: &Code,
    input: &Numbers,
    hall: &mut H,
    ends: &mut Ends<Task<M>, TestOf<J, M>>,
) -> bool
    requires named { H.named hall.old ≡ J.named }
    requires drives { CanDrive M.code J.named code.now input.now }
    ensures named { H.named hall.new ≡ J.named }
{
    let Begun::Started(token) = hall.begin(rt) else {
        return false;
    };
    let (next, _end, _length) = run_and_advance(rt, code, input, hall, token);
    let Next::Go(token) = next else {
        return false;
    };
    push(ends, token);
    true
}

// Begins two iterations, and pushes their next instances. Returns false only if memory runs out.
fn push_two<J: DrivenHall, R: Wait, M: Runs + Drop, H: Hall<M>>(
    rt: &R,
    code: &Code,
    input: &Numbers,
    hall: &mut H,
    ends: &mut Ends<Task<M>, TestOf<J, M>>,
) -> bool
    requires named { H.named hall.old ≡ J.named }
    requires drives { CanDrive M.code J.named code.now input.now }
    ensures named { H.named hall.new ≡ J.named }
{
    push_resumed(rt, code, input, hall, ends) && push_begun(rt, hall, ends)
}

// Begins two iterations if there are tasks when the worker starts, and pushes these tasks.
fn push_tasks<J: DrivenHall, R: Wait, M: Runs + Drop, H: Hall<M>>(
    rt: &R,
    code: &Code,
    input: &Numbers,
    hall: &mut H,
    ends: &mut TwoEnds<J, M>,
    tasks: Tasks,
) -> bool
    requires named { H.named hall.old ≡ J.named }
    requires drives { CanDrive M.code J.named code.now input.now }
    ensures named { H.named hall.new ≡ J.named }
{
    match tasks {
        Tasks::Nowhere => true,
        Tasks::InOwnDeque => push_two(rt, code, input, hall, &mut ends.own),
        Tasks::InOtherDeque => push_two(rt, code, input, hall, &mut ends.other),
    }
}

// The ends of two workers, whose deques are empty; nothing if memory runs out.
fn two_ends<J: DrivenHall, M: Runs + Drop>(alloc: Global) -> Option<TwoEnds<J, M>> {
    let Ok(mut all) = deques::<Task<M>, TestOf<J, M>>(alloc, 2, CAPACITY) else {
        return None;
    };
    let (Some(other), Some(own)) = (all.pop(), all.pop()) else {
        unreachable!()
    };
    Some(TwoEnds { own, other })
}

// Runs a hall by a worker with these ends. Returns whether the worker makes each call this often.
fn work_with<J: DrivenHall, R: Wait, M: Runs + Drop, H: Hall<M> + Drop>(
    rt: &R,
    code: &Code,
    input: &Numbers,
    hall: H,
    own: Ends<Task<M>, TestOf<J, M>>,
    calls: Calls,
) -> bool
    requires named { H.named hall ≡ J.named }
    requires drives { CanDrive M.code J.named code.now input.now }
{
    let mut counting = Counting::new(hall);
    Worker::new(0, own).work(rt, code, input, &mut counting, &OpenGate);
    counting.has_counted(calls)
}

// Runs a hall by the first of two workers, of which the other does nothing. Returns whether the worker makes
// each call this often.
fn work_alone<J: DrivenHall, R: Wait, M: Runs + Drop, H: Hall<M> + Drop>(
    alloc: Global,
    rt: &R,
    code: &Code,
    input: &Numbers,
    hall: H,
    tasks: Tasks,
    calls: Calls,
) -> bool
    requires named { H.named hall ≡ J.named }
    requires drives { CanDrive M.code J.named code.now input.now }
{
    let mut hall = hall;
    let Some(mut ends) = two_ends::<J, M>(alloc) else {
        return false;
    };
    if !push_tasks(rt, code, input, &mut hall, &mut ends, tasks) {
        drop(ends);
        return false;
    }
    let TwoEnds { own, other } = ends;
    let are_made = work_with(rt, code, input, hall, own, calls);
    drop(other);
    are_made
}

// The same at a new hall of a program; false also if memory runs out.
fn work_at_hall<R: Wait, B: RunCode>(
    rt: &R,
    alloc: Global,
    prepared: &Prepared,
    throttle: u32,
    tasks: Tasks,
    calls: Calls,
) -> bool
    requires prepared { IsPrepared (tree_of prepared.now.checked) prepared.now.code }
    requires code { prepared.now.code ≡ B.code }
    requires throttle { 0 < throttle }
{
    let Ok((hall, key)) = open_new::<B>(alloc, prepared, throttle) else {
        return false;
    };
    let seat = HallSeat::new(&hall, key);
    let are_made = work_alone::<Brand, R, Carried<B>, HallSeat<Carried<B>>>(
        alloc,
        rt,
        &prepared.code,
        &prepared.input,
        seat,
        tasks,
        calls,
    );
    drop(hall);
    are_made
}

// Whether the worker makes the calls of a row for `PREFIX_SUMS`; false also if memory runs out.
fn are_made<R: Wait>(rt: &R, alloc: Global, row: &Row) -> bool {
    let (throttle, tasks, calls) = *row;
    if throttle == 0 {
        return false;
    }
    let Some(prepared) = prepare(alloc, PREFIX_SUMS) else {
        return false;
    };
    let are_made = work_at_hall::<R, Brand>(rt, alloc, &prepared, throttle, tasks, calls);
    drop(prepared);
    are_made
}

// The first row for which it makes others.
fn first_other<R: Wait>(rt: &R, alloc: Global) -> Option<usize> {
    for (index, row) in ROWS.iter().enumerate() {
        if !are_made(rt, alloc, row) {
            return Some(index);
        }
    }
    None
}

#[test]
fn a_worker_makes_just_these_calls(rt: HostRuntime) {
    let other = first_other(&rt, rt.alloc());
    assert!(rt; other.is_none(), "{other:?}");
}
