//! How an iteration goes on after one of its instances.

ghost use Rattle.std.specs.Prelude.{◌≢◌};
ghost use Rattle.frame_rows.specs.Courses.{IsCourseAfter};

use pipe_model::column::ColumnEnd;
use pipe_model::node::Kind;
use pipe_model::stage::StageEnd;

/// How an iteration goes on after an instance.
pub enum Course {
    /// At a stage of this kind and number.
    Stage(Kind, i64),
    /// Not at all: it has ended.
    Over(ColumnEnd),
}

/// Returns how the iteration goes on after an instance with this end.
pub fn course_after(end: StageEnd) -> Course
    requires { end ≢ StageEnd.Stopped }
    ensures { IsCourseAfter end result }
{
    match end {
        StageEnd::Wait(number) => Course::Stage(Kind::Wait, number),
        StageEnd::Continue(number) => Course::Stage(Kind::Continue, number),
        StageEnd::End => Course::Over(ColumnEnd::End),
        StageEnd::Closed => Course::Over(ColumnEnd::Closed),
        StageEnd::Trap(trap) => Course::Over(ColumnEnd::Trapped(trap)),
        StageEnd::Stopped => unreachable!(),
    }
}
