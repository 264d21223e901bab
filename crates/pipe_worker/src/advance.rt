//! An instance, from its token to how its iteration goes on.

ghost use Rattle.std.specs.Prelude.{◌≡◌};
ghost use Rattle.pipe_frame.specs.ResultTokens.{IfGo};
ghost use Rattle.pipe_frame.specs.SeatedTokens.{IsGivenToken};
ghost use Rattle.pipe_frame.specs.TokenCounts.{Exchanges, tokens_next};
ghost use Rattle.pipe_worker.specs.Machines.{CanDrive};

use crate::instance::run_instance;
use crate::lent::LentHall;
use crate::runs::Runs;
use pipe_frame::hall::Hall;
use pipe_frame::results::Next;
use pipe_frame::token::FrameToken;
use pipe_model::list::Numbers;
use pipe_model::stage::StageEnd;
use stage_code::code::Code;
use std::marker::Brand;
use std::sync::Wait;

/// Runs the instance of a token over the cells of the hall, and ends it. Returns how the iteration goes
/// on, the end of the instance, and its length. The token of a next instance is as `advance` of the hall returns it.
pub fn run_and_advance<R: Wait, M: Runs + Drop, H: Hall<M>>(
    rt: &R,
    code: &Code,
    input: &Numbers,
    hall: &mut H,
    token: FrameToken<M>,
) -> (Next<M>, StageEnd, u64)
    requires drives { CanDrive M.code (H.named hall.old) code.now input.now }
    requires given { IsGivenToken M.ready_at M.tie (H.named hall.old) token }
    ensures named { H.named hall.new ≡ H.named hall.old }
    ensures tokens { Exchanges (tokens_next result.0) 1 (H.tokens hall.old) (H.tokens hall.new) }
    ensures token { IfGo result.0 (IsGivenToken M.ready_at M.tie (H.named hall.old)) }
{
    let lent = LentHall { hall };
    let (lent, token, trace, end, length) = run_instance::<R, M, H, Brand>(
        rt, code, input, lent, token,
    );
    let hall = lent.hall;
    let next = hall.advance(rt, token, end, trace);
    (next, end, length)
}
