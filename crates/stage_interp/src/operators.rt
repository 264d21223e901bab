//! Values of operators and calls.

ghost use Rattle.std.specs.Prelude.{◌≡◌, ◌+ℤ◌, ◌<◌, ◌+◌, ℕ, pos, int_lt, length};
ghost use Rattle.pipe_model.specs.Language.Evaluation as evaluation;
ghost use Rattle.pipe_model.specs.Language.Programs.{natural};
ghost use Rattle.pipe_model.specs.declared.operator_codes.TheConstants as operator_codes;
ghost use Rattle.std.specs.Ordering.{int_eq};
ghost use Rattle.stage_interp.specs.CellNumbers.{most_cell_ids};
ghost use Rattle.stage_interp.specs.Results.{IsResult, IsCellResult, IsTaken};

use pipe_model::access::CellId;
use pipe_model::list::Numbers;
use pipe_model::operator_codes::{
    AT_LEAST, AT_MOST, EQUAL, GREATER, LESS, MINUS, NEGATIVE, NOT, PLUS, QUOTIENT, REMAINDER,
    TIMES, UNEQUAL,
};
use pipe_model::trap::Trap;
use stage_code::code::Code;

// Returns 1 for true and 0 for false.
#[inline(always)]
fn truth(b: bool) -> i64
    ensures { result ≡ evaluation.truth b }
{
    i64::from(b)
}

// Returns the sum, if it fits.
#[inline(always)]
fn sum(a: i64, b: i64) -> Result<i64, Trap>
    ensures { IsResult result (evaluation.operate operator_codes.PLUS a b) }
{
    match a.checked_add(b) {
        Some(v) => Ok(v),
        None => Err(Trap::Overflow),
    }
}

// Returns the difference, if it fits.
#[inline(always)]
fn difference(a: i64, b: i64) -> Result<i64, Trap>
    ensures { IsResult result (evaluation.operate operator_codes.MINUS a b) }
{
    match a.checked_sub(b) {
        Some(v) => Ok(v),
        None => Err(Trap::Overflow),
    }
}

// Returns the product, if it fits.
#[inline(always)]
fn product(a: i64, b: i64) -> Result<i64, Trap>
    ensures { IsResult result (evaluation.operate operator_codes.TIMES a b) }
{
    match a.checked_mul(b) {
        Some(v) => Ok(v),
        None => Err(Trap::Overflow),
    }
}

// Returns the quotient, if there is one.
#[inline(always)]
fn divided(a: i64, b: i64) -> Result<i64, Trap>
    ensures { IsResult result (evaluation.operate operator_codes.QUOTIENT a b) }
{
    if b == 0 {
        return Err(Trap::DivZero);
    }
    a.checked_div(b).ok_or(Trap::Overflow)
}

// Returns the remainder, if there is a quotient.
#[inline(always)]
fn remainder(a: i64, b: i64) -> Result<i64, Trap>
    ensures { IsResult result (evaluation.operate operator_codes.REMAINDER a b) }
{
    if b == 0 {
        return Err(Trap::DivZero);
    }
    a.checked_rem(b).ok_or(Trap::Overflow)
}

// Returns the value of a binary operator other than `&&` and `||`; 0 if no operator has the code.
#[inline(always)]
pub fn operate(code: u8, a: i64, b: i64) -> Result<i64, Trap>
    ensures { IsResult result (evaluation.operate code a b) }
{
    match code {
        EQUAL => Ok(truth(a == b)),
        UNEQUAL => Ok(truth(a != b)),
        LESS => Ok(truth(a < b)),
        AT_MOST => Ok(truth(a <= b)),
        GREATER => Ok(truth(a > b)),
        AT_LEAST => Ok(truth(a >= b)),
        PLUS => sum(a, b),
        MINUS => difference(a, b),
        TIMES => product(a, b),
        QUOTIENT => divided(a, b),
        REMAINDER => remainder(a, b),
        _ => Ok(0),
    }
}

// Returns the value of a unary operator; 0 if no operator has the code.
#[inline(always)]
pub fn operate_one(code: u8, a: i64) -> Result<i64, Trap>
    ensures { IsResult result (evaluation.operate_one code a) }
{
    match code {
        NEGATIVE => a.checked_neg().ok_or(Trap::Overflow),
        NOT => Ok(truth(a == 0)),
        _ => Ok(0),
    }
}

// Returns a limit as a natural number: 0 if it is negative.
#[inline(always)]
pub fn natural(limit: i64) -> u64
    ensures { result ≡ natural limit }
{
    if limit < 0 {
        return 0;
    }
    limit as u64
}

// Returns whether as many numbers are emitted as the limit allows.
#[inline(always)]
pub fn is_full(code: &Code, emitted: i64) -> bool
    ensures { result ≡ int_eq emitted (pos (natural code.now.limits.emits)) }
{
    emitted >= 0 && emitted as u64 == natural(code.limits().emits)
}

// Returns the number of the stage after this one.
#[inline(always)]
pub fn next_number(number: i64) -> Result<i64, Trap>
    ensures { IsResult result (evaluation.fitting (number +ℤ pos 1)) }
{
    number.checked_add(1).ok_or(Trap::Overflow)
}

// Returns the cell of an element of an array.
#[inline(always)]
pub fn element(first: CellId, size: u32, i: i64) -> Result<CellId, Trap>
    requires { (k : ℕ) → i ≡ pos k → k < size → first.0 + k < most_cell_ids }
    ensures { IsCellResult result (evaluation.element_in first.0 size i) }
{
    if i < 0 || i >= i64::from(size) {
        return Err(Trap::Index);
    }
    Ok(CellId(first.0 + i as u32))
}

// Returns 1 if an input number is left at the cursor, and else 0.
#[inline(always)]
pub fn more(input: &Numbers, cursor: i64) -> i64
    ensures { result ≡ evaluation.truth (int_lt cursor (pos (length input.now))) }
{
    if cursor < 0 {
        return 1;
    }
    truth((cursor as u64) < input.len() as u64)
}

// Returns the next cursor and the input number at this one.
#[inline(always)]
pub fn taken(input: &Numbers, cursor: i64) -> Result<(i64, i64), Trap>
    ensures { IsTaken result (evaluation.take_at input.now cursor) }
{
    let items = input.as_slice();
    if cursor < 0 || cursor as u64 >= items.len() as u64 {
        return Err(Trap::InputEnd);
    }
    Ok((cursor + 1, items[cursor as usize]))
}
