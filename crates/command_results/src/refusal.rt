//! The lines that refuse a source or an input, and those that refuse a program as a wave loop.

ghost use Rattle.std.specs.Prelude.{◌≡◌, ℕ, pos, slice_get, Some, IfOk};
ghost use Rattle.pipe_model.specs.Texts.{numbered_line};
ghost use Rattle.command_results.specs.InputLines.{IsInputLine};
ghost use Rattle.command_results.specs.RefusalLines.{IsCheckLine, IsLexicalLine, IsSyntaxLine, HasPlace, HasPlaceAt, HasWavePlace};
ghost use Rattle.command_results.specs.RefusalLines.{IsWaveFaultLine};

use crate::text::line;
use pipe_check::fault::CheckFault;
use pipe_io::input_fault::InputFault;
use pipe_lexer::fault::LexFault;
use pipe_model::list::Bytes;
use pipe_model::memory::NoMemory;
use pipe_parser::parse::ParseFault;
use std::alloc::Global;
use wave_lower::fault::WaveFault;

/// Builds a line that ends in a number. Returns an error only if memory runs out.
pub fn numbered_line(alloc: Global, before: &str, number: u32) -> Result<Bytes, NoMemory>
    ensures { IfOk result (λ bytes. bytes ≡ numbered_line before.now number) }
{
    let text = format!(in alloc; "{before}{number}\n")?;
    Ok(Bytes::from_vec(text.into_bytes()))
}

/// Builds the line of a fault of the lexer. Returns an error only if memory runs out or the fault
/// is `NoMemory`.
pub fn lexical_line(alloc: Global, fault: LexFault) -> Result<Bytes, NoMemory>
    ensures { IfOk result (λ bytes. IsLexicalLine fault bytes) }
{
    match fault {
        LexFault::BadByte(place) => numbered_line(alloc, "refused source BadByte at ", place),
        LexFault::TooWide(place) => numbered_line(alloc, "refused source TooWide at ", place),
        LexFault::SourceTooLong => line(alloc, "refused source SourceTooLong\n"),
        LexFault::NameTooLong(place) => {
            numbered_line(alloc, "refused source NameTooLong at ", place)
        }
        LexFault::NoMemory => Err(NoMemory),
    }
}

/// Builds the line of a fault of the parser. Returns an error only if memory runs out or the fault
/// is `NoMemory`.
pub fn syntax_line(alloc: Global, fault: ParseFault) -> Result<Bytes, NoMemory>
    ensures { IfOk result (λ bytes. IsSyntaxLine fault bytes) }
{
    match fault {
        ParseFault::Unexpected(place) => numbered_line(
            alloc,
            "refused source Unexpected at ",
            place,
        ),
        ParseFault::TooDeep(place) => numbered_line(alloc, "refused source TooDeep at ", place),
        ParseFault::TooLong(place) => numbered_line(alloc, "refused source TooLong at ", place),
        ParseFault::NoMemory => Err(NoMemory),
    }
}

// A line that ends in the offset of the mark with this number.
fn placed_line(alloc: Global, before: &str, places: &[i64], mark: u32) -> Result<Bytes, NoMemory>
    requires { HasPlaceAt places.now mark }
    ensures { IfOk result (λ bytes. (place : ℕ) × (slice_get places.now mark ≡ Some (pos place))
        × (bytes ≡ numbered_line before.now place)) }
{
    let place = places[mark as usize];
    let text = format!(in alloc; "{before}{place}\n")?;
    Ok(Bytes::from_vec(text.into_bytes()))
}

/// Builds the line of a fault of the checker; `places` are the offsets of the program's marks.
/// Returns an error only if memory runs out or the fault is `NoMemory`.
pub fn check_line(alloc: Global, fault: CheckFault, places: &[i64]) -> Result<Bytes, NoMemory>
    requires { HasPlace fault places.now }
    ensures { IfOk result (λ bytes. IsCheckLine fault places.now bytes) }
{
    match fault {
        CheckFault::LimitOut(which) => numbered_line(alloc, "refused check LimitOut ", which),
        CheckFault::Unknown(mark) => placed_line(alloc, "refused check Unknown at ", places, mark),
        CheckFault::Twice(mark) => placed_line(alloc, "refused check Twice at ", places, mark),
        CheckFault::PipeOutside(mark) => {
            placed_line(alloc, "refused check PipeOutside at ", places, mark)
        }
        CheckFault::TooManyCells(mark) => {
            placed_line(alloc, "refused check TooManyCells at ", places, mark)
        }
        CheckFault::TooManyLocals(mark) => {
            placed_line(alloc, "refused check TooManyLocals at ", places, mark)
        }
        CheckFault::NotAnArray(mark) => {
            placed_line(alloc, "refused check NotAnArray at ", places, mark)
        }
        CheckFault::NeedsIndex(mark) => {
            placed_line(alloc, "refused check NeedsIndex at ", places, mark)
        }
        CheckFault::ZeroSize(mark) => placed_line(
            alloc,
            "refused check ZeroSize at ",
            places,
            mark,
        ),
        CheckFault::NoMemory => Err(NoMemory),
    }
}

/// Builds the line of a fault of an input. Returns an error only if memory runs out or the fault is
/// `NoMemory`.
pub fn input_line(alloc: Global, fault: InputFault) -> Result<Bytes, NoMemory>
    ensures { IfOk result (λ bytes. IsInputLine fault bytes) }
{
    match fault {
        InputFault::BadByte(place) => numbered_line(alloc, "refused input BadByte at ", place),
        InputFault::TooWide(place) => numbered_line(alloc, "refused input TooWide at ", place),
        InputFault::TooMany(place) => numbered_line(alloc, "refused input TooMany at ", place),
        InputFault::TooLong => line(alloc, "refused input TooLong\n"),
        InputFault::NoMemory => Err(NoMemory),
    }
}

/// Builds the line of a fault of a wave loop; `places` are the offsets of the program's marks. Returns
/// an error only if memory runs out or the fault is `NoMemory`.
pub fn wave_line(alloc: Global, fault: WaveFault, places: &[i64]) -> Result<Bytes, NoMemory>
    requires { HasWavePlace fault places.now }
    ensures { IfOk result (λ bytes. IsWaveFaultLine fault places.now bytes) }
{
    match fault {
        WaveFault::BadTest => line(alloc, "refused wave BadTest\n"),
        WaveFault::NoRow => line(alloc, "refused wave NoRow\n"),
        WaveFault::HasStage(mark) => {
            placed_line(alloc, "refused wave HasStage at ", places, mark)
        }
        WaveFault::RowSet(mark) => placed_line(alloc, "refused wave RowSet at ", places, mark),
        WaveFault::NoMemory => Err(NoMemory),
    }
}
