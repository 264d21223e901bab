//! The lines of a run without a race: its output and its trap.

ghost use Rattle.std.specs.Prelude.{◌≡◌, ◌++◌, codes, IfOk, OnOk, string_bytes};
ghost use Rattle.std.specs.Fmt.{signed_decimal};
ghost use Rattle.pipe_model.specs.Texts.{output_lines, trap_line, trap_lines, trap_name, trap_place};

use pipe_model::list::{Bytes, Numbers};
use pipe_model::memory::NoMemory;
use pipe_model::trap::{Trap, TrapAt, TrapPlace};
use std::alloc::{AllocError, Global};

// Appends the line of an emitted number.
fn push_number(text: &mut String, number: i64) -> Result<(), AllocError>
    ensures { OnOk result (string_bytes text.new ≡ string_bytes text.old ++ (signed_decimal number ++ codes "\n")) }
{
    writeln!(text, "{number}")
}

/// Returns the name of a trap, as printed lines have it.
pub fn name_of(trap: Trap) -> &'static str
    ensures { result.now ≡ trap_name trap }
{
    match trap {
        Trap::Overflow => "Overflow",
        Trap::DivZero => "DivZero",
        Trap::Index => "Index",
        Trap::Budget => "Budget",
        Trap::StageOrder => "StageOrder",
        Trap::StageLimit => "StageLimit",
        Trap::InputEnd => "InputEnd",
        Trap::IterLimit => "IterLimit",
        Trap::OutputLimit => "OutputLimit",
    }
}

// Appends the line of a trap.
fn push_trap(text: &mut String, at: TrapAt) -> Result<(), AllocError>
    ensures { OnOk result (string_bytes text.new ≡ string_bytes text.old ++ trap_line at) }
{
    let name = name_of(at.trap);
    match at.place {
        TrapPlace::Init => writeln!(text, "trap {name} in init"),
        TrapPlace::At(node, number) => {
            let iteration = node.iteration;
            writeln!(text, "trap {name} at {iteration}/{number}")
        }
        TrapPlace::Last => writeln!(text, "trap {name} in final"),
    }
}

fn number_lines(alloc: Global, output: &[i64]) -> Result<String, AllocError>
    ensures { IfOk result (λ text. string_bytes text ≡ output_lines output.now) }
{
    let mut text = String::new(alloc);
    for number in output {
        push_number(&mut text, *number)?;
    }
    Ok(text)
}

/// Builds the lines of a run: its output, and then its trap, if it has one. Returns an error only
/// if memory runs out.
pub fn outcome_text(
    alloc: Global,
    output: &Numbers,
    trap: Option<TrapAt>,
) -> Result<Bytes, NoMemory>
    ensures { IfOk result (λ bytes. bytes ≡ output_lines output.now ++ trap_lines trap) }
{
    let mut text = number_lines(alloc, output.as_slice())?;
    if let Some(at) = trap {
        push_trap(&mut text, at)?;
    }
    Ok(Bytes::from_vec(text.into_bytes()))
}
