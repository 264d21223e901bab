//! The generated source and its input.

ghost use Rattle.std.specs.Prelude.{◌≡◌, ◌≤◌, ◌<◌, ◌++◌, IfOk, OnOk, string_bytes};
ghost use Rattle.pipe_gen.specs.Workload.{input_text, item, number_line, source_text};
ghost use Rattle.pipe_gen.specs.declared.choices.TheConstants as choices;
ghost use Rattle.pipe_gen.specs.declared.workload.TheConstants as workloads;

use crate::choices::choice;
use pipe_model::list::Bytes;
use pipe_model::memory::NoMemory;
use std::alloc::{AllocError, Global};

/// The greatest size of a workload. The least is 1.
pub const MOST_SIZE: u32 = 40_000;
/// The number of values of an item.
pub const ITEM_VALUES: u32 = 1_000;

const PIPELINE: &str = "cell sum = 0;
pipe_while (more()) {
  let x = take();
  pipe_continue(1);
  let a = x * 3 + 1;
  pipe_continue(2);
  a = a % 1024;
  pipe_continue(3);
  a = a * a;
  pipe_continue(4);
  a = a % 1000;
  pipe_wait(5);
  sum = sum + a;
  emit sum;
}
";

/// A source and its input.
#[derive(Drop)]
pub struct Generated {
    pub source: Bytes,
    pub input: Bytes,
}

// Item `index` of the input, counted from 1.
fn item(seed: u32, index: u32) -> u32
    requires seed { seed ≤ choices.MOST_SEED }
    requires index { index ≤ choices.MOST_INDEX }
    ensures { result ≡ item seed index }
{
    choice(seed, index) % ITEM_VALUES
}

// Appends a number on a line.
fn push_line(text: &mut String, number: u32) -> Result<(), AllocError>
    ensures { OnOk result (string_bytes text.new ≡ string_bytes text.old ++ number_line number) }
{
    writeln!(text, "{number}")
}

// The input of this seed and size.
fn input(alloc: Global, seed: u32, size: u32) -> Result<String, AllocError>
    requires seed { seed ≤ choices.MOST_SEED }
    requires size { size ≤ workloads.MOST_SIZE }
    ensures { IfOk result (λ text. string_bytes text ≡ input_text seed size) }
{
    let mut text = String::new(alloc);
    for k in 0..size {
        push_line(&mut text, item(seed, k + 1))?;
    }
    Ok(text)
}

// The source of this size.
fn source(alloc: Global, size: u32) -> Result<String, AllocError>
    ensures { IfOk result (λ text. string_bytes text ≡ source_text size) }
{
    let mut text = format!(in alloc;
        "limits iterations {size}, stages 6, steps 100, emits {size};\n"
    )?;
    text.push_str(PIPELINE)?;
    Ok(text)
}

/// Returns the source of this size and the input of this seed and size: `size` lines, each with an
/// item below 1,000. The seed is at most 65,535, and the size is from 1 to 40,000. Returns an error
/// only if memory runs out.
pub fn generate(alloc: Global, seed: u32, size: u32) -> Result<Generated, NoMemory>
    requires seed { seed ≤ choices.MOST_SEED }
    requires size { (1 ≤ size) × (size ≤ workloads.MOST_SIZE) }
    ensures source { IfOk result (λ made. made.source ≡ source_text size) }
    ensures input { IfOk result (λ made. made.input ≡ input_text seed size) }
{
    let source = source(alloc, size)?;
    let input = input(alloc, seed, size)?;
    Ok(Generated {
        source: Bytes::from_vec(source.into_bytes()),
        input: Bytes::from_vec(input.into_bytes()),
    })
}
