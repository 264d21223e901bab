//! The lines that a call prints.

ghost use Rattle.std.specs.Prelude.{◌≡◌, ◌++◌, codes, IfOk};

use pipe_model::list::Bytes;
use pipe_model::memory::NoMemory;
use std::alloc::Global;

/// Copies a line, which is printed as it is. Returns an error only if memory runs out.
pub fn line(alloc: Global, text: &str) -> Result<Bytes, NoMemory>
    ensures { IfOk result (λ bytes. bytes ≡ text.now) }
{
    Ok(Bytes::from_vec(text.as_bytes().to_vec(alloc)?))
}

/// Builds a line that ends in a name. Returns an error only if memory runs out.
pub fn named_line(alloc: Global, before: &str, name: &str) -> Result<Bytes, NoMemory>
    ensures { IfOk result (λ bytes. bytes ≡ before.now ++ (name.now ++ codes "\n")) }
{
    let text = format!(in alloc; "{before}{name}\n")?;
    Ok(Bytes::from_vec(text.into_bytes()))
}
