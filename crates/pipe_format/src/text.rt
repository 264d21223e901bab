//! Parts of lines.

ghost use Rattle.std.specs.Prelude.{◌≡◌, ◌++◌, OnOk, replicate};
ghost use Rattle.std.specs.Fmt.{signed_decimal};
ghost use Rattle.pipe_model.specs.Language.CanonicalText.{line};

use pipe_model::memory::NoMemory;
use std::io::Write;

/// Appends a number in decimal, with `-` if it is negative. Returns an error only if memory runs
/// out.
pub fn push_number(text: &mut Vec<u8>, number: i64) -> Result<(), NoMemory>
    ensures { OnOk result (text.new.items ≡ text.old.items ++ signed_decimal number) }
{
    write!(text, "{number}").map_err(|_| NoMemory)
}

/// Appends `indent` spaces and then the bytes. Returns an error only if memory runs out.
pub fn push_indented(text: &mut Vec<u8>, indent: usize, bytes: &[u8]) -> Result<(), NoMemory>
    ensures { OnOk result (text.new.items ≡ text.old.items ++ (replicate indent 32 ++ bytes.now)) }
{
    for _ in 0..indent {
        text.push(b' ')?;
    }
    text.extend_from_slice(bytes)?;
    Ok(())
}

/// Appends a line: `indent` spaces, the bytes and a line feed. Returns an error only if memory runs
/// out.
pub fn push_line(text: &mut Vec<u8>, indent: usize, bytes: &[u8]) -> Result<(), NoMemory>
    ensures { OnOk result (text.new.items ≡ text.old.items ++ line indent bytes.now) }
{
    push_indented(text, indent, bytes)?;
    text.push(b'\n')?;
    Ok(())
}
