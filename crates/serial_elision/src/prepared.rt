//! A program that is to be run.

use pipe_check::checked::Checked;
use pipe_model::list::Numbers;
use stage_code::code::Code;

/// An accepted program with its code and an input.
#[derive(Drop)]
pub struct Prepared<'a> {
    pub checked: &'a Checked,
    pub code: &'a Code,
    pub input: &'a Numbers,
}
