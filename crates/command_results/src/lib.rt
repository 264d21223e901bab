//! What each command of the program `cilkp` results in: its files, the refusal of a bad one, and the status, text, log and
//! reports of a call.
#![tactic(auto)]

pub mod bench;
pub mod command_result;
pub mod execute;
pub mod load;
mod prepare;
pub mod program_play;
pub mod program_run;
pub mod refusal;
mod saved_run;
pub mod text;
mod wave_loop;
mod work_and_span;
