//! The command line of `gfxpipe`: which command the words behind the program's name are.
//! `gfxpipe` asks this crate first, before it reads any input.
#![tactic(auto)]

mod laws;
mod line;
mod table;

pub use laws::{
    only_names_with_numbers_are_numbered_commands, only_render_and_its_flag_are_render_output,
    only_their_names_are_commands,
};
pub use line::command_of;
pub use table::{Command, USAGE};
