//! The words as `clap` reads them: a required name, an optional number and the flag `--output`.
ghost use Rattle.std.specs.Prelude.{◌≡◌, IfOk, map};
ghost use Rattle.clap.specs.Words.{app_of, found_of, rows_of};
ghost use Rattle.gfx_words.specs.CommandLine.{accepted, command_line, command_matched, has_output};

use crate::table::{Command, command_named};
use clap::error::ErrorKind;
use clap::{Arg, ArgAction, ArgMatches};
use std::alloc::{AllocError, Global};

const NAME: &str = "command";

const NUMBER: &str = "number";

const OUTPUT: &str = "output";

/// The command that the words behind the program's name are, as this project's own table has them.
///
/// `None` is a usage error: words that `clap` refuses, a request for help, and words that it takes
/// and the table doesn't have. The only error is want of memory.
pub fn command_of(alloc: Global, words: &[&str]) -> Result<Option<Command>, AllocError>
    ensures { IfOk result (λ found. found ≡ accepted (map (λ word. word.now) words.now)) }
{
    match command_line(alloc)?.try_get_matches_from(words) {
        Ok(matches) => Ok(command_matched(&matches)),
        Err(error) if error.kind() == ErrorKind::OutOfMemory => Err(AllocError),
        Err(_) => Ok(None),
    }
}

fn command_line<'a>(alloc: Global) -> Result<clap::Command<'a>, AllocError>
    ensures { IfOk result (λ line. app_of line ≡ command_line) }
{
    let name = Arg::new(alloc, NAME).required(true);
    let number = Arg::new(alloc, NUMBER);
    let output = Arg::new(alloc, OUTPUT)
        .long("output")
        .action(ArgAction::SetTrue);
    clap::Command::new(alloc, "gfxpipe")
        .no_binary_name(true)
        .arg(name)?
        .arg(number)?
        .arg(output)
}

fn command_matched(matches: &ArgMatches<'_>) -> Option<Command>
    ensures { result ≡ command_matched (rows_of (found_of matches.now)) }
{
    command_named(
        matches.get_str(NAME),
        has_output(matches),
        matches.get_str(NUMBER),
    )
}

fn has_output(matches: &ArgMatches<'_>) -> bool
    ensures { result ≡ has_output (rows_of (found_of matches.now)) }
{
    match matches.get_str(OUTPUT) {
        Some(text) => text == "true",
        None => false,
    }
}
