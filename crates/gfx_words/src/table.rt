//! The commands, and the words that name each of them.
ghost use Rattle.std.specs.Prelude.{◌≡◌, option_map};
ghost use Rattle.std.specs.Char.{is_ascii_digit};
ghost use Rattle.std.specs.List.{list_all};
ghost use Rattle.gfx_words.specs.Table.{command_named, is_numeral, number_of, numbered_command, output_command, plain_command};

/// The line that a caller prints where the words are no command, without its newline.
pub const USAGE: &str =
    "usage: gfxpipe encode | render [--output] | audit | session | make N | trial N | import | fragment | join";

/// A number is written with at most so many digits.
const MOST_DIGITS: usize = 10;

/// A command of `gfxpipe`.
#[derive(Clone, Copy, Debug, PartialEq, Eq)]
pub enum Command {
    /// Reads a script and writes its stream of channel messages.
    Encode,
    /// Reads a stream of channel messages and writes the pixels of all its surfaces.
    Render,
    /// Reads a stream of channel messages and writes the pixels of its output.
    RenderOutput,
    /// Reads a stream of channel messages and writes a line for each, and at its end what a client then holds.
    Audit,
    /// Reads a script, plays its session and writes a line for each acknowledged frame.
    Session,
    /// Writes the script of a number.
    Make(u32),
    /// Plays the session of the script of a number and writes a line of its last acknowledgement.
    Trial(u32),
    /// Reads two files of kept bitmaps and a script, plays its session, which begins with them, and writes a line for each
    /// acknowledged frame.
    Import,
    /// Reads a stream of channel messages and writes its recording of fragments.
    Fragment,
    /// Reads a recording of fragments and writes its stream of channel messages.
    Join,
}

/// The command that its name, the text of the number behind it and the flag `--output` make.
pub(crate) fn command_named(
    name: Option<&str>,
    has_output: bool,
    number: Option<&str>,
) -> Option<Command>
    ensures { result ≡ command_named (option_map (λ text. text.now) name.entry) has_output
        (option_map (λ text. text.now) number.entry) }
{
    match (name, has_output, number) {
        (Some(name), false, None) => plain_command(name),
        (Some(name), true, None) => output_command(name),
        (Some(name), false, Some(text)) => numbered_command(name, number_of(text)?),
        _ => None,
    }
}

#[tactic(auto, unfolding(crate::specs::Table::plain_command))]
fn plain_command(name: &str) -> Option<Command>
    ensures { result ≡ plain_command name.now }
{
    match name {
        "encode" => Some(Command::Encode),
        "render" => Some(Command::Render),
        "audit" => Some(Command::Audit),
        "session" => Some(Command::Session),
        "import" => Some(Command::Import),
        "fragment" => Some(Command::Fragment),
        "join" => Some(Command::Join),
        _ => None,
    }
}

#[tactic(auto, unfolding(crate::specs::Table::output_command))]
fn output_command(name: &str) -> Option<Command>
    ensures { result ≡ output_command name.now }
{
    match name {
        "render" => Some(Command::RenderOutput),
        _ => None,
    }
}

#[tactic(auto, unfolding(crate::specs::Table::numbered_command))]
fn numbered_command(name: &str, number: u32) -> Option<Command>
    ensures { result ≡ numbered_command name.now number }
{
    match name {
        "make" => Some(Command::Make(number)),
        "trial" => Some(Command::Trial(number)),
        _ => None,
    }
}

/// The number that one to ten decimal digits write, where it fits 32 bits.
fn number_of(text: &str) -> Option<u32>
    ensures { result ≡ number_of text.now }
{
    if is_numeral(text) {
        text.parse().ok()
    } else {
        None
    }
}

/// The text is one to ten decimal digits and nothing else, so no sign either.
fn is_numeral(text: &str) -> bool
    ensures { result ≡ is_numeral text.now }
{
    (1..=MOST_DIGITS).contains(&text.len()) && is_digits(text)
}

fn is_digits(text: &str) -> bool
    ensures { result ≡ list_all is_ascii_digit text.now }
{
    text.as_bytes().iter().all(|byte| byte.is_ascii_digit())
}
