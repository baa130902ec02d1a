//! The whole text.
ghost use Rattle.std.specs.Prelude.{◌≡◌, ◌++◌, IfOk, OnOk};
ghost use Rattle.gfx_generator.specs.Script.{script_text, head_text, noise_line};

use crate::frames::put_frames;
use crate::generator::Generator;
use crate::rounds::put_rounds;
use gfx_base::{Bytes, NoMemory};
use gfx_line::Line;
use std::alloc::Global;

/// How many frames are drawn.
const FRAMES: u16 = 100;

/// How many rounds of turns are drawn.
const ROUNDS: u16 = 300;

/// What stands above the line of the picture of noise.
const ABOVE_NOISE: &[u8] = b"window = 2\n\
    picture = [\n\
    { name = \"a\", width = 96, height = 80, pattern = \"text\" },\n";

/// What stands between that line and the first drawn step.
const BELOW_NOISE: &[u8] = b"{ name = \"c\", width = 128, height = 100, pattern = \"ramp\" },\n\
    ]\n\
    step = [\n\
    { do = \"surface\", id = 1, width = 256, height = 192 },\n\
    { do = \"frame\" },\n";

/// The text of the script with this number. Want of memory is its only error.
#[tactic(auto, unfolding(crate::specs::Script::script_text, crate::specs::Script::script))]
pub fn make_script(alloc: Global, seed: u32) -> Result<Bytes, NoMemory>
    ensures { IfOk result (λ text. text ≡ script_text seed) }
{
    let mut generator = Generator::new(seed);
    let mut text = Bytes::new(alloc);
    put_head(seed, &mut text)?;
    put_frames(FRAMES, &mut generator, &mut text)?;
    text.append(b"]\nturn = [\n")?;
    put_rounds(ROUNDS, &mut generator, &mut text)?;
    text.append(b"]\n")?;
    Ok(text)
}

/// Puts the lines above the first drawn step at the end.
#[tactic(auto, unfolding(crate::specs::Script::head_text))]
fn put_head(seed: u32, text: &mut Bytes) -> Result<(), NoMemory>
    ensures { OnOk result (text.new ≡ text.old ++ head_text seed) }
{
    text.append(ABOVE_NOISE)?;
    text.append(noise_line(seed).as_slice())?;
    text.append(BELOW_NOISE)
}

/// The line of the picture of noise.
#[tactic(auto, unfolding(crate::specs::Script::noise_line))]
fn noise_line(seed: u32) -> Line
    ensures { result ≡ noise_line seed }
{
    let mut line = Line::new();
    line.put(b"{ name = \"b\", width = 64, height = 64, pattern = \"noise\", seed = ");
    line.put_u16((seed % 65_536) as u16);
    line.put(b" },\n");
    line
}
