//! The lines of frames.
ghost use Rattle.std.specs.Prelude.{◌≡◌, ◌++◌, OnOk};
ghost use Rattle.std.specs.List.{flat_map};
ghost use Rattle.gfx_generator.specs.Draws.{several};
ghost use Rattle.gfx_generator.specs.Steps.{step, frame};
ghost use Rattle.gfx_generator.specs.Texts.{step_text, frame_text};

use crate::drawing::draw_step;
use crate::generator::Generator;
use crate::texts::step_text;
use gfx_base::{Bytes, NoMemory};

/// How many steps are drawn for a frame.
const STEPS: u16 = 3;

/// Draws so many frames, and puts their lines at the end.
pub(crate) fn put_frames(
    count: u16,
    generator: &mut Generator,
    text: &mut Bytes,
) -> Result<(), NoMemory>
    ensures text { OnOk result (text.new ≡ text.old ++ flat_map frame_text (several count frame generator.old).value) }
    ensures state { OnOk result (generator.new ≡ (several count frame generator.old).state) }
{
    'frames: for _ in 0..count {
        put_frame(generator, text)?;
    }
    Ok(())
}

/// Draws a frame, and puts its lines at the end.
#[tactic(auto, unfolding(crate::specs::Texts::frame_text))]
fn put_frame(generator: &mut Generator, text: &mut Bytes) -> Result<(), NoMemory>
    ensures text { OnOk result (text.new ≡ text.old ++ frame_text (frame generator.old).value) }
    ensures state { OnOk result (generator.new ≡ (frame generator.old).state) }
{
    put_steps(STEPS, generator, text)?;
    text.append(b"{ do = \"frame\" },\n")
}

/// Draws so many steps, and puts their lines at the end.
fn put_steps(count: u16, generator: &mut Generator, text: &mut Bytes) -> Result<(), NoMemory>
    ensures text { OnOk result (text.new ≡ text.old ++ flat_map step_text (several count step generator.old).value) }
    ensures state { OnOk result (generator.new ≡ (several count step generator.old).state) }
{
    'steps: for _ in 0..count {
        let step = draw_step(generator);
        text.append(step_text(step).as_slice())?;
    }
    Ok(())
}
