ghost use Rattle.std.specs.Prelude.{◌≡◌, ◌<◌, true, false, length, MatchOption};
ghost use Rattle.gfx_base.specs.Colour.{colours_of, has_colour, with_colour};
ghost use Rattle.gfx_clear_runs.specs.declared.palette.TheConstants.{PALETTE_MOST};

use crate::front::front_run;
use crate::palette::Colours;
use gfx_base::Rgb;

/// The colours of pixels, by first appearance; None exactly where they are more than a palette may have.
pub(crate) fn colours_of(pixels: &[Rgb]) -> Option<Colours>
    ensures { MatchOption result (PALETTE_MOST < length (colours_of pixels.now)) (λ colours. colours.items ≡ colours_of pixels.now) }
{
    let mut colours = Colours::new();
    let mut rest = pixels;
    'runs: while !rest.is_empty() {
        let colour = rest[0];
        if !take_colour(&mut colours, colour) {
            return None;
        }
        let count = front_run(colour, rest);
        let (_, after) = rest.split_at(count);
        rest = after;
    }
    Some(colours)
}

/// Puts a colour into a palette, unless it is there; false where there is no room for it.
#[tactic(auto, using(gfx_base::proofs::Palettes::length_with), unfolding(gfx_base::specs::Colour::with_colour))]
fn take_colour(colours: &mut Colours, colour: Rgb) -> bool
    ensures taken { result ≡ true → colours.new.items ≡ with_colour colours.old.items colour }
    ensures full { result ≡ false → PALETTE_MOST < length (with_colour colours.old.items colour) }
{
    if has_colour(colours, colour) {
        return true;
    }
    colours.try_push(colour).is_ok()
}

/// Whether a palette has this colour.
fn has_colour(colours: &Colours, colour: Rgb) -> bool
    ensures { result ≡ has_colour colours.now.items colour }
{
    colours.as_slice().iter().any(|held| colour.is_same(*held))
}
