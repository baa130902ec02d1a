//! The runs of one colour of a picture, counted.
ghost use Rattle.std.specs.Prelude.{◌≡◌, ℕ, List, ◌<◌, ◌≤◌, ◌+◌, ◌*◌, ◌-◌, ◌^◌, length};
ghost use Rattle.std.specs.List.{flat_map};
ghost use Rattle.gfx_base.specs.declared.pixel.Rgb.{Rgb as Colour};
ghost use Rattle.gfx_chooser.specs.Facts.{colours_in};
ghost use Rattle.gfx_clear_bands.specs.Writing.{black};
ghost use Rattle.gfx_clear_runs.specs.Lengths.{length_spelled};
ghost use Rattle.gfx_clear_runs.specs.Writing.{longest_runs, runs_written, segment_spelled};
ghost use Rattle.gfx_estimate.specs.Inner.{run_bytes, segment_bytes, taken, turned, IsFew};
ghost use Rattle.gfx_estimate.specs.Passes.{apart, step_between, steps_from};

use gfx_base::Rgb;
use gfx_script::Picture;

/// What the runs of a picture cost.
#[derive(Clone, Copy)]
pub(crate) struct RunSizes {
    /// How many bytes they have as a residual layer.
    pub(crate) residual: u64,
    /// How many bytes they have as segments of a palette.
    pub(crate) segments: u64,
    /// How large the steps from each pixel to the next are together.
    pub(crate) steps: u64,
}

/// The runs of a picture up to a pixel: what those that have ended cost, and the one under way.
#[derive(Clone, Copy)]
pub(crate) struct Runs {
    pub(crate) residual: u64,
    pub(crate) segments: u64,
    pub(crate) steps: u64,
    /// The colour of the run under way, and how many pixels it has so far; none before the first pixel.
    pub(crate) colour: Rgb,
    pub(crate) count: u32,
}

/// Before the first pixel.
const NO_RUNS: Runs = Runs {
    residual: 0,
    segments: 0,
    steps: 0,
    colour: Rgb { b: 0, g: 0, r: 0 },
    count: 0,
};

/// Counts the runs of a picture.
pub(crate) fn count_runs(picture: &Picture) -> RunSizes
    ensures residual { result.residual ≡ length (runs_written (colours_in picture.now)) }
    ensures segments { (palette : List Colour) → result.segments ≡ length (flat_map (segment_spelled palette) (longest_runs (colours_in picture.now))) }
    ensures steps { result.steps ≡ steps_from black (colours_in picture.now) }
    ensures few { (result.residual < 2 ^ 48) × (result.segments < 2 ^ 48) × (result.steps < 2 ^ 48) }
{
    let mut runs = NO_RUNS;
    'rows: for y in 0..picture.height {
        'pixels: for x in 0..picture.width {
            runs.take(picture.pixel(x, y).colour());
        }
    }
    runs.sizes()
}

impl Runs {
    /// Takes one more pixel.
    #[inline(always)]
    #[tactic(auto, unfolding(crate::specs::Inner::taken))]
    fn take(&mut self, colour: Rgb)
        requires { IsFew (2 ^ 32 - 2) self.old }
        ensures taken { self.new ≡ taken self.old colour }
        ensures few { (pixels : ℕ) → IsFew pixels self.old → IsFew (pixels + 1) self.new }
    {
        if self.colour.is_same(colour) {
            self.count += 1;
        } else {
            self.turn(colour);
        }
    }

    /// Ends the run under way, and begins one of another colour.
    fn turn(&mut self, colour: Rgb)
        requires { IsFew (2 ^ 32 - 2) self.old }
        ensures turned { self.new ≡ turned self.old colour }
        ensures few { (pixels : ℕ) → IsFew pixels self.old → IsFew (pixels + 1) self.new }
    {
        self.residual += run_bytes(self.count);
        self.segments += segment_bytes(self.count);
        self.steps += step_between(self.colour, colour);
        self.colour = colour;
        self.count = 1;
    }

    /// What they cost where the run under way is the last.
    fn sizes(&self) -> RunSizes
        requires { IsFew (2 ^ 32) self.now }
        ensures few { (result.residual < 2 ^ 48) × (result.segments < 2 ^ 48) × (result.steps < 2 ^ 48) }
        ensures sizes { result ≡ record { residual = self.now.residual + run_bytes self.now.count; segments = self.now.segments + segment_bytes self.now.count; steps = self.now.steps } }
    {
        RunSizes {
            residual: self.residual + run_bytes(self.count),
            segments: self.segments + segment_bytes(self.count),
            steps: self.steps,
        }
    }
}

/// How many bytes a run of so many pixels has in a residual layer; none where it has no pixel.
fn run_bytes(count: u32) -> u64
    ensures bytes { result ≡ run_bytes count }
    ensures few { result ≤ 10 }
{
    if count == 0 {
        0
    } else {
        3 + length_bytes(count)
    }
}

/// How many bytes it has as a segment of a palette.
fn segment_bytes(count: u32) -> u64
    ensures bytes { result ≡ segment_bytes count }
    ensures few { result ≤ 8 }
{
    if count == 0 {
        0
    } else {
        1 + length_bytes(count - 1)
    }
}

/// How many bytes the shortest spelling of a run length has.
#[tactic(auto, unfolding(gfx_clear_runs::specs::Lengths::length_spelled))]
fn length_bytes(count: u32) -> u64
    ensures bytes { result ≡ length (length_spelled count) }
    ensures few { result ≤ 7 }
{
    if count < 255 {
        1
    } else if count < 65535 {
        3
    } else {
        7
    }
}

/// How large the step from one colour to another is.
fn step_between(one: Rgb, other: Rgb) -> u64
    ensures step { result ≡ step_between one other }
    ensures few { result ≤ 765 }
{
    apart(one.b, other.b) + apart(one.g, other.g) + apart(one.r, other.r)
}

/// How far one number is from another.
fn apart(one: u8, other: u8) -> u64
    ensures apart { result ≡ apart one other }
    ensures few { result ≤ 255 }
{
    u64::from(one.abs_diff(other))
}
