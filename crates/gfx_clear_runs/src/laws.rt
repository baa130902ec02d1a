ghost use Rattle.std.specs.Prelude.{◌≡◌, ℕ, ◌<◌, ◌^◌, List, length, Some, Ok};
ghost use Rattle.gfx_base.specs.declared.pixel.Rgb.{Rgb};
ghost use Rattle.gfx_clear_runs.specs.Forms.{IsForm};
ghost use Rattle.gfx_clear_runs.specs.Reading.{covered, rlex_of, runs_of};
ghost use Rattle.gfx_clear_runs.specs.Spelling.{ReadRunsAreSpelled, ReadSegmentsAreSpelled, SpelledRunsAreRead, SpelledSegmentsAreRead};
ghost use Rattle.gfx_clear_runs.specs.Writing.{rlex_written, runs_written};

/// What is written for pixels is read back as them.
pub fn runs_read_back()
    ensures { (pixels : List Rgb) → length pixels < 2 ^ 32 → covered (length pixels) (runs_of (runs_written pixels)) ≡ Ok pixels }
{}

/// What is written for pixels is their longest runs, each with its shortest run length.
pub fn runs_are_longest()
    ensures { (pixels : List Rgb) → IsForm pixels (runs_written pixels) }
{}

/// And no other list of bytes is that.
pub fn one_runs_form()
    ensures { (pixels : List Rgb) (one other : List ℕ) → IsForm pixels one → IsForm pixels other → one ≡ other }
{}

/// What is written as the RLEX subcodec is read back as its pixels.
pub fn rlex_reads_back()
    ensures { (pixels : List Rgb) (bytes : List ℕ) → length pixels < 2 ^ 32 → rlex_written pixels ≡ Some bytes → covered (length pixels) (rlex_of bytes) ≡ Ok pixels }
{}

/// What is read whole as a residual layer is spelled as the standard says, each length in one of its three forms.
pub fn read_runs_are_spelled()
    ensures { ReadRunsAreSpelled }
{}

/// And what is spelled so is read as those runs, with longer forms of a length than it needs too.
pub fn spelled_runs_are_read()
    ensures { SpelledRunsAreRead }
{}

/// What is read whole as the RLEX subcodec is spelled as the standard says: a palette, and segments.
pub fn read_segments_are_spelled()
    ensures { ReadSegmentsAreSpelled }
{}

/// And what is spelled so is read as those segments.
pub fn spelled_segments_are_read()
    ensures { SpelledSegmentsAreRead }
{}
