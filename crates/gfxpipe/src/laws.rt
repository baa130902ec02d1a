ghost use Rattle.gfxpipe.specs.Laws.{EncodeThenRender, EveryLineHasEqualDigests, EveryLineOfAnImportHasEqualDigests};

/// What `encode` wrote of a script that is accepted, `render` refuses nowhere, and prints the
/// surfaces that the script wants after its last step.
pub fn render_shows_what_encode_wrote()
    ensures { EncodeThenRender }
{}

/// Of every script that is accepted, each line that `session` writes has equal digests: at that frame the
/// client's state was the same as the server's, and both showed what the script wants after the recorded
/// step. Neither end has refused anything.
pub fn every_line_has_equal_digests()
    ensures { EveryLineHasEqualDigests }
{}

/// So of every session that `import` plays: it refuses files that differ under a key, and where they don't, both ends begin
/// with the same bitmaps.
pub fn every_line_of_an_import_has_equal_digests()
    ensures { EveryLineOfAnImportHasEqualDigests }
{}
