ghost use Rattle.std.specs.Prelude.{List};
ghost use Rattle.gfx_base.specs.declared.pixel.Rgb.{Rgb};
ghost use Rattle.gfx_clear_store.specs.Rings.{Places, IsLeast, least_place};

/// What a look-up answers is the least place with the pixels, and nothing where no place has them.
pub fn the_least_is_found()
    ensures { (pixels : List Rgb) (ring : Places) → IsLeast pixels ring (least_place pixels ring) }
{}
