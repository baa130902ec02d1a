//! Pictures, what they cost, and the kinds that they go as.
use crate::claiming::claim;
use gfx_base::Pixel;
use gfx_chooser::{Chooser, Facts, PictureRef};
use gfx_estimate::{BySize, Sizes, estimate};
use gfx_script::{Kind, Pattern, Picture};

/// A colour of pictures of one colour.
const COLOUR: Pixel = Pixel {
    b: 0x11,
    g: 0x22,
    r: 0x33,
    a: 0xFF,
};

/// Whether a picture has these sizes, and goes as this kind where it may have six tenths of its pixels.
fn costs(picture: Picture, sizes: Sizes, kind: Kind) -> bool {
    let facts = Facts {
        step: 1,
        surface: 1,
        width: picture.width,
        height: picture.height,
        colours: 0,
        picture: PictureRef::new(&picture),
    };
    estimate(&picture) == sizes && BySize { share: 60 }.choose(&facts) == Some(kind)
}

/// A picture.
fn picture(width: u16, height: u16, pattern: Pattern) -> Picture {
    Picture {
        width,
        height,
        pattern,
    }
}

#[test]
fn runs_are_few(rt: HostRuntime) {
    let one = picture(1, 1, Pattern::Solid { colour: COLOUR });
    let sizes = Sizes {
        raw: 4,
        residual: 18,
        palette: 33,
        plain: 30,
        bands: 27,
        passes: 70,
    };
    claim(&rt, costs(one, sizes, Kind::Raw));
    let desktop = picture(400, 300, Pattern::Desktop);
    let sizes = Sizes {
        raw: 480_000,
        residual: 1222,
        palette: 640,
        plain: 360_027,
        bands: 5174,
        passes: 2774,
    };
    claim(&rt, costs(desktop, sizes, Kind::Palette));
}

#[test]
fn columns_come_again(rt: HostRuntime) {
    let text = picture(128, 64, Pattern::Text);
    let sizes = Sizes {
        raw: 32_768,
        residual: 8214,
        palette: 4138,
        plain: 24_603,
        bands: 1202,
        passes: 4054,
    };
    claim(&rt, costs(text, sizes, Kind::Bands));
}

#[test]
fn colours_are_many(rt: HostRuntime) {
    let noise = picture(40, 30, Pattern::Noise { seed: 1 });
    let sizes = Sizes {
        raw: 4800,
        residual: 4814,
        palette: 3627,
        plain: 3627,
        bands: 3702,
        passes: 1078,
    };
    claim(&rt, costs(noise, sizes, Kind::Progressive));
}
