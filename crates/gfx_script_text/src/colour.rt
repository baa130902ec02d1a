//! Colours as scripts write them.

ghost use Rattle.std.specs.Prelude.{◌≡◌};
ghost use Rattle.gfx_script_text.specs.Colour.{colour_of};

use gfx_base::Pixel;
use gfx_script::ScriptKind;
use hex::FromHex;

/// Reads a colour as eight hexadecimal digits B, G, R, A.
#[tactic(auto, unfolding(crate::specs::Colour::colour_of, gfx_base::specs::Results::and_then))]
pub(crate) fn read_colour(digits: &str) -> Result<Pixel, ScriptKind>
    ensures { result ≡ colour_of digits.now }
{
    match <[u8; 4] as FromHex>::from_hex(digits) {
        Ok(bytes) => Ok(Pixel {
            b: bytes[0],
            g: bytes[1],
            r: bytes[2],
            a: bytes[3],
        }),
        Err(_) => Err(ScriptKind::Pixels),
    }
}
