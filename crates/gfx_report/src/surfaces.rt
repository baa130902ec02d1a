//! The dump of all surfaces.
ghost use Rattle.gfx_base.specs.Stream.{Writes, change};
ghost use Rattle.gfx_report.specs.Texts.{dump_text};

use crate::surface::write_surface;
use gfx_base::{Failed, Sink};
use gfx_surface_map::SurfaceMap;

/// Writes all surfaces by ascending id: for each a line with its id, its sides and its format, and a
/// line for each row with two lower-case hexadecimal digits for each B, G, R and A. It takes no
/// memory. After a fault the sink has gained a front of the text. The text is this project's own rule.
pub fn dump<O: Sink>(surfaces: &SurfaceMap, out: &mut O) -> Result<(), Failed>
    ensures { Writes result
        (change (O.faults out.old) (O.faults out.new) (O.held out.old) (O.held out.new)) (dump_text surfaces.now.shown.surfaces) }
{
    let mut from = 0;
    'surfaces: while let Some(id) = surfaces.next_id(from) {
        let surface = surfaces.get(id).unwrap();
        write_surface(id, surface, out)?;
        let Some(next) = id.checked_add(1) else {
            return Ok(());
        };
        from = next;
    }
    Ok(())
}
