//! Memory that passes and drawing work in.
use crate::upgrading::Lists;
use gfx_dwt::Workspace;

/// What tiles are read, upgraded and drawn in: one for a message, so that no plane is blanked for each tile. Of what
/// stands in it nothing is said between two calls.
#[derive(Drop)]
pub struct Scratch {
    pub(crate) plane: [i16; 4096],
    pub(crate) y: [i16; 4096],
    pub(crate) cb: [i16; 4096],
    pub(crate) cr: [i16; 4096],
    pub(crate) workspace: Workspace,
    pub(crate) lists: Lists,
}

impl Scratch {
    /// A scratch, for any number of calls.
    pub fn new() -> Scratch {
        Scratch {
            plane: [0; 4096],
            y: [0; 4096],
            cb: [0; 4096],
            cr: [0; 4096],
            workspace: Workspace::new(),
            lists: Lists::new(),
        }
    }
}
