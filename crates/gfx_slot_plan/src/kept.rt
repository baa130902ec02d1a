use gfx_base::Items;

/// Slots, in the order in which they are emptied.
pub type Slots = Items<u16>;

/// What it takes to keep a bitmap: the slots to empty first, and the slot to store it in.
#[derive(Debug, Drop)]
pub struct Kept {
    pub dropped: Slots,
    pub slot: u16,
}
