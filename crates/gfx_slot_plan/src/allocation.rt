/// Where a key's bitmap is, and how many bytes it takes.
#[derive(Clone, Copy, Debug)]
pub struct Allocation {
    pub slot: u16,
    pub bytes: u64,
}
