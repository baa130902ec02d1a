use gfx_base::Bytes;

/// Both data of a component's upgrade: values coded in SRL, and raw bits.
#[derive(Debug, Drop)]
pub struct Pass {
    pub srl: Bytes,
    pub raw: Bytes,
}
