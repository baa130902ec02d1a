/// The two modes of RLGR ([MS-RDPRFX] 3.1.8.1.7.3). They differ only where there are no runs.
#[derive(Clone, Copy, Debug, PartialEq, Eq)]
pub enum Mode {
    /// There a number codes a value.
    Rlgr1,
    /// There a number codes the sum of two values' numbers, and as many bits as it has tell the first.
    Rlgr3,
}
