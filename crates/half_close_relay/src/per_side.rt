/// A number of bytes of each side.
#[derive(Clone, Copy, Debug, PartialEq, Eq)]
pub struct PerSide {
    pub client: usize,
    pub target: usize,
}
