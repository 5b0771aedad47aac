/// Why a configuration isn't published. It is given up then, and nothing else has changed.
#[derive(Debug, Drop)]
pub enum PublishFault {
    /// Memory was refused.
    Memory,
    /// The last configuration has the greatest number, 2^64 - 1.
    Last,
}
