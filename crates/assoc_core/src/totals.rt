ghost use Rattle.std.specs.Prelude.{◌≡◌, length};

use crate::assoc::Assoc;

impl<L> Assoc<L> {
    /// How many bytes were taken so far of the client, and of the target.
    pub fn took(&self) -> (u64, u64)
        ensures { result ≡ (length self.now.state.c, length self.now.state.t) }
    {
        (self.state.c.len() as u64, self.state.t.len() as u64)
    }

    /// How many bytes were sent so far to the client, and to the target.
    pub fn sent(&self) -> (u64, u64)
        ensures { result ≡ (length self.now.state.sent_c, length self.now.state.sent_t) }
    {
        (
            self.state.sent_c.len() as u64,
            self.state.sent_t.len() as u64,
        )
    }
}
