ghost use Rattle.std.specs.Prelude.{◌≡◌, ◌-◌, length, drop};
ghost use Rattle.assoc_core.specs.Carrying.{waiting_of};

use crate::relay::behind;
use lists::Text;

/// What a sink is owed: a front, and then the bytes of a text behind a place.
#[derive(Drop)]
pub struct Due {
    pub front: Text,
    pub skip: usize,
}

impl Due {
    /// What is left of the front, of which so many bytes were sent with what follows it.
    pub fn front_left(&self, sent: usize) -> &[u8]
        ensures { result.now ≡ drop sent self.now.front }
    {
        behind(self.front.as_slice(), sent)
    }

    /// How many of the bytes sent stand behind the front.
    pub fn past_front(&self, sent: usize) -> usize
        ensures { result ≡ sent - length self.now.front }
    {
        sent.saturating_sub(self.front.len())
    }

    /// How many bytes of the text wait.
    pub fn waiting(&self, text: &[u8], sent: usize) -> usize
        ensures { result ≡ waiting_of self.now.front self.now.skip text.now sent }
    {
        behind(text, self.skip)
            .len()
            .saturating_sub(self.past_front(sent))
    }
}
