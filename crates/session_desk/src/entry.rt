ghost use Rattle.std.specs.Prelude.{◌≡◌};
ghost use Rattle.socks_machine.specs.History.{standing as standing_of};
ghost use Rattle.session_desk.specs.Entries.{has_number as has_number_of, stand_of_live, is_live_under};

use socks_machine::{ListKind, Standing};

/// How a live association stands.
#[derive(Clone, Copy, PartialEq, Eq, Debug)]
pub enum Live {
    Opened,
    Granted {
        generation: u64,
        client: u32,
        socks: u32,
    },
}

impl Live {
    pub fn standing(&self) -> Standing
        ensures { result ≡ standing_of (stand_of_live self.now) }
    {
        match self {
            Live::Opened => Standing::Opened,
            Live::Granted { .. } => Standing::Granted,
        }
    }

    /// Was granted in this generation under this rule.
    pub fn is_under(&self, generation: u64, list: ListKind, rule: u32) -> bool
        ensures { result ≡ is_live_under generation list rule self.now }
    {
        match self {
            Live::Opened => false,
            Live::Granted {
                generation: granted,
                client,
                socks,
            } => {
                let by = match list {
                    ListKind::Client => *client,
                    ListKind::Socks => *socks,
                };
                *granted == generation && by == rule
            },
        }
    }
}

/// A live association.
#[derive(Clone, Copy, PartialEq, Eq, Debug)]
pub struct LiveAssociation {
    pub number: u64,
    pub live: Live,
}

impl LiveAssociation {
    pub fn has_number(&self, number: u64) -> bool
        ensures { result ≡ has_number_of number self.now }
    {
        self.number == number
    }
}
