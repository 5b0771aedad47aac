//! A caller that reaches nobody: no command calls anybody yet.
ghost use Rattle.std.specs.Prelude.{◌≡◌, None, option_map};

use addr_pattern::Endpoint;
use net_ends::{Caller, Calling, Giving, Reading, Shutting, Taking, Wire};

/// A wire that leads nowhere: each of its calls fails.
#[derive(Drop)]
pub struct NoWire {
    faults: u64,
}

impl Wire for NoWire {
    ghost use Rattle.sockd_main.specs.Standard.{untold};

    ghost told = { λ _. untold };

    ghost counts = { λ wire. record { faults = wire.faults; idle_reads = 0; idle_writes = 0; due = None } };

    fn read(&mut self, _into: &mut [u8]) -> Taking {
        self.faults = self.faults.saturating_add(1);
        Taking::Failed
    }

    fn glance(&mut self, _into: &mut [u8]) -> Reading {
        self.faults = self.faults.saturating_add(1);
        Reading::Failed
    }

    fn write(&mut self, _from: &[u8]) -> Giving {
        self.faults = self.faults.saturating_add(1);
        Giving::Failed
    }

    fn shut(&mut self) -> Shutting {
        self.faults = self.faults.saturating_add(1);
        Shutting::Failed
    }
}

/// It fails at each call, and keeps the wire that came back last.
#[derive(Drop)]
pub struct NoCaller {
    faults: u64,
    returned: Option<NoWire>,
}

impl NoCaller {
    pub fn new() -> NoCaller
        ensures faults { result.faults ≡ 0 }
        ensures returned { result.returned ≡ None }
    {
        NoCaller {
            faults: 0,
            returned: None,
        }
    }
}

impl Caller for NoCaller {
    ghost use Rattle.net_ends.specs.Callers.{returned_of};
    ghost use Rattle.sockd_main.specs.Standard.{untold};

    type Wire = NoWire;

    ghost told = { λ caller. record {
      calls = None;
      plan = None;
      returned = option_map (λ wire. returned_of untold (record { faults = wire.faults; idle_reads = 0; idle_writes = 0; due = None })) caller.returned;
    } };

    ghost counts = { λ caller. record { refused = 0; no_host = 0; no_net = 0; faults = caller.faults } };

    fn call(&mut self, _to: Endpoint) -> Calling<NoWire> {
        self.faults = self.faults.saturating_add(1);
        Calling::Failed
    }

    fn back(&mut self, wire: NoWire) {
        self.returned = Some(wire);
    }
}
