ghost use Rattle.std.specs.Prelude.{◌≡◌, ◌-◌, ◌&&◌, ◌==◌, length};
ghost use Rattle.replay_run.specs.Totals.{totals_of};

use socks_machine::Record;

/// How many bytes an association has taken from its client and its target, and sent to them.
#[derive(Clone, Copy, Debug, PartialEq, Eq)]
pub struct Totals {
    pub took_c: u64,
    pub took_t: u64,
    pub sent_c: u64,
    pub sent_t: u64,
}

impl Totals {
    pub fn of(record: &Record) -> Totals
        ensures { result ≡ totals_of record.now }
    {
        Totals {
            took_c: record.c.len() as u64,
            took_t: record.t.len() as u64,
            sent_c: record.sent_c.len() as u64,
            sent_t: record.sent_t.len() as u64,
        }
    }

    /// What has come since these earlier totals.
    pub fn since(self, before: Totals) -> Totals
        ensures took_c { result.took_c ≡ self.took_c - before.took_c }
        ensures took_t { result.took_t ≡ self.took_t - before.took_t }
        ensures sent_c { result.sent_c ≡ self.sent_c - before.sent_c }
        ensures sent_t { result.sent_t ≡ self.sent_t - before.sent_t }
    {
        Totals {
            took_c: self.took_c.saturating_sub(before.took_c),
            took_t: self.took_t.saturating_sub(before.took_t),
            sent_c: self.sent_c.saturating_sub(before.sent_c),
            sent_t: self.sent_t.saturating_sub(before.sent_t),
        }
    }

    pub fn are_zero(self) -> bool
        ensures { result ≡ ((((self.took_c == 0) && (self.took_t == 0)) && (self.sent_c == 0)) && (self.sent_t == 0)) }
    {
        self.took_c == 0 && self.took_t == 0 && self.sent_c == 0 && self.sent_t == 0
    }
}
