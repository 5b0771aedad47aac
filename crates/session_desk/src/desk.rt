ghost use Rattle.std.specs.Prelude.{◌≡◌, ◌≢◌, List as Lines, false, ◌<◌, ◌≤◌, ◌==◌, [], length, IfOk, IfSome, position};
ghost use Rattle.socks_machine.specs.declared.cause.StopBy.{StopBy as Mark};
ghost use Rattle.socks_machine.specs.declared.lines.Line.{Line as SomeLine};
ghost use Rattle.socks_machine.specs.History.{standing as standing_of, is_log};
ghost use Rattle.session_desk.specs.Entries.{has_number, standing_in, held_in, renewed, without};
ghost use Rattle.session_desk.specs.Calls.{Opens, Grants, Closes, MayOpen, MayGrant, MayClose};
ghost use Rattle.session_desk.specs.Standings.{StandsFor};
ghost use Rattle.session_desk.specs.Books.{Book, counted, with_entry, with_grant, without_entry, admitted, opened, full_in, or_full, shut, granted_unless, granted_verdict, granted, closed};

use crate::call::DeskCall;
use crate::entry::{Live, LiveAssociation};
use lists::Memory;
use rule_list::Verdict;
use socks_machine::{CloseLine, GrantLine, ListKind, OpenLine, Said, Shut, Standing, StopBy};
use std::alloc::Global;
use std::marker::Model;

/// A desk that keeps the live associations in memory. The count of lines is below 2^64.
#[derive(Drop)]
pub struct Desk {
    entries: Vec<LiveAssociation>,
    cap: u32,
    lines: u64,
    stopped: Option<StopBy>,
}

impl Model for Desk {
    ghost use Rattle.std.specs.Prelude.{◌≤◌, ◌<◌, ◌^◌, vec_len, vec_capacity};
    ghost use Rattle.session_desk.specs.Books.{Book};

    ghost Value = { Book };

    ghost view = { λ d. record { cap = d.cap; entries = d.entries.items; lines = d.lines; stopped = d.stopped } };

    ghost invariant = { λ d. (vec_len d.entries ≤ d.cap) × (d.cap ≤ vec_capacity d.entries) × (d.cap < 2 ^ 32) };
}

impl Desk {
    /// Takes all memory that the desk ever takes: room for so many live associations.
    pub fn make(alloc: Global, cap: u32) -> Result<Desk, Memory>
        ensures cap { IfOk result (λ desk. desk.cap ≡ cap) }
        ensures stands { IfOk result (λ desk. StandsFor desk [] []) }
    {
        match Vec::with_capacity(alloc, cap as usize) {
            Err(_) => Err(Memory),
            Ok(entries) => Ok(Desk {
                entries,
                cap,
                lines: 0,
                stopped: None,
            }),
        }
    }

    /// How many associations may be live.
    pub fn cap(&self) -> u32
        ensures { result ≡ self.now.cap }
    {
        self.cap
    }

    /// The stop mark that stands, if any.
    pub fn mark(&self) -> Option<StopBy>
        ensures { result ≡ self.now.stopped }
    {
        self.stopped
    }

    fn place_of(&self, number: u64) -> Option<usize>
        ensures value { result ≡ position (has_number number) self.now.entries }
        ensures within { IfSome result (λ place. place < length self.now.entries) }
    {
        self.entries
            .iter()
            .position(|entry| entry.has_number(number))
    }

    fn standing(&self, number: u64) -> Standing
        ensures { result ≡ standing_of (standing_in self.now.entries number) }
    {
        match self.place_of(number) {
            None => Standing::Absent,
            Some(place) => self.entries[place].live.standing(),
        }
    }

    /// How many live associations were granted in this generation under this rule.
    fn held(&self, generation: u64, list: ListKind, rule: u32) -> u32
        ensures { result ≡ held_in self.now.entries generation list rule }
    {
        let held = count_under(&self.entries, generation, list, rule);
        held as u32
    }

    /// Counts a line, and answers its number; the mark Log is set where no further line can be numbered.
    fn count_line(&mut self) -> u64
        ensures book { self.new ≡ counted self.old }
        ensures number { result ≡ (counted self.old).lines }
    {
        self.lines = self.lines.saturating_add(1);
        if self.lines == u64::MAX {
            self.stopped = Some(StopBy::Log);
        }
        self.lines
    }

    fn add(&mut self, number: u64)
        requires { length self.old.entries < self.old.cap }
        ensures { self.new ≡ with_entry self.old number }
    {
        let entry = LiveAssociation {
            number,
            live: Live::Opened,
        };
        match self.entries.push(entry) {
            Ok(()) => {},
            Err(_) => unreachable!(),
        }
    }

    fn renew(&mut self, number: u64, live: Live)
        ensures { self.new ≡ with_grant self.old number live }
    {
        match self.place_of(number) {
            None => {},
            Some(place) => self.entries[place] = LiveAssociation { number, live },
        }
    }

    fn take_out(&mut self, number: u64)
        ensures { self.new ≡ without_entry self.old number }
    {
        match self.place_of(number) {
            None => {},
            Some(place) => {
                self.entries.remove(place);
            },
        }
    }

    fn is_crowded(&self) -> bool
        ensures value { result ≡ (length self.now.entries == self.now.cap) }
        ensures room { result ≡ false → length self.now.entries < self.now.cap }
    {
        self.entries.len() == self.cap as usize
    }

    fn admit(&mut self, number: u64, pass: bool) -> Said
        ensures said { result ≡ (admitted self.old number pass).said }
        ensures book { self.new ≡ (admitted self.old number pass).book }
        ensures cap { self.new.cap ≡ self.old.cap }
    {
        if !pass {
            return Said::Done(self.count_line());
        }
        if self.is_crowded() {
            return Said::Crowded {
                live: self.cap,
                cap: self.cap,
            };
        }
        self.add(number);
        Said::Done(self.count_line())
    }

    fn full_under(
        &self,
        generation: u64,
        list: ListKind,
        rule: u32,
        max: Option<u32>,
    ) -> Option<Said>
        ensures { result ≡ full_in self.now generation list rule max }
    {
        let limit = max?;
        let held = self.held(generation, list, rule);
        if limit <= held {
            Some(Said::Full {
                list,
                rule,
                held,
                limit,
            })
        } else {
            None
        }
    }

    /// The first limit that is reached, the client rule's before the socks rule's.
    fn full(&self, line: &GrantLine, client: u32, socks: u32) -> Option<Said>
        ensures { result ≡ or_full (full_in self.now line.now.generation ListKind.Client client line.now.client_max) (full_in self.now line.now.generation ListKind.Socks socks line.now.socks_max) }
    {
        match self.full_under(line.generation, ListKind::Client, client, line.client_max) {
            None => self.full_under(line.generation, ListKind::Socks, socks, line.socks_max),
            Some(full) => Some(full),
        }
    }

    fn grant_unless(&mut self, number: u64, live: Live, full: Option<Said>) -> Said
        ensures said { result ≡ (granted_unless self.old number live full).said }
        ensures book { self.new ≡ (granted_unless self.old number live full).book }
        ensures cap { self.new.cap ≡ self.old.cap }
    {
        match full {
            None => {
                self.renew(number, live);
                Said::Done(self.count_line())
            },
            Some(said) => {
                self.count_line();
                said
            },
        }
    }

    fn grant_opened(&mut self, line: &GrantLine) -> Said
        ensures said { result ≡ (granted_verdict self.old line.now line.now.verdict).said }
        ensures book { self.new ≡ (granted_verdict self.old line.now line.now.verdict).book }
        ensures cap { self.new.cap ≡ self.old.cap }
    {
        match line.verdict {
            Verdict::Pass { client, socks } => {
                let full = self.full(line, client, socks);
                let live = Live::Granted {
                    generation: line.generation,
                    client,
                    socks,
                };
                self.grant_unless(line.number, live, full)
            },
            _ => Said::Done(self.count_line()),
        }
    }

    fn has_log_mark(&self) -> bool
        ensures { result ≡ is_log self.now.stopped }
    {
        matches!(self.stopped, Some(StopBy::Log))
    }

    fn close_live(&mut self, number: u64) -> Shut
        ensures said { result ≡ (shut self.old (counted (without_entry self.old number))).said }
        ensures book { self.new ≡ (shut self.old (counted (without_entry self.old number))).book }
        ensures cap { self.new.cap ≡ self.old.cap }
    {
        let unlogged = self.has_log_mark();
        self.take_out(number);
        let line = self.count_line();
        if unlogged {
            Shut::Unlogged
        } else {
            Shut::Done(line)
        }
    }

    fn answer_open(&mut self, line: &OpenLine) -> Said
        ensures said { result ≡ (opened self.old line.now).said }
        ensures book { self.new ≡ (opened self.old line.now).book }
        ensures cap { self.new.cap ≡ self.old.cap }
    {
        if let Some(by) = self.stopped {
            return Said::Stopped(by);
        }
        match self.standing(line.number) {
            Standing::Absent => self.admit(line.number, line.pass),
            Standing::Opened => Said::OutOfTurn(Standing::Opened),
            Standing::Granted => Said::OutOfTurn(Standing::Granted),
        }
    }

    fn answer_grant(&mut self, line: &GrantLine) -> Said
        ensures said { result ≡ (granted self.old line.now).said }
        ensures book { self.new ≡ (granted self.old line.now).book }
        ensures cap { self.new.cap ≡ self.old.cap }
    {
        if let Some(by) = self.stopped {
            return Said::Stopped(by);
        }
        match self.standing(line.number) {
            Standing::Absent => Said::OutOfTurn(Standing::Absent),
            Standing::Opened => self.grant_opened(line),
            Standing::Granted => Said::OutOfTurn(Standing::Granted),
        }
    }

    fn answer_close(&mut self, line: &CloseLine) -> Shut
        ensures said { result ≡ (closed self.old line.now).said }
        ensures book { self.new ≡ (closed self.old line.now).book }
        ensures cap { self.new.cap ≡ self.old.cap }
    {
        match self.standing(line.number) {
            Standing::Absent => Shut::OutOfTurn(Standing::Absent),
            Standing::Opened => self.close_live(line.number),
            Standing::Granted => self.close_live(line.number),
        }
    }
}

impl DeskCall for Desk {
    ghost stands = { StandsFor };

    ghost cap = { λ desk. desk.cap };

    /// The desk keeps no log, so that none fails.
    fn open(&mut self, line: &OpenLine) -> Said
        ensures cap { self.new.cap ≡ self.old.cap }
        ensures answer { MayOpen self.old.cap line.now result }
        ensures line { (h : Lines SomeLine) (marks : Lines Mark) → StandsFor self.old h marks → Opens (StandsFor self.new) h marks self.old.cap line.now result }
        ensures unfailing { result ≢ Said.LogFault }
    {
        self.answer_open(line)
    }

    /// The desk keeps no log, so that none fails.
    fn grant(&mut self, line: &GrantLine) -> Said
        ensures cap { self.new.cap ≡ self.old.cap }
        ensures answer { MayGrant line.now result }
        ensures line { (h : Lines SomeLine) (marks : Lines Mark) → StandsFor self.old h marks → Grants (StandsFor self.new) h marks line.now result }
        ensures unfailing { result ≢ Said.LogFault }
    {
        self.answer_grant(line)
    }

    /// The desk keeps no log, so that none fails.
    fn close(&mut self, line: &CloseLine) -> Shut
        ensures cap { self.new.cap ≡ self.old.cap }
        ensures answer { MayClose result }
        ensures line { (h : Lines SomeLine) (marks : Lines Mark) → StandsFor self.old h marks → Closes (StandsFor self.new) h marks line.now result }
        ensures unfailing { result ≢ Shut.LogFault }
    {
        self.answer_close(line)
    }
}

fn count_under(entries: &[LiveAssociation], generation: u64, list: ListKind, rule: u32) -> usize
    ensures value { result ≡ held_in entries.now generation list rule }
    ensures bound { result ≤ length entries.now }
{
    entries
        .iter()
        .filter(|entry| entry.live.is_under(generation, list, rule))
        .count()
}
