ghost use Rattle.std.specs.Prelude.{◌≡◌};
ghost use Rattle.net_ends.specs.Faults.{no_kind, with_kind, without_kind, is_among};

use std::mem;

/// A kind of call on a link.
#[derive(Clone, Copy, Debug, PartialEq, Eq)]
pub enum Kind {
    Read,
    Write,
    Shut,
}

/// Some kinds of calls on a link.
#[derive(Clone, Copy, Debug, PartialEq, Eq)]
pub struct Kinds {
    pub reads: bool,
    pub writes: bool,
    pub shuts: bool,
}

impl Kinds {
    pub fn none() -> Kinds
        ensures { result ≡ no_kind }
    {
        Kinds {
            reads: false,
            writes: false,
            shuts: false,
        }
    }

    /// These kinds and one more.
    pub fn with(self, kind: Kind) -> Kinds
        ensures { result ≡ with_kind self kind }
    {
        match kind {
            Kind::Read => Kinds {
                reads: true,
                ..self
            },
            Kind::Write => Kinds {
                writes: true,
                ..self
            },
            Kind::Shut => Kinds {
                shuts: true,
                ..self
            },
        }
    }

    /// Takes a kind out; and whether it was among them.
    pub fn take_out(&mut self, kind: Kind) -> bool
        ensures was { result ≡ is_among self.old kind }
        ensures left { self.new ≡ without_kind self.old kind }
    {
        match kind {
            Kind::Read => mem::replace(&mut self.reads, false),
            Kind::Write => mem::replace(&mut self.writes, false),
            Kind::Shut => mem::replace(&mut self.shuts, false),
        }
    }
}
