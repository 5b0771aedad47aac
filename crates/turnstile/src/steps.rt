ghost use Rattle.std.specs.Prelude.{[], ◌++◌};
ghost use Rattle.turnstile.specs.Rule.{Rule};
ghost use Rattle.turnstile.specs.Steps.{placed, readied, woke, claimed, settled, lifted, gave_back, cleared, freed};

use crate::pass::View;
use atomic_table::{Join, Play, Split, TableRule};

/// The rule that every step keeps.
pub(crate) struct SlotRule;

impl<U> TableRule<Option<U>, View, ()> for SlotRule {
    ghost holds = { λ _ s. Rule s };

    ghost first = { λ _. [] };
}

pub(crate) struct Place;

impl<U> Play<Option<U>, View> for Place {
    ghost then = { placed };
}

pub(crate) struct Ready;

impl<U> Play<Option<U>, View> for Ready {
    ghost then = { readied };
}

pub(crate) struct Wake;

impl<U> Play<Option<U>, View> for Wake {
    ghost then = { woke };
}

pub(crate) struct Claim;

impl<U> Play<Option<U>, View> for Claim {
    ghost then = { claimed };
}

pub(crate) struct Settle;

impl<U> Play<Option<U>, View> for Settle {
    ghost then = { settled };
}

pub(crate) struct Lift;

impl<U> Play<Option<U>, View> for Lift {
    ghost then = { lifted };
}

pub(crate) struct Park;

impl<U> Play<Option<U>, View> for Park {
    ghost then = { gave_back };
}

pub(crate) struct Clear;

impl<U> Play<Option<U>, View> for Clear {
    ghost then = { cleared };
}

pub(crate) struct Free;

impl<U> Play<Option<U>, View> for Free {
    ghost then = { freed };
}

/// The new pass holds nothing.
pub(crate) struct NewPass;

impl Split<View> for NewPass {
    ghost left = { λ v. v };

    ghost right = { λ v. [] };
}

/// The slots of both passes.
pub(crate) struct BothPasses;

impl Join<View> for BothPasses {
    ghost both = { λ v w. v ++ w };

    ghost spent = { [] };
}
