ghost use Rattle.std.specs.Prelude.{◌≡◌, ℕ, ◌<◌, ◌∷◌, ◌++◌, Contains, bit_or, IfOk, IsOkAnd};
ghost use Rattle.turnstile.specs.Views.{Holding, holds_none, without_slot, with_slot, without};
ghost use Rattle.turnstile.specs.Answers.{Showed, AnswersWake, AnswersPlace, AnswersClaim, GotFrom, HoldsClaimed, AnswersPark, HoldsParked, LeavesPlaced, LeavesClaimed, LeavesParked};
ghost use Rattle.turnstile.specs.Rule.{held};

use crate::answer::{Claimed, Parked, Placed, Woke};
use crate::pass::Pass;
use crate::steps::{
    BothPasses, Claim, Clear, Free, Lift, NewPass, Park, Place, Ready, Settle, Wake,
};
use crate::turnstile::Turnstile;
use atomic_table::Table;
use lists::Memory;
use std::alloc::Global;

// The words of a slot. The bit 4 is the wake bit, also where the slot is empty.
const EMPTY: u64 = 4;

const PARKED: u64 = 1;

const PARKED_WOKEN: u64 = 5;

const HELD: u64 = 3;

const HELD_WOKEN: u64 = 7;

const WAKE: u64 = 4;

impl<U: Drop> Turnstile<U> {
    /// Every slot is empty, and the pass holds none. Takes all memory that the turnstile ever takes.
    pub fn make(alloc: Global, slots: u32) -> Result<(Turnstile<U>, Pass<U>), Memory>
        requires { 0 < slots }
        ensures slots { IfOk result (λ made. made.0.slots ≡ slots) }
        ensures pass { IfOk result (λ made. made.1 ≡ holds_none made.0) }
    {
        let Ok(words) = Vec::from_elem(alloc, EMPTY, slots as usize) else {
            return Err(Memory);
        };
        match Table::vacant(alloc, words.as_slice(), slots as usize, &()) {
            Err(_) => Err(Memory),
            Ok((table, seat)) => Ok((Turnstile { table }, Pass { seat })),
        }
    }

    /// A further pass, which holds no slot. It is always given.
    pub fn split(&self, pass: &mut Pass<U>) -> Result<Pass<U>, Memory>
        requires turnstile { pass.old.turnstile ≡ self.now }
        requires slots { 0 < self.now.slots }
        ensures pass { pass.new ≡ pass.old }
        ensures further { IsOkAnd result (λ further. further ≡ holds_none self.now) }
    {
        let seat = self.table.shared.split_seat::<NewPass>(&mut pass.seat);
        Ok(Pass { seat })
    }

    /// The pass holds the slots of the other too.
    pub fn join(&self, pass: &mut Pass<U>, other: Pass<U>)
        requires turnstile { pass.old.turnstile ≡ self.now }
        requires other { other.turnstile ≡ self.now }
        requires slots { 0 < self.now.slots }
        ensures { pass.new ≡ record pass.old { held = pass.old.held ++ other.held } }
    {
        let Pass { seat } = other;
        self.table
            .shared
            .join_seat::<BothPasses>(&mut pass.seat, seat);
    }

    /// Puts a unit into an empty slot, parked and woken.
    pub fn place(&self, pass: &mut Pass<U>, slot: u32, unit: U) -> Placed<U>
        requires turnstile { pass.old.turnstile ≡ self.now }
        requires slot { slot < self.now.slots }
        ensures pass { pass.new ≡ pass.old }
        ensures answer { (word : ℕ) × Showed U slot word pass.old.held × AnswersPlace word unit result }
        ensures left { LeavesPlaced slot pass.old.held result }
    {
        let slot = slot as usize;
        let table = &self.table.shared;
        let found = table.compare_exchange::<Place>(&mut pass.seat, slot, EMPTY, HELD_WOKEN);
        if found != EMPTY {
            return Placed::Taken(found, unit);
        }
        drop(table.exchange(&mut pass.seat, slot, Some(unit)));
        table.compare_exchange::<Ready>(&mut pass.seat, slot, HELD_WOKEN, PARKED_WOKEN);
        Placed::Done
    }

    /// Sets the wake bit of a slot, whoever holds it.
    pub fn wake(&self, pass: &mut Pass<U>, slot: u32) -> Woke
        requires turnstile { pass.old.turnstile ≡ self.now }
        requires slot { slot < self.now.slots }
        ensures pass { pass.new ≡ pass.old }
        ensures answer { (word : ℕ) × Showed U slot word pass.old.held × Showed U slot (bit_or word 4) pass.old.held × AnswersWake word result }
    {
        let table = &self.table.shared;
        match table.fetch_or::<Wake>(&mut pass.seat, slot as usize, WAKE) {
            PARKED => Woke::Ready,
            EMPTY => Woke::Empty,
            _ => Woke::Noted,
        }
    }

    /// Takes the unit of a slot that is parked and woken. The wake bit goes, and the pass holds the slot.
    pub fn claim(&self, pass: &mut Pass<U>, slot: u32) -> Claimed<U>
        requires turnstile { pass.old.turnstile ≡ self.now }
        requires slot { slot < self.now.slots }
        ensures pass { HoldsClaimed slot pass.old pass.new result }
        ensures answer { (word : ℕ) × Showed U slot word pass.old.held × AnswersClaim word result }
        ensures unit { GotFrom slot result }
        ensures left { LeavesClaimed slot pass.old.held result }
    {
        let slot = slot as usize;
        let table = &self.table.shared;
        let found = table.compare_exchange::<Claim>(&mut pass.seat, slot, PARKED_WOKEN, HELD);
        if found != PARKED_WOKEN {
            return Claimed::NotReady(found);
        }
        let unit = table.exchange(&mut pass.seat, slot, None);
        table.load::<Settle>(&mut pass.seat, slot);
        match unit {
            Some(unit) => Claimed::Got(unit),
            None => unreachable!(),
        }
    }

    /// Puts the unit of a slot that this pass holds back, and gives the slot up. Where the slot was woken meanwhile nothing changes:
    /// the caller serves the unit again, and calls `clear` before.
    pub fn park(&self, pass: &mut Pass<U>, slot: u32, unit: U) -> Parked<U>
        requires turnstile { pass.old.turnstile ≡ self.now }
        requires slot { slot < self.now.slots }
        requires held { Contains pass.old.held slot }
        ensures pass { HoldsParked slot pass.old pass.new result }
        ensures answer { (word : ℕ) × Showed U slot word (slot ∷ without slot pass.old.held) × AnswersPark word unit result }
        ensures left { LeavesParked slot pass.old.held result }
    {
        let slot = slot as usize;
        let table = &self.table.shared;
        table.load::<Lift>(&mut pass.seat, slot);
        drop(table.exchange(&mut pass.seat, slot, Some(unit)));
        if table.compare_exchange::<Park>(&mut pass.seat, slot, HELD, PARKED) == HELD {
            return Parked::Done;
        }
        let unit = table.exchange(&mut pass.seat, slot, None);
        table.load::<Settle>(&mut pass.seat, slot);
        match unit {
            Some(unit) => Parked::Woken(unit),
            None => unreachable!(),
        }
    }

    /// Takes the wake bit of a slot that this pass holds away.
    pub fn clear(&self, pass: &mut Pass<U>, slot: u32)
        requires turnstile { pass.old.turnstile ≡ self.now }
        requires slot { slot < self.now.slots }
        requires held { Contains pass.old.held slot }
        ensures pass { pass.new ≡ pass.old }
        ensures left { Showed U slot held pass.old.held }
    {
        self.table
            .shared
            .fetch_and::<Clear>(&mut pass.seat, slot as usize, !WAKE);
    }

    /// Empties a slot that this pass holds, and gives it up. The unit stays with the caller.
    pub fn free(&self, pass: &mut Pass<U>, slot: u32)
        requires turnstile { pass.old.turnstile ≡ self.now }
        requires slot { slot < self.now.slots }
        requires held { Contains pass.old.held slot }
        ensures { pass.new ≡ without_slot slot pass.old }
    {
        self.table
            .shared
            .swap::<Free>(&mut pass.seat, slot as usize, EMPTY);
    }
}
