ghost use Rattle.std.specs.Prelude.{◌≡◌};

use super::*;
use lists::Memory;
use std::alloc::Global;

/// Every answer in its turn, at slot 0 of two. The first unit is `u`; false at the first answer that is another.
fn answers_in_turn(alloc: Global) -> Result<bool, Memory> {
    let (slots, mut pass) = Turnstile::make(alloc, 2)?;
    let Placed::Done = slots.place(&mut pass, 0, 'u') else {
        return Ok(false);
    };
    let Placed::Taken(5, 'v') = slots.place(&mut pass, 0, 'v') else {
        return Ok(false);
    };
    let Claimed::Got('u') = slots.claim(&mut pass, 0) else {
        return Ok(false);
    };
    let Woke::Noted = slots.wake(&mut pass, 0) else {
        return Ok(false);
    };
    let Parked::Woken('u') = slots.park(&mut pass, 0, 'u') else {
        return Ok(false);
    };
    slots.clear(&mut pass, 0);
    let Parked::Done = slots.park(&mut pass, 0, 'u') else {
        return Ok(false);
    };
    let Claimed::NotReady(1) = slots.claim(&mut pass, 0) else {
        return Ok(false);
    };
    let Woke::Ready = slots.wake(&mut pass, 0) else {
        return Ok(false);
    };
    let Woke::Noted = slots.wake(&mut pass, 0) else {
        return Ok(false);
    };
    let Claimed::Got('u') = slots.claim(&mut pass, 0) else {
        return Ok(false);
    };
    slots.free(&mut pass, 0);
    let Woke::Empty = slots.wake(&mut pass, 0) else {
        return Ok(false);
    };
    let Claimed::NotReady(4) = slots.claim(&mut pass, 0) else {
        return Ok(false);
    };
    Ok(true)
}

/// It compiles only where the value may go to another thread.
fn sent<T: Send>(value: T) -> T
    ensures { result ≡ value }
{
    value
}

/// It compiles only where threads may share the value.
fn shared<T: Sync>(value: &T) -> &T
    ensures { result.now ≡ value.now }
{
    value
}

/// A further pass claims a slot, which the first holds once they are joined.
fn slots_of_both(alloc: Global) -> Result<bool, Memory> {
    let (slots, mut pass) = Turnstile::make(alloc, 2)?;
    let slots = shared(&slots);
    let Placed::Done = slots.place(&mut pass, 1, 'u') else {
        return Ok(false);
    };
    let mut further = sent(slots.split(&mut pass)?);
    let Claimed::Got('u') = slots.claim(&mut further, 1) else {
        return Ok(false);
    };
    let Claimed::NotReady(3) = slots.claim(&mut pass, 1) else {
        return Ok(false);
    };
    slots.join(&mut pass, further);
    slots.free(&mut pass, 1);
    Ok(true)
}

#[test]
fn each_call_answers(rt: HostRuntime) {
    assert!(rt; answers_in_turn(rt.alloc()) == Ok(true));
    assert!(rt; slots_of_both(rt.alloc()) == Ok(true));
}
