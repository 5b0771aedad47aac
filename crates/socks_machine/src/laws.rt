//! Laws of the machine: how a lawful turn grows by what each phase adds to it, and what stays as it is.
//!
//! Each function does nothing; its contract is the law.

ghost use Rattle.socks_machine.specs.PhaseActs.{Accepting, Seeking, Dialling, Refusing, ShuttingClient, ShuttingTarget, Closing, Waiting, GoingOn};
ghost use Rattle.socks_machine.specs.Laws.{Talk, TalkOwes, Granting, Writing, Relaying, RunsOn};
ghost use Rattle.socks_machine.specs.Later.{Later};
ghost use Rattle.socks_machine.specs.PhaseFacts.{PhaseSays};

/// In Accept a turn that has read nothing may have the desk's answer to the open.
pub fn accepting()
    ensures { Accepting }
{}

/// In Talk a turn may take any bytes of the client.
pub fn talking()
    ensures { Talk }
{}

/// What was owed to a client that talks stays owed, whatever it says next and whatever cause that fixes.
pub fn talk_owes()
    ensures { TalkOwes }
{}

/// In Seek a turn may have a lookup of the name. One that found no address, or failed, fixes the cause.
pub fn seeking()
    ensures { Seeking }
{}

/// In Judging a turn may have the desk's answer to the grant, whatever it has read.
pub fn granting()
    ensures { Granting }
{}

/// In Reach a turn may have a dial that is up; for a CONNECT without a proxy the relay begins with it.
pub fn dialling()
    ensures { Dialling }
{}

/// In Reach a turn may have a CONNECT's dial that failed, in any of the four ways; each fixes its own cause.
pub fn refusing()
    ensures { Refusing }
{}

/// A turn that has read, and whose phase has no call to make, may write to the client what is owed.
pub fn writing()
    ensures { Writing }
{}

/// In Relay a turn may take from both sides, and send what is owed to both.
pub fn relaying()
    ensures { Relaying }
{}

/// In the relay of a CONNECT the client's side may be shut, where the target has ended and all of it was sent.
pub fn shutting_client()
    ensures { ShuttingClient }
{}

/// In the relay of a CONNECT the target's side may be shut, where the client has ended and all of it was sent.
pub fn shutting_target()
    ensures { ShuttingTarget }
{}

/// A turn whose phase has no call to make may close, where the close is due; it is done then.
pub fn closing()
    ensures { Closing }
{}

/// A turn that rests before its time is over may answer Wait.
pub fn waiting()
    ensures { Waiting }
{}

/// A turn that took a quantum may answer Again.
pub fn going_on()
    ensures { GoingOn }
{}

/// A run goes on from the world that it has come to.
pub fn runs_on()
    ensures { RunsOn }
{}

/// A configuration that is published later changes no phase, and nothing that is owed.
pub fn later()
    ensures { Later }
{}

/// What each phase says of a record.
pub fn phase_says()
    ensures { PhaseSays }
{}
