//! Laws of the owner machine: each is the contract of a function that does nothing.

ghost use Rattle.owner_machine.specs.Laws.{PacketLaws, LoanLaws, RequestLaws, HandlerLaws, StopLaws};

/// Each packet that was sent is completed once; a late completion stands behind it and tells no driver.
pub fn packet_laws()
    ensures { PacketLaws }
{}

/// Each loan that went out comes back once, and is due only where nobody holds it.
pub fn loan_laws()
    ensures { LoanLaws }
{}

/// Each request is answered once; a driver learns only what was answered with success.
pub fn request_laws()
    ensures { RequestLaws }
{}

/// The serial handlers of a serialized adapter never overlap; at the enter of halt nothing of its
/// adapter is outstanding.
pub fn handler_laws()
    ensures { HandlerLaws }
{}

/// Behind the stop of an adapter stands no entry of its miniport, its handlers or its card; each entry
/// of the tail ends one thing that is outstanding, until nothing is; and behind the tail nothing is left
/// of its packets, loans and requests but what is refused.
pub fn stop_laws()
    ensures { StopLaws }
{}
