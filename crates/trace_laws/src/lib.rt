// The theorems on traces alone: each function's contract is one of them.
#![tactic(auto)]

ghost use Rattle.trace_laws.specs.Codec.{EventComesBack, EventOneText, TraceComesBack, TraceOneText};
ghost use Rattle.trace_laws.specs.Beginnings.{Beginnings};

// Every event in range comes back from its ten bytes.
#[tactic(auto, using(crate::proofs::OneEvent::event_back))]
pub fn event_comes_back()
    ensures { EventComesBack }
{}

// What is read as an event is that event's bytes, and the event is in range.
pub fn event_one_text()
    ensures { EventOneText }
{}

// Every trace in range comes back from its bytes.
#[tactic(auto, using(crate::proofs::WholeTrace::trace_back))]
pub fn trace_comes_back()
    ensures { TraceComesBack }
{}

// What is read as a trace is that trace's bytes: other bytes, of whatever length, are refused as malformed.
#[tactic(auto, using(crate::proofs::WholeTrace::trace_text))]
pub fn trace_one_text()
    ensures { TraceOneText }
{}

// What is said of a trace is said of each beginning that has the events.
#[tactic(auto, using(crate::proofs::Inherited::inherited))]
pub fn beginnings()
    ensures { Beginnings }
{}
