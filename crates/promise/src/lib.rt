// The theorems over the rules: each function's contract is one of them.
#![tactic(auto)]

ghost use Rattle.promise.specs.Codec.{ComesBack, OneText, CutRefused, LongerRefused};
ghost use Rattle.promise.specs.Home.{RefusedKeeps, AllKept};
ghost use Rattle.promise.specs.Station.{StationRefusedKeeps, AlwaysLowest, WaitingHolds, AllStationsKept, InstalledByTheLast};

// A refused message changes nothing.
#[tactic(auto, using(crate::proofs::Refused::refused_keeps))]
pub fn refused_keeps()
    ensures { RefusedKeeps }
{}

// Diffs are put in once each and in order, locks have one holder and go in turn, and the home does not grow.
pub fn all_kept()
    ensures { AllKept }
{}

// Every message in range comes back from its bytes.
#[tactic(auto, using(crate::proofs::Back::comes_back))]
pub fn comes_back()
    ensures { ComesBack }
{}

// What is read as a message is that message's bytes: one text for each message.
pub fn one_text()
    ensures { OneText }
{}

// A message that was cut is refused, wherever it was cut.
#[tactic(auto, using(crate::proofs::Lengths::cut_refused))]
pub fn cut_refused()
    ensures { CutRefused }
{}

// A message with something behind it is refused.
#[tactic(auto, using(crate::proofs::Lengths::longer_refused))]
pub fn longer_refused()
    ensures { LongerRefused }
{}

// A call or message that a station refuses changes nothing, gives nothing, sends nothing, and is no event.
pub fn station_refused_keeps()
    ensures { StationRefusedKeeps }
{}

// Where several refusals apply, a station gives the one with the lowest number.
#[tactic(auto, using(crate::proofs::Lowest::lowest_given))]
pub fn lowest_given()
    ensures { AlwaysLowest }
{}

// While a station waits for a page no call but tell is done; while it waits for a lock, none.
#[tactic(auto, using(crate::proofs::StationSteps::waiting_holds))]
pub fn waiting_holds()
    ensures { WaitingHolds }
{}

// A station's requests and diffs are numbered without a gap, it has no more pages than there is room for, and it can take in what it waits for.
#[tactic(auto, using(crate::proofs::StationSound::stations_kept))]
pub fn stations_kept()
    ensures { AllStationsKept }
{}

// A page that a station gets is the answer to its last page request.
#[tactic(auto, using(crate::proofs::Installing::installed_by_the_last))]
pub fn installed_by_the_last()
    ensures { InstalledByTheLast }
{}
