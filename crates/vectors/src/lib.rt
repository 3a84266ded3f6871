// What the vector check keeps of each word. How it goes on from event to event, and the theorems on it, are in specs/.
#![tactic(auto)]

ghost use Rattle.vectors.specs.Laws.{VectorsTell, CheckTells};

// The last time that a station read a word, or that it was written.
#[derive(Clone, Copy, Debug, PartialEq, Eq)]
pub struct Access {
    // how many events its station had had by then, this one counted; 0 where there was none
    pub count: u32,
    pub place: u32,
    pub value: u32,
}

#[derive(Clone, Copy, Debug, PartialEq, Eq)]
pub struct LastWrite {
    pub station: u8,
    pub access: Access,
}

// What happens before a station's next event is what its vector counts.
#[tactic(auto, using(crate::proofs::Vectors::vectors_tell))]
pub fn vectors_tell()
    ensures { VectorsTell }
{}

// The check says race-free of race-free traces alone, else the first race, and so for one memory and the first stale read.
#[tactic(auto, using(crate::proofs::Told::check_tells))]
pub fn check_tells()
    ensures { CheckTells }
{}
