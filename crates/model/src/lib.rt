// The words that the rules, the code and the proofs share: messages, who holds a lock and who waits.
// The rules themselves are in specs/.
#![tactic(auto)]

// A message between a station and the home. Each names the station, whichever way it goes.
#[derive(Clone, Copy, Debug, PartialEq, Eq)]
pub enum Message {
    PageRequest {
        station: u8,
        page: u16,
        number: u32,
    },
    PageReply {
        station: u8,
        page: u16,
        number: u32,
        words: [u32; 64],
    },
    // per place of the page: the new word, or none
    Diff {
        station: u8,
        number: u32,
        page: u16,
        changes: [Option<u32>; 64],
    },
    DiffApplied {
        station: u8,
        number: u32,
    },
    LockRequest {
        station: u8,
        lock: u8,
        number: u32,
    },
    LockGranted {
        station: u8,
        lock: u8,
        number: u32,
    },
    LockReleased {
        station: u8,
        lock: u8,
        number: u32,
    },
    ReleaseTaken {
        station: u8,
        lock: u8,
        number: u32,
    },
}

// Who holds a lock: a station, by the number of the request that it was granted.
#[derive(Clone, Copy, Debug, PartialEq, Eq)]
pub struct Holder {
    pub station: u8,
    pub number: u32,
}

// A lock request that has not been granted yet.
#[derive(Clone, Copy, Debug, PartialEq, Eq)]
pub struct Waiter {
    pub station: u8,
    pub lock: u8,
    pub number: u32,
}

// What the program of a station asks of it.
#[derive(Clone, Copy, Debug, PartialEq, Eq)]
pub enum Call {
    ReadWord { word: u32 },
    WriteWord { word: u32, value: u32 },
    Ask { page: u16 },
    Tell { page: u16 },
    Take { lock: u8 },
    Free { lock: u8 },
}

// What a station waits for, with the number of its request.
#[derive(Clone, Copy, Debug, PartialEq, Eq)]
pub enum Awaited {
    Page { page: u16, number: u32 },
    Lock { lock: u8, number: u32 },
}

// What a lock that a station was granted is to it, with the number of the request by which it was granted.
#[derive(Clone, Copy, Debug, PartialEq, Eq)]
pub enum Holding {
    Held { number: u32 },
    // released, and the home has not answered yet
    Unanswered { number: u32 },
}

// A station's counters: the number of its last page request, lock request and diff, and how many events it has had.
#[derive(Clone, Copy, Debug, PartialEq, Eq)]
pub struct Counters {
    pub fetches: u32,
    pub acquires: u32,
    pub diffs: u32,
    pub events: u32,
}

// A station without its pages and locks: who it is, its counters, the highest diff number that was acknowledged, and what it waits for, if anything.
#[derive(Clone, Copy, Debug, PartialEq, Eq)]
pub struct Head {
    pub station: u8,
    pub counters: Counters,
    pub acknowledged: u32,
    pub awaits: Option<Awaited>,
}
