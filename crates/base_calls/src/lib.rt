// The host calls of documents 01 and 02 by value, and what the module answers to them.
#![tactic(auto)]

ghost use Rattle.std.specs.Prelude.{◌≡◌};
ghost use Rattle.base_calls.specs.Answers.{number_of_fault, plain, values_of};

use base_units::address::{Gpa, Hpa};

// `domain` is its TDR's hpa (the paper's D), `frame` a frame's (F); operands in the order of the paper's table.
#[derive(Clone, Copy)]
pub enum Call {
    Create {
        frame: Hpa,
        key: u64,
    },
    KeyConfig {
        domain: Hpa,
    },
    AddCx {
        domain: Hpa,
        frame: Hpa,
    },
    Init {
        domain: Hpa,
    },
    SeptAdd {
        domain: Hpa,
        gpa: Gpa,
        level: usize,
        frame: Hpa,
    },
    PageAdd {
        domain: Hpa,
        gpa: Gpa,
        frame: Hpa,
    },
    Finalize {
        domain: Hpa,
    },
    PageAug {
        domain: Hpa,
        gpa: Gpa,
        frame: Hpa,
    },
    Block {
        domain: Hpa,
        gpa: Gpa,
        level: usize,
    },
    Track {
        domain: Hpa,
    },
    Unblock {
        domain: Hpa,
        gpa: Gpa,
        level: usize,
    },
    PageRemove {
        domain: Hpa,
        gpa: Gpa,
    },
    SeptRemove {
        domain: Hpa,
        gpa: Gpa,
        level: usize,
    },
    FlushDone {
        domain: Hpa,
    },
    KeyFree {
        domain: Hpa,
    },
    Reclaim {
        frame: Hpa,
    },
    ReadPage {
        frame: Hpa,
    },
    ReadEntry {
        domain: Hpa,
        gpa: Gpa,
        level: usize,
    },
    CacheWb,
}

// What a host asks: one of its calls, the setting of the gauge's marks (raise, clear), a fresh start, or nothing that has a name.
#[derive(Clone, Copy)]
pub enum Ask {
    Host(Call),
    Marks(f64, f64),
    Reset,
    Unreadable,
}

// What an accepted call reads out: nothing, a page's type and owner, or an entry's level, state and hpa.
#[derive(Clone, Copy, PartialEq, Eq)]
pub enum Reading {
    Done,
    Page(u64, Hpa),
    Entry(usize, u64, Hpa),
}

// The paper's numbers of "When the module says no", each by what is wrong.
#[derive(Clone, Copy, PartialEq, Eq)]
pub enum Fault {
    Operand = 1,
    Kind = 2,
    Life = 3,
    Pages = 4,
    OpState = 5,
    Walk = 6,
    State = 7,
    Untracked = 8,
    Remains = 9,
    Key = 10,
    Stock = 11,
    Epoch = 12,
    Range = 13,
    Link = 14,
    Unreadable = 15,
}

impl Fault {
    pub fn number(self) -> u64
        ensures { result ≡ number_of_fault self }
    {
        self as u64
    }
}

// A refusal: with the operand at fault (from 0), or with the level and state where a walk ended (6) or of the entry that it found (7).
#[derive(Clone, Copy, PartialEq, Eq)]
pub enum Refusal {
    No(Fault, u64),
    Stop(Fault, usize, u64),
}

// The paper's answers: accepted, or refused.
pub type Answer = Result<Reading, Refusal>;

// An answer as the paper writes it and as C reads it: its number and all that is read out, kinds and states as numbers.
#[repr(C)]
#[derive(Clone, Copy)]
pub struct Values {
    pub number: u64,
    pub kind: u64,
    pub owner: Hpa,
    pub level: usize,
    pub state: u64,
    pub hpa: Hpa,
}

impl Values {
    // An answer of any number that reads out zeros.
    pub fn plain(number: u64) -> Values
        ensures { result ≡ plain number }
    {
        Values {
            number,
            kind: 0,
            owner: Hpa(0),
            level: 0,
            state: 0,
            hpa: Hpa(0),
        }
    }
}

impl From<Answer> for Values {
    ghost from_gives = { λ a v. v ≡ values_of a };

    #[tactic(auto, unfolding(crate::specs::Answers::values_of))]
    fn from(a: Answer) -> Values {
        match a {
            Ok(Reading::Done) => Values::plain(0),
            Ok(Reading::Page(kind, owner)) => Values {
                kind,
                owner,
                ..Values::plain(0)
            },
            Ok(Reading::Entry(level, state, hpa)) => Values {
                level,
                state,
                hpa,
                ..Values::plain(0)
            },
            Err(Refusal::No(fault, _)) => Values::plain(fault.number()),
            Err(Refusal::Stop(fault, level, state)) => Values {
                level,
                state,
                ..Values::plain(fault.number())
            },
        }
    }
}
