// A host's ask as a caller in C makes it: a number for the call, and a place for each operand that some call has.
#![tactic(auto)]

ghost use Rattle.std.specs.Prelude.{◌≡◌};
ghost use Rattle.door_requests.specs.Requests.{ask_for};

use base_calls::{Ask, Call};
use base_units::address::{Gpa, Hpa};

// D is the domain's TDR, F a frame. A call reads the operands that the paper gives it and no others.
#[repr(C)]
#[derive(Clone, Copy)]
pub struct Request {
    pub call: u64,
    pub domain: Hpa,
    pub gpa: Gpa,
    pub level: usize,
    pub frame: Hpa,
    pub key: u64,
    pub raise: f64,
    pub clear: f64,
}

// C names a call by its number. The numbers are settled: a new call takes the next one.
pub fn ask_of(r: Request) -> Ask
    ensures { result ≡ ask_for r }
{
    let d = r.domain;
    let f = r.frame;
    let gpa = r.gpa;
    let number = r.call;
    match number {
        0 => Ask::Reset,
        1 => Ask::Marks(r.raise, r.clear),
        2 => Ask::Host(Call::Create {
            frame: f,
            key: r.key,
        }),
        3 => Ask::Host(Call::KeyConfig { domain: d }),
        4 => Ask::Host(Call::AddCx {
            domain: d,
            frame: f,
        }),
        5 => Ask::Host(Call::Init { domain: d }),
        6 => Ask::Host(Call::SeptAdd {
            domain: d,
            gpa,
            level: r.level,
            frame: f,
        }),
        7 => Ask::Host(Call::PageAdd {
            domain: d,
            gpa,
            frame: f,
        }),
        8 => Ask::Host(Call::Finalize { domain: d }),
        9 => Ask::Host(Call::PageAug {
            domain: d,
            gpa,
            frame: f,
        }),
        10 => Ask::Host(Call::Block {
            domain: d,
            gpa,
            level: r.level,
        }),
        11 => Ask::Host(Call::Track { domain: d }),
        12 => Ask::Host(Call::Unblock {
            domain: d,
            gpa,
            level: r.level,
        }),
        13 => Ask::Host(Call::PageRemove { domain: d, gpa }),
        14 => Ask::Host(Call::SeptRemove {
            domain: d,
            gpa,
            level: r.level,
        }),
        15 => Ask::Host(Call::FlushDone { domain: d }),
        16 => Ask::Host(Call::KeyFree { domain: d }),
        17 => Ask::Host(Call::Reclaim { frame: f }),
        18 => Ask::Host(Call::ReadPage { frame: f }),
        19 => Ask::Host(Call::ReadEntry {
            domain: d,
            gpa,
            level: r.level,
        }),
        20 => Ask::Host(Call::CacheWb),
        _ => Ask::Unreadable,
    }
}
