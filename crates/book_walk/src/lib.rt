// The Secure EPT walk, from a domain's root down to the entry of a gpa at a level.
#![tactic(auto)]

ghost use Rattle.std.specs.Prelude.{◌≡◌};
ghost use Rattle.book_walk.specs.Walk.{refusal_of, entry_type, own_frame, walk_from};

use base_calls::{Fault, Refusal};
use base_units::address::{Gpa, Pfn};
use book_ledger::codes::{EPT, NL_BLOCKED, NL_MAPPED, REG};
use book_ledger::tables;
use book_ledger::tables::{Lent, Slot};
use book_ledger::words::Entry;
use book_stock::bits;

// Why a walk doesn't arrive: it stopped, with the level and state there (answer 6), or came to a frame that it may not follow
// (answer 14).
#[derive(Clone, Copy, PartialEq, Eq)]
pub enum Stray {
    Stopped(usize, u64),
    Foreign,
}

impl From<Stray> for Refusal {
    ghost from_gives = { λ s r. r ≡ refusal_of s };

    fn from(s: Stray) -> Refusal {
        match s {
            Stray::Stopped(level, state) => Refusal::Stop(Fault::Walk, level, state),
            Stray::Foreign => Refusal::No(Fault::Link, 0),
        }
    }
}

// The type that an entry's frame has to be.
fn entry_type(state: u64) -> u64
    ensures { result ≡ entry_type state }
{
    if state == NL_MAPPED {
        return EPT;
    }
    if state == NL_BLOCKED {
        return EPT;
    }
    REG
}

// Whether an entry's frame is the domain's own, of the entry's type, with its table in use if it is an EPT (else answer 14).
pub fn own_frame(t: &Lent, tdr: Pfn, e: Entry) -> bool
    ensures { result ≡ own_frame t.now.frames.now t.now.stock.now tdr e }
{
    let f = tables::frame_at(t.frames, e.frame);
    if f.kind != entry_type(e.state) {
        return false;
    }
    if f.owner != tdr {
        return false;
    }
    if f.kind != EPT {
        return true;
    }
    bits::in_use(t.stock, f.number as usize)
}

// The walk of the domain `tdr` to the level `want` from the block at `level`. It calls itself on the level below.
pub fn walk_from(
    t: &Lent,
    tdr: Pfn,
    gpa: Gpa,
    want: usize,
    level: usize,
    block: usize,
) -> Result<Slot, Stray>
    ensures { result ≡ walk_from t.now.frames.now t.now.stock.now t.now.entries.now tdr gpa want level block }
{
    let index = base_levels::index_at(gpa, level);
    let at = Slot { block, index };
    if level <= want {
        return Ok(at);
    }
    let e = tables::entry_at(t.entries, at);
    if e.state != NL_MAPPED {
        return Err(Stray::Stopped(level, e.state));
    }
    if !own_frame(t, tdr, e) {
        return Err(Stray::Foreign);
    }
    let f = tables::frame_at(t.frames, e.frame);
    walk_from(t, tdr, gpa, want, level - 1, f.number as usize)
}
