// The entry that a call is about, and what the calls ask of it.
ghost use Rattle.std.specs.Prelude.{◌≡◌};
ghost use Rattle.book_ledger.specs.Lent.{tables_in};
ghost use Rattle.call_plan.specs.Entries.{walk_of, entry_for, blocked_state, unblocked_state, free_at, table_empty};

use crate::lookup::Subject;
use base_calls::{Fault, Refusal};
use base_units::address::Gpa;
use base_units::limits::{Limits, TABLE_ENTRIES};
use book_ledger::codes::{BLOCKED, FREE, MAPPED, NL_BLOCKED, NL_MAPPED, PENDING, PENDING_BLOCKED};
use book_ledger::tables;
use book_ledger::tables::{Lent, Slot};
use book_ledger::words::Entry;
use book_walk::Stray;

// The walk of the domain x from its root.
pub fn walk_of(t: &Lent, x: Subject, gpa: Gpa, level: usize) -> Result<Slot, Stray>
    ensures { result ≡ walk_of (tables_in t.now) x gpa level }
{
    book_walk::walk_from(t, x.tdr, gpa, level, x.top, x.root)
}

// The entry of a gpa at a level, in one of the states.
pub fn entry_for(
    t: &Lent,
    x: Subject,
    gpa: Gpa,
    level: usize,
    states: Limits,
) -> Result<(Slot, Entry), Refusal>
    ensures { result ≡ entry_for (tables_in t.now) x gpa level states.least states.most }
{
    let at = walk_of(t, x, gpa, level)?;
    let e = tables::entry_at(t.entries, at);
    if !states.allow(e.state) {
        return Err(Refusal::Stop(Fault::State, level, e.state));
    }
    Ok((at, e))
}

pub fn blocked_state(state: u64) -> u64
    ensures { result ≡ blocked_state state }
{
    if state == NL_MAPPED {
        return NL_BLOCKED;
    }
    if state == MAPPED {
        return BLOCKED;
    }
    PENDING_BLOCKED
}

pub fn unblocked_state(state: u64) -> u64
    ensures { result ≡ unblocked_state state }
{
    if state == NL_BLOCKED {
        return NL_MAPPED;
    }
    if state == BLOCKED {
        return MAPPED;
    }
    PENDING
}

fn free_at(entries: &[u32], at: Slot) -> bool
    ensures { result ≡ free_at entries.now at.block at.index }
{
    tables::entry_at(entries, at).state == FREE
}

pub fn table_empty(entries: &[u32], block: usize) -> bool
    ensures { result ≡ table_empty entries.now block }
{
    (0..TABLE_ENTRIES).all(|index| free_at(entries, Slot { block, index }))
}
