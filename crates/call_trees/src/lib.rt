// The calls on what a domain's tree has: block, unblock, pageremove, septremove, readentry.
#![tactic(auto)]

ghost use Rattle.std.specs.Prelude.{◌≡◌};
ghost use Rattle.book_ledger.specs.Lent.{tables_in};
ghost use Rattle.call_plan.specs.Changes.{lose};
ghost use Rattle.call_plan.specs.Edits.{free_entry, to_entry};
ghost use Rattle.call_plan.specs.Entries.{is_tracked};
ghost use Rattle.call_plan.specs.Lookup.{no_frame, live_for};
ghost use Rattle.call_trees.specs.Trees.{block_at, block_plan, tracked_for, unblock_at, unblock_plan};
ghost use Rattle.call_trees.specs.Trees.{pageremove_at, pageremove_plan, septremove_at, septremove_plan, readentry_at, readentry_plan};

use base_calls::{Fault, Reading, Refusal};
use base_units::address;
use base_units::address::{Gpa, Hpa, Pfn};
use base_units::limits::Limits;
use book_ledger::codes::{
    BLOCKED, FREE, INITIALIZED, NL_BLOCKED, NL_MAPPED, PENDING, PENDING_BLOCKED,
};
use book_ledger::tables;
use book_ledger::tables::{Lent, Slot};
use book_ledger::words::{Entry, Frame};
use call_plan::edit::{Deed, Edit, KEEPS, Plan, StockEdit};
use call_plan::lookup::{LIVE, NO_FRAME, Subject};
use call_plan::{change, entry, lookup};

// The states of an entry that may be blocked, and those of one that is.
const UNBLOCKED: Limits = Limits {
    least: NL_MAPPED,
    most: PENDING,
};

const ANY_BLOCKED: Limits = Limits {
    least: NL_BLOCKED,
    most: PENDING_BLOCKED,
};

const PAGE_BLOCKED: Limits = Limits {
    least: BLOCKED,
    most: PENDING_BLOCKED,
};

const TABLE_BLOCKED: Limits = Limits {
    least: NL_BLOCKED,
    most: NL_BLOCKED,
};

// Whether a frame is tracked for the domain x. One that is still being built can't be running, and no processor remembers its old entries.
fn is_tracked(frames: &[u64], n: Pfn, x: Subject) -> bool
    ensures { result ≡ is_tracked frames.now n x }
{
    if x.dom.op == INITIALIZED {
        return true;
    }
    tables::frame_at(frames, n).epoch < x.dom.epoch
}

// An entry whose frame is the domain's own becomes blocked, and the frame's epoch the domain's.
fn block_at(t: &Lent, x: Subject, gpa: Gpa, level: usize) -> Plan
    ensures { result ≡ block_at (tables_in t.now) x gpa level }
{
    let (at, e) = entry::entry_for(t, x, gpa, level, UNBLOCKED)?;
    if !book_walk::own_frame(t, x.tdr, e) {
        return Err(Refusal::No(Fault::Link, 0));
    }
    let f = tables::frame_at(t.frames, e.frame);
    let since = Frame {
        epoch: x.dom.epoch,
        ..f
    };
    let state = entry::blocked_state(e.state);
    Ok(Deed::Do(Edit {
        frame: Some((e.frame, since)),
        entry: Some((at, Entry { state, ..e })),
        ..KEEPS
    }))
}

// An entry in one of the states, whose frame is tracked and the domain's own.
fn tracked_for(
    t: &Lent,
    x: Subject,
    gpa: Gpa,
    level: usize,
    states: Limits,
) -> Result<(Slot, Entry), Refusal>
    ensures { result ≡ tracked_for (tables_in t.now) x gpa level states.least states.most }
{
    let (at, e) = entry::entry_for(t, x, gpa, level, states)?;
    if !is_tracked(t.frames, e.frame, x) {
        return Err(Refusal::No(Fault::Untracked, 0));
    }
    if !book_walk::own_frame(t, x.tdr, e) {
        return Err(Refusal::No(Fault::Link, 0));
    }
    Ok((at, e))
}

fn unblock_at(t: &Lent, x: Subject, gpa: Gpa, level: usize) -> Plan
    ensures { result ≡ unblock_at (tables_in t.now) x gpa level }
{
    let (at, e) = tracked_for(t, x, gpa, level, ANY_BLOCKED)?;
    let state = entry::unblocked_state(e.state);
    Ok(Deed::Do(Edit {
        entry: Some((at, Entry { state, ..e })),
        ..KEEPS
    }))
}

// The frame leaves the domain, and its entry becomes FREE.
fn frees(x: Subject, frame: Pfn, stock: StockEdit, at: Slot) -> Plan
    ensures { result ≡ lose x frame stock (to_entry at.block at.index free_entry) }
{
    let free = Entry {
        state: FREE,
        frame: Pfn(0),
    };
    change::loses(x, frame, stock, Some((at, free)))
}

fn pageremove_at(t: &Lent, x: Subject, gpa: Gpa) -> Plan
    ensures { result ≡ pageremove_at (tables_in t.now) x gpa }
{
    let (at, e) = tracked_for(t, x, gpa, 0, PAGE_BLOCKED)?;
    frees(x, e.frame, StockEdit::Keep, at)
}

fn septremove_at(t: &Lent, x: Subject, gpa: Gpa, level: usize) -> Plan
    ensures { result ≡ septremove_at (tables_in t.now) x gpa level }
{
    let (at, e) = tracked_for(t, x, gpa, level, TABLE_BLOCKED)?;
    let f = tables::frame_at(t.frames, e.frame);
    let table = f.number as usize;
    if !entry::table_empty(t.entries, table) {
        return Err(Refusal::No(Fault::Remains, 0));
    }
    frees(x, e.frame, StockEdit::Give(table), at)
}

fn readentry_at(t: &Lent, x: Subject, gpa: Gpa, level: usize) -> Plan
    ensures { result ≡ readentry_at t.now.base (tables_in t.now) x gpa level }
{
    let at = entry::walk_of(t, x, gpa, level)?;
    let e = tables::entry_at(t.entries, at);
    if e.state == FREE {
        return Ok(Deed::Tell(Reading::Entry(level, e.state, Hpa(0))));
    }
    let hpa = address::hpa_of(t.base, e.frame);
    Ok(Deed::Tell(Reading::Entry(level, e.state, hpa)))
}

// D live, with a gpa and a level from `lowest` on.
fn find_live(
    t: &Lent,
    tdr: Hpa,
    gpa: Gpa,
    level: usize,
    lowest: usize,
) -> Result<(Subject, Pfn), Refusal>
    ensures { result ≡ live_for t.now.base (tables_in t.now) tdr gpa level lowest no_frame }
{
    lookup::find_spot(t, tdr, gpa, level, lowest, NO_FRAME, LIVE)
}

pub fn plan_block(t: &Lent, tdr: Hpa, gpa: Gpa, level: usize) -> Plan
    ensures { result ≡ block_plan t.now.base (tables_in t.now) tdr gpa level }
{
    let (x, _) = find_live(t, tdr, gpa, level, 0)?;
    block_at(t, x, gpa, level)
}

pub fn plan_unblock(t: &Lent, tdr: Hpa, gpa: Gpa, level: usize) -> Plan
    ensures { result ≡ unblock_plan t.now.base (tables_in t.now) tdr gpa level }
{
    let (x, _) = find_live(t, tdr, gpa, level, 0)?;
    unblock_at(t, x, gpa, level)
}

pub fn plan_pageremove(t: &Lent, tdr: Hpa, gpa: Gpa) -> Plan
    ensures { result ≡ pageremove_plan t.now.base (tables_in t.now) tdr gpa }
{
    let (x, _) = find_live(t, tdr, gpa, 0, 0)?;
    pageremove_at(t, x, gpa)
}

pub fn plan_septremove(t: &Lent, tdr: Hpa, gpa: Gpa, level: usize) -> Plan
    ensures { result ≡ septremove_plan t.now.base (tables_in t.now) tdr gpa level }
{
    let (x, _) = find_live(t, tdr, gpa, level, 1)?;
    septremove_at(t, x, gpa, level)
}

pub fn plan_readentry(t: &Lent, tdr: Hpa, gpa: Gpa, level: usize) -> Plan
    ensures { result ≡ readentry_plan t.now.base (tables_in t.now) tdr gpa level }
{
    let (x, _) = find_live(t, tdr, gpa, level, 0)?;
    readentry_at(t, x, gpa, level)
}
