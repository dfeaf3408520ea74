// The calls on domains' records: create, keyconfig, addcx, init, finalize, track, flushdone, cachewb, keyfree.
#![tactic(auto)]

ghost use Rattle.std.specs.Prelude.{◌≡◌};
ghost use Rattle.book_ledger.specs.Lent.{tables_in};
ghost use Rattle.call_domains.specs.Domains.{life_plan, cachewb_plan, op_plan, track_plan, enlist_at, addcx_plan, other_key, key_unused, new_record, create_at, create_plan};

use base_calls::{Fault, Refusal};
use base_units::address::{Hpa, Pfn};
use base_units::limits;
use base_units::limits::{CONTROL_PAGES, Limits};
use book_ledger::codes::{
    ASSIGNED, BLOCKED_LIFE, CONFIGURED, TDCX, TDR, TEARDOWN, UNINITIALIZED, WRITTEN_BACK,
};
use book_ledger::tables;
use book_ledger::tables::Lent;
use book_ledger::words::{Domain, Frame};
use book_stock::bits;
use call_plan::change::{FREED, Gain};
use call_plan::edit::{Deed, Edit, KEEPS, Plan, StockEdit, Sweep};
use call_plan::lookup::{NO_FRAME, Subject};
use call_plan::{change, lookup};

// keyconfig, flushdone and keyfree: the lifecycles from which it may go, and what it becomes.
pub fn plan_life(t: &Lent, tdr: Hpa, lives: Limits, life: u64) -> Plan
    ensures { result ≡ life_plan t.now.base (tables_in t.now) tdr lives.least lives.most life }
{
    let (x, _) = lookup::find_parties(t, tdr, NO_FRAME)?;
    if !lives.allow(x.dom.life) {
        return Err(Refusal::No(Fault::Life, 0));
    }
    change::becomes(x, Domain { life, ..x.dom })
}

// cachewb: every domain in blocked becomes blocked and written back.
pub fn plan_cachewb() -> Plan
    ensures { result ≡ cachewb_plan }
{
    Ok(Deed::Each(Sweep {
        from: BLOCKED_LIFE,
        to: WRITTEN_BACK,
    }))
}

// init and finalize: the op state asked for, and what it becomes.
pub fn plan_op(t: &Lent, tdr: Hpa, from: u64, op: u64) -> Plan
    ensures { result ≡ op_plan t.now.base (tables_in t.now) tdr from op }
{
    let ops = Limits {
        least: from,
        most: from,
    };
    let (x, _) = lookup::find_built(t, tdr, NO_FRAME, ops)?;
    change::becomes(x, Domain { op, ..x.dom })
}

pub fn plan_track(t: &Lent, tdr: Hpa) -> Plan
    ensures { result ≡ track_plan t.now.base (tables_in t.now) tdr }
{
    let (x, _) = lookup::find_built(t, tdr, NO_FRAME, lookup::LIVE)?;
    if x.dom.epoch >= limits::EPOCHS.most {
        return Err(Refusal::No(Fault::Epoch, 0));
    }
    change::becomes(
        x,
        Domain {
            epoch: x.dom.epoch + 1,
            ..x.dom
        },
    )
}

// A control page more: the state's 3, the list's 4, F's 2.
fn enlists(frames: &[u64], x: Subject, f: Pfn) -> Plan
    ensures { result ≡ enlist_at frames.now x f }
{
    if x.dom.life != CONFIGURED {
        return Err(Refusal::No(Fault::Life, 0));
    }
    if x.dom.listed >= (CONTROL_PAGES as u64) {
        return Err(Refusal::No(Fault::Pages, 0));
    }
    if !lookup::is_nda(frames, f) {
        return Err(Refusal::No(Fault::Kind, 1));
    }
    let gain = Gain {
        frame: f,
        becomes: Frame {
            kind: TDCX,
            owner: x.tdr,
            ..FREED
        },
        page: Some((x.rec, x.dom.listed as usize, f)),
        listed: x.dom.listed + 1,
        stock: StockEdit::Keep,
        entry: None,
    };
    change::gains(frames.len(), x, gain)
}

pub fn plan_addcx(t: &Lent, tdr: Hpa, hpa: Hpa) -> Plan
    ensures { result ≡ addcx_plan t.now.base (tables_in t.now) tdr hpa }
{
    let f = lookup::frame_operand(t.base, t.frames.len(), hpa, 1);
    let (x, m) = lookup::find_parties(t, tdr, f)?;
    enlists(t.frames, x, m)
}

// Whether the record of an in-use bit, if it is in use and before teardown, has another key.
fn other_key(domains: &[u64], stock: &[u64], first: usize, key: u64, bit: usize) -> bool
    ensures { result ≡ other_key domains.now stock.now first key bit }
{
    if !bits::in_use(stock, bit) {
        return true;
    }
    let d = tables::domain_at(domains, bit.saturating_sub(first));
    if d.key != key {
        return true;
    }
    d.life == TEARDOWN
}

fn key_unused(domains: &[u64], stock: &[u64], first: usize, end: usize, key: u64) -> bool
    ensures { result ≡ key_unused domains.now stock.now first end key }
{
    (first..end).all(|bit| other_key(domains, stock, first, key, bit))
}

fn creates(t: &Lent, f: Pfn, key: u64) -> Plan
    ensures { result ≡ create_at (tables_in t.now) f key }
{
    if !lookup::is_nda(t.frames, f) {
        return Err(Refusal::No(Fault::Kind, 0));
    }
    let first = t.tables();
    let end = t.bits();
    if !key_unused(t.domains, t.stock, first, end, key) {
        return Err(Refusal::No(Fault::Key, 1));
    }
    let Some(bit) = bits::lowest_unused(t.stock, first, end) else {
        return Err(Refusal::No(Fault::Stock, 0));
    };
    let rec = bit.saturating_sub(first);
    new_record(f, key, bit, t.root_of(rec), rec)
}

fn new_record(f: Pfn, key: u64, bit: usize, root: usize, rec: usize) -> Plan
    ensures { result ≡ new_record f key bit root rec }
{
    let tdr = Frame {
        kind: TDR,
        number: rec as u64,
        ..FREED
    };
    let fresh = Domain {
        key,
        life: ASSIGNED,
        op: UNINITIALIZED,
        listed: 0,
        children: 0,
        epoch: limits::EPOCHS.least,
        width: 0,
    };
    Ok(Deed::Do(Edit {
        frame: Some((f, tdr)),
        domain: Some((rec, fresh)),
        stock: StockEdit::Record(bit, root, rec),
        ..KEEPS
    }))
}

pub fn plan_create(t: &Lent, hpa: Hpa, key: u64) -> Plan
    ensures { result ≡ create_plan t.now.base (tables_in t.now) hpa key }
{
    let f = lookup::frame_operand(t.base, t.frames.len(), hpa, 0)?;
    if !limits::KEYS.allow(key) {
        return Err(Refusal::No(Fault::Operand, 1));
    }
    creates(t, f, key)
}
