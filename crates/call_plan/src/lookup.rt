// Whom a call is about: the operands, the domain, and the state that its record is in.
ghost use Rattle.std.specs.Prelude.{◌≡◌};
ghost use Rattle.book_ledger.specs.Lent.{tables_in};
ghost use Rattle.call_plan.specs.Lookup.{frame_operand, is_nda, domain_for, parties_for, built_for, spot_operand, spot_for};

use base_calls::{Fault, Refusal};
use base_levels::ROWS;
use base_units::address;
use base_units::address::{Gpa, Hpa, Pfn};
use base_units::limits::{CONTROL_PAGES, Limits};
use book_ledger::codes::{CONFIGURED, INITIALIZED, NDA, RUNNABLE, TDR};
use book_ledger::tables;
use book_ledger::tables::Lent;
use book_ledger::words::Domain;
use book_stock::bits;

// F's operand for a call that has no F.
pub const NO_FRAME: Result<Pfn, Refusal> = Ok(Pfn(0));

// The op states of a domain that is live.
pub const LIVE: Limits = Limits {
    least: INITIALIZED,
    most: RUNNABLE,
};

// A domain: its TDR, its record's number and in-use bit, the block and the level of its root, and its scalars.
#[derive(Clone, Copy)]
pub struct Subject {
    pub tdr: Pfn,
    pub rec: usize,
    pub bit: usize,
    pub root: usize,
    pub top: usize,
    pub dom: Domain,
}

// The frame that an operand names, or the operand at fault.
pub fn frame_operand(base: Hpa, frames: usize, hpa: Hpa, operand: u64) -> Result<Pfn, Refusal>
    ensures { result ≡ frame_operand base frames hpa operand }
{
    address::frame_of(base, frames, hpa).ok_or(Refusal::No(Fault::Operand, operand))
}

// Whether a frame is free to be taken (else F's 2).
pub fn is_nda(frames: &[u64], f: Pfn) -> bool
    ensures { result ≡ is_nda frames.now f }
{
    tables::frame_at(frames, f).kind == NDA
}

// The domain whose TDR is frame n.
pub fn find_domain(t: &Lent, n: Pfn) -> Result<Subject, Refusal>
    ensures { result ≡ domain_for (tables_in t.now) n }
{
    let f = tables::frame_at(t.frames, n);
    if f.kind != TDR {
        return Err(Refusal::No(Fault::Kind, 0));
    }
    let rec = f.number as usize;
    let bit = t.bit_of(rec);
    if !bits::in_use(t.stock, bit) {
        return Err(Refusal::No(Fault::Link, 0));
    }
    let root = t.root_of(rec);
    let dom = tables::domain_at(t.domains, rec);
    Ok(Subject {
        tdr: n,
        rec,
        bit,
        root,
        top: ROWS - 1,
        dom,
    })
}

// D by its hpa, and F where a call has one: every operand is looked at before D is.
pub fn find_parties(t: &Lent, tdr: Hpa, f: Result<Pfn, Refusal>) -> Result<(Subject, Pfn), Refusal>
    ensures { result ≡ parties_for t.now.base (tables_in t.now) tdr f }
{
    let n = frame_operand(t.base, t.frames.len(), tdr, 0)?;
    let m = f?;
    let x = find_domain(t, n)?;
    Ok((x, m))
}

// D with its keys configured, all its control pages and one of the op states.
pub fn find_built(
    t: &Lent,
    tdr: Hpa,
    f: Result<Pfn, Refusal>,
    ops: Limits,
) -> Result<(Subject, Pfn), Refusal>
    ensures { result ≡ built_for t.now.base (tables_in t.now) tdr f ops.least ops.most }
{
    let (x, m) = find_parties(t, tdr, f)?;
    if x.dom.life != CONFIGURED {
        return Err(Refusal::No(Fault::Life, 0));
    }
    if x.dom.listed != (CONTROL_PAGES as u64) {
        return Err(Refusal::No(Fault::Pages, 0));
    }
    if !ops.allow(x.dom.op) {
        return Err(Refusal::No(Fault::OpState, 0));
    }
    Ok((x, m))
}

// A gpa at a level from `lowest` on, and then F.
fn spot_operand(
    gpa: Gpa,
    level: usize,
    lowest: usize,
    f: Result<Pfn, Refusal>,
) -> Result<Pfn, Refusal>
    ensures { result ≡ spot_operand gpa level lowest f }
{
    if !base_levels::gpa_fits(gpa, level) {
        return Err(Refusal::No(Fault::Operand, 1));
    }
    if !base_levels::level_ok(lowest, level) {
        return Err(Refusal::No(Fault::Operand, 2));
    }
    f
}

// The same for the calls on a domain's tree: D built, with a gpa at a level from `lowest` on.
pub fn find_spot(
    t: &Lent,
    tdr: Hpa,
    gpa: Gpa,
    level: usize,
    lowest: usize,
    f: Result<Pfn, Refusal>,
    ops: Limits,
) -> Result<(Subject, Pfn), Refusal>
    ensures { result ≡ spot_for t.now.base (tables_in t.now) tdr gpa level lowest f ops.least ops.most }
{
    find_built(t, tdr, spot_operand(gpa, level, lowest, f), ops)
}
