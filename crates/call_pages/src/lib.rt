// The calls on a frame alone: reclaim, readpage.
#![tactic(auto)]

ghost use Rattle.std.specs.Prelude.{◌≡◌};
ghost use Rattle.book_ledger.specs.Lent.{tables_in};
ghost use Rattle.call_pages.specs.Pages.{reclaim_tdr, reclaim_child, reclaim_at, reclaim_plan, readpage_plan};

use base_calls::{Fault, Reading, Refusal};
use base_units::address;
use base_units::address::{Hpa, Pfn};
use book_ledger::codes::{EPT, NDA, TDCX, TDR, TEARDOWN};
use book_ledger::tables;
use book_ledger::tables::Lent;
use book_ledger::words::Frame;
use book_stock::bits;
use call_plan::change::FREED;
use call_plan::edit::{Deed, Edit, KEEPS, Plan, StockEdit};
use call_plan::lookup::Subject;
use call_plan::{change, lookup};

// A TDR in teardown without children, whose record is given back.
fn reclaim_tdr(x: Subject) -> Plan
    ensures { result ≡ reclaim_tdr x }
{
    if x.dom.life != TEARDOWN {
        return Err(Refusal::No(Fault::Life, 0));
    }
    if x.dom.children != 0 {
        return Err(Refusal::No(Fault::Remains, 0));
    }
    Ok(Deed::Do(Edit {
        frame: Some((x.tdr, FREED)),
        stock: StockEdit::Give(x.bit),
        ..KEEPS
    }))
}

// A frame of the owner x, in teardown; an EPT's table is given back.
fn reclaim_child(stock: &[u64], x: Subject, n: Pfn, f: Frame) -> Plan
    ensures { result ≡ reclaim_child stock.now x n f }
{
    if x.dom.life != TEARDOWN {
        return Err(Refusal::No(Fault::Life, 0));
    }
    if f.kind != EPT {
        return change::loses(x, n, StockEdit::Keep, None);
    }
    let table = f.number as usize;
    if !bits::in_use(stock, table) {
        return Err(Refusal::No(Fault::Link, 0));
    }
    change::loses(x, n, StockEdit::Give(table), None)
}

// Frame n, whatever it is. Of a TDR that is not its record's, or an owner that isn't a TDR, nothing can be reclaimed (14).
fn reclaim_at(t: &Lent, n: Pfn) -> Plan
    ensures { result ≡ reclaim_at (tables_in t.now) n }
{
    let f = tables::frame_at(t.frames, n);
    if f.kind == NDA {
        return Err(Refusal::No(Fault::Kind, 0));
    }
    if f.kind == TDR {
        let Ok(x) = lookup::find_domain(t, n) else {
            return Err(Refusal::No(Fault::Link, 0));
        };
        return reclaim_tdr(x);
    }
    let Ok(x) = lookup::find_domain(t, f.owner) else {
        return Err(Refusal::No(Fault::Link, 0));
    };
    reclaim_child(t.stock, x, n, f)
}

pub fn plan_reclaim(t: &Lent, hpa: Hpa) -> Plan
    ensures { result ≡ reclaim_plan t.now.base (tables_in t.now) hpa }
{
    let n = lookup::frame_operand(t.base, t.frames.len(), hpa, 0)?;
    reclaim_at(t, n)
}

pub fn plan_readpage(t: &Lent, hpa: Hpa) -> Plan
    ensures { result ≡ readpage_plan t.now.base (tables_in t.now) hpa }
{
    let n = lookup::frame_operand(t.base, t.frames.len(), hpa, 0)?;
    let f = tables::frame_at(t.frames, n);
    if f.kind < TDCX {
        return Ok(Deed::Tell(Reading::Page(f.kind, Hpa(0))));
    }
    let owner = address::hpa_of(t.base, f.owner);
    Ok(Deed::Tell(Reading::Page(f.kind, owner)))
}
