// The calls that give a tree a frame: septadd, pageadd, pageaug.
#![tactic(auto)]

ghost use Rattle.std.specs.Prelude.{◌≡◌};
ghost use Rattle.book_ledger.specs.Lent.{tables_in};
ghost use Rattle.call_adds.specs.Adds.{free_for, hang, add_table_at, add_page_at, septadd_plan, page_plan};

use base_calls::{Fault, Refusal};
use base_units::address::{Gpa, Hpa, Pfn};
use base_units::limits::Limits;
use book_ledger::codes::{EPT, FREE, NL_MAPPED, REG};
use book_ledger::tables::{Lent, Slot};
use book_ledger::words::{Entry, Frame};
use book_stock::bits;
use call_plan::change::{FREED, Gain};
use call_plan::edit::{Plan, StockEdit};
use call_plan::lookup::{LIVE, Subject};
use call_plan::{change, entry, lookup};

// The place of a FREE entry for F, which is operand k and has to be NDA.
fn free_for(
    t: &Lent,
    x: Subject,
    gpa: Gpa,
    level: usize,
    f: Pfn,
    k: u64,
) -> Result<(Slot, Entry), Refusal>
    ensures { result ≡ free_for (tables_in t.now) x gpa level f k }
{
    if !lookup::is_nda(t.frames, f) {
        return Err(Refusal::No(Fault::Kind, k));
    }
    let free = Limits {
        least: FREE,
        most: FREE,
    };
    entry::entry_for(t, x, gpa, level, free)
}

// F joins the tree at an entry, which gets a state.
fn hangs(
    frames: usize,
    x: Subject,
    f: Pfn,
    becomes: Frame,
    stock: StockEdit,
    at: Slot,
    state: u64,
) -> Plan
    ensures { result ≡ hang frames x f becomes stock at.block at.index state }
{
    let gain = Gain {
        frame: f,
        becomes,
        page: None,
        listed: x.dom.listed,
        stock,
        entry: Some((at, Entry { state, frame: f })),
    };
    change::gains(frames, x, gain)
}

// F becomes an EPT with the lowest unused table.
fn sept_at(t: &Lent, x: Subject, gpa: Gpa, level: usize, f: Pfn) -> Plan
    ensures { result ≡ add_table_at (tables_in t.now) x gpa level f }
{
    let (at, _) = free_for(t, x, gpa, level, f, 3)?;
    let Some(table) = bits::lowest_unused(t.stock, 0, t.tables()) else {
        return Err(Refusal::No(Fault::Stock, 0));
    };
    let ept = Frame {
        kind: EPT,
        owner: x.tdr,
        number: table as u64,
        ..FREED
    };
    hangs(
        t.frames.len(),
        x,
        f,
        ept,
        StockEdit::Table(table),
        at,
        NL_MAPPED,
    )
}

// F becomes a REG, and its entry gets a state.
fn page_at(t: &Lent, x: Subject, gpa: Gpa, f: Pfn, state: u64) -> Plan
    ensures { result ≡ add_page_at (tables_in t.now) x gpa f state }
{
    let (at, _) = free_for(t, x, gpa, 0, f, 2)?;
    let reg = Frame {
        kind: REG,
        owner: x.tdr,
        ..FREED
    };
    hangs(t.frames.len(), x, f, reg, StockEdit::Keep, at, state)
}

pub fn plan_septadd(t: &Lent, tdr: Hpa, gpa: Gpa, level: usize, hpa: Hpa) -> Plan
    ensures { result ≡ septadd_plan t.now.base (tables_in t.now) tdr gpa level hpa }
{
    let f = lookup::frame_operand(t.base, t.frames.len(), hpa, 3);
    let (x, m) = lookup::find_spot(t, tdr, gpa, level, 1, f, LIVE)?;
    sept_at(t, x, gpa, level, m)
}

// pageadd and pageaug: the op state asked for, and the entry's state afterwards.
pub fn plan_page(t: &Lent, tdr: Hpa, gpa: Gpa, hpa: Hpa, op: u64, state: u64) -> Plan
    ensures { result ≡ page_plan t.now.base (tables_in t.now) tdr gpa hpa op state }
{
    let f = lookup::frame_operand(t.base, t.frames.len(), hpa, 2);
    let ops = Limits {
        least: op,
        most: op,
    };
    let (x, m) = lookup::find_spot(t, tdr, gpa, 0, 0, f, ops)?;
    page_at(t, x, gpa, m, state)
}
