// A plan carried out: the only code that writes the lent tables of a call.
#![tactic(auto)]

ghost use Rattle.std.specs.Prelude.{◌≡◌};
ghost use Rattle.book_ledger.specs.Lent.{tables_of, SameLoans};
ghost use Rattle.call_carry.specs.Carry.{after_frame, after_page, after_domain, after_use, after_record, after_block, after_entry, applied, swept_record, swept_tables};
ghost use Rattle.call_carry.specs.Carry.{carried_out, carried};

use base_calls::{Answer, Reading};
use base_units::address::Pfn;
use base_units::limits::RECORD_WORDS;
use book_ledger::tables;
use book_ledger::tables::{LentMut, Slot};
use book_ledger::words::{Domain, Entry, Frame};
use book_stock::{bits, wipe};
use call_plan::edit::{Deed, Edit, Plan, StockEdit, Sweep};

#[tactic(auto, unfolding(crate::specs::Carry::after_frame))]
fn apply_frame(frames: &mut [u64], e: Option<(Pfn, Frame)>)
    ensures { frames.new ≡ after_frame e frames.old }
{
    if let Some((n, f)) = e {
        tables::put_frame(frames, n, f);
    }
}

#[tactic(auto, unfolding(crate::specs::Carry::after_page))]
fn apply_page(domains: &mut [u64], e: Option<(usize, usize, Pfn)>)
    ensures { domains.new ≡ after_page e domains.old }
{
    if let Some((rec, page, n)) = e {
        tables::put_page(domains, rec, page, n);
    }
}

#[tactic(auto, unfolding(crate::specs::Carry::after_domain))]
fn apply_domain(domains: &mut [u64], e: Option<(usize, Domain)>)
    ensures { domains.new ≡ after_domain e domains.old }
{
    if let Some((rec, d)) = e {
        tables::put_domain(domains, rec, d);
    }
}

#[tactic(auto, unfolding(crate::specs::Carry::after_entry))]
fn apply_entry(entries: &mut [u32], e: Option<(Slot, Entry)>)
    ensures { entries.new ≡ after_entry e entries.old }
{
    if let Some((at, x)) = e {
        tables::put_entry(entries, at, x);
    }
}

#[tactic(auto, unfolding(crate::specs::Carry::after_use))]
fn apply_use(stock: &mut [u64], e: StockEdit)
    ensures { stock.new ≡ after_use e stock.old }
{
    match e {
        StockEdit::Keep => {}
        StockEdit::Table(b) => bits::put_use(stock, b, true),
        StockEdit::Record(bit, _, _) => bits::put_use(stock, bit, true),
        StockEdit::Give(bit) => bits::put_use(stock, bit, false),
    }
}

// A taken record is wiped.
#[tactic(auto, unfolding(crate::specs::Carry::after_record))]
fn apply_record(domains: &mut [u64], e: StockEdit)
    ensures { domains.new ≡ after_record e domains.old }
{
    if let StockEdit::Record(_, _, rec) = e {
        wipe::wipe_record(domains, rec);
    }
}

// A taken table, or a taken record's root, is wiped.
#[tactic(auto, unfolding(crate::specs::Carry::after_block))]
fn apply_block(entries: &mut [u32], e: StockEdit)
    ensures { entries.new ≡ after_block e entries.old }
{
    match e {
        StockEdit::Table(block) | StockEdit::Record(_, block, _) => wipe::wipe_block(
            entries, block,
        ),
        StockEdit::Keep | StockEdit::Give(_) => {}
    }
}

// Of a sweep, one record; one that isn't in use is left as it is.
fn sweep_record(t: &mut LentMut, w: Sweep, rec: usize)
    ensures place { SameLoans t.old t.new }
    ensures tables { tables_of t.new ≡ swept_record w rec (tables_of t.old) }
{
    let lent = t.shared();
    if bits::in_use(lent.stock, lent.bit_of(rec)) {
        let d = tables::domain_at(lent.domains, rec);
        if d.life == w.from {
            tables::put_domain(t.domains, rec, Domain { life: w.to, ..d });
        }
    }
}

fn sweep(t: &mut LentMut, w: Sweep)
    ensures place { SameLoans t.old t.new }
    ensures tables { tables_of t.new ≡ swept_tables w (tables_of t.old) }
{
    for rec in 0..t.domains.len() / RECORD_WORDS {
        sweep_record(t, w, rec);
    }
}

fn apply(t: &mut LentMut, e: Edit)
    ensures place { SameLoans t.old t.new }
    ensures tables { tables_of t.new ≡ applied e (tables_of t.old) }
{
    apply_frame(t.frames, e.frame);
    apply_use(t.stock, e.stock);
    apply_record(t.domains, e.stock);
    apply_domain(t.domains, e.domain);
    apply_page(t.domains, e.page);
    apply_block(t.entries, e.stock);
    apply_entry(t.entries, e.entry);
}

pub fn carry(t: &mut LentMut, p: Plan) -> Answer
    ensures place { SameLoans t.old t.new }
    ensures tables { carried_out result (tables_of t.new) ≡ carried (tables_of t.old) p }
{
    let deed = p?;
    match deed {
        Deed::Tell(reading) => return Ok(reading),
        Deed::Do(e) => apply(t, e),
        Deed::Each(w) => sweep(t, w),
    }
    Ok(Reading::Done)
}
