// What a domain's record becomes: its scalars alone, or with a frame gained or lost.
ghost use Rattle.std.specs.Prelude.{◌≡◌};
ghost use Rattle.call_plan.specs.Changes.{become, gain, lose};

use crate::edit::{Deed, Edit, KEEPS, Plan, StockEdit};
use crate::lookup::Subject;
use base_calls::{Fault, Refusal};
use base_units::address::Pfn;
use book_ledger::codes::NDA;
use book_ledger::tables::Slot;
use book_ledger::words::{Domain, Entry, Frame};

// "A frame that becomes NDA loses owner, epoch and numbers (zero)."
pub const FREED: Frame = Frame {
    kind: NDA,
    owner: Pfn(0),
    number: 0,
    epoch: 0,
    size: 0,
};

// A frame that a domain gains: what it becomes, and where it is entered (the page list and its length, the stock, the tree).
#[derive(Clone, Copy)]
pub struct Gain {
    pub frame: Pfn,
    pub becomes: Frame,
    pub page: Option<(usize, usize, Pfn)>,
    pub listed: u64,
    pub stock: StockEdit,
    pub entry: Option<(Slot, Entry)>,
}

// The domain's scalars change, and nothing else.
pub fn becomes(x: Subject, d: Domain) -> Plan
    ensures { result ≡ become x d }
{
    Ok(Deed::Do(Edit {
        domain: Some((x.rec, d)),
        ..KEEPS
    }))
}

// The domain x gains a frame. No domain has more than the window's.
pub fn gains(frames: usize, x: Subject, g: Gain) -> Plan
    ensures { result ≡ gain frames x g }
{
    if x.dom.children >= (frames as u64) {
        return Err(Refusal::No(Fault::Link, 0));
    }
    Ok(Deed::Do(Edit {
        frame: Some((g.frame, g.becomes)),
        page: g.page,
        domain: Some((
            x.rec,
            Domain {
                listed: g.listed,
                children: x.dom.children + 1,
                ..x.dom
            },
        )),
        stock: g.stock,
        entry: g.entry,
    }))
}

// The domain x loses frame n, which becomes NDA.
pub fn loses(x: Subject, n: Pfn, stock: StockEdit, entry: Option<(Slot, Entry)>) -> Plan
    ensures { result ≡ lose x n stock entry }
{
    if x.dom.children == 0 {
        return Err(Refusal::No(Fault::Link, 0));
    }
    Ok(Deed::Do(Edit {
        frame: Some((n, FREED)),
        page: None,
        domain: Some((
            x.rec,
            Domain {
                children: x.dom.children - 1,
                ..x.dom
            },
        )),
        stock,
        entry,
    }))
}
