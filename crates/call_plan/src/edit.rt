// What an accepted call does: it reads out, or writes at most one frame, one control page, one domain's scalars, one block of the stock and one
// entry, or the lifecycle of every domain that has a certain one.
use base_calls::{Reading, Refusal};
use base_units::address::Pfn;
use book_ledger::tables::Slot;
use book_ledger::words::{Domain, Entry, Frame};

// A table taken, whose block and in-use bit have its number; a record taken, by its in-use bit, the block of its root and its number; a
// table or a record given back, by its in-use bit.
#[derive(Clone, Copy)]
pub enum StockEdit {
    Keep,
    Table(usize),
    Record(usize, usize, usize),
    Give(usize),
}

// A frame with what it becomes; a record's control page, by its place in the list; a record's scalars; the stock; an entry.
#[derive(Clone, Copy)]
pub struct Edit {
    pub frame: Option<(Pfn, Frame)>,
    pub page: Option<(usize, usize, Pfn)>,
    pub domain: Option<(usize, Domain)>,
    pub stock: StockEdit,
    pub entry: Option<(Slot, Entry)>,
}

// Nothing is written.
pub const KEEPS: Edit = Edit {
    frame: None,
    page: None,
    domain: None,
    stock: StockEdit::Keep,
    entry: None,
};

// Every record in use whose lifecycle is `from` gets the lifecycle `to`.
#[derive(Clone, Copy)]
pub struct Sweep {
    pub from: u64,
    pub to: u64,
}

// What an accepted call does: it reads out, or it writes, of one domain or of each.
#[derive(Clone, Copy)]
pub enum Deed {
    Tell(Reading),
    Do(Edit),
    Each(Sweep),
}

// What a call comes to. A refusal writes nothing.
pub type Plan = Result<Deed, Refusal>;
