// The sizes of what is lent. They come from the lengths of the lent slices, so that they can't disagree with them.
ghost use Rattle.std.specs.Prelude.{◌≡◌, length};
ghost use Rattle.book_ledger.specs.Sizes.{tables_of, bits_of, bit_of, root_of, sizes_of, lengths_ok, sizes_ok};

use crate::tables::Lent;
use base_units::address::Hpa;
use base_units::limits;
use base_units::limits::{RECORD_WORDS, RECORDS, TABLE_ENTRIES, TABLES};
use book_stock::bits::WORD_BITS;

#[derive(Clone, Copy)]
pub struct Sizes {
    pub frames: usize,
    pub records: usize,
    pub tables: usize,
}

// How many blocks are tables: every block that is no record's root.
pub fn tables_of(domains: usize, entries: usize) -> usize
    ensures { result ≡ tables_of domains entries }
{
    (entries / TABLE_ENTRIES).saturating_sub(domains / RECORD_WORDS)
}

// How many in-use bits there are: one for each block.
pub fn bits_of(domains: usize, entries: usize) -> usize
    ensures { result ≡ bits_of domains entries }
{
    entries / TABLE_ENTRIES
}

// The in-use bit of a record. A record beyond the stock has none: the bit after the last.
pub fn bit_of(domains: usize, entries: usize, rec: usize) -> usize
    ensures { result ≡ bit_of domains entries rec }
{
    if rec < domains / RECORD_WORDS {
        return tables_of(domains, entries) + rec;
    }
    bits_of(domains, entries)
}

// The block of a record's root: the one whose in-use bit is the record's. A record beyond the stock has none: the block after the last.
pub fn root_of(domains: usize, entries: usize, rec: usize) -> usize
    ensures { result ≡ root_of domains entries rec }
{
    bit_of(domains, entries, rec)
}

// The sizes behind slices of these lengths.
pub fn sizes_of(frames: usize, domains: usize, entries: usize) -> Sizes
    ensures { result ≡ sizes_of frames domains entries }
{
    Sizes {
        frames,
        records: domains / RECORD_WORDS,
        tables: tables_of(domains, entries),
    }
}

// Whether slices of these lengths fit sizes and a base within the limits.
pub fn sizes_ok(base: Hpa, frames: usize, domains: usize, stock: usize, entries: usize) -> bool
    ensures { result ≡ sizes_ok base frames domains stock entries }
{
    let s = sizes_of(frames, domains, entries);
    if !limits::base_ok(base) {
        return false;
    }
    if !limits::frames_ok(s.frames as u64) {
        return false;
    }
    if !RECORDS.allow(s.records as u64) {
        return false;
    }
    if !TABLES.allow(s.tables as u64) {
        return false;
    }
    lengths_ok(domains, stock, entries)
}

// Whole records, whole blocks, and as many words as the in-use bits take.
fn lengths_ok(domains: usize, stock: usize, entries: usize) -> bool
    ensures { result ≡ lengths_ok domains stock entries }
{
    if domains % RECORD_WORDS != 0 {
        return false;
    }
    if entries % TABLE_ENTRIES != 0 {
        return false;
    }
    stock == bits_of(domains, entries).div_ceil(WORD_BITS)
}

// The same of what is lent.
impl Lent<'_> {
    pub fn tables(&self) -> usize
        ensures { result ≡ tables_of (length self.now.domains.now) (length self.now.entries.now) }
    {
        tables_of(self.domains.len(), self.entries.len())
    }

    pub fn bits(&self) -> usize
        ensures { result ≡ bits_of (length self.now.domains.now) (length self.now.entries.now) }
    {
        bits_of(self.domains.len(), self.entries.len())
    }

    pub fn bit_of(&self, rec: usize) -> usize
        ensures { result ≡ bit_of (length self.now.domains.now) (length self.now.entries.now) rec }
    {
        bit_of(self.domains.len(), self.entries.len(), rec)
    }

    pub fn root_of(&self, rec: usize) -> usize
        ensures { result ≡ root_of (length self.now.domains.now) (length self.now.entries.now) rec }
    {
        root_of(self.domains.len(), self.entries.len(), rec)
    }

    pub fn sizes(&self) -> Sizes
        ensures { result ≡ sizes_of (length self.now.frames.now) (length self.now.domains.now) (length self.now.entries.now) }
    {
        sizes_of(self.frames.len(), self.domains.len(), self.entries.len())
    }

    pub fn sizes_ok(&self) -> bool
        ensures { result ≡ sizes_ok self.now.base (length self.now.frames.now) (length self.now.domains.now) (length self.now.stock.now) (length self.now.entries.now) }
    {
        sizes_ok(
            self.base,
            self.frames.len(),
            self.domains.len(),
            self.stock.len(),
            self.entries.len(),
        )
    }
}
