// The lent tables, and their total readers and writers: a place outside reads as zero, and a write there does nothing.
ghost use Rattle.std.specs.Prelude.{◌≡◌, ◌+◌, ◌-◌, ◌*◌, ◌%◌, ◌^◌, min};
ghost use Rattle.base_units.specs.Limits.{record_words, table_entries};
ghost use Rattle.book_ledger.specs.Tables.{frame_at, set_frame, record_word, set_record_word, domain_at, set_domain, page_at, set_page, entry_at, set_entry};
ghost use Rattle.book_ledger.specs.Lent.{tables_in, tables_of, zeroed, SameLoans};

use crate::words::{Domain, Entry, Frame};
use base_units::address::{Hpa, Pfn};
use base_units::limits::{CONTROL_PAGES, RECORD_WORDS, TABLE_ENTRIES};

// The lent tables, to read: the window's base, its frames, the domains' records, the stock's in-use bits, and the entries of its blocks.
#[derive(Clone, Copy)]
pub struct Lent<'a> {
    pub base: Hpa,
    pub frames: &'a [u64],
    pub domains: &'a [u64],
    pub stock: &'a [u64],
    pub entries: &'a [u32],
}

// The same, to write.
#[derive(Drop)]
pub struct LentMut<'a> {
    pub base: Hpa,
    pub frames: &'a mut [u64],
    pub domains: &'a mut [u64],
    pub stock: &'a mut [u64],
    pub entries: &'a mut [u32],
}

impl<'a> LentMut<'a> {
    pub fn shared(&self) -> Lent<'_>
        ensures base { result.base ≡ self.now.base }
        ensures tables { tables_in result ≡ tables_of self.now }
    {
        Lent {
            base: self.base,
            frames: self.frames,
            domains: self.domains,
            stock: self.stock,
            entries: self.entries,
        }
    }

    // Every lent word becomes zero.
    pub fn clear(&mut self)
        ensures place { SameLoans self.old self.new }
        ensures tables { tables_of self.new ≡ zeroed (tables_of self.old) }
    {
        self.frames.fill(0);
        self.domains.fill(0);
        self.stock.fill(0);
        self.entries.fill(0);
    }
}

// An entry's place: its block, and its index there.
#[derive(Clone, Copy)]
pub struct Slot {
    pub block: usize,
    pub index: usize,
}

pub fn frame_at(frames: &[u64], frame: Pfn) -> Frame
    ensures { result ≡ frame_at frames.now frame }
{
    Frame::from(frames.get(frame.0).copied().unwrap_or(0))
}

pub fn put_frame(frames: &mut [u64], frame: Pfn, f: Frame)
    ensures { frames.new ≡ set_frame frames.old frame f }
{
    let at = frame.0;
    if at < frames.len() {
        frames[at] = u64::from(f);
    }
}

// Where the index `index` of the part `part` stands, among parts of `width`; past every slice where that is too far to count.
fn place_of(part: usize, width: usize, index: usize) -> usize
    ensures { result ≡ min (part * width + index) (2 ^ 64 - 1) }
{
    part.saturating_mul(width).saturating_add(index)
}

impl Slot {
    fn place(self) -> usize
        ensures { result ≡ min (self.block * table_entries + self.index % table_entries) (2 ^ 64 - 1) }
    {
        place_of(self.block, TABLE_ENTRIES, self.index % TABLE_ENTRIES)
    }
}

// A domain's record is a word of scalars and then a word for each control page.
fn record_place(rec: usize, field: usize) -> usize
    ensures { result ≡ min (rec * record_words + field % record_words) (2 ^ 64 - 1) }
{
    place_of(rec, RECORD_WORDS, field % RECORD_WORDS)
}

fn record_word(domains: &[u64], rec: usize, field: usize) -> u64
    ensures { result ≡ record_word domains.now rec field }
{
    let at = record_place(rec, field);
    domains.get(at).copied().unwrap_or(0)
}

fn put_record_word(domains: &mut [u64], rec: usize, field: usize, word: u64)
    ensures { domains.new ≡ set_record_word domains.old rec field word }
{
    let at = record_place(rec, field);
    if at < domains.len() {
        domains[at] = word;
    }
}

pub fn domain_at(domains: &[u64], rec: usize) -> Domain
    ensures { result ≡ domain_at domains.now rec }
{
    Domain::from(record_word(domains, rec, 0))
}

pub fn put_domain(domains: &mut [u64], rec: usize, d: Domain)
    ensures { domains.new ≡ set_domain domains.old rec d }
{
    put_record_word(domains, rec, 0, u64::from(d));
}

pub fn page_at(domains: &[u64], rec: usize, page: usize) -> Pfn
    ensures { result ≡ page_at domains.now rec page }
{
    Pfn(record_word(domains, rec, 1 + page % CONTROL_PAGES) as usize)
}

pub fn put_page(domains: &mut [u64], rec: usize, page: usize, frame: Pfn)
    ensures { domains.new ≡ set_page domains.old rec page frame }
{
    put_record_word(domains, rec, 1 + page % CONTROL_PAGES, frame.0 as u64);
}

pub fn entry_at(entries: &[u32], at: Slot) -> Entry
    ensures { result ≡ entry_at entries.now at.block at.index }
{
    Entry::from(entries.get(at.place()).copied().unwrap_or(0))
}

pub fn put_entry(entries: &mut [u32], at: Slot, e: Entry)
    ensures { entries.new ≡ set_entry entries.old at.block at.index e }
{
    let place = at.place();
    if place < entries.len() {
        entries[place] = u32::from(e);
    }
}
