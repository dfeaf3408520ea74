// Answer 13: whether every stored number and code is in its range, in a pass each over the frames, the tables in use and the records in use.
#![tactic(auto)]

ghost use Rattle.std.specs.Prelude.{◌≡◌};
ghost use Rattle.book_ledger.specs.Lent.{tables_in};
ghost use Rattle.book_range.specs.Range.{under, frame_limits, limits_by_type, fits_by_type, all_frames_ok, entry_fits, entries_ok, page_ok};
ghost use Rattle.book_range.specs.Range.{pages_ok, domain_ok, record_ok, table_ok, all_tables_ok, rooted_ok, all_records_ok, lent_ok};

use base_units::limits::{CONTROL_PAGES, EPOCHS, KEYS, TABLE_ENTRIES};
use book_ledger::codes::{EPT, FREE, NDA, PENDING_BLOCKED, REG, RUNNABLE, TDCX, TDR, WRITTEN_BACK};
use book_ledger::sizes::Sizes;
use book_ledger::tables;
use book_ledger::tables::Lent;
use book_ledger::words::{Domain, Entry, Frame};
use book_stock::bits;

// What each number of a frame of a type stays below: 1 where the type lacks it, so that it holds 0.
#[derive(Clone, Copy)]
pub struct FrameLimits {
    pub owner: u64,
    pub number: u64,
    pub epoch: u64,
    pub size: u64,
}

// A frame's word has 3 bits for its type: the paper's five, and three that are none.
const TYPES: usize = 8;

fn below(owner: u64, number: u64, epoch: u64, size: u64) -> FrameLimits
    ensures { result ≡ under owner number epoch size }
{
    FrameLimits {
        owner,
        number,
        epoch,
        size,
    }
}

fn frame_limits(s: Sizes, kind: u64) -> FrameLimits
    ensures { result ≡ frame_limits s kind }
{
    if kind == NDA {
        return below(1, 1, 1, 1);
    }
    if kind == TDR {
        return below(1, s.records as u64, 1, 1);
    }
    if kind == TDCX {
        return below(s.frames as u64, 1, 1, 1);
    }
    if kind == EPT {
        return below(s.frames as u64, s.tables as u64, EPOCHS.most + 1, 1);
    }
    if kind == REG {
        return below(s.frames as u64, 1, EPOCHS.most + 1, 1);
    }
    below(0, 0, 0, 0)
}

// The limits of every type that a word can hold, by its number: told apart once for all frames, and only looked up at each.
fn limits_by_type(s: Sizes) -> [FrameLimits; TYPES]
    ensures { result ≡ limits_by_type s }
{
    [
        frame_limits(s, 0),
        frame_limits(s, 1),
        frame_limits(s, 2),
        frame_limits(s, 3),
        frame_limits(s, 4),
        frame_limits(s, 5),
        frame_limits(s, 6),
        frame_limits(s, 7),
    ]
}

fn frame_ok(limits: &[FrameLimits; TYPES], f: Frame) -> bool
    ensures { result ≡ fits_by_type limits.now f }
{
    let l = limits[f.kind as usize % TYPES];
    let owner = f.owner;
    if (owner.0 as u64) >= l.owner {
        return false;
    }
    if f.number >= l.number {
        return false;
    }
    if f.epoch >= l.epoch {
        return false;
    }
    f.size < l.size
}

fn all_frames_ok(s: Sizes, frames: &[u64]) -> bool
    ensures { result ≡ all_frames_ok s frames.now }
{
    let limits = limits_by_type(s);
    frames
        .iter()
        .all(|&word| frame_ok(&limits, Frame::from(word)))
}

fn entry_ok(frames: usize, e: Entry) -> bool
    ensures { result ≡ entry_fits frames e }
{
    let frame = e.frame;
    if e.state > PENDING_BLOCKED {
        return false;
    }
    if e.state == FREE {
        return frame.0 == 0;
    }
    frame.0 < frames
}

// The entries that the lent words lack read as 0, which is in range. No early end: so several entries are tested at a time.
fn entries_ok(frames: usize, entries: &[u32], block: usize) -> bool
    ensures { result ≡ entries_ok frames entries.now block }
{
    let from = block.saturating_mul(TABLE_ENTRIES).min(entries.len());
    let to = (from + TABLE_ENTRIES).min(entries.len());
    entries[from..to]
        .iter()
        .fold(true, |ok, &word| ok & entry_ok(frames, Entry::from(word)))
}

// A control page that isn't listed yet holds 0.
fn page_ok(frames: usize, listed: usize, domains: &[u64], rec: usize, page: usize) -> bool
    ensures { result ≡ page_ok frames listed domains.now rec page }
{
    let frame = tables::page_at(domains, rec, page);
    if page < listed {
        return frame.0 < frames;
    }
    frame.0 == 0
}

fn pages_ok(frames: usize, listed: usize, domains: &[u64], rec: usize) -> bool
    ensures { result ≡ pages_ok frames listed domains.now rec }
{
    (0..CONTROL_PAGES).all(|page| page_ok(frames, listed, domains, rec, page))
}

fn domain_ok(frames: usize, d: Domain) -> bool
    ensures { result ≡ domain_ok frames d }
{
    if !KEYS.allow(d.key) {
        return false;
    }
    if d.life > WRITTEN_BACK {
        return false;
    }
    if d.op > RUNNABLE {
        return false;
    }
    if d.listed > (CONTROL_PAGES as u64) {
        return false;
    }
    if d.children > (frames as u64) {
        return false;
    }
    if !EPOCHS.allow(d.epoch) {
        return false;
    }
    d.width == 0
}

fn record_ok(frames: usize, domains: &[u64], rec: usize) -> bool
    ensures { result ≡ record_ok frames domains.now rec }
{
    let d = tables::domain_at(domains, rec);
    if !domain_ok(frames, d) {
        return false;
    }
    pages_ok(frames, d.listed as usize, domains, rec)
}

// An unused table isn't looked into.
fn table_ok(frames: usize, stock: &[u64], entries: &[u32], table: usize) -> bool
    ensures { result ≡ table_ok frames stock.now entries.now table }
{
    if !bits::in_use(stock, table) {
        return true;
    }
    entries_ok(frames, entries, table)
}

fn all_tables_ok(s: Sizes, t: &Lent) -> bool
    ensures { result ≡ all_tables_ok s t.now.stock.now t.now.entries.now }
{
    (0..s.tables).all(|table| table_ok(s.frames, t.stock, t.entries, table))
}

// Nor is an unused record, nor its root.
fn rooted_ok(frames: usize, t: &Lent, rec: usize) -> bool
    ensures { result ≡ rooted_ok frames t.now.domains.now t.now.stock.now t.now.entries.now rec }
{
    if !bits::in_use(t.stock, t.bit_of(rec)) {
        return true;
    }
    if !record_ok(frames, t.domains, rec) {
        return false;
    }
    entries_ok(frames, t.entries, t.root_of(rec))
}

fn all_records_ok(s: Sizes, t: &Lent) -> bool
    ensures { result ≡ all_records_ok s t.now.domains.now t.now.stock.now t.now.entries.now }
{
    (0..s.records).all(|rec| rooted_ok(s.frames, t, rec))
}

// Whether answer 13 has nothing to say of the lent tables.
pub fn lent_ok(t: &Lent) -> bool
    ensures { result ≡ lent_ok t.now.base (tables_in t.now) }
{
    if !t.sizes_ok() {
        return false;
    }
    let s = t.sizes();
    if !bits::spare_clear(t.stock, t.bits()) {
        return false;
    }
    if !all_frames_ok(s, t.frames) {
        return false;
    }
    if !all_tables_ok(s, t) {
        return false;
    }
    all_records_ok(s, t)
}
