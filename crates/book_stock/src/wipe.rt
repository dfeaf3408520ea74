// A block or a record is wiped when it is taken: its part of the lent words is lent on from the middle and set to zero. Two functions, of two widths
// and two words: over any word `fill` asks for clones proved exact, and over any width for a proof that it isn't 0.
ghost use Rattle.std.specs.Prelude.{◌≡◌};
ghost use Rattle.base_units.specs.Limits.{record_words, table_entries};
ghost use Rattle.book_stock.specs.Wipe.{wiped_at};

use base_units::limits::{RECORD_WORDS, TABLE_ENTRIES};

// Wipes the entries of a block; a block that the stock lacks does nothing.
pub fn wipe_block(entries: &mut [u32], block: usize)
    ensures { entries.new ≡ wiped_at table_entries entries.old block }
{
    if block < entries.len() / TABLE_ENTRIES {
        let from = block * TABLE_ENTRIES;
        let to = from + TABLE_ENTRIES;
        entries[from..to].fill(0);
    }
}

// Wipes the words of a domain's record; a record that the lent words lack does nothing.
pub fn wipe_record(domains: &mut [u64], number: usize)
    ensures { domains.new ≡ wiped_at record_words domains.old number }
{
    if number < domains.len() / RECORD_WORDS {
        let from = number * RECORD_WORDS;
        let to = from + RECORD_WORDS;
        domains[from..to].fill(0);
    }
}
