// One in-use bit a block, 64 to a word. Outside the lent words a bit reads as 0, unused, and a write there does nothing.
ghost use Rattle.std.specs.Prelude.{◌≡◌, ℕ, ◌+◌, ◌%◌, ◌<◌, true, false};
ghost use Rattle.book_stock.specs.Bits.{word_bits, word_of, in_use, with_bit, set_use, lowest_unused, spare_clear};

pub const WORD_BITS: usize = 64;

// The word that a block's bit stands in.
fn word_of(stock: &[u64], block: usize) -> u64
    ensures { result ≡ word_of stock.now block }
{
    stock.get(block / WORD_BITS).copied().unwrap_or(0)
}

pub fn in_use(stock: &[u64], block: usize) -> bool
    ensures { result ≡ in_use stock.now block }
{
    let word = word_of(stock, block);
    (word >> (block % WORD_BITS)) % 2 == 1
}

// The word with a block's bit on or off, whichever it was.
fn with_bit(word: u64, block: usize, on: bool) -> u64
    ensures { result ≡ with_bit word (block % word_bits) on }
{
    let bit = block % WORD_BITS;
    if (word >> bit) % 2 == 1 {
        if on {
            return word;
        }
        return word - (1 << bit);
    }
    if on {
        return word + (1 << bit);
    }
    word
}

// Marks a block as in use, or as unused.
pub fn put_use(stock: &mut [u64], block: usize, on: bool)
    ensures { stock.new ≡ set_use stock.old block on }
{
    let index = block / WORD_BITS;
    if index < stock.len() {
        stock[index] = with_bit(stock[index], block, on);
    }
}

// How many blocks from this one on are in use, one after the other, as far as its word goes.
fn used_run(stock: &[u64], block: usize) -> usize
    ensures used { (j : ℕ) → j < result → in_use stock.now (block + j) ≡ true }
    ensures ends { result ≡ 0 → in_use stock.now block ≡ false }
{
    let word = word_of(stock, block);
    (word >> (block % WORD_BITS)).trailing_ones() as usize
}

// The lowest unused block from `from` up to but not including `to`. A stretch in use is passed over at once, up to a whole word of it:
// no step is like the next, so the loop is a `while`.
pub fn lowest_unused(stock: &[u64], from: usize, to: usize) -> Option<usize>
    ensures { result ≡ lowest_unused stock.now from to }
{
    let mut block = from;
    while block < to {
        let used = used_run(stock, block);
        if used == 0 {
            return Some(block);
        }
        if to - block <= used {
            return None;
        }
        block += used;
    }
    None
}

// Whether the bits from `blocks` on are zero, in the word where they begin.
pub fn spare_clear(stock: &[u64], blocks: usize) -> bool
    ensures { result ≡ spare_clear stock.now blocks }
{
    let word = word_of(stock, blocks);
    word < (1 << (blocks % WORD_BITS))
}
