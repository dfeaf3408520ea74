// A script byte by byte: which line a byte belongs to, how many of a line are held, and how far a lent buffer goes.
#![tactic(auto)]

ghost use Rattle.std.specs.Prelude.{◌≡◌, ◌+◌, ◌≤◌, length, take};
ghost use Rattle.door_feed.specs.Bytes.{turn_of, held_after, least};

// "Line 10001 answers 15 and ends the reading."
pub const LINES_MOST: u64 = 10000;

// One byte more than a readable line has: a line that reaches it is unreadable, however it goes on.
pub const HELD_MOST: usize = 121;

const LF: u8 = b'\n';

// How many lines have ended, and how many bytes are held of the line that has begun.
#[derive(Clone, Copy)]
pub struct Feed {
    pub lines: u64,
    pub held: usize,
}

// What a byte does: it is held, it ends a line, or it begins line 10001.
#[derive(Clone, Copy)]
pub enum Turn {
    Hold(Feed),
    Ends(Feed),
    Stop,
}

impl Feed {
    pub fn turn_of(self, byte: u8) -> Turn
        ensures { result ≡ turn_of self byte }
    {
        if self.lines >= LINES_MOST {
            return Turn::Stop;
        }
        if byte == LF {
            return Turn::Ends(Feed {
                lines: self.lines + 1,
                held: 0,
            });
        }
        if self.held >= HELD_MOST {
            return Turn::Hold(self);
        }
        Turn::Hold(Feed {
            held: self.held + 1,
            ..self
        })
    }
}

// A byte of a line, held in its place. Bytes beyond the buffer are dropped.
pub fn hold(buffer: &mut [u8], held: usize, byte: u8)
    ensures { buffer.new ≡ held_after buffer.old held byte }
{
    if held < buffer.len() {
        buffer[held] = byte;
    }
}

// A number of bytes, cut to those that a text has.
pub fn within(n: usize, text: &[u8]) -> usize
    ensures is { result ≡ least n (length text.now) }
    ensures small { result ≤ length text.now }
    ensures taken { result ≡ length (take result text.now) }
{
    n.min(text.len())
}

// The place `by` bytes on, and no further than `most`.
pub fn advanced(at: usize, by: usize, most: usize) -> usize
    ensures { result ≡ least (at + by) most }
{
    at.saturating_add(by).min(most)
}
