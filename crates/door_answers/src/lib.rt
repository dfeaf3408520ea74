// Answers, written as lines into a lent buffer, as much as it has room for. Each public function gives the place behind what it wrote.
#![tactic(auto)]

ghost use Rattle.std.specs.Prelude.{◌≡◌};
ghost use Rattle.base_numbers.specs.Number.{decimal};
ghost use Rattle.door_answers.specs.Answers.{pen, held, wrote_byte, wrote, pair, pairs, level_state};
ghost use Rattle.door_answers.specs.Answers.{read_out, line_with, answer_line, unreadable_line, pairs_line, first_line, last_line};

use base_calls::{Answer, Fault, Reading, Refusal, Values};
use base_numbers::ZERO;
use base_units::limits::FRAME_BYTES;
use door_script::line::LF;

// The answer to a line that can't be read.
const UNREADABLE: Answer = Err(Refusal::No(Fault::Unreadable, 0));

// A lent buffer, and the place behind what is written there.
#[derive(Drop)]
struct Pen<'a> {
    out: &'a mut [u8],
    at: usize,
}

impl Pen<'_> {
    fn put(&mut self, byte: u8)
        ensures same { self.new.out.ghost_name ≡ self.old.out.ghost_name }
        ensures wrote { held self.new ≡ wrote_byte byte (held self.old) }
    {
        if self.at < self.out.len() {
            self.out[self.at] = byte;
            self.at += 1;
        }
    }

    fn text(&mut self, text: &[u8])
        ensures same { self.new.out.ghost_name ≡ self.old.out.ghost_name }
        ensures wrote { held self.new ≡ wrote text.now (held self.old) }
    {
        for &byte in text {
            self.put(byte);
        }
    }

    fn number(&mut self, n: u64)
        ensures same { self.new.out.ghost_name ≡ self.old.out.ghost_name }
        ensures wrote { held self.new ≡ wrote (decimal n) (held self.old) }
    {
        if n >= 10 {
            self.number(n / 10);
        }
        self.put(ZERO + (n % 10) as u8);
    }

    fn pair(&mut self, word: &[u8], n: u64)
        ensures same { self.new.out.ghost_name ≡ self.old.out.ghost_name }
        ensures wrote { held self.new ≡ wrote (pair word.now n) (held self.old) }
    {
        self.text(word);
        self.number(n);
    }

    fn pairs(&mut self, v: &[u8], m: u64, w: &[u8], n: u64)
        ensures same { self.new.out.ghost_name ≡ self.old.out.ghost_name }
        ensures wrote { held self.new ≡ wrote (pairs v.now m w.now n) (held self.old) }
    {
        self.pair(v, m);
        self.pair(w, n);
    }

    fn level_state(&mut self, level: usize, state: u64)
        ensures same { self.new.out.ghost_name ≡ self.old.out.ghost_name }
        ensures wrote { held self.new ≡ wrote (level_state level state) (held self.old) }
    {
        self.pairs(b"\tlevel\t", level as u64, b"\tstate\t", state);
    }

    // What an answer reads out.
    fn read_out(&mut self, answer: Answer)
        ensures same { self.new.out.ghost_name ≡ self.old.out.ghost_name }
        ensures wrote { held self.new ≡ wrote (read_out answer) (held self.old) }
    {
        match answer {
            Ok(Reading::Done) => {}
            Ok(Reading::Page(kind, owner)) => self.pairs(b"\ttype\t", kind, b"\towner\t", owner.0),
            Ok(Reading::Entry(level, state, hpa)) => {
                self.level_state(level, state);
                self.pair(b"\thpa\t", hpa.0);
            }
            Err(Refusal::No(_, _)) => {}
            Err(Refusal::Stop(_, level, state)) => self.level_state(level, state),
        }
    }

    fn line(&mut self, line: u64, number: u64, answer: Answer)
        ensures same { self.new.out.ghost_name ≡ self.old.out.ghost_name }
        ensures wrote { held self.new ≡ wrote (line_with line number answer) (held self.old) }
    {
        self.pairs(b"line\t", line, b"\tanswer\t", number);
        self.read_out(answer);
        self.put(LF);
    }

    fn pairs_line(&mut self, v: &[u8], m: u64, w: &[u8], n: u64)
        ensures same { self.new.out.ghost_name ≡ self.old.out.ghost_name }
        ensures wrote { held self.new ≡ wrote (pairs_line v.now m w.now n) (held self.old) }
    {
        self.pairs(v, m, w, n);
        self.put(LF);
    }
}

// The answer to a line, by the line's number from 1.
pub fn write_answer(out: &mut [u8], line: u64, answer: Answer) -> usize
    ensures { pen out.new result ≡ wrote (answer_line line answer) (pen out.old 0) }
{
    write_line(out, line, Values::from(answer).number, answer)
}

// The same with any number in the place of the answer's, one that is no fault's too.
pub fn write_line(out: &mut [u8], line: u64, number: u64, answer: Answer) -> usize
    ensures { pen out.new result ≡ wrote (line_with line number answer) (pen out.old 0) }
{
    let mut pen = Pen { out, at: 0 };
    pen.line(line, number, answer);
    pen.at
}

pub fn write_unreadable(out: &mut [u8], line: u64) -> usize
    ensures { pen out.new result ≡ wrote (unreadable_line line) (pen out.old 0) }
{
    write_answer(out, line, UNREADABLE)
}

// The output's first line: the sizes.
pub fn write_first(out: &mut [u8], frames: u64) -> usize
    ensures { pen out.new result ≡ wrote (first_line frames) (pen out.old 0) }
{
    let mut pen = Pen { out, at: 0 };
    pen.pairs_line(b"bytes\t", FRAME_BYTES, b"\tframes\t", frames);
    pen.at
}

// The output's last line: the frames that aren't NDA, and the lamp.
#[tactic(auto, using(crate::proofs::Writes::lit))]
pub fn write_last(out: &mut [u8], used: u64, lamp: bool) -> usize
    ensures { pen out.new result ≡ wrote (last_line used lamp) (pen out.old 0) }
{
    let mut pen = Pen { out, at: 0 };
    pen.pairs_line(b"used\t", used, b"\tlamp\t", u64::from(lamp));
    pen.at
}
