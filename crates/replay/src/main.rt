// Replays a script: calls on standard input, a line each; their answers on standard output. Only reading, writing and the loops over them
// stand here: what a byte does and what a line answers is proved in the crates feed and session.
#![tactic(auto)]

ghost use Rattle.std.specs.Prelude.{◌≤◌};

use base_calls::Ask;
use base_units::address::Hpa;
use book_gauge::Gauge;
use book_ledger::count;
use book_ledger::tables::LentMut;
use door_feed::{Feed, Turn};
use std::io::Read;

const BASE_BYTES: u64 = 1073741824;

const FRAMES: u64 = 1024;

const OUT_BYTES: usize = 4096;

// Room for an answer: its line takes at most bytes 118, the line's number having 5 digits at most and any other 20.
const ANSWER_BYTES: usize = 128;

// How far the replay is: it reads on; the reading is over, at the input's end or at line 10001; or the run was given up, and then no line
// more is run and nothing more is written.
#[derive(Clone, Copy, PartialEq, Eq)]
enum Stage {
    Reading,
    Read,
    GivenUp,
}

// What a replay works on: the lent tables and the gauge, the line that has begun, and the output, with how much of it isn't written yet.
#[derive(Drop)]
struct Desk<'a> {
    rt: HostRuntime,
    lent: LentMut<'a>,
    gauge: Gauge,
    feed: Feed,
    line: [u8; 121],
    out: [u8; OUT_BYTES],
    pending: usize,
    stage: Stage,
}

fn main(rt: HostRuntime) {
    let mut frames = [0u64; 1024];
    let mut domains = [0u64; 20];
    let mut stock = [0u64; 1];
    let mut entries = [0u32; 8192];
    let mut input = [0u8; 4096];
    let mut desk = Desk {
        rt,
        lent: LentMut {
            base: Hpa(BASE_BYTES),
            frames: &mut frames,
            domains: &mut domains,
            stock: &mut stock,
            entries: &mut entries,
        },
        gauge: book_gauge::fresh_gauge(),
        feed: Feed { lines: 0, held: 0 },
        line: [0; 121],
        out: [0; OUT_BYTES],
        pending: 0,
        stage: Stage::Reading,
    };
    desk.replay(&mut input);
}

impl Desk<'_> {
    // A fresh start, the first line, the script, the last line.
    fn replay(&mut self, input: &mut [u8]) {
        self.start();
        let n = door_answers::write_first(&mut self.out, FRAMES);
        self.pending = door_feed::within(n, &self.out);
        self.read_all(input);
        self.end_line();
        self.finish();
    }

    // A reset, and the program's marks.
    fn start(&mut self) {
        self.ask(Ask::Reset);
        self.ask(Ask::Marks(0.75, 0.5));
    }

    fn ask(&mut self, ask: Ask) {
        self.gauge = door_asks::answer_ask(&mut self.lent, self.gauge, ask).gauge;
    }

    // The last line says that the whole script was read and answered. A run that was given up has none.
    fn finish(&mut self) {
        self.flush();
        if self.stage == Stage::GivenUp {
            return;
        }
        let used = count::used_frames(self.lent.frames);
        let n = door_answers::write_last(&mut self.out, used, self.gauge.lamp);
        self.pending = door_feed::within(n, &self.out);
        self.flush();
    }

    // The pending output is written, or the run is given up.
    fn flush(&mut self) {
        if self.stage == Stage::GivenUp {
            return;
        }
        let rt = self.rt;
        let n = door_feed::within(self.pending, &self.out);
        if rt.write_all(&self.out[..n]).is_ok() {
            self.pending = 0;
        } else {
            self.give_up(b"replay: the answers can't be written\n");
        }
    }

    // What can't be said on standard error isn't said.
    fn give_up(&mut self, words: &[u8]) {
        let _ = self.rt.stderr().write_all(words);
        self.stage = Stage::GivenUp;
    }

    // The reading is over, unless the run was given up.
    fn stop(&mut self) {
        if self.stage == Stage::Reading {
            self.stage = Stage::Read;
        }
    }

    // The place of the next answer, with room for it.
    fn place(&mut self) -> usize
        ensures { result ≤ OUT_BYTES }
    {
        let n = door_feed::within(self.pending, &self.out);
        if OUT_BYTES - n < ANSWER_BYTES {
            self.flush();
        }
        door_feed::within(self.pending, &self.out)
    }

    // The line held, run as line `number`.
    fn run_line(&mut self, number: u64) {
        let at = self.place();
        let held = door_feed::within(self.feed.held, &self.line);
        let gauge = self.gauge;
        let Desk {
            lent,
            line,
            out,
            ..
        } = self;
        let r = door_session::reply(lent, gauge, &line[..held], number, &mut out[at..]);
        self.gauge = r.gauge;
        self.pending = door_feed::advanced(at, r.wrote, OUT_BYTES);
    }

    // Line 10001 answers 15 and ends the reading.
    fn stop_at(&mut self) {
        let at = self.place();
        let n = door_answers::write_unreadable(&mut self.out[at..], door_feed::LINES_MOST + 1);
        self.pending = door_feed::advanced(at, n, OUT_BYTES);
        self.stop();
    }

    fn take_byte(&mut self, byte: u8) {
        match self.feed.turn_of(byte) {
            Turn::Hold(next) => {
                door_feed::hold(&mut self.line, self.feed.held, byte);
                self.feed = next;
            }
            Turn::Ends(next) => {
                self.run_line(next.lines);
                self.feed = next;
            }
            Turn::Stop => self.stop_at(),
        }
    }

    fn take_part(&mut self, part: &[u8]) {
        for &byte in part {
            if self.stage != Stage::Reading {
                return;
            }
            self.take_byte(byte);
        }
    }

    // One part of the input, or its end. If it can't be read, what was answered is still written.
    fn read_part(&mut self, input: &mut [u8]) {
        match self.rt.stdin().read(input) {
            Err(_) => {
                self.flush();
                self.give_up(b"replay: standard input can't be read\n");
            }
            Ok(0) => self.stop(),
            Ok(n) => self.take_part(&input[..n]),
        }
    }

    // The whole input, a part at a time. No input is longer than the turns counted.
    fn read_all(&mut self, input: &mut [u8]) {
        for _ in 0..u64::MAX {
            if self.stage != Stage::Reading {
                return;
            }
            self.read_part(input);
        }
    }

    // A last line may lack its LF. Where the run was given up, nobody knows how the line goes on: it isn't run.
    fn end_line(&mut self) {
        let Feed { lines, held } = self.feed;
        if self.stage == Stage::GivenUp || held == 0 || lines >= door_feed::LINES_MOST {
            return;
        }
        self.run_line(lines + 1);
    }
}
