// Reset, and the setting of the gauge's marks.
ghost use Rattle.std.specs.Prelude.{◌≡◌};
ghost use Rattle.book_ledger.specs.Lent.{tables_in, tables_of, SameLoans};
ghost use Rattle.call_host.specs.Calls.{outcome, reset_of, marks_of};

use crate::call::Reply;
use base_calls::{Fault, Reading, Refusal};
use book_gauge::Gauge;
use book_ledger::count;
use book_ledger::tables::{Lent, LentMut};

// A fresh start. It reads no lent word.
pub fn reset(t: &mut LentMut, g: Gauge) -> Reply
    ensures place { SameLoans t.old t.new }
    ensures outcome { outcome result.answer (tables_of t.new) result.gauge ≡ reset_of t.old.base (tables_of t.old) g }
{
    if !t.shared().sizes_ok() {
        return Reply {
            answer: Err(Refusal::No(Fault::Range, 0)),
            gauge: g,
        };
    }
    t.clear();
    Reply {
        answer: Ok(Reading::Done),
        gauge: book_gauge::fresh_gauge(),
    }
}

// The marks, raise first. The old gauge is not read.
pub fn set_marks(t: &Lent, g: Gauge, raise: f64, clear: f64) -> Reply
    ensures { outcome result.answer (tables_in t.now) result.gauge ≡ marks_of t.now.base (tables_in t.now) g raise clear }
{
    if !book_range::lent_ok(t) {
        return Reply {
            answer: Err(Refusal::No(Fault::Range, 0)),
            gauge: g,
        };
    }
    if !book_gauge::marks_ok(raise, clear, t.frames.len() as u64) {
        return Reply {
            answer: Err(Refusal::No(Fault::Operand, 0)),
            gauge: g,
        };
    }
    let used = count::used_frames(t.frames);
    Reply {
        answer: Ok(Reading::Done),
        gauge: book_gauge::with_marks(raise, clear, used, t.frames.len() as u64),
    }
}
