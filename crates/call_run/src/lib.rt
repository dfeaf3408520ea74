// A run of asks on tables that nobody else touches in between: answer 13's check once, at its beginning, and the count of used frames by value.
#![tactic(auto)]

ghost use Rattle.std.specs.Prelude.{◌≡◌};
ghost use Rattle.book_ledger.specs.Lent.{tables_in, tables_of, SameLoans};
ghost use Rattle.call_run.specs.Runs.{counted, used_after, used_by, begun_of, next, refused};
ghost use Rattle.call_run.specs.Runs.{gauge_with, known_reset, rule_with, marks_with, host_with, next_of};

use base_calls::{Answer, Ask, Call, Fault, Reading, Refusal};
use base_units::address::Pfn;
use book_gauge::Gauge;
use book_ledger::count;
use book_ledger::tables::{Lent, LentMut};
use book_ledger::words::Frame;
use call_host::{call, setting};
use call_plan::edit::{Deed, Plan};

// What a run knows of its tables: the gauge, the frames that aren't NDA, whether the tables are in range, and whether the marks are.
// The header hands it to C as it stands, so the two flags stay flags.
#[repr(C)]
#[derive(Clone, Copy)]
pub struct Run {
    pub gauge: Gauge,
    pub used: u64,
    pub lent: bool,
    pub marked: bool,
}

// An answer, and what the run knows after it.
#[derive(Clone, Copy)]
pub struct Ran {
    pub answer: Answer,
    pub run: Run,
}

// The count with a frame that was used or not and now is or not. No count of lent frames comes near u64::MAX; one that a caller makes up stays
// there.
fn moved(used: u64, was: u64, is: u64) -> u64
    ensures { result ≡ counted used was is }
{
    used.saturating_sub(was).saturating_add(is)
}

fn used_after(frames: &[u64], e: Option<(Pfn, Frame)>, used: u64) -> u64
    ensures { result ≡ used_after e frames.now used }
{
    let Some((n, f)) = e else {
        return used;
    };
    moved(used, count::one_used(frames, n), count::is_used(f))
}

// The count after a plan, asked of the frames before it is carried out.
#[tactic(auto, unfolding(crate::specs::Runs::used_by))]
fn used_by(frames: &[u64], p: Plan, used: u64) -> u64
    ensures { result ≡ used_by p frames.now used }
{
    match p {
        Ok(Deed::Do(e)) => used_after(frames, e.frame, used),
        _ => used,
    }
}

fn gauge_with(g: Gauge, a: Answer, used: u64, frames: u64) -> Gauge
    ensures { result ≡ gauge_with g a used frames }
{
    if a.is_err() {
        return g;
    }
    book_gauge::updated(g, used, frames)
}

fn known_reset(r: Run, a: Answer, gauge: Gauge) -> Run
    ensures { result ≡ known_reset r a gauge }
{
    if a.is_err() {
        return r;
    }
    Run {
        gauge,
        used: 0,
        lent: true,
        marked: true,
    }
}

// The check at the start.
pub fn begin(t: &Lent, gauge: Gauge) -> Run
    ensures { result ≡ begun_of t.now.base (tables_in t.now) gauge }
{
    if !book_range::lent_ok(t) {
        return Run {
            gauge,
            used: 0,
            lent: false,
            marked: false,
        };
    }
    let used = count::used_frames(t.frames);
    let marked = book_gauge::marks_ok(gauge.raise, gauge.clear, t.frames.len() as u64);
    Run {
        gauge,
        used,
        lent: true,
        marked,
    }
}

impl Run {
    // The run as it was, and why an ask of it is refused.
    fn refuses(self, fault: Fault) -> Ran
        ensures { result ≡ refused self fault }
    {
        Ran {
            answer: Err(Refusal::No(fault, 0)),
            run: self,
        }
    }
}

// A call's own rule: answer 13 has nothing to say of the tables and marks.
fn apply_with(t: &mut LentMut, r: Run, c: Call) -> Ran
    ensures place { SameLoans t.old t.new }
    ensures next { next result.answer (tables_of t.new) result.run ≡ rule_with t.old.base (tables_of t.old) r c }
{
    let lent = t.shared();
    let p = call::plan_of(&lent, c);
    let used = used_by(lent.frames, p, r.used);
    let answer = call_carry::carry(t, p);
    let gauge = gauge_with(r.gauge, answer, used, t.frames.len() as u64);
    let run = Run { gauge, used, ..r };
    Ran { answer, run }
}

// The marks, raise first. The old gauge is not read.
fn marks_with(t: &Lent, r: Run, raise: f64, clear: f64) -> Ran
    ensures { next result.answer (tables_in t.now) result.run ≡ marks_with (tables_in t.now) r raise clear }
{
    if !r.lent {
        return r.refuses(Fault::Range);
    }
    let window = t.frames.len() as u64;
    if !book_gauge::marks_ok(raise, clear, window) {
        return r.refuses(Fault::Operand);
    }
    let gauge = book_gauge::with_marks(raise, clear, r.used, window);
    Ran {
        answer: Ok(Reading::Done),
        run: Run {
            gauge,
            used: r.used,
            lent: true,
            marked: true,
        },
    }
}

fn host_with(t: &mut LentMut, r: Run, c: Call) -> Ran
    ensures place { SameLoans t.old t.new }
    ensures next { next result.answer (tables_of t.new) result.run ≡ host_with t.old.base (tables_of t.old) r c }
{
    if !r.lent {
        return r.refuses(Fault::Range);
    }
    if !r.marked {
        return r.refuses(Fault::Range);
    }
    apply_with(t, r, c)
}

// The next ask of a run. Tables and gauge must be those that the run knows: theorem `next_is` of fact_keeps then gives what a single ask answers.
pub fn next_ask(t: &mut LentMut, r: Run, ask: Ask) -> Ran
    ensures place { SameLoans t.old t.new }
    ensures next { next result.answer (tables_of t.new) result.run ≡ next_of t.old.base (tables_of t.old) r ask }
{
    match ask {
        Ask::Host(c) => host_with(t, r, c),
        Ask::Marks(raise, clear) => marks_with(&t.shared(), r, raise, clear),
        Ask::Reset => {
            let o = setting::reset(t, r.gauge);
            let run = known_reset(r, o.answer, o.gauge);
            Ran {
                answer: o.answer,
                run,
            }
        }
        Ask::Unreadable => r.refuses(Fault::Unreadable),
    }
}
