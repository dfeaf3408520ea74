// Any host call, by value and without its gauge lent: what the thin entries for callers stand on.
ghost use Rattle.std.specs.Prelude.{◌≡◌};
ghost use Rattle.book_ledger.specs.Lent.{tables_in, tables_of, SameLoans};
ghost use Rattle.call_host.specs.Calls.{plan_of, outcome, gauge_after, rule_of, call_of};

use base_calls::{Answer, Call, Fault, Refusal};
use base_units::limits::Limits;
use book_gauge::Gauge;
use book_ledger::codes::{
    ASSIGNED, BLOCKED_LIFE, CONFIGURED, INITIALIZED, MAPPED, PENDING, RUNNABLE, TEARDOWN,
    UNINITIALIZED, WRITTEN_BACK,
};
use book_ledger::count;
use book_ledger::tables::{Lent, LentMut};
use call_plan::edit::Plan;

// What a call answers, and the gauge after it.
#[derive(Clone, Copy)]
pub struct Reply {
    pub answer: Answer,
    pub gauge: Gauge,
}

// The lifecycles from which keyconfig, flushdone and keyfree may go.
const NEW: Limits = Limits {
    least: ASSIGNED,
    most: ASSIGNED,
};

const KEYED: Limits = Limits {
    least: ASSIGNED,
    most: CONFIGURED,
};

const FLUSHED: Limits = Limits {
    least: WRITTEN_BACK,
    most: WRITTEN_BACK,
};

#[tactic(auto, unfolding(crate::specs::Calls::plan_of))]
pub fn plan_of(t: &Lent, c: Call) -> Plan
    ensures { result ≡ plan_of t.now.base (tables_in t.now) c }
{
    match c {
        Call::Create { frame, key } => call_domains::plan_create(t, frame, key),
        Call::KeyConfig { domain } => call_domains::plan_life(t, domain, NEW, CONFIGURED),
        Call::AddCx { domain, frame } => call_domains::plan_addcx(t, domain, frame),
        Call::Init { domain } => call_domains::plan_op(t, domain, UNINITIALIZED, INITIALIZED),
        Call::SeptAdd {
            domain,
            gpa,
            level,
            frame,
        } => call_adds::plan_septadd(t, domain, gpa, level, frame),
        Call::PageAdd { domain, gpa, frame } => {
            call_adds::plan_page(t, domain, gpa, frame, INITIALIZED, MAPPED)
        }
        Call::Finalize { domain } => call_domains::plan_op(t, domain, INITIALIZED, RUNNABLE),
        Call::PageAug { domain, gpa, frame } => {
            call_adds::plan_page(t, domain, gpa, frame, RUNNABLE, PENDING)
        }
        Call::Block { domain, gpa, level } => call_trees::plan_block(t, domain, gpa, level),
        Call::Track { domain } => call_domains::plan_track(t, domain),
        Call::Unblock { domain, gpa, level } => call_trees::plan_unblock(t, domain, gpa, level),
        Call::PageRemove { domain, gpa } => call_trees::plan_pageremove(t, domain, gpa),
        Call::SeptRemove { domain, gpa, level } => {
            call_trees::plan_septremove(t, domain, gpa, level)
        }
        Call::FlushDone { domain } => call_domains::plan_life(t, domain, KEYED, BLOCKED_LIFE),
        Call::KeyFree { domain } => call_domains::plan_life(t, domain, FLUSHED, TEARDOWN),
        Call::Reclaim { frame } => call_pages::plan_reclaim(t, frame),
        Call::ReadPage { frame } => call_pages::plan_readpage(t, frame),
        Call::ReadEntry { domain, gpa, level } => {
            call_trees::plan_readentry(t, domain, gpa, level)
        }
        Call::CacheWb => call_domains::plan_cachewb(),
    }
}

// The gauge after an answer: an accepted call stores the new fill.
fn gauge_after(frames: &[u64], g: Gauge, a: Answer) -> Gauge
    ensures { result ≡ gauge_after g a frames.now }
{
    if a.is_err() {
        return g;
    }
    book_gauge::updated(g, count::used_frames(frames), frames.len() as u64)
}

// The call's own rule, without answer 13.
pub fn apply_rule(t: &mut LentMut, g: Gauge, c: Call) -> Reply
    ensures place { SameLoans t.old t.new }
    ensures outcome { outcome result.answer (tables_of t.new) result.gauge ≡ rule_of t.old.base (tables_of t.old) g c }
{
    let p = plan_of(&t.shared(), c);
    let answer = call_carry::carry(t, p);
    let gauge = gauge_after(t.shared().frames, g, answer);
    Reply { answer, gauge }
}

// Any call on any lent tables and gauge.
pub fn answer_call(t: &mut LentMut, g: Gauge, c: Call) -> Reply
    ensures place { SameLoans t.old t.new }
    ensures outcome { outcome result.answer (tables_of t.new) result.gauge ≡ call_of t.old.base (tables_of t.old) g c }
{
    let unlent = Reply {
        answer: Err(Refusal::No(Fault::Range, 0)),
        gauge: g,
    };
    if !book_range::lent_ok(&t.shared()) {
        return unlent;
    }
    if !book_gauge::marks_ok(g.raise, g.clear, t.frames.len() as u64) {
        return unlent;
    }
    apply_rule(t, g, c)
}
