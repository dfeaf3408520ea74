// The door for callers in C and Rust: include/reefnettle.h says what it takes, gives and asks of them. The crate reefnettle_c exports it to C.
#![tactic(auto)]

ghost use Rattle.std.specs.Prelude.{◌≡◌};
ghost use Rattle.book_ledger.specs.Tables.{lent};
ghost use Rattle.book_ledger.specs.Lent.{tables_of, SameLoans};
ghost use Rattle.call_run.specs.Runs.{begun_of};
ghost use Rattle.reefnettle.specs.Door.{handed_out, door_of, told, next_door, version};

use base_calls::Values;
use base_units::address::Hpa;
use book_gauge::Gauge;
use book_ledger::tables::{Lent, LentMut};
use call_run::Run;
use door_requests::Request;

// Any request on any lent tables and gauge.
pub fn reefnettle_ask(
    base: Hpa,
    frames: &mut [u64],
    domains: &mut [u64],
    stock: &mut [u64],
    entries: &mut [u32],
    g: &mut Gauge,
    r: Request,
) -> Values
    ensures { handed_out result (lent frames.new domains.new stock.new entries.new) g.new
        ≡ door_of base (lent frames.old domains.old stock.old entries.old) g.old r }
{
    let mut t = LentMut {
        base,
        frames,
        domains,
        stock,
        entries,
    };
    ask(&mut t, g, r)
}

// The same, of the tables as one value.
fn ask(t: &mut LentMut, g: &mut Gauge, r: Request) -> Values
    ensures place { SameLoans t.old t.new }
    ensures door { handed_out result (tables_of t.new) g.new ≡ door_of t.old.base (tables_of t.old) g.old r }
{
    let ask = door_requests::ask_of(r);
    let answer = door_entry::enter(t, g, ask);
    Values::from(answer)
}

// What a request of a run gives: the answer's values, and what the run knows after it.
#[repr(C)]
#[derive(Clone, Copy)]
pub struct Next {
    pub values: Values,
    pub run: Run,
}

// A run's beginning: what it knows of the lent tables and gauge.
pub fn reefnettle_begin(
    base: Hpa,
    frames: &[u64],
    domains: &[u64],
    stock: &[u64],
    entries: &[u32],
    gauge: Gauge,
) -> Run
    ensures { result ≡ begun_of base (lent frames.now domains.now stock.now entries.now) gauge }
{
    let t = Lent {
        base,
        frames,
        domains,
        stock,
        entries,
    };
    call_run::begin(&t, gauge)
}

// The next request of a run, on tables that nobody else has touched since it began.
pub fn reefnettle_next(
    base: Hpa,
    frames: &mut [u64],
    domains: &mut [u64],
    stock: &mut [u64],
    entries: &mut [u32],
    known: Run,
    r: Request,
) -> Next
    ensures { told result.values (lent frames.new domains.new stock.new entries.new) result.run
        ≡ next_door base (lent frames.old domains.old stock.old entries.old) known r }
{
    let mut t = LentMut {
        base,
        frames,
        domains,
        stock,
        entries,
    };
    go_on(&mut t, known, r)
}

fn go_on(t: &mut LentMut, known: Run, r: Request) -> Next
    ensures place { SameLoans t.old t.new }
    ensures door { told result.values (tables_of t.new) result.run ≡ next_door t.old.base (tables_of t.old) known r }
{
    let ask = door_requests::ask_of(r);
    let n = call_run::next_ask(t, known, ask);
    Next {
        values: Values::from(n.answer),
        run: n.run,
    }
}

// REEFNETTLE_VERSION of the header, for a caller to compare.
pub fn reefnettle_version() -> u64
    ensures { result ≡ version }
{
    3
}
