// The one entry for everything that a host asks: on the lent tables, with the gauge lent too and changed in place.
#![tactic(auto)]

ghost use Rattle.std.specs.Prelude.{◌≡◌};
ghost use Rattle.book_ledger.specs.Lent.{tables_of, SameLoans};
ghost use Rattle.call_host.specs.Calls.{outcome};
ghost use Rattle.door_asks.specs.Asks.{ask_of};

use base_calls::{Answer, Ask};
use book_gauge::Gauge;
use book_ledger::tables::LentMut;

// The thin entry: the lent gauge is copied out, and the gauge that came back is stored in its place.
pub fn enter(t: &mut LentMut, g: &mut Gauge, ask: Ask) -> Answer
    ensures place { SameLoans t.old t.new }
    ensures outcome { outcome result (tables_of t.new) g.new ≡ ask_of t.old.base (tables_of t.old) g.old ask }
{
    let r = door_asks::answer_ask(t, *g, ask);
    *g = r.gauge;
    r.answer
}
