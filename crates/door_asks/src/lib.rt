// Everything that a host asks, on the lent tables and with the gauge by value: a call, the marks, a reset, or nothing that has a name.
#![tactic(auto)]

ghost use Rattle.std.specs.Prelude.{◌≡◌};
ghost use Rattle.book_ledger.specs.Lent.{tables_of, SameLoans};
ghost use Rattle.call_host.specs.Calls.{outcome};
ghost use Rattle.door_asks.specs.Asks.{ask_of};

use base_calls::{Ask, Fault, Refusal};
use book_gauge::Gauge;
use book_ledger::tables::LentMut;
use call_host::call::Reply;
use call_host::{call, setting};

#[tactic(auto, unfolding(crate::specs::Asks::ask_of))]
pub fn answer_ask(t: &mut LentMut, g: Gauge, ask: Ask) -> Reply
    ensures place { SameLoans t.old t.new }
    ensures outcome { outcome result.answer (tables_of t.new) result.gauge ≡ ask_of t.old.base (tables_of t.old) g ask }
{
    match ask {
        Ask::Host(c) => call::answer_call(t, g, c),
        Ask::Marks(raise, clear) => setting::set_marks(&t.shared(), g, raise, clear),
        Ask::Reset => setting::reset(t, g),
        Ask::Unreadable => Reply {
            answer: Err(Refusal::No(Fault::Unreadable, 0)),
            gauge: g,
        },
    }
}
