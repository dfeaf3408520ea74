// A replay, without its input and output: what a whole line of a script answers. Everything is by value or on lent slices, so that the
// program above reads, writes and decides nothing.
#![tactic(auto)]

ghost use Rattle.std.specs.Prelude.{◌≡◌};
ghost use Rattle.book_ledger.specs.Lent.{tables_of, SameLoans};
ghost use Rattle.door_answers.specs.Answers.{pen};
ghost use Rattle.door_session.specs.Session.{answered, replied};

use base_calls::Ask;
use book_gauge::Gauge;
use book_ledger::tables::LentMut;
use door_script::line;

// A line answered: the gauge afterwards, and how many bytes of the answer stand in the lent output.
#[derive(Clone, Copy)]
pub struct Replied {
    pub gauge: Gauge,
    pub wrote: usize,
}

// The line numbered `number`, run on the lent tables.
pub fn reply(t: &mut LentMut, g: Gauge, text: &[u8], number: u64, out: &mut [u8]) -> Replied
    ensures place { SameLoans t.old t.new }
    ensures replies { replied (tables_of t.new) result.gauge (pen out.new result.wrote)
        ≡ answered t.old.base (tables_of t.old) g text.now number (pen out.old 0) }
{
    match line::read_line(text) {
        None => Replied {
            gauge: g,
            wrote: door_answers::write_unreadable(out, number),
        },
        Some(c) => {
            let r = door_asks::answer_ask(t, g, Ask::Host(c));
            Replied {
                gauge: r.gauge,
                wrote: door_answers::write_answer(out, number, r.answer),
            }
        }
    }
}
