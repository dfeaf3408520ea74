// Plans: what each call answers, or what it would write. A plan reads the lent tables and writes nothing, so that a refusal can't
// change a byte.
#![tactic(auto)]

pub mod change;
pub mod edit;
pub mod entry;
pub mod lookup;
