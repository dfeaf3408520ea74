// The lent tables: what each word says, how it is read and written, and which sizes are allowed. docs/TABLES.md has the
// layout for those who lend them.
#![tactic(auto)]

pub mod codes;
pub mod count;
pub mod sizes;
pub mod tables;
pub mod words;
