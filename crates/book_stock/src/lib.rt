// The lent stock of blocks. A block is 512 entries: a Secure EPT table, or a domain's root.
#![tactic(auto)]

pub mod bits;
pub mod wipe;
