// Units and limits: a byte address, a frame number and a guest address are three types, so that none is taken for another.
#![tactic(auto)]

pub mod address;
pub mod limits;
