// The host's side of the module: any call on any lent tables and a gauge, reset, and the setting of the gauge's marks.
#![tactic(auto)]

pub mod call;
pub mod setting;
