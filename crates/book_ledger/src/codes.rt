// Document 01, "What is written down": the codes, in the order in which the paper lists them. Blocked and written back is request 5's.
pub const NDA: u64 = 0;

pub const TDR: u64 = 1;

pub const TDCX: u64 = 2;

pub const EPT: u64 = 3;

pub const REG: u64 = 4;

pub const ASSIGNED: u64 = 0;

pub const CONFIGURED: u64 = 1;

pub const BLOCKED_LIFE: u64 = 2;

pub const TEARDOWN: u64 = 3;

pub const WRITTEN_BACK: u64 = 4;

pub const UNINITIALIZED: u64 = 0;

pub const INITIALIZED: u64 = 1;

pub const RUNNABLE: u64 = 2;

pub const FREE: u64 = 0;

pub const NL_MAPPED: u64 = 1;

pub const MAPPED: u64 = 2;

pub const PENDING: u64 = 3;

pub const NL_BLOCKED: u64 = 4;

pub const BLOCKED: u64 = 5;

pub const PENDING_BLOCKED: u64 = 6;
