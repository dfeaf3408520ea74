// Document 01, "Sizes, unit first", with the four limits that request 6 raised. Every limit is inclusive.
ghost use Rattle.std.specs.Prelude.{◌≡◌};
ghost use Rattle.base_units.specs.Limits.{between, base_ok, frames_ok};

use crate::address::Hpa;

// The least and the most that a number may be, both allowed.
#[derive(Clone, Copy)]
pub struct Limits {
    pub least: u64,
    pub most: u64,
}

pub const FRAME_BYTES: u64 = 4096;

pub const FRAMES: Limits = Limits {
    least: 512,
    most: 16384,
};

pub const BASE_STEP_BYTES: u64 = 1073741824;

// A window's base, in bytes.
pub const BASES: Limits = Limits {
    least: 1073741824,
    most: 70368744177664,
};

pub const RECORDS: Limits = Limits { least: 1, most: 64 };

pub const TABLES: Limits = Limits {
    least: 4,
    most: 256,
};

pub const TABLE_ENTRIES: usize = 512;

pub const CONTROL_PAGES: usize = 4;
// A lent domain record: a word of scalars, and a word for each control page.
pub const RECORD_WORDS: usize = 5;

pub const KEYS: Limits = Limits {
    least: 32,
    most: 95,
};

// A domain's epoch. (A frame's may be 0 besides.)
pub const EPOCHS: Limits = Limits {
    least: 1,
    most: 4294967295,
};

pub const GPA_END_BYTES: u64 = 140737488355328;

impl Limits {
    pub fn allow(self, number: u64) -> bool
        ensures { result ≡ between self.least number self.most }
    {
        (self.least..=self.most).contains(&number)
    }
}

// A window's base: on a step of 1 GB, from 2^30 to 2^46 bytes.
pub fn base_ok(base: Hpa) -> bool
    ensures { result ≡ base_ok base }
{
    base.0 % BASE_STEP_BYTES == 0 && BASES.allow(base.0)
}

// A window's frame count: a power of two, so a number with a single one bit.
pub fn frames_ok(frames: u64) -> bool
    ensures { result ≡ frames_ok frames }
{
    frames.count_ones() == 1 && FRAMES.allow(frames)
}
