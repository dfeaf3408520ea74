// The level table: how many low bits of a gpa are zero at a level, and from which bit on its entry's index stands.
#![tactic(auto)]

ghost use Rattle.std.specs.Prelude.{◌≡◌};
ghost use Rattle.base_levels.specs.Level.{row_of, level_ok, gpa_fits, index_at};

use base_units::address::Gpa;
use base_units::limits::{GPA_END_BYTES, Limits, TABLE_ENTRIES};

#[derive(Clone, Copy)]
pub struct LevelRow {
    pub low: u64,
    pub shift: u64,
}

pub const ROWS: usize = 4;

const LEVELS: [LevelRow; ROWS] = [
    LevelRow { low: 12, shift: 12 },
    LevelRow { low: 21, shift: 21 },
    LevelRow { low: 30, shift: 30 },
    LevelRow { low: 39, shift: 39 },
];

// The row of a level; a level that the table lacks has a row of zeros.
pub fn row_of(level: usize) -> LevelRow
    ensures { result ≡ row_of level }
{
    let none = LevelRow { low: 0, shift: 0 };
    LEVELS.get(level).copied().unwrap_or(none)
}

// Whether a call that takes levels from `least` on takes this one.
pub fn level_ok(least: usize, level: usize) -> bool
    ensures { result ≡ level_ok least level }
{
    let levels = Limits {
        least: least as u64,
        most: (ROWS - 1) as u64,
    };
    levels.allow(level as u64)
}

// A gpa for a level: below the guest's private end, and its low bits zero.
pub fn gpa_fits(gpa: Gpa, level: usize) -> bool
    ensures { result ≡ gpa_fits gpa level }
{
    if gpa.0 >= GPA_END_BYTES {
        return false;
    }
    let row = row_of(level);
    let low = row.low;
    gpa.0 % (1 << low) == 0
}

// The index of a gpa's entry in its table at a level.
pub fn index_at(gpa: Gpa, level: usize) -> usize
    ensures { result ≡ index_at gpa level }
{
    let row = row_of(level);
    let shift = row.shift;
    (gpa.0 >> shift) as usize % TABLE_ENTRIES
}
