// The frames that aren't NDA: what the fill gauge divides by the frames in the window.
ghost use Rattle.std.specs.Prelude.{◌≡◌, ◌≤◌};
ghost use Rattle.book_ledger.specs.Count.{is_used, one_used, used_frames};

use crate::codes::NDA;
use crate::tables;
use crate::words::Frame;
use base_units::address::Pfn;

// 1 for a frame that isn't NDA.
pub fn is_used(f: Frame) -> u64
    ensures is { result ≡ is_used f }
    ensures small { result ≤ 1 }
{
    if f.kind == NDA {
        return 0;
    }
    1
}

pub fn one_used(frames: &[u64], frame: Pfn) -> u64
    ensures is { result ≡ one_used frames.now frame.0 }
    ensures small { result ≤ 1 }
{
    is_used(tables::frame_at(frames, frame))
}

pub fn used_frames(frames: &[u64]) -> u64
    ensures { result ≡ used_frames frames.now }
{
    let mut used: u64 = 0;
    for n in 0..frames.len() {
        used += one_used(frames, Pfn(n));
    }
    used
}
