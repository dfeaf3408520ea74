// The fill gauge by value: the exact fill, marks in rule, and the lamp. Counts are frames, marks and fill are parts of the window.
#![tactic(auto)]

ghost use Rattle.std.specs.Prelude.{◌≡◌};
ghost use Rattle.std.specs.Float.Ieee.{le};
ghost use Rattle.book_gauge.specs.Fill.{Filled};
ghost use Rattle.book_gauge.specs.Marks.{same_bits, count_of, is_mark, marks_ok};
ghost use Rattle.book_gauge.specs.Update.{lamp_after, after, with_marks, fresh_gauge};

use base_units::limits;

#[repr(C)]
#[derive(Clone, Copy)]
pub struct Gauge {
    pub raise: f64,
    pub clear: f64,
    pub fill: f64,
    pub lamp: bool,
}

// The part of the frames that is used.
pub fn fill_of(used: u64, frames: u64) -> f64
    ensures { Filled used frames result }
{
    std::num::nearest_u64_to_f64(used) / std::num::nearest_u64_to_f64(frames)
}

// Whether two floats have the same bits. A NaN has none that can be relied on, so it is like no float.
fn same_bits(a: f64, b: f64) -> bool
    ensures { result ≡ same_bits a b }
{
    if a.is_nan() {
        return false;
    }
    if b.is_nan() {
        return false;
    }
    f64::to_bits(a) == f64::to_bits(b)
}

// The k of a mark k / frames: times the frames it is whole. Of a float that is no mark it is some number up to the frames.
pub fn mark_count(x: f64, frames: u64) -> u64
    ensures { result ≡ count_of x frames }
{
    let y = x * std::num::nearest_u64_to_f64(frames);
    if y > -1.0 {
        if y < 18446744073709551616.0 {
            let k = std::num::truncating_f64_to_u64(y);
            if k > frames {
                return 0;
            }
            return k;
        }
    }
    0
}

// Whether x is a mark of a window of so many frames. Only one k can be its count, so only that one is tried.
pub fn is_mark(x: f64, frames: u64) -> bool
    ensures { result ≡ is_mark x frames }
{
    if !limits::frames_ok(frames) {
        return false;
    }
    same_bits(x, fill_of(mark_count(x, frames), frames))
}

// Whether two marks are in rule.
pub fn marks_ok(raise: f64, clear: f64, frames: u64) -> bool
    ensures { result ≡ marks_ok raise clear frames }
{
    if !is_mark(raise, frames) {
        return false;
    }
    if !is_mark(clear, frames) {
        return false;
    }
    if clear <= raise {
        return raise > 0.0;
    }
    false
}

// At or above the raise mark.
fn is_raised(raise: f64, fill: f64) -> bool
    ensures { result ≡ le raise fill }
{
    fill >= raise
}

// The lamp at a fill.
fn lamp_after(raise: f64, clear: f64, fill: f64, was: bool) -> bool
    ensures { result ≡ lamp_after raise clear fill was }
{
    if is_raised(raise, fill) {
        return true;
    }
    if fill < clear {
        return false;
    }
    was
}

// The gauge after an accepted call that leaves `used` frames in use.
pub fn updated(g: Gauge, used: u64, frames: u64) -> Gauge
    ensures { result ≡ after g used frames }
{
    let fill = fill_of(used, frames);
    let lamp = lamp_after(g.raise, g.clear, fill, g.lamp);
    Gauge { fill, lamp, ..g }
}

// The gauge with its marks set. Whether they are in rule has been asked before (`marks_ok`).
pub fn with_marks(raise: f64, clear: f64, used: u64, frames: u64) -> Gauge
    ensures { result ≡ with_marks raise clear used frames }
{
    let fill = fill_of(used, frames);
    let lamp = is_raised(raise, fill);
    Gauge {
        raise,
        clear,
        fill,
        lamp,
    }
}

// The gauge that a reset leaves.
pub fn fresh_gauge() -> Gauge
    ensures { result ≡ fresh_gauge }
{
    Gauge {
        raise: 1.0,
        clear: 0.0,
        fill: 0.0,
        lamp: false,
    }
}
