// Addresses. The unit is in the type: bytes of host memory, frames of the window, bytes of guest memory.
ghost use Rattle.std.specs.Prelude.{◌≡◌};
ghost use Rattle.base_units.specs.Address.{frame_of, hpa_of};

use crate::limits::FRAME_BYTES;

// So many frames make 2^64 bytes.
const ADDRESS_FRAMES: u64 = 4503599627370496;

// A host physical address, in bytes.
#[repr(C)]
#[derive(Clone, Copy, PartialEq, Eq)]
pub struct Hpa(pub u64);

// A frame's number in the window: 0 is the frame at the base.
#[derive(Clone, Copy, PartialEq, Eq)]
pub struct Pfn(pub usize);

// A guest physical address, in bytes.
#[repr(C)]
#[derive(Clone, Copy, PartialEq, Eq)]
pub struct Gpa(pub u64);

// The frame that an hpa names: aligned and in the window.
pub fn frame_of(base: Hpa, frames: usize, hpa: Hpa) -> Option<Pfn>
    ensures { result ≡ frame_of base frames hpa }
{
    if hpa.0 % FRAME_BYTES != 0 {
        return None;
    }
    if hpa.0 < base.0 {
        return None;
    }
    let number = (hpa.0 - base.0) / FRAME_BYTES;
    if number < (frames as u64) {
        return Some(Pfn(number as usize));
    }
    None
}

// The hpa of a frame. Within the limits nothing wraps (`hpa_exact` of proofs/Places).
pub fn hpa_of(base: Hpa, frame: Pfn) -> Hpa
    ensures { result ≡ hpa_of base frame }
{
    let bytes = (frame.0 as u64) % ADDRESS_FRAMES * FRAME_BYTES;
    Hpa(std::num::wrapping_add_u64(base.0, bytes))
}
