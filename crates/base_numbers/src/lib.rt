// Decimal numbers: no sign, no leading zero but 0 itself, at most 2^64 - 1.
#![tactic(auto)]

ghost use Rattle.std.specs.Prelude.{◌≡◌};
ghost use Rattle.base_numbers.specs.Number.{number_from, number_read};

pub const ZERO: u8 = b'0';

// The number that a field of digits spells.
fn spelt(field: &[u8]) -> Option<u64>
    ensures { result ≡ number_from 0 field.now }
{
    let mut value: u64 = 0;
    for &byte in field {
        if !byte.is_ascii_digit() {
            return None;
        }
        let digit = u64::from(byte - ZERO);
        value = value.checked_mul(10)?.checked_add(digit)?;
    }
    Some(value)
}

// The number that a field says, if it says one.
pub fn number_of(field: &[u8]) -> Option<u64>
    ensures { result ≡ number_read field.now }
{
    match field {
        [] => None,
        [ZERO, rest @ ..] => rest.is_empty().then_some(0),
        _ => spelt(field),
    }
}
