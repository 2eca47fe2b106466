// Numbers read as `parse::<u32>` reads them.
ghost use Rattle.std.specs.Prelude.{◌≡◌};
ghost use Rattle.text.specs.Bytes.{at_most, value_from, number};
ghost use Rattle.text.specs.Reading.{number_meant};

const LARGEST: u64 = 4_294_967_295;

// The number that digits spell, 0 where there are none.
fn value_of(digits: &[u8]) -> Option<u32>
    ensures { number_meant result ≡ at_most 4294967295 (value_from 0 digits.now) }
{
    let mut value: u64 = 0;
    for digit in digits {
        if !digit.is_ascii_digit() {
            return None;
        }
        value = value * 10 + (*digit - b'0') as u64;
        if value > LARGEST {
            return None;
        }
    }
    Some(value as u32)
}

// One leading `+` is allowed, then comes at least one digit.
pub fn read_number(f: &[u8]) -> Option<u32>
    ensures { number_meant result ≡ number f.now }
{
    let digits = f.strip_prefix(b"+").unwrap_or(f);
    if digits.is_empty() {
        return None;
    }
    value_of(digits)
}
