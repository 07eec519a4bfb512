// Decimal numbers of a line. Document 01, "Program lots".
ghost use Rattle.std.specs.Prelude.{◌≡◌};
ghost use Rattle.commandmodel.specs.Decimal.{number};

// The number that a field is: 1 to 10 digits.
pub fn read_number(field: &[u8]) -> Option<u32>
    ensures { result ≡ number field.now }
{
    if field.is_empty() || 10 < field.len() {
        return None;
    }
    let mut n: u64 = 0;
    for byte in field {
        if !byte.is_ascii_digit() {
            return None;
        }
        n = 10 * n + (*byte - b'0') as u64;
    }
    u32::try_from(n).ok()
}
