ghost use Rattle.std.specs.Prelude.{◌≡◌, ◌≤◌, ℕ, IfSome, Some};
ghost use Rattle.std.specs.List.{list_all};
ghost use Rattle.std.specs.Char.{is_ascii_digit};
ghost use Rattle.std.specs.Fmt.{decimal};
ghost use Rattle.texts.specs.Decimal.{is_decimal, decimal_within};

fn has_digits(bytes: &[u8]) -> bool
    ensures { result ≡ list_all is_ascii_digit bytes.now }
{
    bytes.iter().all(|byte| byte.is_ascii_digit())
}

fn is_decimal(text: &str) -> bool
    ensures { result ≡ is_decimal text.now }
{
    let bytes = text.as_bytes();
    if bytes.is_empty() || !has_digits(bytes) {
        return false;
    }
    bytes.len() == 1 || bytes[0] != b'0'
}

fn decimal_of(text: &str) -> Option<u64>
    ensures { result ≡ decimal_within u64.MAX text.now }
{
    if is_decimal(text) {
        text.parse().ok()
    } else {
        None
    }
}

/// The number that a decimal text without sign and leading zeros spells, if it is at most `most`:
/// the number for which this text is printed.
pub fn decimal_within(text: &str, most: u64) -> Option<u64>
    ensures value { result ≡ decimal_within most text.now }
    ensures spelled { IfSome result (λ n. (n ≤ most) × (text.now ≡ decimal n)) }
    ensures only { (n : ℕ) → n ≤ most → text.now ≡ decimal n → result ≡ Some n }
{
    decimal_of(text).filter(|number| *number <= most)
}
