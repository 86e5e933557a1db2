//! Reads numbers.
ghost use Rattle.std.specs.Prelude.{◌≡◌, ◌^◌, ◌<◌, ◌↔◌, ℕ, decimal, true, Some};
ghost use Rattle.dump_run.specs.CheckpointParts.{IsNumber};

use itoa::Buffer;

/// Parses a number. It may also accept forms that `is_written` rejects, such as leading zeros.
fn parsed(text: &[u8]) -> Option<u64>
    ensures { (n : ℕ) → n < 2 ^ 64 → text.now ≡ decimal n → result ≡ Some n }
{
    match str::from_utf8(text) {
        Ok(text) => text.parse::<u64>().ok(),
        Err(_) => None,
    }
}

fn is_written(n: u64, text: &[u8]) -> bool
    ensures { (result ≡ true) ↔ (text.now ≡ decimal n) }
{
    let mut digits = Buffer::new();
    digits.format(n).as_bytes() == text
}

/// Reads a number from `least` to `most`, in decimal without leading zeros.
pub(super) fn number(text: &[u8], least: u64, most: u64) -> Option<u64>
    ensures { IsNumber least most text.now result }
{
    match parsed(text) {
        Some(n) if least <= n && n <= most && is_written(n, text) => Some(n),
        _ => None,
    }
}
