//! Numbers of the command line.
ghost use Rattle.std.specs.Prelude.{◌≤◌, IfSome};

/// The number that the word spells, where it lies between the two bounds: decimal digits with no sign, and no leading
/// zero but in `0`.
pub fn number(word: &str, least: u64, greatest: u64) -> Option<u64>
    ensures { IfSome result (λ n. (least ≤ n) × (n ≤ greatest)) }
{
    let digits = word.as_bytes();
    let is_padded = digits.len() > 1 && digits.first() == Some(&b'0');
    if is_padded || !digits.iter().all(|digit| digit.is_ascii_digit()) {
        return None;
    }
    let n = word.parse::<u64>().ok()?;
    if n < least || greatest < n {
        return None;
    }
    Some(n)
}
