//! Words that are whole numbers of at most nine digits. A number has one spelling, so none has a plus or a needless 0.

ghost use Rattle.std.specs.Prelude.{◌≡◌, ◌≢◌, ◌≤◌, ◌<◌, ◌↔◌, ◌∷◌, ℕ, ℤ, pos, length, slice_index, IsTrue, MatchOption};
ghost use Rattle.std.specs.Str.Parse.{AllDigits, digits_value};
ghost use Rattle.tv_spec_text.specs.Lines.{IsCount, IsNumber, spelled};

/// The count, of at most nine digits, that the word spells; None where it spells none.
pub fn count(word: &[u8]) -> Option<u32>
    ensures { MatchOption result ((n : ℕ) → IsCount n → word.now ≢ spelled (pos n)) (λ n. IsCount n × (word.now ≡ spelled (pos n))) }
{
    if word.is_empty() {
        return None;
    }
    if word.len() > 9 {
        return None;
    }
    if has_needless_zero(word) {
        return None;
    }
    digits(word)
}

/// The number, of at most nine digits, that the word spells, with a minus in front where it is below 0; None where it
/// spells none.
pub fn number(word: &[u8]) -> Option<i64>
    ensures { MatchOption result ((z : ℤ) → IsNumber z → word.now ≢ spelled z) (λ z. IsNumber z × (word.now ≡ spelled z)) }
{
    if let [b'-', magnitude @ ..] = word {
        return below_zero(magnitude);
    }
    match count(word) {
        Some(n) => Some(n as i64),
        None => None,
    }
}

fn below_zero(magnitude: &[u8]) -> Option<i64>
    ensures { MatchOption result ((z : ℤ) → IsNumber z → 45 ∷ magnitude.now ≢ spelled z) (λ z. IsNumber z × (45 ∷ magnitude.now ≡ spelled z)) }
{
    match count(magnitude) {
        Some(0) => None,
        Some(n) => Some(-(n as i64)),
        None => None,
    }
}

fn has_needless_zero(word: &[u8]) -> bool
    requires { 0 < length word.now }
    ensures { IsTrue result ↔ ((slice_index word.now 0 ≡ 48) × (1 < length word.now)) }
{
    word[0] == b'0' && word.len() > 1
}

fn digits(word: &[u8]) -> Option<u32>
    requires { length word.now ≤ 9 }
    ensures { MatchOption result (¬ (AllDigits 10 word.now)) (λ n. AllDigits 10 word.now × (n ≡ digits_value 10 word.now)) }
{
    let mut value = 0u32;
    for byte in word {
        if !byte.is_ascii_digit() {
            return None;
        }
        value = value * 10 + (*byte - b'0') as u32;
    }
    Some(value)
}

#[cfg(test)]
mod tests {
    use super::*;

    #[test]
    fn reads_numbers(rt: HostRuntime) {
        assert!(rt; number(b"-999999999") == Some(-999999999));
        assert!(rt; number(b"0") == Some(0) && number(b"-").is_none());
    }

    #[test]
    fn reads_counts(rt: HostRuntime) {
        assert!(rt; count(b"999999999") == Some(999999999) && count(b"-1").is_none());
    }
}
