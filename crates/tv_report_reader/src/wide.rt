//! Words that are wide numbers: whole numbers other than 0, of at most 2^127 - 1 in absolute value.

ghost use Rattle.std.specs.Prelude.{◌≡◌, ◌≢◌, ◌≤◌, ◌<◌, ◌+◌, ◌*◌, ◌-◌, ◌^◌, ◌∷◌, ℕ, ℤ, pos, MatchOption};
ghost use Rattle.std.specs.Str.Parse.{AllDigits, digits_value};
ghost use Rattle.tv_spec_text.specs.Lines.{spelled};
ghost use Rattle.tv_spec_reports.specs.Grammar.{IsWideValue};

const LIMIT: u128 = 170_141_183_460_469_231_731_687_303_715_884_105_727;

const TENTH: u128 = 17_014_118_346_046_923_173_168_730_371_588_410_572;

/// The wide number that the word spells; None where it spells none.
pub(crate) fn wide(word: &[u8]) -> Option<i128>
    ensures { MatchOption result ((z : ℤ) → IsWideValue z → word.now ≢ spelled z) (λ z. IsWideValue z × (word.now ≡ spelled z)) }
{
    if let [b'-', magnitude @ ..] = word {
        return below_zero(magnitude);
    }
    match magnitude(word) {
        Some(n) => Some(n as i128),
        None => None,
    }
}

fn below_zero(digits: &[u8]) -> Option<i128>
    ensures { MatchOption result ((z : ℤ) → IsWideValue z → 45 ∷ digits.now ≢ spelled z)
        (λ z. IsWideValue z × (45 ∷ digits.now ≡ spelled z)) }
{
    match magnitude(digits) {
        Some(n) => Some(-(n as i128)),
        None => None,
    }
}

fn magnitude(word: &[u8]) -> Option<u128>
    ensures { MatchOption result ((n : ℕ) → 0 < n → n ≤ 2 ^ 127 - 1 → word.now ≢ spelled (pos n))
        (λ n. (0 < n) × (n ≤ 2 ^ 127 - 1) × (word.now ≡ spelled (pos n))) }
{
    if word.is_empty() {
        return None;
    }
    if word[0] == b'0' {
        return None;
    }
    digits(word)
}

fn digits(word: &[u8]) -> Option<u128>
    ensures { MatchOption result (AllDigits 10 word.now → 2 ^ 127 - 1 < digits_value 10 word.now)
        (λ n. AllDigits 10 word.now × (n ≡ digits_value 10 word.now) × (n ≤ 2 ^ 127 - 1)) }
{
    let mut value = 0u128;
    for byte in word {
        if !byte.is_ascii_digit() {
            return None;
        }
        match with_digit(value, *byte - b'0') {
            Some(next) => value = next,
            None => return None,
        }
    }
    Some(value)
}

fn with_digit(value: u128, digit: u8) -> Option<u128>
    requires value { value ≤ 2 ^ 127 - 1 }
    requires digit { digit ≤ 9 }
    ensures { MatchOption result (2 ^ 127 - 1 < value * 10 + digit) (λ n. (n ≡ value * 10 + digit) × (n ≤ 2 ^ 127 - 1)) }
{
    if value > TENTH {
        return None;
    }
    let next = value * 10 + digit as u128;
    if next > LIMIT { None } else { Some(next) }
}
