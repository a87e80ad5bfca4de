//! Whole numbers among the values of JSON. Those with a fraction, an exponent or a -0 are none.

ghost use Rattle.std.specs.Prelude.{◌≢◌, ℤ, pos, ◌<ℤ◌, MatchOption};
ghost use Rattle.serde_json.specs.View.{view};
ghost use Rattle.tv_spec_text.specs.Lines.{IsCount, IsNumber};
ghost use Rattle.tv_spec_json.specs.Files.{whole};
ghost use Rattle.tv_json.specs.Parts.{IsValueOf, IsValueOfNone};

use serde_json::Value;

/// The greatest absolute value of a number of a file.
const GREATEST_NUMBER: u64 = 999_999_999;

/// The count, of at most nine digits, that the value is; None where it is none.
pub(crate) fn count(value: &Value) -> Option<u32>
    ensures { MatchOption result
        (IsValueOfNone (λ n. whole (pos n)) IsCount (view value.now))
        (IsValueOf (λ n. whole (pos n)) IsCount (view value.now)) }
{
    let n = value.as_u64()?;
    if n > GREATEST_NUMBER {
        return None;
    }
    Some(n as u32)
}

/// The number, of at most nine digits, that the value is; None where it is none.
pub(crate) fn number(value: &Value) -> Option<i64>
    ensures { MatchOption result (IsValueOfNone whole IsNumber (view value.now)) (IsValueOf whole IsNumber (view value.now)) }
{
    match count(value) {
        Some(n) => Some(n as i64),
        None => below_zero(value),
    }
}

fn below_zero(value: &Value) -> Option<i64>
    ensures { MatchOption result
        ((z : ℤ) → IsNumber z → z <ℤ pos 0 → view value.now ≢ whole z)
        (IsValueOf whole IsNumber (view value.now)) }
{
    let z = value.as_i64()?;
    if z >= 0 {
        return None;
    }
    if z.unsigned_abs() > GREATEST_NUMBER {
        return None;
    }
    Some(z)
}
