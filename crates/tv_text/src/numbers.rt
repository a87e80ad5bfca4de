//! Numbers behind the first words of a printed line. The words in front are printed elsewhere.

ghost use Rattle.std.specs.Prelude.{◌≡◌, ◌++◌, ◌∷◌, [], OnOk, string_bytes};
ghost use Rattle.tv_text.specs.Printed.{spaced};

use std::alloc::AllocError;

// A space and the number, for each number.
pub(crate) fn put_numbers(text: &mut String, numbers: &[i64]) -> Result<(), AllocError>
    ensures { OnOk result (string_bytes text.new ≡ string_bytes text.old ++ spaced numbers.now) }
{
    for number in numbers {
        write!(text, " {number}")?;
    }
    Ok(())
}

// The same, and the end of the line.
pub(crate) fn end_with_numbers(text: &mut String, numbers: &[i64]) -> Result<(), AllocError>
    ensures { OnOk result (string_bytes text.new ≡ string_bytes text.old ++ (spaced numbers.now ++ 10 ∷ [])) }
{
    put_numbers(text, numbers)?;
    writeln!(text)?;
    Ok(())
}
