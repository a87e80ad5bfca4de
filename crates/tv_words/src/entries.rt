//! The entries of a class as words spell them. The web that they are to suit is not looked at here.

ghost use Rattle.std.specs.Prelude.{◌≡◌, ◌≤◌, length, map, string_bytes, MatchResult};
ghost use Rattle.tv_spec_plane.specs.declared.limits.TheConstants.{MOST_POINTS};
ghost use Rattle.tv_words.specs.Entries.{SpellEntries, IsEntriesError};

use std::alloc::Global;
use std::marker::Model;
use tv_lattice::class::Class;
use tv_text::number::number;

/// Any number of entries, each of at most nine digits.
#[derive(Debug, Drop)]
pub struct Entries {
    numbers: Vec<i64>,
}

impl Model for Entries {
    ghost use Rattle.std.specs.Prelude.{List, ℤ};
    ghost use Rattle.std.specs.List.{AllByRecursion};
    ghost use Rattle.tv_spec_text.specs.Lines.{IsNumber};

    ghost Value = { List ℤ };

    ghost view = { λ e. e.numbers.items };

    ghost invariant = { λ e. AllByRecursion IsNumber e.numbers.items };
}

/// Why words spell no entries.
#[derive(Debug, Drop)]
pub(crate) enum EntriesError {
    /// The place, among all words of the command, of the first that spells no number.
    At(u64),
    /// Memory was wanting.
    Memory,
}

impl Entries {
    /// How many entries there are.
    pub fn len(&self) -> usize
        ensures { result ≡ length self.now }
    {
        self.numbers.len()
    }

    /// The class with these entries.
    pub fn into_class(self) -> Class
        requires { length self ≤ MOST_POINTS }
        ensures { result ≡ self }
    {
        Class::new(self.numbers)
    }
}

/// The entries that the words behind the first two of a command spell.
pub(crate) fn entries_of(alloc: Global, words: &[String]) -> Result<Entries, EntriesError>
    ensures { let texts = map string_bytes words.now in MatchResult result (SpellEntries texts) (IsEntriesError texts) }
{
    let mut numbers = Vec::new(alloc);
    for word in words {
        let Some(z) = number(word.as_bytes()) else {
            return Err(EntriesError::At(2 + numbers.len() as u64));
        };
        match numbers.push(z) {
            Ok(()) => {}
            Err(_) => return Err(EntriesError::Memory),
        }
    }
    Ok(Entries { numbers })
}
