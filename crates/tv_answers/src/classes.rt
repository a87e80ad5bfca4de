//! Which classes of a web words may ask for, and a web with such a class and an Euler characteristic.

ghost use Rattle.std.specs.Prelude.{◌≡◌, length, MatchResult};
ghost use Rattle.tv_answers.specs.Boxes.{Suits, IsUnsuitedAt};
ghost use Rattle.tv_words.specs.Commands.{IsOrder};

use tv_degrees::grade::GradedWeb;
use tv_lattice::class::Class;
use tv_words::{Entries, MAX_DEGREE};

/// The class of the web with these entries, or the place of the words at which they leave those that may be asked for.
pub fn class_of(web: &GradedWeb, entries: Entries) -> Result<Class, u64>
    ensures { MatchResult result (λ v. (v ≡ entries) × Suits web.now v) (IsUnsuitedAt web.now entries) }
{
    let points = web.heights().len();
    if entries.len() < points {
        return Err(2 + entries.len() as u64);
    }
    if entries.len() > points {
        return Err(2 + points as u64);
    }
    of_small_degree(web, entries.into_class())
}

fn of_small_degree(web: &GradedWeb, class: Class) -> Result<Class, u64>
    requires { length class ≡ length web.now.points }
    ensures { MatchResult result (λ v. (v ≡ class) × Suits web.now v) (IsUnsuitedAt web.now class) }
{
    if class.degree(web.heights()) > MAX_DEGREE {
        return Err(2);
    }
    Ok(class)
}
