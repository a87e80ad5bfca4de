//! Laws of slices: each function does nothing, and its contract is a law.

ghost use Rattle.tv_laws_slices.specs.Laws.{SlicesOnce, CompletionSteps, LeastCompletes, EntriesPush, EntriesAreBounded, PathsAreChains, PathsAreExtras, ExtrasArePaths, PathsAreCounted};

/// The slices listed for a diagonal are exactly those that fit and have so many extras, each once.
pub fn slices_once()
    ensures { SlicesOnce }
{}

/// A slice takes no more extras above it than a neighbour that fits, and what that one takes above it.
pub fn completion_steps()
    ensures { CompletionSteps }
{}

/// And each slice that fits has a neighbour above it that fits, with which it takes exactly so many: the least.
pub fn least_completes()
    ensures { LeastCompletes }
{}

/// The entries of a diagonal, each pushed to its neighbours above, give the ways to the slices of the next one.
pub fn entries_push()
    ensures { EntriesPush }
{}

/// An entry has no more ways than there are paths with as many extras as its cost and its completion.
pub fn entries_are_bounded()
    ensures { EntriesAreBounded }
{}

/// The number of paths is that of the lists of slices that are paths, each listed once.
pub fn paths_are_chains()
    ensures { PathsAreChains }
{}

/// The cells that a path takes beside the legs are extras, as many as the path has.
pub fn paths_are_extras()
    ensures { PathsAreExtras }
{}

/// And each set of extras has the cells of a path, of as many extras.
pub fn extras_are_paths()
    ensures { ExtrasArePaths }
{}

/// So there are as many paths of so many extras as sets of them: the paths give the count.
pub fn paths_are_counted()
    ensures { PathsAreCounted }
{}
