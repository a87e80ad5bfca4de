//! The limits that the clauses of `run` name, as a law: the function does nothing, and its contract is true.

ghost use Rattle.tv_top.specs.Laws.{WordsHaveLimits};

/// What words may ask for: sides from 1 to 7, degrees from 0 to 24, orders from -64 to 64, with
/// integers from 1 to 64. A file has at most 65,536 bytes, and a report that is checked 16,777,216.
pub fn words_have_limits()
    ensures { WordsHaveLimits }
{}
