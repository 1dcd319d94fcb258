//! The supposed content of a file when it is opened.
ghost use Rattle.std.specs.Prelude.{ℕ, List, []};

/// The content of a file when it was opened, and the bytes that failed writes left in their ranges.
///
/// No code can read either. Code over any `S: Start` is proved for all starts, so also for the real
/// content of the file: `main` runs it at [`Unknown`]. A value of a `Start` belongs to one opening
/// of one file, so a program makes a value for every file that it opens.
pub trait Start: Drop {
    // The bytes that the file held, from its first on.
    ghost first: { List ℕ };

    // The bytes that a failed write left in its range, by the number of calls before it. The range
    // has the first of them, followed by zeros if they are too few.
    ghost torn: { ℕ → List ℕ };
}

/// The start for `main` and for tests to name.
///
/// A clause at this very type concerns an empty file alone: state a promise over any `S: Start`.
#[derive(Drop)]
pub struct Unknown;

impl Start for Unknown {
    ghost first = { [] };

    ghost torn = { λ _. [] };
}
