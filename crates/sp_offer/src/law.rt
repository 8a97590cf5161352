//! Which words may be offered to which vertex.
ghost use Rattle.std.specs.Prelude.{ℕ};
ghost use Rattle.sp_word.specs.Word.{Word};

/// A property that every pair in a table has. It exists only in contracts and has no code to call.
pub trait Lawful {
    // The arguments are the law, a vertex and a word.
    ghost allows: { Self → ℕ → Word → Type 0 };
}

/// The law that allows every pair for every vertex.
#[derive(Clone, Copy, Debug)]
pub struct AnyWord;

impl Lawful for AnyWord {
    ghost allows = { λ _ _ _. Unit {0} };
}
