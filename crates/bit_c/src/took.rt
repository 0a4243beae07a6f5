// The bytes that a sink took. They exist only in proofs: a `Took` has no bytes, and its calls do nothing.
ghost use Rattle.std.specs.Prelude.{◌≡◌, ℕ, List, [], ◌++◌};
ghost use Rattle.std.specs.Borrow.{ftrue};

use std::marker::Model;

/// The bytes that a sink took, for its contract.
#[derive(Drop)]
pub(crate) struct Took {
    pub(crate) ghost bytes: { List ℕ },
}

impl Model for Took {
    ghost also_owns = { λ _. ftrue };
}

/// The bytes of one put.
#[derive(Clone, Copy)]
pub(crate) struct Piece<'a>(pub(crate) &'a [u8]);

impl Took {
    /// No bytes.
    pub(crate) fn nothing() -> Took
        ensures { result.bytes ≡ [] }
    {
        Took {}
    }

    /// The same bytes, and then a piece.
    #[inline(always)]
    pub(crate) fn and(&self, piece: &Piece<'_>) -> Took
        ensures { result.bytes ≡ self.now.bytes ++ piece.now.0.now }
    {
        Took {}
    }
}
