ghost use Rattle.std.specs.Prelude.{List, ℕ, [], ◌++◌, IsUtf8};

/// What takes a text piece by piece. A failure isn't told at a push: it is kept, each later push passes its piece
/// over, and who made the object asks it in the end.
pub trait Pieces {
    /// That these bytes were pushed between two moments, however many pieces they were.
    ghost pushes: { Self → List ℕ → Self → Type 0 };

    fn push_str(&mut self, piece: &str)
        ensures { pushes self.old piece.now self.new };

    /// No push is a push of no bytes.
    ghost nothing_pushed: { (p : Self) → pushes p [] p };

    /// Two pushes are one of all their bytes.
    ghost pushed_further: { (a b c : Self) (first second : List ℕ)
        → pushes a first b
        → pushes b second c
        → pushes a (first ++ second) c };

    /// What is pushed is UTF-8: each piece is.
    ghost pushed_utf8: { (a b : Self) (bytes : List ℕ) → pushes a bytes b → IsUtf8 bytes };
}
