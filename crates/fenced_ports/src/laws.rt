//! Which bytes are handed on.
ghost use Rattle.std.specs.Prelude.{◌≡◌, ◌≢◌, ◌⊎◌, ◌+◌, ◌*◌, ◌%◌, ◌^◌, ◌≤◌, ◌++◌, ℕ, List, false, true};
ghost use Rattle.wan_edge.specs.Frames.{answer_kind};
ghost use Rattle.fenced_ports.specs.Parts.{part_of};
ghost use Rattle.fenced_ports.specs.Sieves.{Sifting, after_bytes, first_sifting};
ghost use Rattle.fenced_ports.specs.declared.part.Part.TheVariants as part;

/// A byte is handed on only after a floor, and the floor isn't below the term, or the byte stands in an answer's
/// first place and begins none. No floor above the term comes so far: its last byte is the end of all.
pub fn what_is_handed_on_is_behind_the_term()
    ensures behind { (term at floor byte given : ℕ)
        → part_of term at floor byte ≡ part.Plain given
        → (given ≡ byte) × (5 ≤ at) }
    ensures floor { (term at floor byte given : ℕ)
        → part_of term at floor byte ≡ part.Plain given
        → (term ≤ floor) ⊎ ((at ≡ 5) × (byte ≢ answer_kind)) }
    ensures above { (term floor byte : ℕ)
        → (floor * 256 + byte) % 2 ^ 32 ≤ term
        ⊎ (part_of term 4 floor byte ≡ part.Alien) }
{}

/// Where nothing came that can't stand where it stood, no floor that has ended is above the term. So a byte that is
/// handed on stands after the term itself, or begins no answer.
pub fn a_floor_is_never_above_the_term()
    ensures bounded { (term : ℕ) (bytes : List ℕ)
        → (after_bytes term first_sifting bytes).broken ≡ false
        → 5 ≤ (after_bytes term first_sifting bytes).at
        → (after_bytes term first_sifting bytes).floor ≤ term }
    ensures own { (term byte given : ℕ) (bytes : List ℕ) (s : Sifting)
        → s ≡ after_bytes term first_sifting bytes
        → s.broken ≡ false
        → part_of term s.at s.floor byte ≡ part.Plain given
        → (s.floor ≡ term) ⊎ ((s.at ≡ 5) × (byte ≢ answer_kind)) }
{}

/// Bytes that come in pieces are sifted as they are in one.
pub fn it_does_not_matter_where_a_stream_is_cut()
    ensures { (term : ℕ) (s : Sifting) (xs ys : List ℕ)
        → after_bytes term s (xs ++ ys) ≡ after_bytes term (after_bytes term s xs) ys }
{}

/// After a byte that can't stand where it stood, nothing is read.
pub fn behind_a_fault_nothing_is_read()
    ensures { (term : ℕ) (s : Sifting) (bytes : List ℕ)
        → s.broken ≡ true
        → after_bytes term s bytes ≡ s }
{}
