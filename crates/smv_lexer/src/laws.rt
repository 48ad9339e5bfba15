//! Laws of texts and their tokens, for the layers above.

ghost use Rattle.std.specs.Prelude.{◌≡◌, ◌⊎◌, ℕ, List, All, IsTrue};
ghost use Rattle.kripke_model.specs.Names.{IsAtom, has_shape};
ghost use Rattle.smv_lexer.specs.Keyword.{text_of};
ghost use Rattle.smv_lexer.specs.Places.{AreInOrder, IsAtomIfWord, IsPlacedIn};
ghost use Rattle.smv_lexer.specs.Text.{IsBadByteAt, IsTooLargeAt, Lexes, Placed};
ghost use Rattle.smv_lexer.specs.declared.keyword.Keyword.{Keyword};

/// A text has one list of tokens, or one refusal at one place.
pub fn one_answer()
    ensures list { (bytes : List ℕ) (ts us : List Placed) → Lexes bytes ts → Lexes bytes us
        → ts ≡ us }
    ensures list_or_bad { (bytes : List ℕ) (ts : List Placed) (at : ℕ) → Lexes bytes ts
        → IsBadByteAt bytes at → ⊥ }
    ensures list_or_large { (bytes : List ℕ) (ts : List Placed) (at : ℕ) → Lexes bytes ts
        → IsTooLargeAt bytes at
        → ⊥ }
    ensures bad { (bytes : List ℕ) (at other : ℕ) → IsBadByteAt bytes at → IsBadByteAt bytes other
        → at ≡ other }
    ensures large { (bytes : List ℕ) (at other : ℕ) → IsTooLargeAt bytes at
        → IsTooLargeAt bytes other → at ≡ other }
    ensures bad_or_large { (bytes : List ℕ) (at other : ℕ) → IsBadByteAt bytes at
        → IsTooLargeAt bytes other → ⊥ }
{}

/// Each token is spelled by its bytes and has their line, and tokens follow one another.
pub fn places()
    ensures placed { (bytes : List ℕ) (ts : List Placed) → Lexes bytes ts
        → All (IsPlacedIn bytes) ts }
    ensures in_order { (bytes : List ℕ) (ts : List Placed) → Lexes bytes ts → AreInOrder 0 ts }
{}

/// The words of a text are atoms. What has an atom's shape is an atom or a reserved word, never both.
pub fn words()
    ensures atoms { (bytes : List ℕ) (ts : List Placed) → Lexes bytes ts
        → All (λ t. IsAtomIfWord t.kind) ts }
    ensures either { (w : List ℕ) → IsTrue (has_shape w)
        → IsAtom w ⊎ ((k : Keyword) × (w ≡ text_of k)) }
    ensures not_both { (k : Keyword) → IsAtom (text_of k) → ⊥ }
{}
