ghost use Rattle.std.specs.Prelude.{◌≡◌, ◌==◌, ℕ, true, false, not, List, [], ◌∷◌, ◌++◌, length, Some};
ghost use Rattle.sr_tree.specs.declared.token.Sign.{Sign};
ghost use Rattle.sr_lexer.specs.Bytes.{is_digit, is_letter, is_name_byte};
ghost use Rattle.sr_lexer.specs.Literals.{quoted_len};
ghost use Rattle.sr_lexer.specs.Pieces.{first_passes, run_len, close_of, piece_at};
ghost use Rattle.sr_lexer.specs.Symbols.{sign_spelling};
ghost use Rattle.sr_spelling.specs.Longer.{lengthens};

/// Laws of pieces: a name or reserved word and a number read the same before all but a letter, a digit or an underscore,
/// a sign before all bytes that don't make it a longer one, and a comment to the end of the line before a newline. A
/// literal and a comment up to `*/` read the same before all bytes.
pub fn read_alone()
    ensures names { (byte : ℕ) (more rest : List ℕ) → is_letter byte ≡ true → run_len is_name_byte more ≡ length more
        → first_passes is_name_byte rest ≡ false → piece_at (byte ∷ (more ++ rest)) ≡ piece_at (byte ∷ more) }
    ensures numbers { (byte : ℕ) (more rest : List ℕ) → is_digit byte ≡ true → run_len is_digit (byte ∷ more) ≡ length (byte ∷ more)
        → first_passes is_name_byte rest ≡ false → piece_at (byte ∷ (more ++ rest)) ≡ piece_at (byte ∷ more) }
    ensures signs { (sign : Sign) (byte : ℕ) (rest : List ℕ) → lengthens sign byte ≡ false
        → piece_at (sign_spelling sign ++ byte ∷ rest) ≡ piece_at (sign_spelling sign) }
    ensures comments { (more rest : List ℕ) → run_len (λ byte. not (byte == 10)) more ≡ length more
        → first_passes (λ byte. not (byte == 10)) rest ≡ false → piece_at (35 ∷ (more ++ rest)) ≡ piece_at (35 ∷ more) }
    ensures chars { (inner rest : List ℕ) → quoted_len 39 (inner ++ 39 ∷ []) ≡ length inner
        → piece_at (39 ∷ (inner ++ 39 ∷ rest)) ≡ piece_at (39 ∷ (inner ++ 39 ∷ [])) }
    ensures strings { (inner rest : List ℕ) → quoted_len 34 (inner ++ 34 ∷ []) ≡ length inner
        → piece_at (34 ∷ (inner ++ 34 ∷ rest)) ≡ piece_at (34 ∷ (inner ++ 34 ∷ [])) }
    ensures closed_comments { (inner rest : List ℕ) → close_of (inner ++ 42 ∷ 47 ∷ []) ≡ Some (length inner)
        → piece_at (47 ∷ 42 ∷ (inner ++ 42 ∷ 47 ∷ rest)) ≡ piece_at (47 ∷ 42 ∷ (inner ++ 42 ∷ 47 ∷ [])) }
{}
