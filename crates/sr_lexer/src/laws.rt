ghost use Rattle.std.specs.Prelude.{Some, None, true, false, length, ◌≤◌, ◌≡◌, ℕ, List, ◌⊎◌};
ghost use Rattle.sr_text.specs.declared.refusal.Refusal.{Refusal};
ghost use Rattle.sr_tree.specs.declared.token.Token.{Token};
ghost use Rattle.sr_tree.specs.declared.token.Sign.{Sign};
ghost use Rattle.sr_tree.specs.declared.token.Word.{Word};
ghost use Rattle.sr_order.specs.Order.{Ascend, token_spans};
ghost use Rattle.sr_lexer.specs.Symbols.{word_of, word_spelling, sign_at, sign_spelling, begins_with_sign};
ghost use Rattle.sr_lexer.specs.Tokens.{Lexes, RefusesToLex};

/// A law of the definition of `lex`: each file has one list of tokens or one refusal, and never both.
pub fn one_outcome()
    ensures list { (file : ℕ) (bytes : List ℕ) (a b : List Token)
        → Lexes file bytes a → Lexes file bytes b → a ≡ b }
    ensures refusal { (file : ℕ) (bytes : List ℕ) (r s : Refusal)
        → RefusesToLex file bytes r → RefusesToLex file bytes s → r ≡ s }
    ensures apart { (file : ℕ) (bytes : List ℕ) (a : List Token) (r : Refusal)
        → Lexes file bytes a → RefusesToLex file bytes r → ⊥ }
    ensures some { (file : ℕ) (bytes : List ℕ)
        → ((a : List Token) × Lexes file bytes a) ⊎ ((r : Refusal) × RefusesToLex file bytes r) }
{}

/// Laws of the table of signs and reserved words: each word is found by its spelling, and what is found is spelled
/// so; of the signs at the front of some bytes the longest is found, and none only where no sign stands there.
pub fn one_spelling()
    ensures known { (word : Word) → word_of (word_spelling word) ≡ Some word }
    ensures spelled { (text : List ℕ) (word : Word)
        → word_of text ≡ Some word → word_spelling word ≡ text }
    ensures longest { (bytes : List ℕ) (found other : Sign)
        → sign_at bytes ≡ Some found → begins_with_sign bytes other ≡ true
        → length (sign_spelling other) ≤ length (sign_spelling found) }
    ensures none { (bytes : List ℕ) (other : Sign)
        → sign_at bytes ≡ None → begins_with_sign bytes other ≡ false }
{}

/// A law of the tokens of a file: each has the number of the file in its span, and begins after the beginning of the
/// one before.
pub fn tokens_ascend()
    ensures { (file : ℕ) (bytes : List ℕ) (tokens : List Token)
        → Lexes file bytes tokens → Ascend file 0 (token_spans tokens) }
{}
