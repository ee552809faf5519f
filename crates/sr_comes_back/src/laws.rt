ghost use Rattle.std.specs.Prelude.{◌≡◌, ℕ, List};
ghost use Rattle.sr_tree.specs.Components.{Spells};
ghost use Rattle.sr_tree.specs.declared.component.File.{File};
ghost use Rattle.sr_tree.specs.declared.token.Token.{Token};
ghost use Rattle.sr_lexer.specs.Tokens.{Lexes};
ghost use Rattle.sr_fmt.specs.Canonical.{IsCanonical};
ghost use Rattle.sr_comes_back.specs.Back.{ComesBack};

/// The law of the one style: a canonical text comes back. It has tokens, which spell a tree that is the same but for
/// spans, and the comments of its source in order, and it is its own canonical text. There is one canonical text of a
/// source and its tree.
pub fn comes_back()
    ensures back { (source : List ℕ) (tree : File) (text : List ℕ) (tokens : List Token) → Lexes 0 source tokens → Spells tokens tree
        → IsCanonical source tree text → ComesBack source tree text }
    ensures one { (source : List ℕ) (tree : File) (a b : List ℕ) → IsCanonical source tree a → IsCanonical source tree b → a ≡ b }
{}
