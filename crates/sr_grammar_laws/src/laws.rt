ghost use Rattle.std.specs.Prelude.{List, map};
ghost use Rattle.sr_tree.specs.Components.{Spells};
ghost use Rattle.sr_tree.specs.declared.component.File.{File};
ghost use Rattle.sr_tree.specs.declared.token.Token.{Token};
ghost use Rattle.sr_grammar_laws.specs.Retelling.{Keeps};
ghost use Rattle.sr_grammar_laws.specs.SameComponents.{SameFile};

/// A law of the grammar: tokens that are told again, with other spans and other spellings of signs, spell the same tree
/// but for its spans.
pub fn spell_the_same()
    ensures { (retell : Token → Token) → Keeps retell → (tokens : List Token) (tree : File) → Spells tokens tree
        → (other : File) × Spells (map retell tokens) other × SameFile tree other }
{}
