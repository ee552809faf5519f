ghost use Rattle.std.specs.Prelude.{ℕ, ◌-◌, ◌<◌, ◌≤◌, suc, List, length, Ok, Err};
ghost use Rattle.sr_reader.specs.Pieces.{HasOneTree, IsDead};
ghost use Rattle.sr_tree.specs.declared.component.File.{File};
ghost use Rattle.sr_tree.specs.declared.token.Token.{Token};
ghost use Rattle.sr_program_reader.specs.Files.{SpellsFile, ReadsFile};

/// A law of the grammar: one list of tokens has at most one file.
pub fn one_file()
    ensures { HasOneTree SpellsFile }
{}

/// A law of the readers, where they have enough turns: a file that is read is spelled by the tokens, all of them;
/// where reading fails they spell none, and unless the place is after the last token no list of tokens with a file
/// begins with those up to and with the place.
pub fn reads_file()
    ensures spelled { (s : List Token) (f : File) (q : List Token) → ReadsFile s (Ok (f, q)) → SpellsFile f s }
    ensures none { (s : List Token) (left : ℕ) → ReadsFile s (Err left) → (f : File) → SpellsFile f s → ⊥ }
    ensures within { (s : List Token) (left : ℕ) → ReadsFile s (Err left) → left ≤ length s }
    ensures dead { (s : List Token) (left : ℕ) → ReadsFile s (Err left) → 0 < left → IsDead SpellsFile s (suc (length s - left)) }
{}
