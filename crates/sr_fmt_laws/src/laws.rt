ghost use Rattle.std.specs.Prelude.{ℕ, List};
ghost use Rattle.sr_tree.specs.declared.component.File.{File};
ghost use Rattle.sr_fmt.specs.Canonical.{IsCanonical};
ghost use Rattle.sr_fmt_laws.specs.Kept.{SaysTheSame, StaysAsItIs};

/// Laws of the one style: a canonical text is a chain of pieces again. It has the tokens of its source in order, each
/// spelled in the one style, but for separators outside of brackets, and the comments of its source in order. Laid out
/// again it stays as it is, where statements begin with the same of its tokens as in the source.
pub fn keeps_its_source()
    ensures same { (source : List ℕ) (tree : File) (text : List ℕ) → IsCanonical source tree text → SaysTheSame source text }
    ensures stays { (source : List ℕ) (tree : File) (text : List ℕ) → IsCanonical source tree text → StaysAsItIs source tree text }
{}
