ghost use Rattle.std.specs.Prelude.{◌≡◌};
ghost use Rattle.sr_words.specs.Verbs as verbs;

/// The name of a command.
#[derive(Clone, Copy)]
pub enum Verb {
    Run,
    Check,
    Classes,
    Fmt,
    Gen,
    Replay,
    Races,
    Trace,
}

/// The command that is written as this word.
pub fn verb_of(word: &[u8]) -> Option<Verb>
    ensures { result ≡ verbs.verb_of word.now }
{
    if word == b"run".as_slice() {
        Some(Verb::Run)
    } else if word == b"check".as_slice() {
        Some(Verb::Check)
    } else if word == b"classes".as_slice() {
        Some(Verb::Classes)
    } else if word == b"fmt".as_slice() {
        Some(Verb::Fmt)
    } else if word == b"gen".as_slice() {
        Some(Verb::Gen)
    } else if word == b"replay".as_slice() {
        Some(Verb::Replay)
    } else if word == b"races".as_slice() {
        Some(Verb::Races)
    } else if word == b"trace".as_slice() {
        Some(Verb::Trace)
    } else {
        None
    }
}
