ghost use Rattle.std.specs.Prelude.{◌≡◌, ◌<◌, length, is_some, IfOk};
ghost use Rattle.sr_reader.specs.Reader.{next_is};
ghost use Rattle.sr_parse_tokens.specs.Gives.{Gives};
ghost use Rattle.sr_program_reader.specs.StatementReaders.{begins_block_item, begins_statement, condition_word_at, direction_at, token_condition, token_direction, word_begins};

use sr_parse_tokens::{ReadFail, next_is_word};
use sr_tree::{ConditionWord, Direction, Token, TokenKind, Word};
use sr_value::Span;

/// Whether a quantifier counts up or down, by the word that a token is.
fn direction(kind: TokenKind) -> Option<Direction>
    ensures { result ≡ token_direction kind }
{
    match kind {
        TokenKind::Word(Word::To) => Some(Direction::To),
        TokenKind::Word(Word::Downto) => Some(Direction::Downto),
        _ => None,
    }
}

/// Reads the word for whether a quantifier counts up or down after a tree, and hands the tree back.
#[tactic(auto, unfolding(sr_program_reader::specs::StatementReaders::direction_at))]
pub fn read_direction<T: Drop>(
    tree: T,
    tokens: &[Token],
) -> Result<(T, Direction, &[Token]), ReadFail>
    ensures reads { Gives (λ x. (x.1, x.2.now)) result (direction_at tokens.now) }
    ensures kept { IfOk result (λ x. x.0 ≡ tree) }
    ensures shorter { IfOk result (λ x. length x.2.now < length tokens.now) }
{
    match tokens {
        [] => Err(ReadFail::Unexpected { left: 0 }),
        [first, rest @ ..] => match direction(first.kind) {
            Some(direction) => Ok((tree, direction, rest)),
            None => Err(ReadFail::Unexpected { left: tokens.len() }),
        },
    }
}

/// The word before a condition that a token is.
fn condition_word(kind: TokenKind) -> Option<ConditionWord>
    ensures { result ≡ token_condition kind }
{
    match kind {
        TokenKind::Word(Word::And) => Some(ConditionWord::And),
        TokenKind::Word(Word::St) => Some(ConditionWord::St),
        _ => None,
    }
}

/// Whether the next token is a word before a condition.
pub fn next_is_condition(tokens: &[Token]) -> bool
    ensures { result ≡ next_is (λ t. is_some (token_condition t.kind)) tokens.now }
{
    match tokens {
        [] => false,
        [first, ..] => condition_word(first.kind).is_some(),
    }
}

/// Reads the word before a condition, and gives its span too.
#[tactic(auto, unfolding(sr_program_reader::specs::StatementReaders::condition_word_at))]
pub fn read_condition_word(tokens: &[Token]) -> Result<((Span, ConditionWord), &[Token]), ReadFail>
    ensures reads { Gives (λ x. (x.0, x.1.now)) result (condition_word_at tokens.now) }
    ensures shorter { IfOk result (λ x. length x.1.now < length tokens.now) }
{
    match tokens {
        [] => Err(ReadFail::Unexpected { left: 0 }),
        [first, rest @ ..] => match condition_word(first.kind) {
            Some(word) => Ok(((first.span, word), rest)),
            None => Err(ReadFail::Unexpected { left: tokens.len() }),
        },
    }
}

/// Whether a word begins a statement.
fn is_first_word(word: Word) -> bool
    ensures { result ≡ word_begins word }
{
    matches!(
        word,
        Word::Skip
            | Word::Exit
            | Word::Next
            | Word::Return
            | Word::Reply
            | Word::Stop
            | Word::Call
            | Word::Send
            | Word::Forward
            | Word::Receive
            | Word::Destroy
            | Word::Create
            | Word::If
            | Word::Do
            | Word::Fa
            | Word::In
            | Word::Co
    )
}

/// Whether a token begins a statement.
fn is_statement_start(kind: TokenKind) -> bool
    ensures { result ≡ begins_statement kind }
{
    match kind {
        TokenKind::Name => true,
        TokenKind::Word(word) => is_first_word(word),
        _ => false,
    }
}

/// Whether the next token begins a statement.
pub fn next_is_statement(tokens: &[Token]) -> bool
    ensures { result ≡ next_is (λ t. begins_statement t.kind) tokens.now }
{
    match tokens {
        [] => false,
        [first, ..] => is_statement_start(first.kind),
    }
}

/// Whether the next token begins an item of a block.
pub fn next_is_block_item(tokens: &[Token]) -> bool
    ensures { result ≡ next_is (λ t. begins_block_item t.kind) tokens.now }
{
    next_is_word(tokens, Word::Const)
        || next_is_word(tokens, Word::Var)
        || next_is_statement(tokens)
}
