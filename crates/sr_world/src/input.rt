ghost use Rattle.std.specs.Prelude.{◌≡◌, ◌++◌, ◌≤◌, ◌&&◌, [], OnErr, OnOk, drop, length};
ghost use Rattle.sr_world.specs.Inputs.{after_token, blanks_in, some_are, token_in};
ghost use Rattle.sr_world.specs.Parts.{begins_at, ends_at};

use crate::tokens::{blank_count, token_len};
use sr_value::{NoMemory, Text};
use std::alloc::Global;
use std::marker::Model;

/// The input that hasn't been read. Where its first token begins and ends is kept, so that each byte is looked at
/// once.
#[derive(Drop)]
pub struct Input {
    bytes: Text,
    /// How many of them have been read.
    at: usize,
    /// Where the first token begins: before it stand blanks.
    token: usize,
    /// Where the token ends: there stands a blank, or no byte yet.
    end: usize,
}

impl Model for Input {
    ghost use Rattle.std.specs.Prelude.{ℕ, List, drop};
    ghost use Rattle.sr_world.specs.Parts.{HasToken};

    ghost Value = { List ℕ };

    ghost view = { λ input. drop input.at input.bytes };

    ghost invariant = { λ input. HasToken input.bytes input.at input.token input.end };
}

/// Where the first token begins, once more bytes are there: all before `token` are blanks, and from there to `end` none is.
fn begin_of(bytes: &[u8], token: usize, end: usize) -> usize
    requires { token ≤ length bytes.now }
    ensures begins { result ≡ begins_at bytes.now token end }
    ensures within { result ≤ length bytes.now }
{
    if token == end {
        token + blank_count(&bytes[token..])
    } else {
        token
    }
}

/// Where a token ends that begins here and goes on at least to `end`.
fn end_of(bytes: &[u8], token: usize, end: usize) -> usize
    requires token { token ≤ length bytes.now }
    requires end { end ≤ length bytes.now }
    ensures { result ≡ ends_at bytes.now token end }
{
    let from = token.max(end);
    from + token_len(&bytes[from..])
}

impl Input {
    /// No input. It takes no memory.
    pub fn new(alloc: Global) -> Self
        ensures { result ≡ [] }
    {
        Input {
            bytes: Text::new(alloc),
            at: 0,
            token: 0,
            end: 0,
        }
    }

    /// What hasn't been read.
    pub fn rest(&self) -> &[u8]
        ensures { result.now ≡ self.now }
    {
        &self.bytes.as_bytes()[self.at..]
    }

    /// How many bytes haven't been read.
    pub fn len(&self) -> usize
        ensures { result ≡ length self.now }
    {
        self.rest().len()
    }

    /// How many blanks stand first.
    pub fn blanks(&self) -> usize
        ensures { result ≡ length (blanks_in self.now) }
    {
        self.token - self.at
    }

    /// The first token, as far as it has come.
    pub fn token(&self) -> &[u8]
        ensures { result.now ≡ token_in self.now }
    {
        &self.bytes.as_bytes()[self.token..self.end]
    }

    /// Whether there is a token, and a byte after it.
    pub fn is_token_whole(&self) -> bool
        ensures { result ≡ (some_are (token_in self.now) && some_are (after_token self.now)) }
    {
        self.token < self.end && self.end < self.bytes.len()
    }

    /// Adds bytes after all others.
    pub fn give(&mut self, bytes: &[u8]) -> Result<(), NoMemory>
        ensures ok { OnOk result (self.new ≡ self.old ++ bytes.now) }
        ensures err { OnErr result (self.new ≡ self.old) }
    {
        self.bytes.push_all(bytes)?;
        self.token = begin_of(self.bytes.as_bytes(), self.token, self.end);
        self.end = end_of(self.bytes.as_bytes(), self.token, self.end);
        Ok(())
    }

    /// Reads so many bytes.
    pub fn pass(&mut self, count: usize)
        requires { count ≤ length self.old }
        ensures { self.new ≡ drop count self.old }
    {
        let left = self.bytes.len() - self.at;
        self.at = self.bytes.len() - (left - count);
        self.end = self.end.max(self.at);
        self.token = begin_of(self.bytes.as_bytes(), self.token.max(self.at), self.end);
        self.end = end_of(self.bytes.as_bytes(), self.token, self.end);
    }
}
