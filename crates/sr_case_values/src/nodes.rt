//! Lines of words, quoted bytes and lists in brackets.

use sr_case_files::unescaped;
use std::alloc::{AllocError, Global};
use std::mem;

/// A word, bytes between quotes, or a list in brackets.
#[derive(Drop)]
pub enum Node {
    Word(String),
    Quoted(Vec<u8>),
    Round(Vec<Node>),
    Square(Vec<Node>),
}

/// A line that is being read: the word at its end, and the lists that aren't closed, the innermost apart.
#[derive(Drop)]
struct Reader {
    alloc: Global,
    word: String,
    is_quoted: bool,
    current: Vec<Node>,
    outer: Vec<Vec<Node>>,
}

impl Reader {
    /// Hands the word at the end out.
    fn take_word(&mut self) -> String {
        mem::replace(&mut self.word, String::new(self.alloc))
    }

    fn end_word(&mut self) -> Result<(), AllocError> {
        if self.word.is_empty() {
            return Ok(());
        }
        let word = self.take_word();
        self.current.push(Node::Word(word))?;
        Ok(())
    }

    fn end_quoted(&mut self) -> Result<(), AllocError> {
        let word = self.take_word();
        let bytes = unescaped(self.alloc, word.as_str())?;
        self.current.push(Node::Quoted(bytes))?;
        self.is_quoted = false;
        Ok(())
    }

    fn open(&mut self) -> Result<(), AllocError> {
        let before = mem::replace(&mut self.current, Vec::new(self.alloc));
        self.outer.push(before)?;
        Ok(())
    }

    /// Ends the innermost list, and hands its items out.
    fn close(&mut self) -> Vec<Node> {
        let before = match self.outer.pop() {
            Some(before) => before,
            None => Vec::new(self.alloc),
        };
        mem::replace(&mut self.current, before)
    }

    /// Takes in a character that stands outside of quotes and words.
    fn take_sign(&mut self, sign: char) -> Result<(), AllocError> {
        self.end_word()?;
        match sign {
            '"' => self.is_quoted = true,
            '(' | '[' => self.open()?,
            ')' => {
                let items = self.close();
                self.current.push(Node::Round(items))?;
            }
            ']' => {
                let items = self.close();
                self.current.push(Node::Square(items))?;
            }
            _ => {}
        }
        Ok(())
    }

    fn take(&mut self, next: char) -> Result<(), AllocError> {
        if self.is_quoted && next == '"' {
            self.end_quoted()
        } else if !self.is_quoted && matches!(next, '"' | '(' | ')' | '[' | ']' | ' ') {
            self.take_sign(next)
        } else {
            self.word.push(next)
        }
    }
}

/// The words, quoted bytes and lists of a line.
pub fn nodes_of(alloc: Global, line: &str) -> Result<Vec<Node>, AllocError> {
    let mut reader = Reader {
        alloc,
        word: String::new(alloc),
        is_quoted: false,
        current: Vec::new(alloc),
        outer: Vec::new(alloc),
    };
    for next in line.chars() {
        reader.take(next)?;
    }
    reader.end_word()?;
    Ok(reader.close())
}

/// What is left of a line.
#[derive(Clone, Copy)]
pub struct Words<'a> {
    rest: &'a [Node],
}

impl<'a> Words<'a> {
    pub fn new(nodes: &'a [Node]) -> Words<'a> {
        Words { rest: nodes }
    }

    /// What comes next.
    pub fn next(&mut self) -> Option<&'a Node> {
        let (first, others) = self.rest.split_first()?;
        self.rest = others;
        Some(first)
    }

    /// How many words, quoted bytes and lists are left.
    pub fn len(&self) -> usize {
        self.rest.len()
    }

    /// The word that comes next, or nothing.
    pub fn word(&mut self) -> &'a str {
        match self.next() {
            Some(Node::Word(word)) => word.as_str(),
            _ => "",
        }
    }

    /// The bytes between quotes that come next, or none.
    pub fn quoted(&mut self) -> &'a [u8] {
        match self.next() {
            Some(Node::Quoted(bytes)) => bytes.as_slice(),
            _ => &[],
        }
    }

    /// The number that comes next, or 0.
    pub fn number(&mut self) -> u32 {
        self.word().parse().unwrap_or(0)
    }

    /// The number after the word that comes next.
    pub fn named(&mut self) -> u32 {
        let _ = self.word();
        self.number()
    }

    /// The items of the list that comes next, or none.
    pub fn list(&mut self) -> &'a [Node] {
        match self.next() {
            Some(Node::Round(items) | Node::Square(items)) => items.as_slice(),
            _ => &[],
        }
    }
}
