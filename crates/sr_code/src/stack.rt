ghost use Rattle.std.specs.Prelude.{◌≡◌, [], ◌∷◌, option_copied, OnOk, reverse};
ghost use Rattle.sr_code.specs.Stacks.{below, first, first_or};

use sr_value::{Duplicate, NoMemory, Row};
use std::alloc::Global;
use std::marker::Model;

/// Operands of one kind. Contracts see them as a list, the last put first.
#[derive(Drop)]
pub struct Stack<T> {
    items: Vec<T>,
}

impl<T> Model for Stack<T> {
    ghost use Rattle.std.specs.Prelude.{List, reverse};
    ghost use Rattle.std.specs.Coded.{coded_list};

    ghost Value = { List T };

    ghost coded = { coded_list T.code };

    ghost view = { λ stack. reverse stack.items.items };
}

impl<T> Stack<T> {
    pub fn new(alloc: Global) -> Self
        ensures { result ≡ [] }
    {
        Stack {
            items: Vec::new(alloc),
        }
    }

    /// The stack of these items, the last of which is the top.
    pub fn from_row(items: Row<T>) -> Self
        ensures { result ≡ reverse items }
    {
        Stack {
            items: items.into_vec(),
        }
    }

    /// The items, of which the last is the top.
    pub fn as_slice(&self) -> &[T]
        ensures { self.now ≡ reverse result.now }
    {
        self.items.as_slice()
    }

    pub fn top(&self) -> Option<&T>
        ensures { option_copied result ≡ first self.now }
    {
        self.items.last()
    }

    pub fn pop(&mut self) -> Option<T>
        ensures value { result ≡ first self.old }
        ensures rest { self.new ≡ below self.old }
    {
        self.items.pop()
    }
}

impl<T: Drop> Stack<T> {
    #[inline(always)]
    pub fn push(&mut self, item: T) -> Result<(), NoMemory>
        ensures { OnOk result (self.new ≡ item ∷ self.old) }
    {
        self.items.reserve(1)?;
        self.items.push_reserved(item);
        Ok(())
    }

    /// The top, or a default where there is none.
    pub fn take(&mut self, otherwise: T) -> T
        ensures value { result ≡ first_or otherwise self.old }
        ensures rest { self.new ≡ below self.old }
    {
        match self.pop() {
            Some(item) => item,
            None => otherwise,
        }
    }
}

impl<T: Duplicate + Drop> Duplicate for Stack<T> {
    fn copy(&self, alloc: Global) -> Result<Stack<T>, NoMemory> {
        let mut copies = Vec::with_capacity(alloc, self.items.len())?;
        for item in &self.items {
            copies.push(item.copy(alloc)?)?;
        }
        Ok(Stack { items: copies })
    }
}
