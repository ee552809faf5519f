ghost use Rattle.std.specs.Prelude.{◌≡◌, ◌≤◌, [], length, IfOk, OnOk};
ghost use Rattle.sr_lexer.specs.Tokens.{Lexes};
ghost use Rattle.sr_fmt.specs.Canonical.{IsCanonical};
ghost use Rattle.sr_fmt.specs.Layout.{first_pen};
ghost use Rattle.sr_fmt.specs.Printing.{IsToldOf, Prints};

use crate::gap::gap_in_front;
use crate::marks::marks_at;
use crate::printer::Printer;
use crate::starts::note_file;
use crate::told::{Told, told_tokens};
use sr_tree::{File, Tokens};
use sr_value::{NoMemory, Row, Text};
use std::alloc::Global;

/// The text of a file in the one style: the same tokens and comments, in lines by the kinds of tokens. `tokens` are those
/// of the source, `tree` is the tree that they spell.
pub fn canonical(
    alloc: Global,
    tokens: &Tokens,
    tree: &File,
    source: &[u8],
) -> Result<Text, NoMemory>
    requires small { length source.now ≤ 1048576 }
    requires lexed { Lexes 0 source.now tokens.now.items }
    ensures { IfOk result (IsCanonical source.now tree.now) }
{
    let mut starts = Row::new(alloc);
    note_file(tree, &mut starts)?;
    let marks = marks_at(alloc, starts.as_slice(), source.len())?;
    let told = told_tokens(alloc, tokens.items.as_slice())?;
    let mut printer = Printer::new(alloc);
    print_pieces(source, &told, &marks, &mut printer)?;
    printer.finish()
}

/// Writes the pieces of the source.
fn print_pieces(
    source: &[u8],
    told: &[Told],
    marks: &[bool],
    printer: &mut Printer,
) -> Result<(), NoMemory>
    requires small { length source.now ≤ 1048576 }
    requires told { IsToldOf source.now told.now }
    requires marks { length marks.now ≡ length source.now }
    requires text { printer.old.text ≡ [] }
    requires pen { printer.old.pen ≡ first_pen }
    ensures { OnOk result (Prints source.now marks.now printer.new) }
{
    let mut at: usize = 0;
    let mut next: usize = 0;
    while at < source.len() {
        let rest = &source[at..];
        if let Some(gap) = gap_in_front(rest) {
            printer.take_gap(gap, &rest[..gap.len])?;
            at += gap.len;
            continue;
        }
        let token = told[next];
        printer.take_token(marks[at], token.kind, &rest[..token.len])?;
        at += token.len;
        next += 1;
    }
    Ok(())
}
