ghost use Rattle.std.specs.Prelude.{IfOk, IfErr};
ghost use Rattle.sr_parse_expr.specs.Refused.{IsRefusedIn};
ghost use Rattle.sr_parser.specs.Programs.{SpellsNoFile};
ghost use Rattle.sr_program_reader.specs.Files.{SpellsFile};
ghost use Rattle.sr_tree.specs.Components.{Spells};

use crate::components::file;
use sr_parse_expr::refused;
use sr_text::FrontFail;
use sr_tree::{File, Tokens};
use std::alloc::Global;

/// Reads a source file from all its tokens.
///
/// Refused as `Syntax` exactly where the tokens spell no file. Unless it is refused at the last token, no list of
/// tokens that spells a file begins with the tokens through the refused one.
pub fn parse(alloc: Global, tokens: &Tokens) -> Result<File, FrontFail>
    ensures tree { IfOk result (λ f. Spells tokens.now.items f) }
    ensures none { IfErr result (λ e. SpellsNoFile tokens.now.items e) }
    ensures dead { IfErr result (λ e. IsRefusedIn SpellsFile tokens.now.items 0 e) }
{
    let items = tokens.items.as_slice();
    match file(alloc, items) {
        Ok((tree, _)) => Ok(tree),
        Err(fail) => Err(refused(items, fail)),
    }
}
