ghost use Rattle.std.specs.Prelude.{◌≤◌, length, IfOk, IfErr};
ghost use Rattle.sr_front.specs.Reading.{AreRead, AreRefused, IsRefusal, contents_of};

use crate::phases::{check_limits, check_sizes, lex_all, parse_all};
use sr_text::FrontFail;
use sr_tree::File;
use sr_value::{Row, Text};
use std::alloc::Global;

/// The trees of the files of a program, which are given with their names, or their refusal: S11 for a file of more
/// than 1,048,576 bytes, S1 or S2 for one that has no tokens, S10 or S11 for tokens past a limit, S3 for tokens that
/// spell no tree. All files go through each of these phases before the next begins.
pub fn read(alloc: Global, files: &[(Text, Text)]) -> Result<Row<File>, FrontFail>
    requires few { length files.now ≤ 64 }
    ensures trees { IfOk result (AreRead (contents_of files.now)) }
    ensures refused { IfErr result (IsRefusal (AreRefused (contents_of files.now))) }
{
    check_sizes(files)?;
    let tokens = lex_all(alloc, files)?;
    check_limits(tokens.as_slice())?;
    parse_all(alloc, tokens.as_slice())
}
