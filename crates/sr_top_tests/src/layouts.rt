use crate::support::{Case, goes_so, silent};
use std::test::Fail;

const LAID_OUT: &[u8] =
    b"resource main()\n  var x: int\n  x := - 1\n# one\n  if x != 0 ->\n    write(x)\n  fi\nend\n";

const FILES: [(&str, &[u8]); 6] = [
    (
        "a.sr",
        b"resource main() var x:int;x:=- 1 # one\nif x~=0->write(x)fi end",
    ),
    ("b.sr", LAID_OUT),
    ("empty.sr", b""),
    ("names.sr", b"resource main() write(nothing) end"),
    ("cut.sr", b"write("),
    ("byte.sr", b"resource main()\n  write(\"a\") ?? $\nend\n"),
];

fn shows<'a>(words: &'a [&'a str], output: &'a [u8]) -> Case<'a> {
    Case {
        output,
        ..silent(words, &FILES)
    }
}

fn ends<'a>(words: &'a [&'a str], status: u8, diag: &'a [u8]) -> Case<'a> {
    Case {
        status,
        diag,
        ..silent(words, &FILES)
    }
}

/// A file in the one style stays as it is. Names and types aren't looked at.
#[test]
fn layouts(rt: HostRuntime) -> Result<(), Fail> {
    let cases = [
        shows(&["fmt", "a.sr"], LAID_OUT),
        shows(&["fmt", "b.sr"], LAID_OUT),
        shows(&["fmt", "empty.sr"], b""),
        shows(
            &["fmt", "names.sr"],
            b"resource main()\n  write(nothing)\nend\n",
        ),
        ends(&["fmt", "cut.sr"], 103, b"sr: cut.sr:1: S3 Syntax\n"),
        ends(&["fmt", "byte.sr"], 103, b"sr: byte.sr:2: S1 BadByte\n"),
        ends(&["fmt", "c.sr"], 104, b"sr: cannot read c.sr\n"),
        Case {
            put_fails: &[1],
            ..ends(&["fmt", "a.sr"], 106, b"sr: output failed\n")
        },
    ];
    for (index, case) in cases.iter().enumerate() {
        assert!(rt; goes_so(rt.alloc(), case)?, "case {index}");
    }
    Ok(())
}
