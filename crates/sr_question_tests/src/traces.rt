use crate::links::{ask, record};
use crate::races::{found, refused};
use crate::support::is_answered;
use sr_ports::MemSink;
use sr_value::{NoMemory, Row};
use std::alloc::Global;
use std::test::Fail;

/// What each item did of the run with a race.
const LINES: &[u8] =
    b"1 1 boot creates main at race.sr:1\n2 2 initial main declares a variable begun by 1 at race.sr:2\n3 2 initial main sends main.a at race.sr:3\n4 3 proc main.a assigns a variable begun by 3 at race.sr:4\n5 2 initial main sends main.b at race.sr:6\n6 3 proc main.a ends at race.sr:1\n7 4 proc main.b reads a variable begun by 5 at race.sr:7\n8 2 initial main ends at race.sr:1\n9 4 proc main.b writes at race.sr:7\n10 1 boot takes a reply after 8 at race.sr:1\n11 4 proc main.b ends at race.sr:1\n12 1 boot ends at race.sr:1\n13 0 machine ends the run\n";

/// What the first two did.
const FIRST: &[u8] =
    b"1 1 boot creates main at race.sr:1\n2 2 initial main declares a variable begun by 1 at race.sr:2\n";

/// The trace of a run, and each reason for which there is none.
#[test]
fn traces_runs(rt: HostRuntime) -> Result<(), Fail> {
    let questions = [
        found(&["trace", "r", "race.sr"], LINES),
        found(&["trace", "r", "race.sr", "--upto", "2"], FIRST),
        found(&["trace", "r", "race.sr", "--upto", "0"], b""),
        refused(
            &["trace", "none", "race.sr"],
            110,
            b"sr: journal: J1 NotJournal\n",
        ),
        refused(
            &["trace", "r", "order.sr"],
            111,
            b"sr: journal: other files\n",
        ),
        refused(
            &["trace", "illegal", "race.sr"],
            109,
            b"sr: journal: item 2 is no step\n",
        ),
    ];
    for (index, question) in questions.iter().enumerate() {
        assert!(rt; is_answered(rt.alloc(), question)?, "question {index}");
    }
    Ok(())
}

/// Puts an answer about the run of a program, and tells whether there is one.
fn tell(
    alloc: Global,
    words: &[&str],
    source: &[u8],
    output: &mut MemSink,
) -> Result<bool, NoMemory> {
    let mut journal = MemSink::new(alloc, 1000, Row::new(alloc));
    record(alloc, source, &mut journal)?;
    let mut diag = MemSink::new(alloc, 1000, Row::new(alloc));
    let status = ask(alloc, words, source, journal.held(), output, &mut diag)?;
    Ok(status == 0 && diag.held().is_empty())
}

/// Whether the run of a program has these lines.
fn has_lines(alloc: Global, source: &[u8], lines: &[u8]) -> Result<bool, NoMemory> {
    let mut output = MemSink::new(alloc, 1000, Row::new(alloc));
    let told = tell(alloc, &["trace", "j", "p.sr"], source, &mut output)?;
    Ok(told && output.held() == lines)
}

/// Programs, and the lines of their runs.
const RUNS: [(&[u8], &[u8]); 2] = [
    (
        b"resource main()\n  op ask(n: int) returns m: int\n  process server\n    in ask(n) returns m -> m := 2 * n ni\n  end server\n  write(ask(4))\nend main\n",
        b"1 1 boot creates main at p.sr:1\n2 2 initial main sends main.server begun by 1 at p.sr:3\n3 2 initial main calls main.ask at p.sr:6\n4 3 proc main.server services main.ask begun by 2 after 3 at p.sr:4\n5 3 proc main.server replies at p.sr:4\n6 2 initial main takes a reply after 5 at p.sr:6\n7 3 proc main.server ends at p.sr:1\n8 2 initial main writes at p.sr:6\n9 2 initial main ends at p.sr:1\n10 1 boot takes a reply after 9 at p.sr:1\n11 1 boot ends at p.sr:1\n12 0 machine ends the run\n",
    ),
    (
        b"resource main()\n  stop(3)\nend\n",
        b"1 1 boot creates main at p.sr:1\n2 2 initial main stops begun by 1 at p.sr:2\n",
    ),
];

#[test]
fn links_and_acts(rt: HostRuntime) -> Result<(), Fail> {
    for (index, (source, lines)) in RUNS.iter().enumerate() {
        assert!(rt; has_lines(rt.alloc(), source, lines)?, "run {index}");
    }
    Ok(())
}

// ---- pictures

/// Whether the picture of the first items of a run ends with these parts.
fn is_drawn(alloc: Global, source: &[u8], upto: &str, parts: &[u8]) -> Result<bool, NoMemory> {
    let mut output = MemSink::new(alloc, 1000, Row::new(alloc));
    let words = ["trace", "j", "p.sr", "--picture", "--upto", upto];
    let told = tell(alloc, &words, source, &mut output)?;
    Ok(told && output.held().ends_with(parts))
}

/// A process that makes two others, which run on after it.
const MAKER: &[u8] =
    b"resource main()\n  var x : int\n  process a\n    x := 1\n  end\n  process b\n    write(x)\n  end\nend\n";

/// The columns, the links and the items of its picture. Items 6, 9 and 11 to 13 are no end of a link.
const MAKER_DRAWN: &[u8] =
    b"<path class='life' d='M70 60V324'/><text class='head' y='28' x='70'>1</text><text class='runs' y='48' x='70'>boot</text>
<path class='life' d='M270 60V324'/><text class='head' y='28' x='270'>2</text><text class='runs' y='48' x='270'>initial main</text>
<path class='life' d='M470 60V324'/><text class='head' y='28' x='470'>3</text><text class='runs' y='48' x='470'>proc main.a</text>
<path class='life' d='M670 60V324'/><text class='head' y='28' x='670'>4</text><text class='runs' y='48' x='670'>proc main.b</text>
<path class='made' d='M70 100Q170 128 270 128'/>
<path class='made' d='M270 156Q370 184 470 184'/>
<path class='made' d='M270 212Q470 240 670 240'/>
<path class='after' d='M270 268Q170 296 70 296'/>
<g><title>1 1 boot creates main at p.sr:1</title><circle r='4' cx='70' cy='100'/><text class='act' x='76' y='94'><tspan>1</tspan> creates main</text>
</g>
<g><title>2 2 initial main declares a variable begun by 1 at p.sr:2</title><circle r='4' cx='270' cy='128'/><text class='act' x='276' y='122'><tspan>2</tspan> declares a variable</text>
</g>
<g><title>3 2 initial main sends main.a at p.sr:3</title><circle r='4' cx='270' cy='156'/><text class='act' x='276' y='150'><tspan>3</tspan> sends main.a</text>
</g>
<g><title>4 3 proc main.a assigns a variable begun by 3 at p.sr:4</title><circle r='4' cx='470' cy='184'/><text class='act' x='476' y='178'><tspan>4</tspan> assigns a variable</text>
</g>
<g><title>5 2 initial main sends main.b at p.sr:6</title><circle r='4' cx='270' cy='212'/><text class='act' x='276' y='206'><tspan>5</tspan> sends main.b</text>
</g>
<g><title>7 4 proc main.b reads a variable begun by 5 at p.sr:7</title><circle r='4' cx='670' cy='240'/><text class='act' x='676' y='234'><tspan>7</tspan> reads a variable</text>
</g>
<g><title>8 2 initial main ends at p.sr:1</title><circle r='4' cx='270' cy='268'/><text class='act' x='276' y='262'><tspan>8</tspan> ends</text>
</g>
<g><title>10 1 boot takes a reply after 8 at p.sr:1</title><circle r='4' cx='70' cy='296'/><text class='act' x='76' y='290'><tspan>10</tspan> takes a reply</text>
</g>
</svg>
";

/// A process that services what it has sent: a link within a column.
const OWN: &[u8] = b"resource main()\n  op go()\n  send go()\n  in go() -> skip ni\nend\n";

/// The links and the items of the picture of its first three items.
const OWN_DRAWN: &[u8] =
    b"<path class='life' d='M270 60V184'/><text class='head' y='28' x='270'>2</text><text class='runs' y='48' x='270'>initial main</text>
<path class='made' d='M70 100Q170 128 270 128'/>
<path class='after' d='M270 128Q220 142 270 156'/>
<g><title>1 1 boot creates main at p.sr:1</title><circle r='4' cx='70' cy='100'/><text class='act' x='76' y='94'><tspan>1</tspan> creates main</text>
</g>
<g><title>2 2 initial main sends main.go begun by 1 at p.sr:3</title><circle r='4' cx='270' cy='128'/><text class='act' x='276' y='122'><tspan>2</tspan> sends main.go</text>
</g>
<g><title>3 2 initial main services main.go after 2 at p.sr:4</title><circle r='4' cx='270' cy='156'/><text class='act' x='276' y='150'><tspan>3</tspan> services main.go</text>
</g>
</svg>
";

/// A program with as many processes as a picture has columns.
const FULL: &[u8] = b"resource main()\n  process p(i := 1 to 38)\n    skip\n  end\nend\n";

/// Programs, how many items of their runs are drawn, and with what the pictures end.
const PICTURES: [(&[u8], &str, &[u8]); 4] = [
    (MAKER, "100", MAKER_DRAWN),
    (OWN, "3", OWN_DRAWN),
    (OWN, "0", b"<rect width='100%' height='100%'/>\n</svg>\n"),
    (FULL, "1000", b"</svg>\n"),
];

#[test]
fn pictures(rt: HostRuntime) -> Result<(), Fail> {
    for (index, (source, upto, parts)) in PICTURES.iter().enumerate() {
        assert!(rt;
            is_drawn(rt.alloc(), source, upto, parts)?,
            "picture {index}"
        );
    }
    Ok(())
}

/// A program with a process more.
const CROWD: &[u8] = b"resource main()\n  process p(i := 1 to 39)\n    skip\n  end\nend\n";

/// Whether a picture has no room for the run of a program.
fn has_no_room(alloc: Global, source: &[u8]) -> Result<bool, NoMemory> {
    let mut journal = MemSink::new(alloc, 1000, Row::new(alloc));
    record(alloc, source, &mut journal)?;
    let mut output = MemSink::new(alloc, 1000, Row::new(alloc));
    let mut diag = MemSink::new(alloc, 1000, Row::new(alloc));
    let status = ask(
        alloc,
        &["trace", "j", "p.sr", "--picture"],
        source,
        journal.held(),
        &mut output,
        &mut diag,
    )?;
    Ok(status == 102 && output.held().is_empty() && diag.held() == b"sr: limit: items\n".as_slice())
}

#[test]
fn pictures_have_room(rt: HostRuntime) -> Result<(), Fail> {
    assert!(rt; has_no_room(rt.alloc(), CROWD)?);
    Ok(())
}
