use sr_ask::Item;
use sr_journal::{JournalFail, read_journal};
use sr_value::NoMemory;
use std::alloc::Global;
use std::test::Fail;

/// The journal of a program of one line, `hello.sr`.
const HELLO: &[u8] =
    b"SRJ1\nfiles 1\n40 8 hello.sr\nsteps 1000000 ticks 10000000\nitems 6\ns 1 2\ns 2 0\ns 2 0\ns 1 0\ns 1 0\nq 0\nend\n";

/// What reading the bytes gives: `0` for a journal, and the number of J1, J2 and J3.
fn outcome(alloc: Global, bytes: &[u8]) -> Result<u8, NoMemory> {
    match read_journal(alloc, bytes) {
        Ok(_) => Ok(b'0'),
        Err(JournalFail::NotJournal) => Ok(b'1'),
        Err(JournalFail::Truncated) => Ok(b'2'),
        Err(JournalFail::Version) => Ok(b'3'),
        Err(JournalFail::NoMemory) => Err(NoMemory),
    }
}

/// Whether the journal has these items.
fn has_items(alloc: Global, bytes: &[u8], wanted: &[Item]) -> Result<bool, JournalFail> {
    let (_header, items) = read_journal(alloc, bytes)?;
    Ok(items.as_slice() == wanted)
}

/// Whether the journal has one file, of this size and name, and these limits.
fn has_header(
    alloc: Global,
    bytes: &[u8],
    file: (u32, &[u8]),
    steps: u32,
    ticks: u32,
) -> Result<bool, JournalFail> {
    let (header, _items) = read_journal(alloc, bytes)?;
    let (size, name) = file;
    let same_file = match header.files.as_slice() {
        [found] => found.0 == size && found.1.as_bytes() == name,
        _ => false,
    };
    Ok(same_file && header.steps == steps && header.ticks == ticks)
}

#[test]
fn hello(rt: HostRuntime) -> Result<(), Fail> {
    let step = |actor, name| Item::Step { actor, name };
    let items = [
        step(1, 2),
        step(2, 0),
        step(2, 0),
        step(1, 0),
        step(1, 0),
        Item::Quiesce { name: 0 },
    ];
    assert_eq!(rt; HELLO.len(), 102);
    assert!(rt; has_items(rt.alloc(), HELLO, &items)?);
    assert!(rt; has_header(rt.alloc(), HELLO, (40, b"hello.sr"), 1_000_000, 10_000_000)?);
    Ok(())
}

#[test]
fn ticks(rt: HostRuntime) -> Result<(), Fail> {
    let bytes: &[u8] =
        b"SRJ2\nfiles 1\n40 8 hello.sr\nsteps 5 ticks 7\nitems 3\ns 1 2\nt 10\nt 2147483647\nend\n";
    let items = [
        Item::Step { actor: 1, name: 2 },
        Item::Tick { to: 10 },
        Item::Tick { to: 2_147_483_647 },
    ];
    assert!(rt; has_items(rt.alloc(), bytes, &items)?);
    assert!(rt; has_header(rt.alloc(), bytes, (40, b"hello.sr"), 5, 7)?);
    Ok(())
}

#[test]
fn cut_at_every_byte(rt: HostRuntime) -> Result<(), Fail> {
    for len in 0..HELLO.len() {
        assert_eq!(rt; outcome(rt.alloc(), &HELLO[..len])?, b'2', "{len}");
    }
    Ok(())
}

/// What comes where this byte stands in the place of each byte of the journal in turn, line by line.
type Changed = (u8, [&'static [u8]; 12]);

const CHANGED: [Changed; 3] = [
    (
        b'7',
        [
            b"11131",
            b"11111111",
            b"00111000000001",
            b"11111100000001",
            b"111111000000001",
            b"11111111",
            b"110101",
            b"110101",
            b"110101",
            b"110101",
            b"110101",
            b"11011111",
        ],
    ),
    (
        b'0',
        [
            b"11131",
            b"11111111",
            b"10111000000001",
            b"11111110000001",
            b"111111100000001",
            b"11111111",
            b"111101",
            b"111101",
            b"111101",
            b"111101",
            b"111101",
            b"11011111",
        ],
    ),
    (
        0xFF,
        [
            b"11111",
            b"11111111",
            b"11111111111111",
            b"11111111111111",
            b"111111111111111",
            b"11111111",
            b"111111",
            b"111111",
            b"111111",
            b"111111",
            b"111111",
            b"11111111",
        ],
    ),
];

/// What comes where the byte stands in the place of each byte of the journal.
fn outcomes(alloc: Global, byte: u8) -> Result<Vec<u8>, NoMemory> {
    let mut found = Vec::new(alloc);
    for place in 0..HELLO.len() {
        let mut bytes = Vec::from_slice(alloc, HELLO)?;
        if place < bytes.len() {
            bytes[place] = byte;
        }
        found.push(outcome(alloc, &bytes)?)?;
    }
    Ok(found)
}

fn joined(alloc: Global, pieces: &[&[u8]]) -> Result<Vec<u8>, NoMemory> {
    let mut all = Vec::new(alloc);
    for piece in pieces {
        all.extend_from_slice(piece)?;
    }
    Ok(all)
}

#[test]
fn one_byte_changed(rt: HostRuntime) -> Result<(), Fail> {
    for (byte, lines) in CHANGED {
        assert_eq!(rt;
            outcomes(rt.alloc(), byte)?,
            joined(rt.alloc(), &lines)?,
            "{byte}"
        );
    }
    Ok(())
}

const NO_HEAD: &[u8] = b"";

const ONE_FILE: &[u8] = b"SRJ1\nfiles 1\n";

const TO_ITEMS: &[u8] = b"SRJ1\nfiles 1\n0 0 \nsteps 5 ticks 7\nitems ";

const TO_TIMED_ITEMS: &[u8] = b"SRJ2\nfiles 1\n0 0 \nsteps 5 ticks 7\nitems ";

/// What a journal begins with, how it goes on, and what comes.
const ROWS: [(&[u8], &[u8], u8); 78] = [
    (NO_HEAD, b"", b'2'),
    (NO_HEAD, b"hello", b'1'),
    (NO_HEAD, b"SRJ", b'2'),
    (NO_HEAD, b"SRJ1", b'2'),
    (NO_HEAD, b"SRJ2", b'2'),
    (NO_HEAD, b"SRJ3", b'1'),
    (NO_HEAD, b"SRJ12", b'1'),
    (NO_HEAD, b"SRJ10", b'1'),
    (NO_HEAD, b"SRJ0\n", b'3'),
    (NO_HEAD, b"SRJ01\n", b'1'),
    (NO_HEAD, b"SRJ2\n", b'2'),
    (NO_HEAD, b"SRJ2\nfiles 65", b'1'),
    (NO_HEAD, b"SRJ3\n", b'3'),
    (NO_HEAD, b"SRJ10\nfiles 1", b'3'),
    (NO_HEAD, b"SRJ18446744073709551617\n", b'3'),
    (NO_HEAD, b"SRJ\n", b'1'),
    (NO_HEAD, b"SRJ1\nfiles 6", b'2'),
    (NO_HEAD, b"SRJ1\nfiles 64", b'2'),
    (NO_HEAD, b"SRJ1\nfiles 65", b'1'),
    (NO_HEAD, b"SRJ1\nfiles 0", b'1'),
    (NO_HEAD, b"SRJ1\nfiles 06", b'1'),
    (NO_HEAD, b"SRJ1\nfiles 64 ", b'1'),
    (ONE_FILE, b"0", b'2'),
    (ONE_FILE, b"00", b'1'),
    (ONE_FILE, b"1048576", b'2'),
    (ONE_FILE, b"1048577", b'1'),
    (ONE_FILE, b"0 18446744073709551616", b'2'),
    (ONE_FILE, b"0 18446744073709551616 a", b'2'),
    (ONE_FILE, b"0 01", b'1'),
    (ONE_FILE, b"0 0 ", b'2'),
    (ONE_FILE, b"0 0 a", b'1'),
    (ONE_FILE, b"0 1 a", b'2'),
    (ONE_FILE, b"0 1 ab", b'1'),
    (ONE_FILE, b"0 1 \xC3", b'1'),
    (ONE_FILE, b"0 2 \xC3", b'2'),
    (ONE_FILE, b"0 2 \xC3\xA9", b'2'),
    (ONE_FILE, b"0 3 a\xC3\xA9", b'2'),
    (ONE_FILE, b"0 2 \xC1", b'1'),
    (ONE_FILE, b"0 2 \xE2\x82", b'1'),
    (ONE_FILE, b"0 3 \xE2\x82", b'2'),
    (ONE_FILE, b"0 3 \xE0\x80", b'1'),
    (ONE_FILE, b"0 3 \xED\xA0", b'1'),
    (ONE_FILE, b"0 4 \xF0\x90", b'2'),
    (ONE_FILE, b"0 4 \xF0\x8F", b'1'),
    (ONE_FILE, b"0 4 \xF4\x90", b'1'),
    (ONE_FILE, b"0 1 \xFF\nsteps", b'1'),
    (ONE_FILE, b"0 0 \nsteps 16000000", b'2'),
    (ONE_FILE, b"0 0 \nsteps 16000001", b'1'),
    (ONE_FILE, b"0 0 \nsteps 0", b'1'),
    (ONE_FILE, b"0 0 \nsteps 1 ticks 1000000000", b'2'),
    (ONE_FILE, b"0 0 \nsteps 1 ticks 1000000001", b'1'),
    (ONE_FILE, b"0 0 \nsteps 1 ticks 0", b'1'),
    (TO_ITEMS, b"5", b'2'),
    (TO_ITEMS, b"6", b'1'),
    (TO_ITEMS, b"0\nend\n", b'0'),
    (TO_ITEMS, b"0\nend\n\n", b'1'),
    (TO_ITEMS, b"1\ns 0", b'1'),
    (TO_ITEMS, b"1\ns 4294967295", b'2'),
    (TO_ITEMS, b"1\ns 4294967296", b'1'),
    (TO_ITEMS, b"1\ns 1 4294967295\nend\n", b'0'),
    (TO_ITEMS, b"1\ns 1 4294967296", b'1'),
    (TO_ITEMS, b"1\nq 4294967295\nend\n", b'0'),
    (TO_ITEMS, b"1\nq 4294967296", b'1'),
    (TO_ITEMS, b"1\nend\n", b'1'),
    (TO_ITEMS, b"2\nq 0\ns 1 0\nend\n", b'0'),
    (TO_ITEMS, b"1\nt 1\nend\n", b'1'),
    (TO_TIMED_ITEMS, b"5", b'2'),
    (TO_TIMED_ITEMS, b"6", b'1'),
    (TO_TIMED_ITEMS, b"0\nend\n", b'0'),
    (TO_TIMED_ITEMS, b"1\nt", b'2'),
    (TO_TIMED_ITEMS, b"1\nt 0", b'1'),
    (TO_TIMED_ITEMS, b"1\nt 1\nend\n", b'0'),
    (TO_TIMED_ITEMS, b"1\nt 01", b'1'),
    (TO_TIMED_ITEMS, b"1\nt 1 0", b'1'),
    (TO_TIMED_ITEMS, b"1\nt 2147483647\nend\n", b'0'),
    (TO_TIMED_ITEMS, b"1\nt 2147483648", b'1'),
    (TO_TIMED_ITEMS, b"1\nend\n", b'1'),
    (TO_TIMED_ITEMS, b"2\ns 1 2\nq 0\nend\n", b'0'),
];

#[test]
fn limits(rt: HostRuntime) -> Result<(), Fail> {
    for (at, (head, tail, wanted)) in ROWS.iter().enumerate() {
        let bytes = joined(rt.alloc(), &[*head, *tail])?;
        assert_eq!(rt; outcome(rt.alloc(), &bytes)?, *wanted, "{at}");
    }
    Ok(())
}
