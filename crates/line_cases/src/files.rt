// Whole files.
use listing::{cases, long_case};
use std::io;

// The bench cases of single lines, and plain files.
pub fn bench(rt: &impl Print) -> io::Result<()> {
    cases(
        rt,
        &[
            ("bench 3", b"[A]\nK=a\\\\\nJ=b"),
            ("bench 4", b"[A]\nK=a\\\n"),
            ("bench 5", b"[A]\nK=a\\\n\nJ=b"),
            ("bench 6", b"[A]\nK=a\\\n#x\\\nb"),
            ("bench 7", b"[A]\n K = a=b "),
            ("empty file", b""),
            ("one LF", b"\n"),
            ("no last LF", b"a\nb"),
            ("tabs", b"\tK\t=\ta\t\n"),
        ],
    )
}

// Comments, alone and inside joined lines.
pub fn comments(rt: &impl Print) -> io::Result<()> {
    cases(
        rt,
        &[
            ("comments alone", b"#a\n;b\n"),
            ("comment ending in a backslash", b"#a\\\nb\n"),
            ("comment in a joined line", b"a\\\n#x\nb\n"),
            ("comments in a joined line", b"a\\\n#x\n;y\n#z\\\nb\nc\n"),
            ("comments between two joinings", b"a\\\n#x\nb\\\n;y\nc\n"),
            ("comment before a joined line", b"#x\na\\\nb\n"),
            ("indented #", b" #x\n"),
            ("indented ;", b"\t;x\n"),
            ("indented # in a joined line", b"K=a\\\n #b\n"),
            ("# after the first byte", b"a#b;c\n"),
        ],
    )?;
    long_case(rt, "comment of 5000 bytes", b"", b'#', 5000, b"")?;
    long_case(
        rt,
        "comment of 5000 bytes in a joined line",
        b"K=a\\\n",
        b'#',
        5005,
        b"\nb",
    )
}

// Where a joined line goes on and where it ends.
pub fn joining(rt: &impl Print) -> io::Result<()> {
    cases(
        rt,
        &[
            ("joined at the end, LF", b"a\\\n"),
            ("joined at the end, no LF", b"a\\"),
            ("joined, then comments alone", b"a\\\n#x\n;y\n"),
            ("joined, then a comment without LF", b"a\\\n#x"),
            ("joined, then an empty line", b"a\\\n\nb\n"),
            ("joined, then a line of blanks", b"a\\\n \t\nb\n"),
            ("leading blanks kept", b"a\\\n  b\n"),
            ("three lines", b"a\\\nb\\\nc\nd\n"),
            ("a blank behind the backslash", b"a\\ \nb\n"),
        ],
    )
}

// Runs of backslashes.
pub fn backslashes(rt: &impl Print) -> io::Result<()> {
    cases(
        rt,
        &[
            ("one line of a backslash", b"\\\n"),
            ("two lines of a backslash", b"\\\n\\\n"),
            ("three lines of a backslash", b"\\\n\\\n\\\n"),
            ("lines of a backslash, then text", b"\\\n\\\na\n"),
            ("run of two", b"a\\\\\nb\n"),
            ("run of three", b"a\\\\\\\nb\n"),
            ("run of four", b"a\\\\\\\\\nb\n"),
            ("runs in two lines", b"a\\\n\\\\\nb\n"),
            ("backslash inside", b"a\\b\nc\n"),
        ],
    )
}

// Lines of 4,096 bytes and one more.
pub fn lengths(rt: &impl Print) -> io::Result<()> {
    long_case(rt, "4096 bytes", b"", b'a', 4096, b"")?;
    long_case(rt, "4097 bytes", b"", b'a', 4097, b"")?;
    long_case(
        rt,
        "4096 bytes with the joining space",
        b"",
        b'a',
        4095,
        b"\\\n",
    )?;
    long_case(
        rt,
        "4097 bytes with the joining space",
        b"",
        b'a',
        4096,
        b"\\\n",
    )?;
    long_case(rt, "4096 bytes joined", b"", b'a', 4094, b"\\\nb")?;
    long_case(rt, "4097 bytes joined", b"", b'a', 4095, b"\\\nb")?;
    long_case(rt, "4096 blanks", b"", b' ', 4096, b"")?;
    long_case(rt, "4097 blanks", b"", b' ', 4097, b"")?;
    long_case(rt, "a long line in line 2", b"x\n", b'a', 4099, b"")?;
    long_case(rt, "a long line after a comment", b"#\n", b'a', 4099, b"")
}
