// Newlines, and lines of several files.
use super::*;

const LINE_ENDS_OF_MACROS: &[(&[u8], &str)] = &[
    (
        b"@ @d m a\n\n\n@c",
        "[macro] w:m _ w:a [program] head:1 at:4 tail:1 ",
    ),
    (b"@ @d m a\\\nb", "[macro] w:m _ w:a / w:b "),
    (b"@ @d m a\\ \nb\\c", "[macro] w:m _ w:a / w:b p:\\ w:c "),
    (b"@ @d m a\\", "[macro] w:m _ w:a "),
    (b"@ @d m a/*\n*/b//\nc", "[macro] w:m _ w:a / w:b / w:c "),
    (b"@ @d m\n x", "[macro] w:m _ / w:x "),
    (b"@ @d m \"a\\\nb\" c", "[macro] w:m _ l:\"a\\{0a}b\" w:c "),
];

#[test]
fn line_ends_of_macros(rt: HostRuntime) -> Result<(), Fail> {
    check_each(&rt, LINE_ENDS_OF_MACROS)
}

// A line that isn't the next one of the same file has a Mark before it.
const LINES_OF_FILES: &[(&[u8], &str)] = &[
    (
        b"@ @c\na;\nb;\nc;\n",
        "[program] head:1 at:1 / w:a p:; at:1.4 w:B p:; at:4 w:c p:; tail:1 ",
    ),
    (
        b"@ @c a\n@i d\ne\n",
        "[program] head:1 at:1 w:a at:2.1 w:x / w:y at:3 w:e tail:1 ",
    ),
    (
        b"@ @c a\n@i gone\n\ne\n",
        "[program] head:1 at:1 w:a at:3 / w:e tail:1 ",
    ),
    // also in a comment
    (
        b"@ @c a/*\n@i d\n*/e\n",
        "[program] head:1 at:1 w:a at:2.1 / at:3 w:e tail:1 ",
    ),
    // in a directive, the line after a `\` has none
    (
        b"@ @c\n#a \\\n@i d\ne\n",
        "[program] head:1 at:1 / p:# w:a _ p:\\ / w:x at:2.2 w:y at:4 w:e tail:1 ",
    ),
    (b"@ @d m a\n@i d\n", "[macro] w:m _ w:a / w:x / w:y "),
    // literals and names keep their newlines; the line after them follows theirs
    (
        b"@ @c \"a\\\nb;\nc\"\n\"a\\\n@i d\n",
        "[program] head:1 at:1 l:\"a\\{0a}B; at:3 w:c l:\" / l:\"a\\{0a}x / w:y tail:1 StringDidNotEnd 1 StringDidNotEnd 3 StringDidNotEnd 4 ",
    ),
    (
        b"@ @c @<a\nb;\nc@>\nd\n",
        "[program] head:1 at:1 <a B; c> at:3 / w:d tail:1 NotPresent <a B; c> ",
    ),
    // a fault in a line of the change file
    (
        b"@ @c\nb;\n@<\n",
        "[program] head:1 at:1 at:1.4 w:B p:; at:3 <> at:3 tail:1 NameDidNotEnd 3 NotPresent <> ",
    ),
];

#[test]
fn lines_of_files(rt: HostRuntime) -> Result<(), Fail> {
    for (web, text) in LINES_OF_FILES {
        let files: [(&str, &[u8]); 3] = [
            ("a.w", *web),
            ("d", b"x\ny\n"),
            ("c.ch", b"@x\nb;\n@y\nB;\n@z\n"),
        ];
        check(&rt, &files, Some("c.ch"), &Rendering { text: *text })?;
    }
    Ok(())
}
