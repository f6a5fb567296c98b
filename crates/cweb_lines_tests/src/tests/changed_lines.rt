// Webs with change files: old lines and new lines.
use super::*;
use changes::compare_all;

#[test]
fn old_lines(rt: HostRuntime) -> Result<(), Fail> {
    const EXAMPLES: &[(&str, &str, &str)] = &[
        // trailing blanks don't count, and other blanks do
        ("A \nB\x0c\n", "@x\nA\r\nB\t\n@y \nN  \n@z\n", "1:5 N\n"),
        (" A\n", "@x\nA\n@y\n@z\n", "0:1  A\nNoMatch in 1 at 1\n"),
        (
            "A\nb  c\n",
            "@x\nA\nb c\n@y\n@z\n",
            "Unequal in 1 at 1: 1\n",
        ),
        // after the first old line an empty line counts
        ("A\n\nB\n", "@x\n\nA\n\n@y\n@z\n", "0:3 B\n"),
        (
            "A\nB\nC\nD\nE\n",
            "@x\nA\n\nC\nd\n@y\n@z\n",
            "0:5 E\nUnequal in 1 at 1: 2\n",
        ),
        // a line that is dropped begins no change
        (
            "A\nB\nA\n",
            "@x\nA\nB\n@y\nN\n@z\n@x\nB\n@y\n@z\n",
            "1:5 N\n0:3 A\nNoMatch in 1 at 7\n",
        ),
    ];
    compare_all(&rt, &[], EXAMPLES)
}

#[test]
fn old_lines_that_end_early(rt: HostRuntime) -> Result<(), Fail> {
    const EXAMPLES: &[(&str, &str, &str)] = &[
        // the order of the faults of an old side with two compared lines
        (
            "A\nB\nC\n",
            "@x\nA\nb\n@Z\nc\n@x\nd\ne\n",
            "WantsY in 1 at 4\nWantsY in 1 at 6\nEndedBeforeY in 1 at 1\nWebEnded in 1 at 1\nUnequal in 1 at 1: 2\n",
        ),
        // the web ends within a change, and its new lines still come
        (
            "A\nB\n",
            "@x\nA\nB\nC\n@z\nD\n@y\nN\n@z\n",
            "1:8 N\nWantsY in 1 at 5\nWebEnded in 1 at 1\n",
        ),
        // the change file ends among the old lines, and the web goes on
        (
            "A\nB\nC\nD\n",
            "@x\nB\nC\n",
            "0:1 A\n0:4 D\nEndedBeforeY in 1 at 1\n",
        ),
        ("A\nA\n", "@x\nA", "0:2 A\nEndedBeforeY in 1 at 1\n"),
    ];
    compare_all(&rt, &[], EXAMPLES)
}

#[test]
fn new_lines(rt: HostRuntime) -> Result<(), Fail> {
    const OTHERS: &[(&str, &[u8])] = &[("b", b"B\nA\n@i c\n"), ("c", b"A\nC")];
    const EXAMPLES: &[(&str, &str, &str)] = &[
        // code lines among them
        (
            "A\nB\n",
            "@x\nA\n@y\n@y\nN\n@X\n@z\n",
            "1:5 N\n0:2 B\nWantsZ in 1 at 4\nWantsZ in 1 at 6\n",
        ),
        // the change file ends there, and the web goes on
        ("A\nA\n", "@x\nA\n@y", "0:2 A\nEndedBeforeZ in 1 at 1\n"),
        (
            "A\nA\n",
            "@x\nA\n@y\n@x\n@i c\nN\n",
            "2:1 A\n2:2 C\n1:6 N\n0:2 A\nWantsZ in 1 at 4\nEndedBeforeZ in 1 at 1\n2 is c\n",
        ),
        // include lines among them, and their faults
        (
            "A\nB\n",
            "@x\nA\n@y\nM\n@i\n@i gone\n@I c\nN\n@z\n",
            "1:4 M\n2:1 A\n2:2 C\n1:8 N\n0:2 B\nNoName in 1 at 5\nNotThere in 1 at 6\n2 is c\n",
        ),
        // their lines match no entry, whatever their depth
        (
            "A\nA\n",
            "@x\nA\n@y\n@i b\nN\n@z\n@x\nA\n@y\n@i c\n@z\n",
            "2:1 B\n2:2 A\n3:1 A\n3:2 C\n1:5 N\n4:1 A\n4:2 C\n2 is b\n3 is c\n4 is c\n",
        ),
    ];
    compare_all(&rt, OTHERS, EXAMPLES)
}
