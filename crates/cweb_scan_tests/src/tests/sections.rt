// Sections and their numbers.
use super::*;

// Appends the number of sections, and the numbers of the starred ones.
fn render_sections(
    rendered: &mut String,
    sections: u32,
    starred: &[u32],
) -> Result<(), AllocError> {
    write!(rendered, "{sections}")?;
    for number in starred {
        write!(rendered, " *{number}")?;
    }
    Ok(())
}

// A web and its expected sections.
#[derive(Clone, Copy)]
struct Sections<'a> {
    web: &'a [u8],
    sections: &'a str,
}

impl Case<Fail> for Sections<'_> {
    fn look<A: AllocGlobal + Abort>(&self, rt: &A, made: &Scanned) -> Result<(), Fail> {
        let mut rendered = String::new(rt.alloc());
        render_sections(&mut rendered, made.sections, made.starred.as_slice())?;
        same_string_of(rt, rendered.as_str(), self.sections, self.web);
        Ok(())
    }
}

const SECTION_STARTS: &[(&[u8], &str)] = &[
    (b"", "0"),
    (b"x @@ y @q a b@> @@*", "0"),
    (b"@", "1"),
    (b"x@\ny", "1"),
    (b"@\tx@ y", "2"),
    (b"@*x", "1 *1"),
    (b"@ a@*b@ c@*", "4 *2 *4"),
    // other white bytes begin none, but are dropped at the end of a line
    (b"@\x0bx", "0"),
    (b"@\x0b\nx", "1"),
    // inside each item
    (b"@ @c /*@* x", "2 *2"),
    (b"@ @c //@* x", "2 *2"),
    (b"@ @c @<a@* x", "2 *2"),
    (b"@ @c R\"(a@* x", "2 *2"),
    (b"@ @c @^a@* x", "2 *2"),
    (b"@ @c @=a@* x", "2 *2"),
    (b"@ @d@* x", "2 *2"),
    (b"@ @d m@* x", "2 *2"),
    (b"@ @c \"a@* x", "1"),
    (b"@ @c @'a@* x", "1"),
    (b"@ @c\n#include <a@* x>", "1"),
];

#[test]
fn section_starts(rt: HostRuntime) -> Result<(), Fail> {
    for (web, sections) in SECTION_STARTS {
        let case = Sections {
            web: *web,
            sections: *sections,
        };
        check(&rt, &[("a.w", *web)], None, &case)?;
    }
    Ok(())
}

const OTHER_FILES: &[(&str, &[u8])] = &[
    ("a.w", b"@ a\n@ b\n@i d\n@ e\n"),
    ("c.ch", b"@x\n@ b\n@y\n@* b\n@ c\n@z\n"),
    ("d", b"@* d\n"),
];

// Sections of a change file and of an included file count too.
#[test]
fn sections_of_other_files(rt: HostRuntime) -> Result<(), Fail> {
    const EXAMPLES: &[(Option<&str>, &str)] = &[(Some("c.ch"), "5 *2 *4"), (None, "4 *3")];
    for (change, sections) in EXAMPLES {
        let case = Sections {
            web: b"a.w",
            sections: *sections,
        };
        check(&rt, OTHER_FILES, *change, &case)?;
    }
    Ok(())
}
