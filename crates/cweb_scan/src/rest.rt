// What is left of a line.
ghost use Rattle.std.specs.Prelude.{◌≤◌, length};
ghost use Rattle.std.proofs.Props.{props};
ghost use Rattle.cweb_rules.specs.inner.LineItems.{IsLine};

/// The bytes of a line from the next lexeme on. There is at least one, and none is a newline.
#[derive(Clone, Copy)]
pub struct Rest<'a> {
    pub bytes: &'a [u8],
    ghost line: { IsLine bytes.now } by { Prim.hlevel props },
    ghost some: { 1 ≤ length bytes.now },
}
