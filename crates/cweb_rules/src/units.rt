// The units of delimited items: the bytes that they emit, and those over a line end.
ghost use Rattle.std.specs.Prelude.{◌≡◌, ◌++◌, OnOk};
ghost use Rattle.cweb_rules.specs.Items as items;
ghost use Rattle.cweb_rules.specs.inner.LineItems.{look_of, goes_on};
ghost use Rattle.cweb_rules.specs.declared.end.End.TheVariants as how;

use crate::items::Item;
use crate::look::Look;
use std::alloc::AllocError;

/// Appends a unit. `@@` is appended as `@`.
pub fn push_unit(text: &mut Vec<u8>, unit: &[u8]) -> Result<(), AllocError>
    ensures { OnOk result (text.new.items ≡ text.old.items ++ items.unit_bytes unit.now) }
{
    if unit == b"@@".as_slice() {
        text.push(b'@')?;
        return Ok(());
    }
    text.extend_from_slice(unit)?;
    Ok(())
}

/// Appends the units of an item that are in this line.
pub fn push_units(text: &mut Vec<u8>, item: Item<'_>, line: &[u8]) -> Result<(), AllocError>
    ensures { OnOk result
        (text.new.items
        ≡ text.old.items
        ++ items.unescaped (items.reach (look_of item.entry) how.Open line.now).units) }
{
    let mut rest = line;
    'units: while !rest.is_empty() {
        let Look::Goes(size) = item.look(rest) else {
            return Ok(());
        };
        let (unit, after) = rest.split_at(size.min(rest.len()));
        push_unit(text, unit)?;
        rest = after;
    }
    Ok(())
}

/// Whether a literal goes on in the next line: its last unit is a `\` and the newline. `text` follows its opening quote.
pub fn continues(quote: u8, text: &[u8]) -> bool
    ensures { result ≡ goes_on (items.look_in_literal quote) text.now }
{
    let item = Item::Literal(quote);
    let mut rest = text;
    'units: while !rest.is_empty() {
        let plain = item.plain_len(rest);
        if plain > 0 {
            rest = rest.split_at(plain).1;
        } else {
            match item.look(rest) {
                Look::Goes(size) => {
                    if rest.len() < size {
                        return true;
                    }
                    rest = rest.split_at(size).1;
                }
                Look::Ends(_, _) => return false,
            }
        }
    }
    false
}
