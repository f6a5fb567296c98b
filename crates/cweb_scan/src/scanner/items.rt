// Comments and names, each as one slice of the source: from the opener on, over any number of lines.
ghost use Rattle.std.specs.Prelude.{codes, ◌≡◌, ◌≤◌, ◌<◌, ◌+◌, IfOk, OnOk, length, take, drop};
ghost use Rattle.std.specs.List.{prefix_len};
ghost use Rattle.cweb_store.specs.surface.Tokens.{too_many};
ghost use Rattle.cweb_rules.specs.laws.Laws.{at_line_ends};
ghost use Rattle.cweb_rules.specs.Bytes as bytes;
ghost use Rattle.cweb_rules.specs.Items as spec;
ghost use Rattle.cweb_rules.specs.declared.end.End.TheVariants as ends;
ghost use Rattle.cweb_rules.specs.declared.items.Item.TheVariants as item;
ghost use Rattle.cweb_rules.specs.inner.LineItems.{look_of, reached, is_plain, IsSizeIn};

use crate::reader::open::Open;
use crate::reader::opened::opener_after;
use crate::scanner::Scanner;
use crate::scanner::codes::ended;
use cweb_files::Place;
use cweb_rules::bytes::begins;
use cweb_rules::items::{Item, Reached, reach, reach_after};
use cweb_rules::{End, push_units};
use std::alloc::AllocError;

impl Scanner {
    ghost use Rattle.cweb_rules.specs.Items.{look_in_name, unescaped};
    ghost use Rattle.cweb_rules.specs.Matches.{comment_match, name_match};
    ghost use Rattle.cweb_store.specs.surface.Tokens.{token_count};
    ghost use Rattle.cweb_scan.specs.Effects.{comment_line_end, occurrence};
    ghost use Rattle.cweb_scan.specs.State.{move_to};
    ghost use Rattle.cweb_scan.specs.inner.MatchSteps.{AppliesOver, passed};
    ghost use Rattle.cweb_scan.specs.inner.PendingItems.{takes_opener, CanTake};
    ghost use Rattle.cweb_scan.specs.inner.ReaderModel.{HasItemRoom};
    ghost use Rattle.cweb_scan.specs.laws.Laws.{next_match};

    // Takes the newlines of a comment.
    fn end_comment_lines(&mut self, places: &[Place]) -> Result<(), AllocError>
        requires { token_count self.old.contents.parts + length places.now + 1 < too_many }
        ensures { OnOk result (self.new ≡ passed comment_line_end places.now self.old) }
    {
        'lines: for place in places {
            self.end_comment_line(*place)?;
        }
        Ok(())
    }

    /// `/*`: a comment of this extent after its opener. The lines after its newlines have these places. Returns its size.
    pub fn take_comment(
        &mut self,
        extent: Reached,
        text: &[u8],
        places: &[Place],
    ) -> Result<usize, AllocError>
        requires extent { extent
            ≡ reached (spec.reach (look_of item.Comment) ends.Open (drop 2 text.now)) }
        requires lines { at_line_ends 1 (take (comment_match text.now).size text.now)
            ≡ length places.now }
        requires room { token_count self.old.contents.parts + length places.now + 2 < too_many }
        ensures { IfOk result
            (λ n. AppliesOver (comment_match text.now) text.now places.now n self.old self.new) }
    {
        let begun = self.here;
        self.blank()?;
        self.end_comment_lines(places)?;
        self.pass_comment(ended(End::Cut, extent.how), begun)?;
        Ok(2 + (extent.size + extent.close))
    }

    // Moves over the newlines of an item.
    pub(crate) fn pass_lines(&mut self, places: &[Place])
        ensures { self.new ≡ passed move_to places.now self.old }
    {
        'lines: for place in places {
            self.go_to(*place);
        }
    }

    // Ends a name of this extent after its opener. It begins with this many plain bytes: if they are all, it has no codes.
    fn end_spelled(
        &mut self,
        text: &[u8],
        extent: Reached,
        plain: usize,
        how: End,
        opens: bool,
        begun: Place,
    ) -> Result<(), AllocError>
        requires two { 2 ≤ length text.now }
        requires room { HasItemRoom 2 self.old }
        requires extent { extent ≡ reached (spec.reach look_in_name ends.Open (drop 2 text.now)) }
        requires plain { IsSizeIn (prefix_len (is_plain item.Name)) (drop 2 text.now) plain }
        ensures { OnOk result (self.new ≡ occurrence (bytes.begins (codes "@(") text.now)
            (unescaped (spec.reach look_in_name ends.Open (drop 2 text.now)).units) how opens begun self.old) }
    {
        let is_file = begins(b"@(", text);
        let (_, inner) = text.split_at(2);
        if plain == extent.size {
            let (name, _) = inner.split_at(plain);
            self.end_name(is_file, name, how, opens, begun)?;
            return Ok(());
        }
        let mut bytes = Vec::new(self.alloc);
        push_units(&mut bytes, Item::Name, inner)?;
        self.end_name(is_file, &bytes, how, opens, begun)?;
        Ok(())
    }

    /// `@<` or `@(`: a name of this extent after its opener, with the part opener after it. It begins with this many
    /// plain bytes. Returns its size.
    pub fn take_name(
        &mut self,
        extent: Reached,
        plain: usize,
        text: &[u8],
        places: &[Place],
    ) -> Result<usize, AllocError>
        requires two { 2 ≤ length text.now }
        requires extent { extent ≡ reached (spec.reach look_in_name ends.Open (drop 2 text.now)) }
        requires plain { IsSizeIn (prefix_len (is_plain item.Name)) (drop 2 text.now) plain }
        requires lines { at_line_ends 1
            (take (name_match (takes_opener self.old) text.now).size text.now)
            ≡ length places.now }
        requires room { HasItemRoom 2 self.old }
        ensures { IfOk result (λ n. AppliesOver (name_match (takes_opener self.old) text.now)
            text.now places.now n self.old self.new) }
    {
        let begun = self.here;
        let (_, inner) = text.split_at(2);
        let (_, after) = inner.split_at(extent.size + extent.close);
        let how = ended(End::Cut, extent.how);
        let opener = opener_after(how, after);
        let taken = self.opener_taken(opener);
        self.pass_lines(places);
        self.end_spelled(text, extent, plain, how, 0 < opener, begun)?;
        Ok(2 + (extent.size + extent.close) + taken)
    }

    /// Takes the item of this kind that the source begins with. Returns its size.
    pub fn take_whole(
        &mut self,
        kind: Open,
        text: &[u8],
        places: &[Place],
    ) -> Result<usize, AllocError>
        requires { CanTake kind text.now places.now self.old }
        ensures { IfOk result
            (λ n. AppliesOver (next_match self.old text.now) text.now places.now n self.old self.new) }
    {
        match kind {
            Open::Name => {
                let (_, inner) = text.split_at(2);
                let plain = Item::Name.plain_len(inner);
                let reached = reach_after(Item::Name, inner, plain);
                self.take_name(reached, plain, text, places)
            }
            Open::Literal => self.take_literal(text, places),
            Open::RawLiteral => self.take_raw(text, places),
            _ => {
                let (_, inner) = text.split_at(2);
                self.take_comment(reach(Item::Comment, inner), text, places)
            }
        }
    }
}
