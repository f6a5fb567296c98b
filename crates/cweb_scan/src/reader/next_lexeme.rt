// One step in a line without an open item: takes the next lexeme.
ghost use Rattle.std.specs.Prelude.{◌≡◌, ⊤, IfOk, codes, true, false};

use crate::reader::Reader;
use crate::reader::codes::{effect_of, is_name_effect};
use crate::rest::Rest;
use crate::skipped::skipped_len;
use cweb_files::Place;
use cweb_rules::Context;
use cweb_rules::bytes::{Class, at_line_end, begins, span_len, starts_section};
use cweb_rules::rule::{Rule, c_rule};
use std::alloc::AllocError;

impl Reader {
    ghost use Rattle.cweb_rules.specs.Bytes as bytes;
    ghost use Rattle.cweb_scan.specs.inner.MatchSteps.{is_head, reads_c, ends_macro_line, rule_in};
    ghost use Rattle.cweb_scan.specs.inner.ReaderModel.{AwaitsLexeme, MakesProgress};
    ghost use Rattle.cweb_rules.specs.declared.context.Context.TheVariants as context;
    ghost use Rattle.cweb_rules.specs.Matches as spec;
    ghost use Rattle.cweb_rules.specs.declared.rule.Rule.TheVariants as rule;
    ghost use Rattle.cweb_scan.specs.inner.ScanParts.{in_open_part};

    // Takes a control code that begins no section.
    #[inline(never)]
    fn take_code(&mut self, rest: Rest<'_>) -> Result<usize, AllocError>
        requires next { AwaitsLexeme (is_head self.old.state.context ≡ false) self.old }
        requires section { bytes.starts_section rest.bytes.now ≡ false }
        requires opens { bytes.begins (codes "@") rest.bytes.now ≡ true }
        ensures { IfOk result (λ n. MakesProgress n rest.entry.bytes.now self.old self.new) }
    {
        let effect = effect_of(self.scanner.context(), rest.bytes[1]);
        if is_name_effect(effect) {
            return self.open_name(rest);
        }
        self.scanner.take_item(effect, rest.bytes)
    }

    // In limbo and TeX: takes the bytes before the next `@`, a section start or a code.
    fn take_tex(&mut self, rest: Rest<'_>) -> Result<usize, AllocError>
        requires { AwaitsLexeme (reads_c self.old.state.context ≡ false) self.old }
        ensures { IfOk result (λ n. MakesProgress n rest.entry.bytes.now self.old self.new) }
    {
        let skipped = skipped_len(rest.bytes);
        if skipped > 0 {
            return Ok(skipped);
        }
        if starts_section(rest.bytes) {
            return self.scanner.take_section(rest.bytes);
        }
        self.take_code(rest)
    }

    // In a macro and in C text: takes the lexeme of the first rule that applies.
    #[inline(always)]
    fn take_by(&mut self, rule: Rule, rest: Rest<'_>) -> Result<usize, AllocError>
        requires next { AwaitsLexeme (in_open_part self.old.state.context ≡ true) self.old }
        requires plain { ends_macro_line self.old.state.context rest.bytes.now ≡ false }
        requires first { rule ≡ rule_in self.old.state rest.bytes.now }
        ensures { IfOk result (λ n. MakesProgress n rest.entry.bytes.now self.old self.new) }
    {
        match rule {
            Rule::Comment => self.open_comment(rest),
            Rule::Code => self.take_code(rest),
            Rule::RawLiteral => self.open_raw(rest),
            Rule::Literal => self.open_literal(rest),
            Rule::Section => self.scanner.take_section(rest.bytes),
            _ => self.scanner.take_rule(rule, rest),
        }
    }

    // In a macro: a `\` at the end of a line emits nothing.
    fn take_macro(&mut self, rest: Rest<'_>) -> Result<usize, AllocError>
        requires { AwaitsLexeme (self.old.state.context ≡ context.Macro) self.old }
        ensures { IfOk result (λ n. MakesProgress n rest.entry.bytes.now self.old self.new) }
    {
        if begins(b"\\", rest.bytes) {
            let (_, after) = rest.bytes.split_at(1);
            if at_line_end(after) {
                return Ok(1);
            }
        }
        self.take_by(c_rule(false, rest.bytes), rest)
    }

    // In a head: the identifier begins the macro.
    fn take_macro_name(&mut self, begun: Place, rest: Rest<'_>) -> Result<usize, AllocError>
        requires next { AwaitsLexeme (self.old.state.context ≡ context.Definition begun) self.old }
        requires first { spec.c_rule false rest.bytes.now ≡ rule.Identifier }
        ensures { IfOk result (λ n. MakesProgress n rest.entry.bytes.now self.old self.new) }
    {
        let size = span_len(Class::Word, rest.bytes);
        let (name, after) = rest.bytes.split_at(size);
        self.scanner.define(name, begins(b"(", after))?;
        Ok(size)
    }

    // In a head: takes blanks, comments or the identifier. Anything else drops the definition, and TeX continues.
    fn take_head(&mut self, begun: Place, rest: Rest<'_>) -> Result<usize, AllocError>
        requires { AwaitsLexeme (self.old.state.context ≡ context.Definition begun) self.old }
        ensures { IfOk result (λ n. MakesProgress n rest.entry.bytes.now self.old self.new) }
    {
        let rule = c_rule(false, rest.bytes);
        match rule {
            Rule::Blanks => Ok(span_len(Class::Blank, rest.bytes)),
            Rule::Comment => self.open_comment(rest),
            Rule::LineComment => self.scanner.take_line_comment(rest.bytes),
            Rule::Identifier => self.take_macro_name(begun, rest),
            _ => {
                self.scanner.drop_definition(begun)?;
                self.take_tex(rest)
            }
        }
    }

    // In C text, where an included name may be the next lexeme.
    fn take_c(&mut self, rest: Rest<'_>) -> Result<usize, AllocError>
        requires { AwaitsLexeme (self.old.state.context ≡ context.CText) self.old }
        ensures { IfOk result (λ n. MakesProgress n rest.entry.bytes.now self.old self.new) }
    {
        let rule = c_rule(self.scanner.names_include(), rest.bytes);
        self.take_by(rule, rest)
    }

    /// Takes the next lexeme of a line without an open item. Returns its size.
    pub(crate) fn take_between(&mut self, rest: Rest<'_>) -> Result<usize, AllocError>
        requires { AwaitsLexeme ⊤ self.old }
        ensures { IfOk result (λ n. MakesProgress n rest.entry.bytes.now self.old self.new) }
    {
        match self.scanner.context() {
            Context::Limbo | Context::TeX => self.take_tex(rest),
            Context::Definition(begun) => self.take_head(begun, rest),
            Context::Macro => self.take_macro(rest),
            Context::CText => self.take_c(rest),
        }
    }
}
