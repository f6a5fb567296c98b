// A store's tokens: their number and their bytes.
ghost use Rattle.std.specs.Prelude.{◌≡◌, ◌<◌, length, map};
ghost use Rattle.cweb_store.specs.inner.DirectBytes.{direct_bytes};
ghost use Rattle.cweb_store.specs.surface.Tokens.{too_many};
ghost use Rattle.cweb_store.specs.Parts.{all_tokens};

use crate::{Store, TokenReader};

impl Store {
    /// The number of tokens of all parts, macros included.
    pub fn tokens(&self) -> u32
        ensures count { result ≡ length (all_tokens self.now.parts) }
        ensures few { result < too_many }
    {
        self.parts.tokens().len() as u32
    }

    /// A reader of all tokens, for a loop that prints many of them.
    #[inline(always)]
    pub fn token_reader(&self) -> TokenReader<'_>
        ensures { result ≡ map direct_bytes (all_tokens self.now.parts) }
    {
        self.parts.tokens().token_reader()
    }
}
