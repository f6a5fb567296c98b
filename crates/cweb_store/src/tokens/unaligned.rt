// A number that may be at any address.
ghost use Rattle.std.specs.Prelude.{◌≡◌};

use std::marker::Model;

/// A `u32` of alignment 1. An enum of such numbers has no padding, so a record takes five bytes and not eight.
#[derive(Clone, Copy)]
pub struct Unaligned {
    bytes: [u8; 4],
}

impl Model for Unaligned {
    ghost use Rattle.std.specs.Prelude.{◌≡◌, ◌<◌, ℕ, length, refl, slice_index_or};
    ghost use Rattle.std.specs.Int.{w32, from_le_bytes, to_le_bytes};
    ghost use Rattle.std.proofs.lemmas.Nat.{le_bytes_4};

    ghost Value = { ℕ };

    ghost view = { λ s. from_le_bytes w32 s.bytes };

    ghost invariant = { λ s. (length s.bytes ≡ 4) × ((i : ℕ) → slice_index_or s.bytes i 0 < 256) };

    ghost inverse = { λ n. record { bytes = to_le_bytes w32 n } };

    ghost inverse_ok = { λ s h i. record { bytes = le_bytes_4 s.bytes _ h.0 h.1 refl i } };
}

impl Unaligned {
    /// The number in this form.
    #[inline(always)]
    pub fn of(number: u32) -> Unaligned
        ensures { result ≡ number }
    {
        Unaligned {
            bytes: number.to_le_bytes(),
        }
    }

    /// The number.
    #[inline(always)]
    pub fn get(self) -> u32
        ensures { result ≡ self }
    {
        u32::from_le_bytes(self.bytes)
    }
}
