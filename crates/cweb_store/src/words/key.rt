// The key of a word, and its bucket.
ghost use Rattle.std.specs.Prelude.{◌≡◌, ◌≤◌, ◌<◌, length, slice_index_or};
ghost use Rattle.std.specs.Int.{w32, w64, from_le_bytes};
ghost use Rattle.cweb_store.specs.inner.Words.{key_of, hash_of, home_bucket_of, key_hash};

/// The first bytes of a word and its last bytes, as two numbers. With the length they determine a word of at most
/// 16 bytes. In the key of a longer word the first number is a hash of its groups of eight bytes, so that each byte
/// counts in one of the two numbers.
#[derive(Clone, Copy)]
pub struct Key {
    /// The number that the first bytes make, or the hash of a long word.
    pub first: u64,
    /// The number that the last bytes make.
    pub last: u64,
}

// Odd multipliers with irregular bits. On real webs, numbered names and C headers, the other pairs that were tried had
// more collisions.
const LAST_FACTOR: u64 = 0x8EBC_6AF0_9C88_C6E3;

const BOTH_FACTOR: u64 = 0x9FB2_1C65_1E98_DF25;

// 2 to the 64th, divided by the golden ratio.
const HASH_FACTOR: u64 = 0x9E37_79B9_7F4A_7C15;

/// The longest word whose key and length determine it.
pub const KEY_BYTES: usize = 16;

impl Key {
    /// The key of a word: its first bytes, or a hash if it is longer than 16, and its last bytes.
    #[inline(always)]
    pub fn of(word: &[u8]) -> Key
        ensures { result ≡ key_of word.now }
    {
        let len = word.len();
        if len < 4 {
            return Key {
                first: byte_at(word, 0) as u64 + 256 * byte_at(word, 1) as u64,
                last: byte_at(word, 2) as u64,
            };
        }
        if len < 8 {
            return Key {
                first: four(&word[..4]),
                last: four(&word[len - 4..]),
            };
        }
        if len > KEY_BYTES {
            return Key {
                first: hash(word),
                last: eight(&word[len - 8..]),
            };
        }
        Key {
            first: eight(&word[..8]),
            last: eight(&word[len - 8..]),
        }
    }
}

// The whole groups of eight bytes of a word, mixed into one number.
fn hash(word: &[u8]) -> u64
    ensures { result ≡ hash_of word.now }
{
    let (groups, _) = word.as_chunks::<8>();
    groups.iter().fold(0, |hash: u64, group| {
        hash.wrapping_mul(HASH_FACTOR)
            .wrapping_add(u64::from_le_bytes(*group))
    })
}

/// The bucket of a key in a table of so many slots.
pub fn home_bucket(key: Key, slots: usize) -> usize
    ensures is { result ≡ home_bucket_of key slots }
    ensures within { result ≤ slots }
    ensures below { 0 < slots → result < slots }
{
    ((key_hash(key) as u128 * slots as u128) >> 64) as usize
}

// Mixes the two numbers of a key. Each of their bits affects the high bits, which `home_bucket` uses.
#[inline(always)]
fn key_hash(key: Key) -> u64
    ensures { result ≡ key_hash key }
{
    let both = key.first.wrapping_add(key.last.wrapping_mul(LAST_FACTOR));
    let product = both as u128 * BOTH_FACTOR as u128;
    let high = (product >> 64) as u64;
    let low = (product % (1 << 64)) as u64;
    high ^ low
}

// The byte at an index of a word, or 0 past its end.
fn byte_at(word: &[u8], place: usize) -> u8
    ensures { result ≡ slice_index_or word.now place 0 }
{
    if place < word.len() { word[place] } else { 0 }
}

// Four bytes as a little-endian number.
fn four(bytes: &[u8]) -> u64
    requires { length bytes.now ≡ 4 }
    ensures { result ≡ from_le_bytes w32 bytes.now }
{
    match bytes.first_chunk::<4>() {
        Some(bytes) => u32::from_le_bytes(*bytes) as u64,
        None => unreachable!(),
    }
}

// Eight bytes as a little-endian number.
fn eight(bytes: &[u8]) -> u64
    requires { length bytes.now ≡ 8 }
    ensures { result ≡ from_le_bytes w64 bytes.now }
{
    match bytes.first_chunk::<8>() {
        Some(bytes) => u64::from_le_bytes(*bytes),
        None => unreachable!(),
    }
}
