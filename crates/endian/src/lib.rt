// Little-endian numbers and their bytes. A pair for each width: `from_le_bytes` and `to_le_bytes` are each integer type's own, of no trait.
#![tactic(auto, unfolding(crate::specs::Little::bytes, crate::specs::Little::value))]

ghost use Rattle.std.specs.Prelude.{◌≡◌, [], ◌∷◌};
ghost use Rattle.endian.specs.Little.{bytes, value};

// The number of two bytes, the lowest first.
pub fn number16(low: u8, high: u8) -> u16
    ensures { result ≡ value (low ∷ high ∷ []) }
{
    u16::from_le_bytes([low, high])
}

// The number of four bytes, the lowest first.
pub fn number32(a: u8, b: u8, c: u8, d: u8) -> u32
    ensures { result ≡ value (a ∷ b ∷ c ∷ d ∷ []) }
{
    u32::from_le_bytes([a, b, c, d])
}

// The two bytes of a number.
pub fn bytes16(n: u16) -> [u8; 2]
    ensures { result ≡ bytes 2 n }
{
    u16::to_le_bytes(n)
}

// The four bytes of a number.
pub fn bytes32(n: u32) -> [u8; 4]
    ensures { result ≡ bytes 4 n }
{
    u32::to_le_bytes(n)
}

// A byte as an index. Nothing of this repository calls it now, since std's `From` says the same; it stays for whoever does.
pub fn wide(b: u8) -> usize
    ensures { result ≡ b }
{
    usize::from(b)
}

// A two-byte number as an index or a length. As `wide`.
pub fn wide16(n: u16) -> usize
    ensures { result ≡ n }
{
    usize::from(n)
}
