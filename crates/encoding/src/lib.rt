// Numbers as bytes, the low byte first, and blocks of 64 bytes. What writes a number is
// `to_le_bytes`; here is what reads one from a place among other bytes.
#![tactic(auto)]

ghost use Rattle.std.specs.Prelude.{◌≡◌, ◌+◌, ◌<◌, ◌≤◌, length, take, drop, is_some, IfSome, nat_le};
ghost use Rattle.std.specs.Int.{w16, w32, w64};
ghost use Rattle.encoding.specs.Numbers.{number_at};
ghost use Rattle.encoding.specs.RoundTrips.{NumbersReadBack};

/// The first N bytes from a place on, if they are all there.
fn bytes_at<const N: usize>(bytes: &[u8], place: usize) -> Option<&[u8; N]>
    ensures found { IfSome result (λ x. x.now ≡ take N (drop place bytes.now)) }
    ensures there { is_some result ≡ nat_le (place + N) (length bytes.now) }
{
    bytes.get(place..)?.first_chunk()
}

/// The number that two bytes from a place on hold; 0 where they are not all there.
pub fn two_at(bytes: &[u8], place: usize) -> u16
    ensures value { place + 2 ≤ length bytes.now → result ≡ number_at w16 bytes.now place }
    ensures beyond { length bytes.now < place + 2 → result ≡ 0 }
{
    bytes_at(bytes, place).map_or(0, |found| u16::from_le_bytes(*found))
}

/// The number that four bytes from a place on hold; 0 where they are not all there.
pub fn four_at(bytes: &[u8], place: usize) -> u32
    ensures value { place + 4 ≤ length bytes.now → result ≡ number_at w32 bytes.now place }
    ensures beyond { length bytes.now < place + 4 → result ≡ 0 }
{
    bytes_at(bytes, place).map_or(0, |found| u32::from_le_bytes(*found))
}

/// The number that eight bytes from a place on hold; 0 where they are not all there.
pub fn eight_at(bytes: &[u8], place: usize) -> u64
    ensures value { place + 8 ≤ length bytes.now → result ≡ number_at w64 bytes.now place }
    ensures beyond { length bytes.now < place + 8 → result ≡ 0 }
{
    bytes_at(bytes, place).map_or(0, |found| u64::from_le_bytes(*found))
}

/// A theorem: a number is read back from its bytes, and bytes are those of the number that they
/// hold.
pub fn numbers_are_read_back() -> bool
    ensures holds { NumbersReadBack }
{
    true
}
