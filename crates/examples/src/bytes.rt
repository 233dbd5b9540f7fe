// Numbers and parts of a case. What is not there reads as 0, and a part is as long as what is there.
ghost use Rattle.std.specs.Prelude.{◌≡◌, length};

// One byte at a place.
pub(crate) fn byte(s: &[u8], at: usize) -> u8 {
    s.get(at).copied().unwrap_or(0)
}

// Two bytes at a place.
pub(crate) fn u16_at(s: &[u8], at: usize) -> u16 {
    filled_numbers::u16_of(s, at) as u16
}

// The bytes from a place on.
pub(crate) fn from(s: &[u8], at: usize) -> &[u8] {
    s.get(at..).unwrap_or(&[])
}

// The first n items; all where there are fewer.
pub(crate) fn front<T>(s: &[T], n: usize) -> &[T] {
    s.get(..n).unwrap_or(s)
}

// Puts a byte at a place; nothing where there is no room.
pub(crate) fn put(out: &mut [u8], at: usize, b: u8)
    ensures { length out.new ≡ length out.old }
{
    if let Some(place) = out.get_mut(at) {
        *place = b;
    }
}
