// The symbol width that a layout is judged with.

// The width of versions 2 to 4, as the crate dbn writes them.
pub(crate) const USUAL: u16 = 71;

// The width that a word says in decimal digits.
pub(crate) fn of(word: &[u8]) -> Option<u16> {
    if word.iter().all(|x| x.is_ascii_digit()) {
        return std::str::from_utf8(word).ok()?.parse().ok();
    }
    None
}
