//! What other languages write in another way.

/// Whether a word begins a comment of another language.
fn is_comment(word: &str) -> bool {
    word.starts_with(';') || word.starts_with("//")
}

/// What is to be written in another way on a line of these words, if a sign in them shows it.
pub(crate) fn habit_in(words: &[&str]) -> Option<&'static str> {
    if words.iter().any(|word| is_comment(word)) {
        return Some("a comment begins with \"#\"");
    }
    if words
        .first()
        .is_some_and(|word| word.starts_with('\u{FEFF}'))
    {
        return Some("the file begins with a byte order mark; it is to be UTF-8 without one");
    }
    if words.iter().any(|word| word.contains('\r')) {
        return Some("lines end with LF alone, and a CR is a character like any other");
    }
    if words.iter().any(|word| word.contains('\t')) {
        return Some("words are parted by spaces, and a tab is a character like any other");
    }
    None
}
