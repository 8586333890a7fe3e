// Texts without the blanks at their ends.
const BLANK: u8 = b' ';

// Where the first byte is that is no blank; the length of a text that has none.
fn start_of(text: &[u8]) -> usize {
    text.iter()
        .position(|byte| *byte != BLANK)
        .unwrap_or(text.len())
}

// Where the blanks begin that end a text.
fn end_of(text: &[u8]) -> usize {
    text.iter()
        .rposition(|byte| *byte != BLANK)
        .map_or(0, |last| last + 1)
}

pub fn trimmed(text: &[u8]) -> &[u8] {
    text.get(start_of(text)..end_of(text)).unwrap_or(&[])
}
