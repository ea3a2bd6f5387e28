// Lines of a text, and words of a line.
ghost use Rattle.std.specs.Prelude.{◌≡◌, ◌<◌, not, [], ◌∷◌, length, MatchOption, IfSome};
ghost use Rattle.std.specs.List.{position};
ghost use Rattle.text_lines.specs.Lines.{lines_of, words_of, says_nothing, is_blank, is_feed, without_return};

/// Where the first line feed stands.
fn feed_at(text: &[u8]) -> Option<usize>
    ensures { result ≡ position is_feed text.now }
{
    text.iter().position(|byte| *byte == b'\n')
}

/// What stands before a line feed, without a carriage return at its end.
fn without_return(line: &[u8]) -> &[u8]
    ensures { result.now ≡ without_return line.now }
{
    match line {
        [front @ .., b'\r'] => front,
        _ => line,
    }
}

/// The first line of a text, and the text behind it; `None` where the text is empty.
pub fn next_line(text: &[u8]) -> Option<(&[u8], &[u8])>
    ensures first { MatchOption result (lines_of text.now ≡ []) (λ p. lines_of text.now ≡ p.0.now ∷ lines_of p.1.now) }
    ensures shorter { IfSome result (λ p. length p.1.now < length text.now) }
{
    if text.is_empty() {
        return None;
    }
    match feed_at(text) {
        Some(end) => Some((without_return(&text[..end]), &text[end + 1..])),
        None => Some((text, &[])),
    }
}

fn is_blank(byte: u8) -> bool
    ensures { result ≡ is_blank byte }
{
    byte == b' ' || byte == b'\t'
}

/// Where the first word begins.
fn word_at(line: &[u8]) -> Option<usize>
    ensures { result ≡ position (λ c. not (is_blank c)) line.now }
{
    line.iter().position(|byte| !is_blank(*byte))
}

fn blank_at(line: &[u8]) -> Option<usize>
    ensures { result ≡ position is_blank line.now }
{
    line.iter().position(|byte| is_blank(*byte))
}

/// The first word of a line, and the line behind it; `None` where it has none.
pub fn next_word(line: &[u8]) -> Option<(&[u8], &[u8])>
    ensures first { MatchOption result (words_of line.now ≡ []) (λ p. words_of line.now ≡ p.0.now ∷ words_of p.1.now) }
    ensures shorter { IfSome result (λ p. length p.1.now < length line.now) }
{
    let start = word_at(line)?;
    let word_on = &line[start..];
    match blank_at(word_on) {
        Some(end) => Some(word_on.split_at(end)),
        None => Some((word_on, &[])),
    }
}

/// The line has no word, or its first word begins with `#`.
pub fn says_nothing(line: &[u8]) -> bool
    ensures { result ≡ says_nothing (words_of line.now) }
{
    match next_word(line) {
        Some((word, _)) => word.first() == Some(&b'#'),
        None => true,
    }
}
