// The lines of an assembler's text: a label, and a name with its operands.
ghost use Rattle.std.specs.Prelude.{◌≡◌, ◌≤◌, ◌<◌, ◌∷◌, IsTrue, [], Some, None, length, MatchOption};
ghost use Rattle.std.specs.List.{list_all, position, position_or_len, prefix_len, slice_split};
ghost use Rattle.text_lines.specs.Lines.{is_blank};
ghost use Rattle.asm_text.specs.Text.{begins_with, behind_label, behind_name, body_of, from_word, has_label, is_colon, is_comma, is_hash, is_label, is_letter, is_name_byte, is_word_byte, label_of, name_in, operand_in};

use text_lines::next_word;

fn is_blank(byte: u8) -> bool
    ensures { result ≡ is_blank byte }
{
    byte == b' ' || byte == b'\t'
}

fn is_letter(byte: u8) -> bool
    ensures { result ≡ is_letter byte }
{
    (b'A' <= byte && byte <= b'Z') || (b'a' <= byte && byte <= b'z') || byte == b'_'
}

fn is_name_byte(byte: u8) -> bool
    ensures { result ≡ is_name_byte byte }
{
    is_letter(byte) || byte.is_ascii_digit()
}

fn hash_at(text: &[u8]) -> Option<usize>
    ensures { result ≡ position is_hash text.now }
{
    text.iter().position(|byte| *byte == b'#')
}

fn hash_place(text: &[u8]) -> usize
    ensures place { result ≡ position_or_len is_hash text.now }
    ensures within { result ≤ length text.now }
{
    match hash_at(text) {
        Some(place) => place,
        None => text.len(),
    }
}

fn comma_at(text: &[u8]) -> Option<usize>
    ensures { result ≡ position is_comma text.now }
{
    text.iter().position(|byte| *byte == b',')
}

fn comma_place(text: &[u8]) -> usize
    ensures place { result ≡ position_or_len is_comma text.now }
    ensures within { result ≤ length text.now }
{
    match comma_at(text) {
        Some(place) => place,
        None => text.len(),
    }
}

fn blank_at(text: &[u8]) -> Option<usize>
    ensures { result ≡ position is_blank text.now }
{
    text.iter().position(|byte| is_blank(*byte))
}

fn blank_place(text: &[u8]) -> usize
    ensures place { result ≡ position_or_len is_blank text.now }
    ensures within { result ≤ length text.now }
{
    match blank_at(text) {
        Some(place) => place,
        None => text.len(),
    }
}

fn word_at(text: &[u8]) -> Option<usize>
    ensures { result ≡ position is_word_byte text.now }
{
    text.iter().position(|byte| !is_blank(*byte))
}

fn word_place(text: &[u8]) -> usize
    ensures place { result ≡ position_or_len is_word_byte text.now }
    ensures within { result ≤ length text.now }
{
    match word_at(text) {
        Some(place) => place,
        None => text.len(),
    }
}

/// How many bytes of a name stand in front.
fn name_len(text: &[u8]) -> usize
    ensures len { result ≡ prefix_len is_name_byte text.now }
    ensures within { result ≤ length text.now }
{
    let mut len = 0;
    while len < text.len() && is_name_byte(text[len]) {
        len += 1;
    }
    len
}

fn begins_with_letter(text: &[u8]) -> bool
    ensures { result ≡ begins_with is_letter text.now }
{
    match text {
        [first, ..] => is_letter(*first),
        [] => false,
    }
}

fn begins_with_colon(text: &[u8]) -> bool
    ensures value { result ≡ begins_with is_colon text.now }
    ensures some { IsTrue result → 0 < length text.now }
{
    match text {
        [first, ..] => *first == b':',
        [] => false,
    }
}

fn are_name_bytes(text: &[u8]) -> bool
    ensures { result ≡ list_all is_name_byte text.now }
{
    text.iter().all(|byte| is_name_byte(*byte))
}

/// The text is a label's name: a letter or `_`, then letters, digits and `_`.
pub fn is_label(text: &[u8]) -> bool
    ensures { result ≡ is_label text.now }
{
    begins_with_letter(text) && are_name_bytes(text)
}

fn from_word(text: &[u8]) -> &[u8]
    ensures { result.now ≡ from_word text.now }
{
    &text[word_place(text)..]
}

/// What a line says: without its comment, and without blanks in front.
pub fn body_of(line: &[u8]) -> &[u8]
    ensures { result.now ≡ body_of line.now }
{
    from_word(&line[..hash_place(line)])
}

fn has_label(body: &[u8]) -> bool
    ensures value { result ≡ has_label body.now }
    ensures inside { IsTrue result → prefix_len is_name_byte body.now < length body.now }
{
    begins_with_letter(body) && begins_with_colon(&body[name_len(body)..])
}

/// The label in front, where there is one.
pub fn label_of(body: &[u8]) -> Option<&[u8]>
    ensures { MatchOption result (label_of body.now ≡ None) (λ label. label_of body.now ≡ Some label.now) }
{
    if has_label(body) {
        Some(&body[..name_len(body)])
    } else {
        None
    }
}

/// What stands behind the label.
pub fn behind_label(body: &[u8]) -> &[u8]
    ensures { result.now ≡ behind_label body.now }
{
    if has_label(body) {
        from_word(&body[name_len(body) + 1..])
    } else {
        body
    }
}

/// The name, which ends at the first blank, and what stands behind it.
pub fn name_and_operands(said: &[u8]) -> (&[u8], &[u8])
    ensures name { result.0.now ≡ name_in said.now }
    ensures behind { result.1.now ≡ behind_name said.now }
{
    said.split_at(blank_place(said))
}

/// The first piece of a text that commas part, and the text behind its comma.
pub fn next_piece(text: &[u8]) -> (&[u8], Option<&[u8]>)
    ensures { MatchOption result.1 (slice_split is_comma text.now ≡ result.0.now ∷ []) (λ rest. slice_split is_comma text.now ≡ result.0.now ∷ slice_split is_comma rest.now) }
{
    let place = comma_place(text);
    if place < text.len() {
        (&text[..place], Some(&text[place + 1..]))
    } else {
        (text, None)
    }
}

/// The one word of a piece; an empty one where it has none or several.
pub fn operand_in(piece: &[u8]) -> &[u8]
    ensures { result.now ≡ operand_in piece.now }
{
    match next_word(piece) {
        Some((word, rest)) if next_word(rest).is_none() => word,
        _ => &[],
    }
}
