ghost use Rattle.std.specs.Prelude.{◌≡◌, ◌-◌, ◌<◌, [], ◌∷◌, true, not, length, drop, IfSome, IfNone};
ghost use Rattle.std.specs.List.{position};
ghost use Rattle.mm_text.specs.Lines.{cut_lines, lines_of, words_of, is_text, is_text_byte, is_blank, begins_word, without_return};

use memchr::memchr;

/// The first line of a text, without its line feed and without one carriage return at its end, and the text behind its
/// line feed. `None` exactly where the text is empty.
pub fn next_line(text: &[u8]) -> Option<(&[u8], &[u8])>
    ensures line { IfSome result (λ cut. lines_of text.now ≡ cut.0.now ∷ lines_of cut.1.now) }
    ensures behind { IfSome result (λ cut. cut_lines cut.1.now ≡ drop 1 (cut_lines text.now)) }
    ensures rest { IfSome result (λ cut. cut.1.now ≡ drop (length text.now - length cut.1.now) text.now) }
    ensures shorter { IfSome result (λ cut. length cut.1.now < length text.now) }
    ensures none { IfNone result (text.now ≡ []) }
{
    if text.is_empty() {
        return None;
    }
    match memchr(b'\n', text) {
        Some(end) => Some((without_return(&text[..end]), &text[end + 1..])),
        None => Some((without_return(text), &text[text.len()..])),
    }
}

// A line without the one carriage return at its end.
fn without_return(line: &[u8]) -> &[u8]
    ensures { result.now ≡ without_return line.now }
{
    match line {
        [front @ .., last] if *last == b'\r' => front,
        _ => line,
    }
}

/// The first word of a line, a longest piece without spaces and tabs, and the line behind it. `None` exactly where the
/// line has no word.
pub fn next_word(line: &[u8]) -> Option<(&[u8], &[u8])>
    ensures word { IfSome result (λ cut. words_of line.now ≡ cut.0.now ∷ words_of cut.1.now) }
    ensures none { IfNone result (words_of line.now ≡ []) }
{
    Some(cut_word(skip_blanks(line)?))
}

// A line from its first word on, if it has one.
fn skip_blanks(line: &[u8]) -> Option<&[u8]>
    ensures same { IfSome result (λ rest. words_of rest.now ≡ words_of line.now) }
    ensures begins { IfSome result (λ rest. begins_word rest.now ≡ true) }
    ensures none { IfNone result (words_of line.now ≡ []) }
{
    Some(&line[word_start(line)?..])
}

// The word at the front of a line, and what stands behind it.
fn cut_word(line: &[u8]) -> (&[u8], &[u8])
    requires { begins_word line.now ≡ true }
    ensures { words_of line.now ≡ result.0.now ∷ words_of result.1.now }
{
    line.split_at(first_blank(line).unwrap_or(line.len()))
}

fn word_start(line: &[u8]) -> Option<usize>
    ensures { result ≡ position (λ byte. not (is_blank byte)) line.now }
{
    line.iter().position(|byte| !is_blank(*byte))
}

fn first_blank(line: &[u8]) -> Option<usize>
    ensures { result ≡ position is_blank line.now }
{
    line.iter().position(|byte| is_blank(*byte))
}

fn is_blank(byte: u8) -> bool
    ensures { result ≡ is_blank byte }
{
    byte == b' ' || byte == b'\t'
}

/// Whether a line has no other bytes than tabs and 20 to 7E in hexadecimal.
pub fn is_text(line: &[u8]) -> bool
    ensures { result ≡ is_text line.now }
{
    line.iter().all(|byte| is_text_byte(*byte))
}

fn is_text_byte(byte: u8) -> bool
    ensures { result ≡ is_text_byte byte }
{
    byte == b'\t' || (b' ' <= byte && byte <= b'~')
}
