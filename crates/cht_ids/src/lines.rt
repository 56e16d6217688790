ghost use Rattle.std.specs.Prelude.{◌≡◌, ◌+◌, [], ◌∷◌, ◌++◌, length, IfSome, IfNone, MatchOption};
ghost use Rattle.cht_ids.specs.Lines.{ended_lines, pieces_of};

use memchr::memchr;

/// Cuts the first line, without its line feed, from what follows it. `None` exactly where no line feed comes.
pub fn cut_line(text: &[u8]) -> Option<(&[u8], &[u8])>
    ensures lines { IfSome result (λ cut. ended_lines text.now ≡ cut.0.now ∷ ended_lines cut.1.now) }
    ensures whole { IfSome result (λ cut. text.now ≡ cut.0.now ++ 10 ∷ cut.1.now) }
    ensures none { IfNone result (ended_lines text.now ≡ []) }
{
    let end = memchr(b'\n', text)?;
    Some((&text[..end], &text[end + 1..]))
}

/// Cuts the first word of a line at its first space, and answers what follows the space, if there is one.
pub fn cut_word(line: &[u8]) -> (&[u8], Option<&[u8]>)
    ensures { MatchOption result.1 (pieces_of line.now ≡ result.0.now ∷ []) (λ rest. pieces_of line.now ≡ result.0.now ∷ pieces_of rest.now) }
{
    match memchr(b' ', line) {
        None => (line, None),
        Some(end) => (&line[..end], Some(&line[end + 1..])),
    }
}
