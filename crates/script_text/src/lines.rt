ghost use Rattle.std.specs.Prelude.{◌≡◌, ◌<◌, ◌==◌, ◌∷◌, length, position};
ghost use Rattle.std.specs.List.{position_or_len};
ghost use Rattle.script_text.specs.Lines.{lines_of, pieces_of};
ghost use Rattle.script_text.specs.Cut.{without_last};

fn first_such(text: &[u8], byte: u8) -> Option<usize>
    ensures { result ≡ position (λ b. b == byte) text.now }
{
    text.iter().position(|b| *b == byte)
}

// Where the first piece ends.
fn piece_end(text: &[u8], byte: u8) -> usize
    ensures { result ≡ position_or_len (λ b. b == byte) text.now }
{
    match first_such(text, byte) {
        Some(at) => at,
        None => text.len(),
    }
}

/// The first piece of a text, and what comes after the byte that ends it.
pub fn first_piece(text: &[u8], byte: u8) -> (&[u8], &[u8])
    requires { 0 < length text.now }
    ensures pieces { pieces_of byte text.now ≡ result.0.now ∷ pieces_of byte result.1.now }
    ensures shorter { length result.1.now < length text.now }
{
    let end = piece_end(text, byte);
    if end < text.len() {
        (&text[..end], &text[end + 1..])
    } else {
        (text, &text[text.len()..])
    }
}

fn without_return(line: &[u8]) -> &[u8]
    ensures { result.now ≡ without_last 13 line.now }
{
    match line.split_last() {
        Some((last, front)) if *last == b'\r' => front,
        _ => line,
    }
}

/// The first line of a text, and what comes after it.
pub fn first_line(text: &[u8]) -> (&[u8], &[u8])
    requires { 0 < length text.now }
    ensures lines { lines_of text.now ≡ result.0.now ∷ lines_of result.1.now }
    ensures shorter { length result.1.now < length text.now }
{
    let end = piece_end(text, b'\n');
    if end < text.len() {
        (without_return(&text[..end]), &text[end + 1..])
    } else {
        (text, &text[text.len()..])
    }
}
