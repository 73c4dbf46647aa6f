ghost use Rattle.std.specs.Prelude.{◌≡◌, ◌==◌, ℕ, List, position, IfSome, IsNone, Some, None};
ghost use Rattle.script_text.specs.Cut.{cut_of, ends_with};

fn first_such(text: &[u8], byte: u8) -> Option<usize>
    ensures { result ≡ position (λ b. b == byte) text.now }
{
    text.iter().position(|b| *b == byte)
}

/// What comes before the first such byte, and what comes behind it.
pub fn cut(text: &[u8], byte: u8) -> Option<(&[u8], &[u8])>
    ensures parts { IfSome result (λ parts. cut_of byte text.now ≡ Some (parts.0.now, parts.1.now)) }
    ensures none { IsNone result → cut_of byte text.now ≡ None }
{
    match first_such(text, byte) {
        Some(at) => Some((&text[..at], &text[at + 1..])),
        None => None,
    }
}

pub fn ends_with(text: &[u8], byte: u8) -> bool
    ensures { result ≡ ends_with byte text.now }
{
    match text.split_last() {
        Some((last, _)) => *last == byte,
        None => false,
    }
}
