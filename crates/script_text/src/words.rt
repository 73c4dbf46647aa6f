#![tactic(auto, unfolding(crate::specs::Words::words_of, crate::specs::Words::one_word, crate::specs::Words::two_words, crate::specs::Words::three_words, crate::specs::Words::four_words))]

ghost use Rattle.std.specs.Prelude.{◌≡◌, ◌∷◌, [], ◌<◌, length, IfOk, IfErr, IfSome, IsNone, Ok, Err};
ghost use Rattle.script_text.specs.Words.{words_of, has_word, one_word, two_words, three_words, four_words};

use crate::Rule;
use crate::lines::first_piece;

/// The first word of a line, and what comes after it.
pub fn first_word(line: &[u8]) -> Option<(&[u8], &[u8])>
    ensures found { IfSome result (λ parts. words_of line.now ≡ parts.0.now ∷ words_of parts.1.now) }
    ensures none { IsNone result → words_of line.now ≡ [] }
    ensures shorter { IfSome result (λ parts. length parts.1.now < length line.now) }
{
    let mut rest = line;
    while !rest.is_empty() {
        let (piece, after) = first_piece(rest, b' ');
        if !piece.is_empty() {
            return Some((piece, after));
        }
        rest = after;
    }
    None
}

pub fn has_word(text: &[u8]) -> bool
    ensures { result ≡ has_word (words_of text.now) }
{
    match first_word(text) {
        Some(_) => true,
        None => false,
    }
}

/// The only word of a text.
pub fn one_word(text: &[u8]) -> Result<&[u8], Rule>
    ensures word { IfOk result (λ a. one_word (words_of text.now) ≡ Ok a.now) }
    ensures refused { IfErr result (λ e. one_word (words_of text.now) ≡ Err e) }
{
    let Some((word, rest)) = first_word(text) else {
        return Err(Rule::Words);
    };
    if has_word(rest) {
        return Err(Rule::Words);
    }
    Ok(word)
}

pub fn two_words(text: &[u8]) -> Result<(&[u8], &[u8]), Rule>
    ensures words { IfOk result (λ p. two_words (words_of text.now) ≡ Ok (p.0.now, p.1.now)) }
    ensures refused { IfErr result (λ e. two_words (words_of text.now) ≡ Err e) }
{
    let Some((first, rest)) = first_word(text) else {
        return Err(Rule::Words);
    };
    let second = one_word(rest)?;
    Ok((first, second))
}

pub fn three_words(text: &[u8]) -> Result<(&[u8], &[u8], &[u8]), Rule>
    ensures words { IfOk result (λ p. three_words (words_of text.now) ≡ Ok (p.0.now, p.1.now, p.2.now)) }
    ensures refused { IfErr result (λ e. three_words (words_of text.now) ≡ Err e) }
{
    let Some((first, rest)) = first_word(text) else {
        return Err(Rule::Words);
    };
    let (second, third) = two_words(rest)?;
    Ok((first, second, third))
}

pub fn four_words(text: &[u8]) -> Result<(&[u8], &[u8], &[u8], &[u8]), Rule>
    ensures words { IfOk result (λ p. four_words (words_of text.now) ≡ Ok (p.0.now, p.1.now, p.2.now, p.3.now)) }
    ensures refused { IfErr result (λ e. four_words (words_of text.now) ≡ Err e) }
{
    let Some((first, rest)) = first_word(text) else {
        return Err(Rule::Words);
    };
    let (second, third, fourth) = three_words(rest)?;
    Ok((first, second, third, fourth))
}
