// Lists with commas.
ghost use Rattle.std.specs.Prelude.{◌≡◌, IfOk};
ghost use Rattle.std.specs.List.{list_any};
ghost use Rattle.std.specs.Str.{bytes_eq};
ghost use Rattle.script_text.specs.Forms.{name_of};
ghost use Rattle.script_text.specs.Lines.{pieces_of};
ghost use Rattle.script_text.specs.Lists.{all_of, are_tables, are_families, scope_of, family_of, same_family, repeats_name, repeats_family, tables_word, specs_word};

use crate::Rule;
use crate::cut::{cut, ends_with};
use crate::forms::{is_text, name_of};
use crate::lines::first_piece;
use rep_types::{Families, Family, Items, Memory, Name, Names};
use std::alloc::Global;

fn names_in(alloc: Global, word: &[u8]) -> Result<Option<Names>, Memory>
    ensures { IfOk result (λ made. made ≡ all_of name_of (pieces_of 44 word.now)) }
{
    let mut names = Items::new(alloc);
    let mut rest = word;
    while !rest.is_empty() {
        let (part, after) = first_piece(rest, b',');
        let Some(name) = name_of(alloc, part)? else {
            return Ok(None);
        };
        names.push(name)?;
        rest = after;
    }
    Ok(Some(names))
}

fn has_name(names: &[Name], name: &Name) -> bool
    ensures { result ≡ list_any (bytes_eq name.now) names.now }
{
    names.iter().any(|other| name == other)
}

fn repeats_name(names: &[Name]) -> bool
    ensures { result ≡ repeats_name names.now }
{
    let mut rest = names;
    while let Some((name, others)) = rest.split_first() {
        if has_name(others, name) {
            return true;
        }
        rest = others;
    }
    false
}

#[tactic(auto, unfolding(crate::specs::Lists::are_tables))]
fn are_tables(names: &[Name]) -> bool
    ensures { result ≡ are_tables names.now }
{
    1 <= names.len() && names.len() <= 16 && !repeats_name(names)
}

/// The tables that a word lists.
#[tactic(auto, unfolding(crate::specs::Lists::tables_word, crate::specs::Lists::are_tables))]
pub fn tables_word(alloc: Global, word: &[u8]) -> Result<Result<Names, Rule>, Memory>
    ensures { IfOk result (λ made. made ≡ tables_word word.now) }
{
    if ends_with(word, b',') {
        return Ok(Err(Rule::Parts));
    }
    let Some(names) = names_in(alloc, word)? else {
        return Ok(Err(Rule::Parts));
    };
    if are_tables(names.as_slice()) {
        Ok(Ok(names))
    } else {
        Ok(Err(Rule::Parts))
    }
}

fn scope_of(text: &[u8]) -> Option<u8>
    ensures { result ≡ scope_of text.now }
{
    if is_text(text, b"0") {
        return Some(0);
    }
    if is_text(text, b"1") {
        return Some(1);
    }
    None
}

#[tactic(auto, unfolding(crate::specs::Lists::family_of))]
fn family_of(alloc: Global, text: &[u8]) -> Result<Option<Family>, Memory>
    ensures { IfOk result (λ made. made ≡ family_of text.now) }
{
    let Some((name, scope)) = cut(text, b'/') else {
        return Ok(None);
    };
    let Some(name) = name_of(alloc, name)? else {
        return Ok(None);
    };
    match scope_of(scope) {
        Some(scope) => Ok(Some(Family { name, scope })),
        None => Ok(None),
    }
}

fn families_in(alloc: Global, word: &[u8]) -> Result<Option<Families>, Memory>
    ensures { IfOk result (λ made. made ≡ all_of family_of (pieces_of 44 word.now)) }
{
    let mut families = Items::new(alloc);
    let mut rest = word;
    while !rest.is_empty() {
        let (part, after) = first_piece(rest, b',');
        let Some(family) = family_of(alloc, part)? else {
            return Ok(None);
        };
        families.push(family)?;
        rest = after;
    }
    Ok(Some(families))
}

fn has_family(families: &[Family], family: &Family) -> bool
    ensures { result ≡ list_any (same_family family.now) families.now }
{
    families.iter().any(|other| family.name == other.name)
}

fn repeats_family(families: &[Family]) -> bool
    ensures { result ≡ repeats_family families.now }
{
    let mut rest = families;
    while let Some((family, others)) = rest.split_first() {
        if has_family(others, family) {
            return true;
        }
        rest = others;
    }
    false
}

#[tactic(auto, unfolding(crate::specs::Lists::are_families))]
fn are_families(families: &[Family]) -> bool
    ensures { result ≡ are_families families.now }
{
    1 <= families.len() && families.len() <= 16 && !repeats_family(families)
}

/// The families that a word lists.
#[tactic(auto, unfolding(crate::specs::Lists::specs_word, crate::specs::Lists::are_families))]
pub fn specs_word(alloc: Global, word: &[u8]) -> Result<Result<Families, Rule>, Memory>
    ensures { IfOk result (λ made. made ≡ specs_word word.now) }
{
    if ends_with(word, b',') {
        return Ok(Err(Rule::Parts));
    }
    let Some(families) = families_in(alloc, word)? else {
        return Ok(Err(Rule::Parts));
    };
    if are_families(families.as_slice()) {
        Ok(Ok(families))
    } else {
        Ok(Err(Rule::Parts))
    }
}
