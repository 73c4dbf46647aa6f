// The cells of a put. A repeated value is built only once its whole line is known to be good.
ghost use Rattle.std.specs.Prelude.{◌≡◌, ◌≤◌, ◌&&◌, length, map, sum_by, IfOk, Some};
ghost use Rattle.std.specs.List.{list_any, list_all};
ghost use Rattle.script_text.specs.Cells.{is_value_byte, whole_of, byte_of, repeated_of, content_of, stamp_of, erased_of, dated_of, draft_of, same_column, repeats_column, are_drafts, drafts_word, draft_bytes, used_with, kind_of, cell_of};
ghost use Rattle.script_text.specs.Lists.{all_of};
ghost use Rattle.script_text.specs.Words.{words_of};

use crate::Rule;
use crate::cut::cut;
use crate::forms::{name_of, number};
use crate::words::first_word;
use rep_types::{Bytes, Cell, CellKind, Cells, Items, Memory, Name};
use std::alloc::Global;

/// What a cell holds.
#[derive(Drop)]
pub enum Content {
    /// A value written whole.
    Whole(Bytes),
    /// A value told by its length and the character that it repeats.
    Repeated { count: u32, byte: u8 },
    /// A delete.
    Erase,
}

#[derive(Drop)]
pub struct Dated {
    pub stamp: u64,
    pub content: Content,
}

/// A cell whose value isn't built.
#[derive(Drop)]
pub struct Draft {
    pub family: Name,
    pub qualifier: Name,
    pub stamp: u64,
    pub content: Content,
}

pub type Drafts = Items<Draft>;

// The most bytes that the repeated values of a script stand for.
const MOST: u32 = 16_777_216;

fn is_value_byte(b: u8) -> bool
    ensures { result ≡ is_value_byte b }
{
    b.is_ascii_alphanumeric() || b == b'_' || b == b'.'
}

fn has_value_bytes(value: &[u8]) -> bool
    ensures { result ≡ list_all is_value_byte value.now }
{
    value.iter().all(|b| is_value_byte(*b))
}

#[tactic(auto, unfolding(crate::specs::Cells::whole_of))]
fn whole_of(alloc: Global, value: &[u8]) -> Result<Option<Content>, Memory>
    ensures { IfOk result (λ made. made ≡ whole_of value.now) }
{
    if value.len() <= 16384 && has_value_bytes(value) {
        Ok(Some(Content::Whole(Bytes::from_slice(alloc, value)?)))
    } else {
        Ok(None)
    }
}

fn byte_of(text: &[u8]) -> Option<u8>
    ensures { result ≡ byte_of text.now }
{
    match text {
        [byte] if is_value_byte(*byte) => Some(*byte),
        _ => None,
    }
}

#[tactic(auto, unfolding(crate::specs::Cells::repeated_of))]
fn repeated_of(count: &[u8], byte: &[u8]) -> Option<Content>
    ensures { result ≡ repeated_of (count.now, byte.now) }
{
    let count = number(count, 0, 16384)?;
    let byte = byte_of(byte)?;
    Some(Content::Repeated {
        count: count as u32,
        byte,
    })
}

#[tactic(auto, unfolding(crate::specs::Cells::content_of))]
fn content_of(alloc: Global, value: &[u8]) -> Result<Option<Content>, Memory>
    ensures { IfOk result (λ made. made ≡ content_of value.now) }
{
    match cut(value, b'*') {
        Some((count, byte)) => Ok(repeated_of(count, byte)),
        None => whole_of(alloc, value),
    }
}

#[tactic(auto, unfolding(crate::specs::Cells::stamp_of))]
fn stamp_of(word: &[u8]) -> Option<u64>
    ensures { result ≡ stamp_of word.now }
{
    number(word, 0, u64::MAX)
}

#[tactic(auto, unfolding(crate::specs::Cells::erased_of))]
fn erased_of(text: &[u8]) -> Option<Dated>
    ensures { result ≡ erased_of text.now }
{
    let (stamp, rest) = cut(text, b'!')?;
    if !rest.is_empty() {
        return None;
    }
    let stamp = stamp_of(stamp)?;
    Some(Dated {
        stamp,
        content: Content::Erase,
    })
}

#[tactic(auto, unfolding(crate::specs::Cells::dated_of))]
fn dated_of(alloc: Global, text: &[u8]) -> Result<Option<Dated>, Memory>
    ensures { IfOk result (λ made. made ≡ dated_of text.now) }
{
    let Some((stamp, value)) = cut(text, b'=') else {
        return Ok(erased_of(text));
    };
    let Some(stamp) = stamp_of(stamp) else {
        return Ok(None);
    };
    match content_of(alloc, value)? {
        Some(content) => Ok(Some(Dated { stamp, content })),
        None => Ok(None),
    }
}

#[tactic(auto, unfolding(crate::specs::Cells::draft_of))]
fn draft_of(alloc: Global, text: &[u8]) -> Result<Option<Draft>, Memory>
    ensures { IfOk result (λ made. made ≡ draft_of text.now) }
{
    let Some((family, column)) = cut(text, b':') else {
        return Ok(None);
    };
    let Some((qualifier, dated)) = cut(column, b'@') else {
        return Ok(None);
    };
    let Some(family) = name_of(alloc, family)? else {
        return Ok(None);
    };
    let Some(qualifier) = name_of(alloc, qualifier)? else {
        return Ok(None);
    };
    match dated_of(alloc, dated)? {
        Some(dated) => Ok(Some(Draft {
            family,
            qualifier,
            stamp: dated.stamp,
            content: dated.content,
        })),
        None => Ok(None),
    }
}

fn drafts_in(alloc: Global, text: &[u8]) -> Result<Option<Drafts>, Memory>
    ensures { IfOk result (λ made. made ≡ all_of draft_of (words_of text.now)) }
{
    let mut drafts = Items::new(alloc);
    let mut rest = text;
    while let Some((word, after)) = first_word(rest) {
        let Some(draft) = draft_of(alloc, word)? else {
            return Ok(None);
        };
        drafts.push(draft)?;
        rest = after;
    }
    Ok(Some(drafts))
}

fn same_column(x: &Draft, y: &Draft) -> bool
    ensures { result ≡ same_column x.now y.now }
{
    x.family == y.family && x.qualifier == y.qualifier
}

fn has_column(drafts: &[Draft], draft: &Draft) -> bool
    ensures { result ≡ list_any (same_column draft.now) drafts.now }
{
    drafts.iter().any(|other| same_column(draft, other))
}

fn repeats_column(drafts: &[Draft]) -> bool
    ensures { result ≡ repeats_column drafts.now }
{
    let mut rest = drafts;
    while let Some((draft, others)) = rest.split_first() {
        if has_column(others, draft) {
            return true;
        }
        rest = others;
    }
    false
}

#[tactic(auto, unfolding(crate::specs::Cells::are_drafts))]
fn are_drafts(drafts: &[Draft]) -> bool
    ensures { result ≡ are_drafts drafts.now }
{
    1 <= drafts.len() && drafts.len() <= 64 && !repeats_column(drafts)
}

/// The cells that words spell.
#[tactic(auto, unfolding(crate::specs::Cells::drafts_word))]
pub fn drafts_word(alloc: Global, text: &[u8]) -> Result<Result<Drafts, Rule>, Memory>
    ensures { IfOk result (λ made. made ≡ drafts_word (words_of text.now)) }
{
    let Some(drafts) = drafts_in(alloc, text)? else {
        return Ok(Err(Rule::Parts));
    };
    if are_drafts(drafts.as_slice()) {
        Ok(Ok(drafts))
    } else {
        Ok(Err(Rule::Parts))
    }
}

fn draft_bytes(draft: &Draft) -> u32
    ensures { result ≡ draft_bytes draft.now }
{
    match &draft.content {
        Content::Repeated { count, .. } => *count,
        _ => 0,
    }
}

/// The bytes that the repeated values stand for, with so many before.
#[tactic(auto, unfolding(crate::specs::Cells::used_with))]
pub fn used_with(used: u32, drafts: &[Draft]) -> Result<u32, Rule>
    ensures { result ≡ used_with used drafts.now }
{
    let mut total = used;
    for draft in drafts {
        total = total.saturating_add(draft_bytes(draft));
    }
    if total <= MOST {
        Ok(total)
    } else {
        Err(Rule::Repeats)
    }
}

fn kind_of(alloc: Global, content: Content) -> Result<CellKind, Memory>
    ensures { IfOk result (λ kind. kind ≡ kind_of content) }
{
    match content {
        Content::Whole(value) => Ok(CellKind::Put(value)),
        Content::Repeated { count, byte } => {
            let value = vec![in alloc; byte; count as usize]?;
            Ok(CellKind::Put(Items::from_vec(value)))
        }
        Content::Erase => Ok(CellKind::Erase),
    }
}

fn cell_of(alloc: Global, draft: Draft) -> Result<Cell, Memory>
    ensures { IfOk result (λ cell. cell ≡ cell_of draft) }
{
    let Draft {
        family,
        qualifier,
        stamp,
        content,
    } = draft;
    Ok(Cell {
        family,
        qualifier,
        stamp,
        kind: kind_of(alloc, content)?,
    })
}

/// The cells of a put, built.
pub fn cells_of(alloc: Global, drafts: Drafts) -> Result<Cells, Memory>
    ensures { IfOk result (λ cells. cells ≡ map cell_of drafts) }
{
    let mut cells = Items::new(alloc);
    for draft in drafts.into_vec() {
        cells.push(cell_of(alloc, draft)?)?;
    }
    Ok(cells)
}
