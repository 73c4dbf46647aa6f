// A put.
ghost use Rattle.std.specs.Prelude.{◌≡◌, Ok, Err, IfOk, IfErr};
ghost use Rattle.script_text.specs.Puts.{put_words, cluster_and_cells, put};
ghost use Rattle.script_text.specs.Words.{words_of};

use crate::cells::{cells_of, drafts_word, used_with};
use crate::forms::{cluster_word, key_word, name_word};
use crate::line::Made;
use crate::words::{first_word, has_word};
use crate::{Command, Rule};
use rep_types::{Cluster, Event, Memory};
use std::alloc::Global;

// Three words, and those of cells behind them.
#[tactic(auto, unfolding(crate::specs::Puts::put_words))]
fn put_words(text: &[u8]) -> Result<(&[u8], &[u8], &[u8], &[u8]), Rule>
    ensures words { IfOk result (λ p. put_words (words_of text.now) ≡ Ok (p.0.now, p.1.now, p.2.now, words_of p.3.now)) }
    ensures refused { IfErr result (λ e. put_words (words_of text.now) ≡ Err e) }
{
    let Some((cluster, rest)) = first_word(text) else {
        return Err(Rule::Words);
    };
    let Some((table, rest)) = first_word(rest) else {
        return Err(Rule::Words);
    };
    let Some((row, cells)) = first_word(rest) else {
        return Err(Rule::Words);
    };
    if has_word(cells) {
        Ok((cluster, table, row, cells))
    } else {
        Err(Rule::Words)
    }
}

#[tactic(auto, unfolding(crate::specs::Puts::cluster_and_cells))]
fn cluster_and_cells(text: &[u8]) -> Result<(Cluster, &[u8], &[u8], &[u8]), Rule>
    ensures words { IfOk result (λ p. cluster_and_cells (words_of text.now) ≡ Ok (p.0, p.1.now, p.2.now, words_of p.3.now)) }
    ensures refused { IfErr result (λ e. cluster_and_cells (words_of text.now) ≡ Err e) }
{
    let (cluster, table, row, cells) = put_words(text)?;
    let cluster = cluster_word(cluster)?;
    Ok((cluster, table, row, cells))
}

/// A put, where the repeated values before it stand for so many bytes.
#[tactic(auto, unfolding(crate::specs::Puts::put))]
pub fn put(alloc: Global, repeated: u32, text: &[u8]) -> Result<Result<Made, Rule>, Memory>
    ensures { IfOk result (λ made. made ≡ put repeated (words_of text.now)) }
{
    let (cluster, table, row, cells) = match cluster_and_cells(text) {
        Ok(words) => words,
        Err(rule) => return Ok(Err(rule)),
    };
    let table = match name_word(alloc, table)? {
        Ok(table) => table,
        Err(rule) => return Ok(Err(rule)),
    };
    let row = match key_word(alloc, row)? {
        Ok(row) => row,
        Err(rule) => return Ok(Err(rule)),
    };
    let drafts = match drafts_word(alloc, cells)? {
        Ok(drafts) => drafts,
        Err(rule) => return Ok(Err(rule)),
    };
    let repeated = match used_with(repeated, drafts.as_slice()) {
        Ok(repeated) => repeated,
        Err(rule) => return Ok(Err(rule)),
    };
    let command = Command::Single(Event::Put {
        cluster,
        table,
        row,
        cells: cells_of(alloc, drafts)?,
    });
    Ok(Ok(Made {
        command: Some(command),
        repeated,
    }))
}
