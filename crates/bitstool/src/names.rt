//! The names of what is left out, read from arguments.

ghost use Rattle.std.specs.Prelude.{ℕ, [], MatchOption, MatchResult};
ghost use Rattle.clap.specs.Walk.{texts};
ghost use Rattle.bit_grammar.specs.declared.info.RecordName.{RecordName as RecordValue};
ghost use Rattle.bitstool.specs.Names.{IsUnnamed, NameEach, NamesBlock, NamesCode, NamesRecord};

use bit_tree::RecordName;
use std::alloc::Global;

/// The reason why texts do not name what is left out.
#[derive(Clone, Copy, Debug)]
pub enum Unnamed<'a> {
    /// This text should name blocks.
    Block(&'a str),
    /// This text should name records.
    Record(&'a str),
    /// An allocation for the names failed.
    Memory,
}

/// The id of the blocks that a text names.
fn block_named(text: &str) -> Option<u32>
    ensures { MatchOption result ((id : ℕ) → NamesBlock text.now id → ⊥) (NamesBlock text.now) }
{
    text.parse::<u32>().ok()
}

/// The code that a text has after its colon.
fn code_named(text: &str) -> Option<u64>
    ensures { MatchOption result ((code : ℕ) → NamesCode text.now code → ⊥) (NamesCode text.now) }
{
    text.parse::<u64>().ok()
}

/// The records that a text names.
fn record_named(text: &str) -> Option<RecordName>
    ensures { MatchOption result ((name : RecordValue) → NamesRecord text.now name → ⊥)
        (NamesRecord text.now) }
{
    let (front, back) = text.split_once(':')?;
    let block = block_named(front)?;
    let code = code_named(back)?;
    if block == 0 {
        return None;
    }
    Some(RecordName { block, code })
}

/// The ids of the blocks that texts name, in order.
pub fn blocks_named<'a>(alloc: Global, given: &[&'a str]) -> Result<Vec<u32>, Unnamed<'a>>
    ensures { MatchResult result (λ ids. NameEach NamesBlock (texts given.now) ids.items)
        (IsUnnamed (texts given.now) []) }
{
    let mut ids = Vec::new(alloc);
    for text in given {
        match block_named(text) {
            Some(id) => {
                if ids.push(id).is_err() {
                    return Err(Unnamed::Memory);
                }
            }
            None => return Err(Unnamed::Block(text)),
        }
    }
    Ok(ids)
}

/// The records that texts name, in order.
pub fn records_named<'a>(alloc: Global, given: &[&'a str]) -> Result<Vec<RecordName>, Unnamed<'a>>
    ensures { MatchResult result (λ names. NameEach NamesRecord (texts given.now) names.items)
        (IsUnnamed [] (texts given.now)) }
{
    let mut names = Vec::new(alloc);
    for text in given {
        match record_named(text) {
            Some(name) => {
                if names.push(name).is_err() {
                    return Err(Unnamed::Memory);
                }
            }
            None => return Err(Unnamed::Record(text)),
        }
    }
    Ok(names)
}
