//! The part of an input that is left out, and the request of a call: that part with limits.

ghost use Rattle.std.specs.Prelude.{◌≡◌, ◌==◌, map, IfOk};
ghost use Rattle.std.specs.List.{list_any};
ghost use Rattle.bit_grammar.specs.Setting.{setting_of};
ghost use Rattle.bit_c.specs.Limiting.{ToldOfAsked, asked_setting, blocks_told, limits_told, name_told};

use crate::limits::BsLimits;
use crate::outcome::Outcome;
use bit_fields::Limits;
use bit_norm::{Info, RecordName};
use std::alloc::{AllocError, Global};

/// Names records: those with this code directly in blocks with this id. Records of BLOCKINFO blocks have no name, because without
/// some of its records such a block is no BLOCKINFO block.
#[repr(C)]
#[derive(Clone, Copy)]
pub struct BsRecordName {
    pub block: u32,
    pub code: u64,
}

/// The part of an input that is left out.
#[repr(C)]
#[derive(Clone, Copy)]
pub struct BsLeftOut<'a> {
    /// The BLOCKINFO blocks, as if block 0 were named.
    pub info: bool,
    /// The blocks with these ids, at any depth and with all in them.
    pub blocks: &'a [u32],
    /// The records with these names.
    pub records: &'a [BsRecordName],
}

/// Limits that are within their caps, and the names of what is left out.
#[derive(Drop)]
pub(crate) struct Asked {
    pub(crate) limits: Limits,
    pub(crate) blocks: Vec<u32>,
    pub(crate) records: Vec<RecordName>,
}

impl Asked {
    pub(crate) fn setting(&self) -> Info<'_>
        ensures { setting_of result ≡ asked_setting self.now }
    {
        Info::Without {
            blocks: &self.blocks,
            records: &self.records,
        }
    }
}

/// Whether a name is for records of BLOCKINFO blocks.
fn name_info(names: &[BsRecordName]) -> bool
    ensures { result ≡ list_any (λ name. name.block == 0) names.now }
{
    names.iter().any(|name| name.block == 0)
}

/// The ids of blocks that are left out.
fn blocks_of(alloc: Global, left_out: &BsLeftOut<'_>) -> Result<Vec<u32>, AllocError>
    ensures { IfOk result (λ blocks. blocks.items ≡ blocks_told left_out.now) }
{
    let mut blocks = Vec::new(alloc);
    if left_out.info {
        blocks.push(0)?;
    }
    blocks.extend_from_slice(left_out.blocks)?;
    Ok(blocks)
}

/// The names of records in the form for the crates below.
fn names_of(alloc: Global, names: &[BsRecordName]) -> Result<Vec<RecordName>, AllocError>
    ensures { IfOk result (λ out. out.items ≡ map name_told names.now) }
{
    let mut out = Vec::new(alloc);
    for name in names.iter() {
        out.push(RecordName {
            block: name.block,
            code: name.code,
        })?;
    }
    Ok(out)
}

/// Limits and names in the form for the crates below, if they are fit.
pub(crate) fn asked_of(
    alloc: Global,
    limits: &BsLimits,
    left_out: &BsLeftOut<'_>,
) -> Result<Asked, Outcome>
    ensures { ToldOfAsked (limits_told limits.now) left_out.now result }
{
    let Some(limits) = limits.to_limits() else {
        return Err(Outcome::Limits);
    };
    if name_info(left_out.records) {
        return Err(Outcome::Names);
    }
    let Ok(blocks) = blocks_of(alloc, left_out) else {
        return Err(Outcome::Memory);
    };
    let Ok(records) = names_of(alloc, left_out.records) else {
        return Err(Outcome::Memory);
    };
    Ok(Asked {
        limits,
        blocks,
        records,
    })
}
