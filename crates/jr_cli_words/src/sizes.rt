ghost use Rattle.std.specs.Prelude.{◌≡◌, ◌⊎◌, ◌<◌, ◌≤◌, true, length, Some, None, Ok, Err, SomeIff, IfOk, IfErr, IfSome};
ghost use Rattle.std.specs.Option.{option_copied};
ghost use Rattle.jr_cli_words.specs.BlockSizes.{is_block_size};
ghost use Rattle.jr_cli_words.specs.CommandLine.{number_in};

use crate::faults::CliFault;
use jr_model::SECTOR;
use jr_plan::Plan;
use std::marker::Model;

const SIZES: [u64; 8] = [512, 1024, 2048, 4096, 8192, 16384, 32768, 65536];

/// How many bytes a block has in a list of bad blocks: a power of two from 512 to 65536.
#[derive(Drop)]
pub struct BlockSize {
    bytes: u64,
}

impl Model for BlockSize {
    ghost use Rattle.std.specs.Prelude.{ℕ, ◌≡◌, true};
    ghost use Rattle.jr_cli_words.specs.BlockSizes.{is_block_size};

    ghost Value = { ℕ };

    ghost view = { λ a. a.bytes };

    ghost invariant = { λ a. is_block_size a.bytes ≡ true };
}

impl BlockSize {
    /// The size of so many bytes, if it is one.
    pub fn new(bytes: u64) -> Option<BlockSize>
        ensures { SomeIff result (is_block_size bytes ≡ true) bytes }
    {
        if SIZES.contains(&bytes) {
            Some(BlockSize { bytes })
        } else {
            None
        }
    }

    /// How many bytes that are.
    pub fn bytes(&self) -> u64
        ensures value { result ≡ self.now }
        ensures least { SECTOR ≤ result }
    {
        self.bytes
    }
}

/// How many bytes a block has in a list of the plan's bad blocks: as these digits say, or 1024. The list is of one file.
pub fn list_size(plan: &Plan, digits: Option<&str>) -> Result<BlockSize, CliFault>
    ensures several { 1 < length plan.now.files → result ≡ Err CliFault.SeveralFiles }
    ensures read { IfOk result (λ size. IfSome (option_copied digits.entry) (λ text. size ≡ number_in text)) }
    ensures default { length plan.now.files ≤ 1 → option_copied digits.entry ≡ None → result ≡ Ok 1024 }
    ensures fault { IfErr result (λ fault. (fault ≡ CliFault.SeveralFiles) ⊎ (fault ≡ CliFault.BlockSize)) }
{
    if plan.files().len() > 1 {
        return Err(CliFault::SeveralFiles);
    }
    match size_in(digits) {
        Some(size) => Ok(size),
        None => Err(CliFault::BlockSize),
    }
}

// The size that these digits say, or 1024.
fn size_in(digits: Option<&str>) -> Option<BlockSize>
    ensures read { IfSome result (λ size. IfSome (option_copied digits.entry) (λ text. size ≡ number_in text)) }
    ensures default { option_copied digits.entry ≡ None → result ≡ Some 1024 }
{
    let Some(digits) = digits else {
        return BlockSize::new(1024);
    };
    match digits.parse::<u64>() {
        Ok(bytes) => BlockSize::new(bytes),
        Err(_) => None,
    }
}
