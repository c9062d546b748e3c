ghost use Rattle.std.specs.Prelude.{◌≡◌, ℕ, ◌+◌, ◌-◌, ◌/◌, ◌^◌, ◌<◌, true, length, map, IfOk};
ghost use Rattle.std.specs.List.{All};
ghost use Rattle.elf_reader.specs.{File.{plain_view}, Loaded.{section_at}};
ghost use Rattle.loaded_file.specs.{Code.{holds_code}, Read.{IsRead}};
ghost use Rattle.code_blocks.specs.{AllLeaders.{IsLeaders}, Ends.{words_left}, Steps.{IsWalk}};

use crate::ends::End;
use crate::lists::Leaders;
use crate::parts::Unit;
use crate::ranges::{lowest_range, words_from};
use crate::steps::{end_behind, unit_at};
use loaded_file::{LoadedFile, word_in};
use std::alloc::{AllocError, Global};

/// What a walk through the words of a block finds.
#[derive(Drop)]
pub(crate) struct Walk {
    /// Its units, in order.
    pub(crate) units: Vec<Unit>,
    /// How it ends.
    pub(crate) end: End,
}

/// The units and the end of the block that begins at `start`.
pub(crate) fn walk_from(
    alloc: Global,
    file: &LoadedFile,
    leaders: &Leaders,
    start: u32,
) -> Result<Walk, AllocError>
    requires read { IsRead file.now.view.now }
    requires leaders { IsLeaders (plain_view file.now.view.now) leaders.now }
    ensures { IfOk result (IsWalk (plain_view file.now.view.now) start (words_left (plain_view file.now.view.now) start)) }
{
    match lowest_range(file, start) {
        Some(k) => walk_in(alloc, file, leaders, k, start),
        None => Ok(Walk {
            units: Vec::new(alloc),
            end: End::Stop,
        }),
    }
}

/// Those of the block that begins at `start` in code range `k`.
fn walk_in(
    alloc: Global,
    file: &LoadedFile,
    leaders: &Leaders,
    k: usize,
    start: u32,
) -> Result<Walk, AllocError>
    requires read { IsRead file.now.view.now }
    requires leaders { IsLeaders (plain_view file.now.view.now) leaders.now }
    requires holds { holds_code (plain_view file.now.view.now) start k ≡ true }
    ensures { IfOk result (IsWalk (plain_view file.now.view.now) start (((section_at (plain_view file.now.view.now) k).addr + (section_at (plain_view file.now.view.now) k).size - start) / 4)) }
{
    let mut units = Vec::new(alloc);
    for i in 0..words_from(file.view, k, start) {
        let address = start + 4 * i;
        let word = word_in(file.view, k, address);
        units.push(unit_at(leaders, address, word))?;
        if let Some(end) = end_behind(file, leaders, address, word) {
            return Ok(Walk { units, end });
        }
    }
    Ok(Walk {
        units,
        end: End::Stop,
    })
}
