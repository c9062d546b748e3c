ghost use Rattle.std.specs.Prelude.{◌≡◌, ℕ, ◌<◌, ◌≤◌, ◌==◌, ◌&&◌, ◌||◌, nat_lt, length, IfOk};
ghost use Rattle.std.specs.List.{list_any};
ghost use Rattle.code_blocks.specs.{Numbers.{start_at, Ascends}, Leads.{leads_to}};
ghost use Rattle.block_splitter.specs.Facts.{block_count, sources_at, AreSources};

use crate::block_form::Sources;
use code_blocks::Code;
use std::alloc::{AllocError, Global};

/// The sources of each block.
pub(crate) fn all_sources(alloc: Global, code: &Code) -> Result<Vec<Sources>, AllocError>
    requires ascending { Ascends code.now }
    ensures each { IfOk result (λ sources. length sources.items ≡ block_count code.now) }
    ensures are { IfOk result (λ sources. (b : ℕ) → b < block_count code.now → AreSources code.now b (block_count code.now) (sources_at sources.items b)) }
{
    let mut sources = own_sources(alloc, code)?;
    add_all(&mut sources, code);
    Ok(sources)
}

/// Each block as its own source.
fn own_sources(alloc: Global, code: &Code) -> Result<Vec<Sources>, AllocError>
    requires ascending { Ascends code.now }
    ensures each { IfOk result (λ sources. length sources.items ≡ block_count code.now) }
    ensures own { IfOk result (λ sources. (b : ℕ) → b < block_count code.now → ((sources_at sources.items b).least ≡ b) × ((sources_at sources.items b).greatest ≡ b)) }
{
    let mut sources = Vec::with_capacity(alloc, code.blocks.len())?;
    for b in 0..code.blocks.len() {
        let own = number_of(code, b);
        sources.push(Sources {
            least: own,
            greatest: own,
        })?;
    }
    Ok(sources)
}

/// The number of a block in 32 bits: blocks begin at addresses, so there are no more.
pub(crate) fn number_of(code: &Code, block: usize) -> u32
    requires ascending { Ascends code.now }
    requires below { block < block_count code.now }
    ensures { result ≡ block }
{
    number_below(block, code.blocks[block].start)
}

/// A number that is at most an address, in 32 bits.
fn number_below(number: usize, address: u32) -> u32
    requires { number ≤ address }
    ensures { result ≡ number }
{
    number as u32
}

/// Adds the sources of all blocks.
fn add_all(sources: &mut [Sources], code: &Code)
    requires ascending { Ascends code.now }
    requires each { length sources.old ≡ block_count code.now }
    requires own { (b : ℕ) → b < block_count code.now → ((sources_at sources.old b).least ≡ b) × ((sources_at sources.old b).greatest ≡ b) }
    ensures each { length sources.new ≡ block_count code.now }
    ensures are { (b : ℕ) → b < block_count code.now → AreSources code.now b (block_count code.now) (sources_at sources.new b) }
{
    for a in 0..code.blocks.len() {
        add_behind(sources, code, a);
    }
}

/// Adds block `a` to the sources of the blocks to which it leads.
fn add_behind(sources: &mut [Sources], code: &Code, a: usize)
    requires ascending { Ascends code.now }
    requires below { a < block_count code.now }
    requires each { length sources.old ≡ block_count code.now }
    ensures each { length sources.new ≡ length sources.old }
    ensures least { (b first : ℕ) → b < block_count code.now → nat_lt (sources_at sources.new b).least first ≡ (nat_lt (sources_at sources.old b).least first || (nat_lt a first && leads_to code.now a b)) }
    ensures greatest { (b last : ℕ) → b < block_count code.now → nat_lt last (sources_at sources.new b).greatest ≡ (nat_lt last (sources_at sources.old b).greatest || (nat_lt last a && leads_to code.now a b)) }
{
    let addresses = code.blocks[a].end.successors(*code.blocks.allocator());
    add_at_all(sources, code, a, addresses.as_slice());
}

/// Adds block `a` to the sources of the blocks at addresses.
fn add_at_all(sources: &mut [Sources], code: &Code, a: usize, addresses: &[u32])
    requires ascending { Ascends code.now }
    requires below { a < block_count code.now }
    requires each { length sources.old ≡ block_count code.now }
    ensures each { length sources.new ≡ length sources.old }
    ensures least { (b first : ℕ) → b < block_count code.now → nat_lt (sources_at sources.new b).least first ≡ (nat_lt (sources_at sources.old b).least first || (nat_lt a first && list_any (λ x. x == start_at code.now b) addresses.now)) }
    ensures greatest { (b last : ℕ) → b < block_count code.now → nat_lt last (sources_at sources.new b).greatest ≡ (nat_lt last (sources_at sources.old b).greatest || (nat_lt last a && list_any (λ x. x == start_at code.now b) addresses.now)) }
{
    for address in addresses {
        add_at(sources, code, a, *address);
    }
}

/// Adds block `a` to the sources of the block at an address, if one begins there.
fn add_at(sources: &mut [Sources], code: &Code, a: usize, address: u32)
    requires ascending { Ascends code.now }
    requires below { a < block_count code.now }
    requires each { length sources.old ≡ block_count code.now }
    ensures each { length sources.new ≡ length sources.old }
    ensures least { (b first : ℕ) → b < block_count code.now → nat_lt (sources_at sources.new b).least first ≡ (nat_lt (sources_at sources.old b).least first || (nat_lt a first && (address == start_at code.now b))) }
    ensures greatest { (b last : ℕ) → b < block_count code.now → nat_lt last (sources_at sources.new b).greatest ≡ (nat_lt last (sources_at sources.old b).greatest || (nat_lt last a && (address == start_at code.now b))) }
{
    if let Some(block) = code.block_at(address) {
        let source = number_of(code, a);
        let old = sources[block as usize];
        sources[block as usize] = Sources {
            least: old.least.min(source),
            greatest: old.greatest.max(source),
        };
    }
}
