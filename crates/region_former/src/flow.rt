ghost use Rattle.std.specs.Prelude.{◌≡◌, ◌<◌, ℕ, length};
ghost use Rattle.code_blocks.specs.{Leads.{is_some_of, owner_at}, Edges.{successors}, Numbers.{end_at}};
ghost use Rattle.region_former.specs.Flow.{block_count, called_address, calls, IsPlace, IsOrderly};

use crate::naming::function_of;
use code_blocks::{Code, End};
use smallvec::SmallVec;

/// The function in whose range block `b` starts.
pub(crate) fn owner_of(code: &Code, b: usize) -> Option<usize>
    requires orderly { IsOrderly code.now }
    requires below { b < block_count code.now }
    ensures owner { result ≡ owner_at code.now b }
    ensures below { IsPlace (length code.now.functions.items) result }
{
    match code.blocks[b].function {
        Some(function) => Some(function as usize),
        None => None,
    }
}

/// The function that the call at the end of block `b` names, if that ends so.
pub(crate) fn called_function(code: &Code, b: usize) -> Option<usize>
    requires orderly { IsOrderly code.now }
    requires below { b < block_count code.now }
    ensures calls { (g : ℕ) → is_some_of result g ≡ calls code.now b g }
    ensures below { IsPlace (length code.now.functions.items) result }
{
    match called_address(&code.blocks[b].end) {
        Some(address) => function_of(code, address),
        None => None,
    }
}

/// Where a call goes, with or without return.
fn called_address(end: &End) -> Option<u32>
    ensures { result ≡ called_address end.now }
{
    match *end {
        End::Call { target, .. } | End::Tail { target } => Some(target),
        _ => None,
    }
}

/// The addresses to which the end of block `b` leads by itself. They need no memory.
pub(crate) fn successors_of(code: &Code, b: usize) -> SmallVec<u32, 2>
    requires { b < block_count code.now }
    ensures { result.items ≡ successors (end_at code.now b) }
{
    let alloc = *code.blocks.allocator();
    code.blocks[b].end.successors(alloc)
}
