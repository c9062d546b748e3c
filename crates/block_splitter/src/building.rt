ghost use Rattle.std.specs.Prelude.{◌≡◌, ℕ, ◌<◌, false, length, slice_index_or, IfOk};
ghost use Rattle.std.specs.List.Sorted.{IsStrictlyIncreasing};
ghost use Rattle.code_blocks.specs.{Early.{has}, Blocks.{IsSomeCode}, Numbers.{start_at}};
ghost use Rattle.object_graph.specs.Lookups.{IsSomeGraph};
ghost use Rattle.dataflow.specs.Tables.{IsTableOf};
ghost use Rattle.block_splitter.specs.Facts.{block_count, form_at, IsFormAt, IsTable};

use crate::block_form::BlockForm;
use crate::forms::form_of;
use crate::sources::all_sources;
use crate::table::Table;
use code_blocks::{Code, has_address};
use dataflow::LiveTable;
use object_graph::Graph;
use std::alloc::{AllocError, Global};

/// The table of a program.
pub(crate) fn table_of(
    alloc: Global,
    code: &Code,
    live: &LiveTable,
    graph: &Graph,
) -> Result<Table, AllocError>
    requires code { IsSomeCode code.now }
    requires live { IsTableOf code.now live.now }
    requires graph { IsSomeGraph graph.now }
    ensures { IfOk result (IsTable code.now graph.now) }
{
    let forms = all_forms(alloc, code, live, graph)?;
    let sources = all_sources(alloc, code)?;
    let indirect = all_indirect(alloc, code)?;
    Ok(Table {
        forms,
        sources,
        indirect,
    })
}

fn all_forms(
    alloc: Global,
    code: &Code,
    live: &LiveTable,
    graph: &Graph,
) -> Result<Vec<Option<BlockForm>>, AllocError>
    requires code { IsSomeCode code.now }
    requires live { IsTableOf code.now live.now }
    requires graph { IsSomeGraph graph.now }
    ensures each { IfOk result (λ forms. length forms.items ≡ block_count code.now) }
    ensures are { IfOk result (λ forms. (b : ℕ) → b < block_count code.now → IsFormAt code.now graph.now b (form_at forms.items b)) }
{
    let mut forms = Vec::with_capacity(alloc, code.blocks.len())?;
    for b in 0..code.blocks.len() {
        forms.push(form_of(code, live, graph, b))?;
    }
    Ok(forms)
}

fn all_indirect(alloc: Global, code: &Code) -> Result<Vec<bool>, AllocError>
    requires { IsStrictlyIncreasing code.now.indirect.items }
    ensures each { IfOk result (λ indirect. length indirect.items ≡ block_count code.now) }
    ensures are { IfOk result (λ indirect. (b : ℕ) → b < block_count code.now → slice_index_or indirect.items b false ≡ has code.now.indirect.items (start_at code.now b)) }
{
    let mut indirect = Vec::with_capacity(alloc, code.blocks.len())?;
    for b in 0..code.blocks.len() {
        indirect.push(has_address(&code.indirect, code.blocks[b].start))?;
    }
    Ok(indirect)
}
