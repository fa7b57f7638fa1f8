//! Flows, and tables that hold them.
ghost use Rattle.std.specs.Prelude.{IfOk};
ghost use Rattle.switch_engine.specs.Proper.{IsProper, IsProperFlow};

use crate::proper::is_proper;
use flow_table::flow::{Flow, FlowOp, SharedFlow};
use flow_table::lookup::Lookup;
use flow_table::tables::Tables;
use inet_packet::cube::Cube;
use ovn_base::delta::Delta;
use ovn_base::list::List;
use ovn_base::memory::NoMemory;
use std::alloc::Global;

/// The row of the table that does the actions.
pub fn row<const N: usize>(
    alloc: Global,
    table: u8,
    cube: Cube,
    ops: [FlowOp; N],
) -> Result<SharedFlow, NoMemory> {
    Flow::shared(alloc, table, 100, 0, cube, &ops)
}

// Adds a proper flow.
fn put(tables: &mut Tables, flow: SharedFlow) -> Result<(), NoMemory>
    requires tables { IsProper tables.old.flows }
    requires flow { IsProperFlow flow }
    ensures { IsProper tables.new.flows }
{
    let alloc = flow.get().ops.allocator();
    let mut added = List::new(alloc);
    let mut removed = List::new(alloc);
    removed.push(flow.share()?)?;
    added.push(flow)?;
    let delta = Delta { added, removed };
    tables.prepare(&delta)?;
    tables.replace(delta);
    Ok(())
}

/// The flows whose actions may stand in their tables.
pub fn put_all(alloc: Global, flows: Vec<SharedFlow>) -> Result<Tables, NoMemory>
    ensures { IfOk result (λ t. IsProper t.flows) }
{
    let mut tables = Tables::new(alloc)?;
    'flows: for flow in flows {
        if is_proper(&flow) {
            put(&mut tables, flow)?;
        }
    }
    Ok(tables)
}
