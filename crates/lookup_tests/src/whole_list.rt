//! The list of all flows, which chassis of tests hold.

use crate::flows::{Row, change, count, flow, packet, taken};
use flow_table::flow::SharedFlow;
use flow_table::tables::Tables;
use ovn_base::list::List;
use ovn_base::memory::NoMemory;
use std::alloc::Global;
use std::test::Fail;

// A flow for the packets of the datapath of the key 1.
fn on_one(alloc: Global, table: u8, priority: u16, rank: u8) -> Result<SharedFlow, NoMemory> {
    let row = Row {
        table,
        priority,
        rank,
        asks: 1,
        wants: 1,
    };
    flow(alloc, &row)
}

#[test]
fn takes_the_greater_rank_of_its_table(rt: HostRuntime) -> Result<(), Fail> {
    let alloc = rt.alloc();
    let mut tables = Tables::new(alloc)?;
    change(&mut tables, on_one(alloc, 8, 100, 1)?, List::new(alloc))?;
    change(&mut tables, on_one(alloc, 8, 100, 2)?, List::new(alloc))?;
    change(&mut tables, on_one(alloc, 14, 200, 0)?, List::new(alloc))?;
    let packet = packet(alloc, 1);
    assert_eq!(rt; taken(&tables, 8, 1, &packet), Some((100, 2)));
    assert_eq!(rt; taken(&tables, 14, 1, &packet), Some((200, 0)));
    assert_eq!(rt; taken(&tables, 9, 1, &packet), None);
    assert_eq!(rt; taken(&tables, 8, 2, &packet), None);
    Ok(())
}

#[test]
fn changes_by_a_delta(rt: HostRuntime) -> Result<(), Fail> {
    let alloc = rt.alloc();
    let packet = packet(alloc, 1);
    let mut tables = Tables::new(alloc)?;
    change(&mut tables, on_one(alloc, 8, 200, 0)?, List::new(alloc))?;
    assert_eq!(rt; taken(&tables, 8, 1, &packet), Some((200, 0)));
    let mut goes = List::new(alloc);
    goes.push(on_one(alloc, 8, 200, 0)?)?;
    change(&mut tables, on_one(alloc, 8, 150, 0)?, goes)?;
    assert_eq!(rt; taken(&tables, 8, 1, &packet), Some((150, 0)));
    assert_eq!(rt; count(&tables, 3), 1);
    Ok(())
}
