use crate::flows::{Row, are_copied, change, count, flow, packet, remove, taken};
use flow_table::flow::SharedFlow;
use flow_table::lookup::Lookup;
use flow_table::tables::Tables;
use ovn_base::list::List;
use ovn_base::memory::NoMemory;
use std::alloc::Global;
use std::test::Fail;
use tuple_space::space::TupleSpace;

// Numbers that look thrown: the linear congruential generator of Numerical Recipes, of which the upper half counts.
#[derive(Drop)]
struct Dice(u32);

impl Dice {
    fn throw(&mut self, sides: u32) -> u32 {
        self.0 = self.0.wrapping_mul(1_664_525).wrapping_add(1_013_904_223);
        (self.0 >> 16) % sides.max(1)
    }

    fn table(&mut self) -> u8 {
        if self.throw(2) == 0 { 8 } else { 14 }
    }

    // A flow of one of so many masks.
    fn flow(&mut self, alloc: Global, masks: u32) -> Result<SharedFlow, NoMemory> {
        let table = self.table();
        let priority = if self.throw(2) == 0 { 100 } else { 200 };
        let rank = if self.throw(2) == 0 { 0 } else { 1 };
        let asks = self.throw(masks);
        let wants = self.throw(3);
        let row = Row {
            table,
            priority,
            rank,
            asks,
            wants,
        };
        flow(alloc, &row)
    }

    fn flows(
        &mut self,
        alloc: Global,
        masks: u32,
        many: usize,
    ) -> Result<List<SharedFlow>, NoMemory> {
        let mut flows = List::new(alloc);
        for _ in 0..many {
            flows.push(self.flow(alloc, masks)?)?;
        }
        Ok(flows)
    }
}

// The answers of a run as one number. In each round a flow comes, eleven go if they are there, and a packet asks.
fn run<T: Lookup>(alloc: Global, held: &mut T, masks: u32, rounds: u32) -> Result<u32, NoMemory> {
    let mut dice = Dice(1);
    let mut told: u32 = 0;
    for _ in 0..rounds {
        let comes = dice.flow(alloc, masks)?;
        let goes = dice.flows(alloc, masks, 11)?;
        change(held, comes, goes)?;
        let table = dice.table();
        let number = if dice.throw(2) == 0 { 1 } else { 2 };
        let answer = match taken(held, table, number, &packet(alloc, 1)) {
            Some((priority, rank)) => u32::from(priority) + u32::from(rank),
            None => 0,
        };
        told = told.wrapping_mul(31).wrapping_add(answer);
    }
    Ok(told)
}

// A flow of table 8 that asks for the datapath, or for nothing.
fn asking(alloc: Global, asks: u32, priority: u16, rank: u8) -> Result<SharedFlow, NoMemory> {
    let row = Row {
        table: 8,
        priority,
        rank,
        asks,
        wants: 1,
    };
    flow(alloc, &row)
}

// What a packet takes where two flows have one mask and the same values, and one has another mask; and then when the better
// of the two goes, when the mask's last flow goes, and when the other mask's goes.
fn falling<T: Lookup>(alloc: Global, held: &mut T) -> Result<[Option<(u16, u8)>; 4], NoMemory> {
    let packet = packet(alloc, 1);
    change(held, asking(alloc, 1, 200, 0)?, List::new(alloc))?;
    change(held, asking(alloc, 1, 200, 1)?, List::new(alloc))?;
    change(held, asking(alloc, 0, 50, 0)?, List::new(alloc))?;
    let best = taken(held, 8, 1, &packet);
    remove(held, asking(alloc, 1, 200, 1)?)?;
    let second = taken(held, 8, 1, &packet);
    remove(held, asking(alloc, 1, 200, 0)?)?;
    let other = taken(held, 8, 1, &packet);
    remove(held, asking(alloc, 0, 50, 0)?)?;
    Ok([best, second, other, taken(held, 8, 1, &packet)])
}

// What a program in another language tells of the same run: of the 300 packets 41 find nothing, 19 and 47 the flows of
// priority 100 with rank 0 and 1, and 86 and 107 those of priority 200; 15 flows are held at most, and 9 at the end.
#[test]
fn the_list_answers_as_told(rt: HostRuntime) -> Result<(), Fail> {
    let mut list = Tables::new(rt.alloc())?;
    let told = run(rt.alloc(), &mut list, 6, 300)?;
    assert_eq!(rt; (told, count(&list, 100)), (602_776_310, 9));
    Ok(())
}

#[test]
fn the_classifier_answers_as_the_list(rt: HostRuntime) -> Result<(), Fail> {
    let mut masks = TupleSpace::new(rt.alloc())?;
    let told = run(rt.alloc(), &mut masks, 6, 300)?;
    assert_eq!(rt; (told, count(&masks, 100)), (602_776_310, 9));
    Ok(())
}

#[test]
fn among_many_masks_the_classifier_answers_as_the_list(rt: HostRuntime) -> Result<(), Fail> {
    let mut list = Tables::new(rt.alloc())?;
    let told = run(rt.alloc(), &mut list, 14, 600)?;
    let mut masks = TupleSpace::new(rt.alloc())?;
    let same = run(rt.alloc(), &mut masks, 14, 600)?;
    assert_eq!(rt; (same, count(&masks, 200)), (told, count(&list, 200)));
    Ok(())
}

#[test]
fn operations_and_flows_are_copied(rt: HostRuntime) -> Result<(), Fail> {
    assert!(rt; are_copied(rt.alloc())?);
    Ok(())
}

#[test]
fn the_next_flow_is_found_when_the_best_goes(rt: HostRuntime) -> Result<(), Fail> {
    let mut masks = TupleSpace::new(rt.alloc())?;
    let answers = falling(rt.alloc(), &mut masks)?;
    assert_eq!(rt;
        answers,
        [Some((200, 1)), Some((200, 0)), Some((50, 0)), None]
    );
    Ok(())
}
