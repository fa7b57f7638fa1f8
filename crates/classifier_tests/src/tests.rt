use crate::events::{Texts, take_line};
use crate::lines::{Dice, NAMES, NETWORK, next_line};
use crate::sims::{Empty, call};
use chassis_sim::sim::Sim;
use flow_table::tables::Tables;
use ovn_base::memory::NoMemory;
use ovn_base::name::Name;
use std::alloc::Global;
use std::test::Fail;
use tuple_space::space::TupleSpace;
use world_core::world::World;

// The kinds of outcome that the run is to have.
const OUTCOMES: &[&str] = &[
    " tunnel ",
    " out ",
    " lost ",
    " loopback\n",
    " vlan\n",
    " unknown-address\n",
    " refused NoFrame ",
];

// Has both take the lines of the network.
fn begin<T: Empty>(
    alloc: Global,
    world: &mut World,
    sim: &mut Sim<T>,
    texts: &mut Texts,
) -> Result<(), NoMemory> {
    for (datapath, port, name) in NAMES {
        let name = Name::read(name.as_bytes()).ok_or(NoMemory)?;
        call(alloc, sim, *datapath, *port, name)?;
    }
    for line in NETWORK {
        take_line(alloc, world, sim, line, texts)?;
    }
    Ok(())
}

// Has both take a generated run of this many lines.
fn go_on<T: Empty>(
    alloc: Global,
    world: &mut World,
    sim: &mut Sim<T>,
    rounds: u32,
    texts: &mut Texts,
) -> Result<(), NoMemory> {
    let mut dice = Dice(1);
    for _ in 0..rounds {
        let sent = sim.next_frame().min(1_001).saturating_sub(1);
        let line = next_line(alloc, &mut dice, sent as u32)?;
        take_line(alloc, world, sim, line.as_str(), texts)?;
    }
    Ok(())
}

// The texts of a run of both.
fn run_both<T: Empty>(
    alloc: Global,
    world: &mut World,
    sim: &mut Sim<T>,
) -> Result<Texts, NoMemory> {
    let mut texts = Texts {
        world: Vec::new(alloc),
        sim: Vec::new(alloc),
    };
    begin(alloc, world, sim, &mut texts)?;
    go_on(alloc, world, sim, 100, &mut texts)?;
    Ok(texts)
}

// What makes a run. A function over any such is proved in a second, and one that holds a world in many.
trait Runs: Drop {
    fn run<T: Empty>(&mut self, alloc: Global) -> Result<Texts, NoMemory>;
}

impl Runs for World {
    fn run<T: Empty>(&mut self, alloc: Global) -> Result<Texts, NoMemory> {
        let mut sim: Sim<T> = Sim::new(alloc)?;
        run_both(alloc, self, &mut sim)
    }
}

// The texts of a run from its beginning.
fn run<T: Empty, W: Runs>(alloc: Global, start: Result<W, NoMemory>) -> Result<Texts, NoMemory> {
    let mut start = start?;
    start.run::<T>(alloc)
}

// Whether the text tells of each kind of outcome.
fn tells_all(text: &[u8]) -> bool {
    let Ok(text) = str::from_utf8(text) else {
        return false;
    };
    for outcome in OUTCOMES {
        if !text.contains(*outcome) {
            return false;
        }
    }
    true
}

#[test]
fn both_write_the_same(rt: HostRuntime) -> Result<(), Fail> {
    let list = run::<Tables, World>(rt.alloc(), World::new(rt.alloc()))?;
    let masks = run::<TupleSpace, World>(rt.alloc(), World::new(rt.alloc()))?;
    assert!(rt; list.sim.as_slice() == masks.sim.as_slice());
    assert!(rt; list.sim.as_slice() == list.world.as_slice());
    assert!(rt; masks.sim.as_slice() == masks.world.as_slice());
    assert!(rt; tells_all(list.sim.as_slice()));
    Ok(())
}
