ghost use Rattle.std.specs.Prelude.{◌≤◌};

use crate::register::Register;
use ovn_base::limits::{MAX_DATAPATH_KEY, MAX_PORT_KEY};
use ovn_base::memory::NoMemory;
use ovn_base::name::Name;
use std::alloc::Global;
use std::test::Fail;
use tunnel_keys::fault::KeyFault;

fn name(text: &[u8]) -> Result<Name, NoMemory> {
    Name::read(text).ok_or(NoMemory)
}

// A datapath with the ports p1 and p2.
fn two_ports(alloc: Global, ports: u16, datapath: Name) -> Result<Register, KeyFault>
    requires some_ports { 1 ≤ ports }
    requires few_ports { ports ≤ MAX_PORT_KEY }
{
    let mut register = Register::with_ranges(alloc, MAX_DATAPATH_KEY, ports)?;
    register.add_datapath(datapath)?;
    register.add_port(datapath, name(b"p1")?)?;
    register.add_port(datapath, name(b"p2")?)?;
    Ok(register)
}

// The range has two keys of ports: with both live, or one live and one retired, there is none.
#[test]
fn retired_keys(rt: HostRuntime) -> Result<(), Fail> {
    let s0 = name(b"s0")?;
    let p3 = name(b"p3")?;
    let mut register = two_ports(rt.alloc(), 2, s0)?;
    let live = register.add_port(s0, p3);
    register.remove_last_port()?;
    let retired = register.add_port(s0, p3);
    register.settle();
    register.add_port(s0, p3)?;
    let none = Err(KeyFault::NoPortKey(s0));
    assert_eq!(rt; live, none);
    assert_eq!(rt; retired, none);
    assert_eq!(rt; register.keys().port(&p3), Some(2));
    Ok(())
}

// The range has one key of datapaths: a second datapath gets none, and the first keeps its own.
#[test]
fn no_datapath_key(rt: HostRuntime) -> Result<(), Fail> {
    let s0 = name(b"s0")?;
    let a0 = name(b"a0")?;
    let mut register = Register::with_ranges(rt.alloc(), 1, MAX_PORT_KEY)?;
    register.add_datapath(s0)?;
    let none = register.add_datapath(a0);
    assert_eq!(rt; none, Err(KeyFault::NoDatapathKey));
    assert_eq!(rt; register.keys().datapath(&s0), Some(1));
    Ok(())
}

// The key of a port that went is not its own again when it comes again, while frames may be on their way.
#[test]
fn late_frame_to_removed_port(rt: HostRuntime) -> Result<(), Fail> {
    let s0 = name(b"s0")?;
    let p2 = name(b"p2")?;
    let mut register = two_ports(rt.alloc(), MAX_PORT_KEY, s0)?;
    let first = register.keys().port(&p2);
    register.remove_last_port()?;
    let gone = register.keys().port(&p2);
    register.add_port(s0, p2)?;
    let keys = register.keys().copy()?;
    assert_eq!(rt; [first, gone, keys.port(&p2)], [Some(2), None, Some(3)]);
    Ok(())
}

// On each datapath ports have the least keys that are free there.
#[test]
fn least_keys(rt: HostRuntime) -> Result<(), Fail> {
    let s0 = name(b"s0")?;
    let a0 = name(b"a0")?;
    let p3 = name(b"p3")?;
    let mut register = two_ports(rt.alloc(), 2, s0)?;
    register.add_datapath(a0)?;
    register.add_port(a0, p3)?;
    let keys = register.keys();
    assert_eq!(rt;
        [keys.datapath(&s0), keys.datapath(&a0)],
        [Some(1), Some(2)]
    );
    let listed = keys.ports(&a0).map(|ports| ports.list.as_slice());
    assert_eq!(rt; listed, Some([(p3, 1)].as_slice()));
    Ok(())
}
