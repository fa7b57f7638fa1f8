//! The packets that flows ask for.

use inet_packet::cube::{Bits, Cube};
use inet_packet::regs::At;

/// Every packet.
pub fn all() -> Cube {
    Cube::EVERYTHING
}

/// Those that enter there.
pub fn at(entry: At) -> Cube {
    let mut cube = all();
    cube.at = Some(entry);
    cube
}

/// Those of which the zone says so: 1 where they are new, 2 forward, 3 answers; and 4 where their connection is blocked.
pub fn seen(state: u64, blocked: u64) -> Cube {
    let mut cube = all();
    cube.state = Bits {
        value: state,
        mask: 7,
    };
    cube.flags = Bits {
        value: blocked,
        mask: 4,
    };
    cube
}

/// Those of which the next hop is the address.
pub fn next_to(ip: u64) -> Cube {
    let mut cube = all();
    cube.next = Bits {
        value: ip,
        mask: 0xffff_ffff,
    };
    cube
}

/// Those on the datapath of the key that came in at its port of the key.
pub fn on(datapath: u64, port: u64) -> Cube {
    let mut cube = all();
    cube.dp = Bits {
        value: datapath,
        mask: 0xff_ffff,
    };
    cube.in_port = Bits {
        value: port,
        mask: 0xffff,
    };
    cube
}

/// Those that come from the address.
pub fn from(ip: u64) -> Cube {
    let mut cube = all();
    cube.ip4_src = Bits {
        value: ip,
        mask: 0xffff_ffff,
    };
    cube
}

/// Those that are new to the zone and come from the address.
pub fn new_from(ip: u64) -> Cube {
    let mut cube = seen(1, 0);
    cube.ip4_src = from(ip).ip4_src;
    cube
}
