//! The lines of a generated run: switches, ports and chassis, and then packets and frames between which ports move.

use ovn_base::memory::NoMemory;
use std::alloc::Global;

/// Numbers that look thrown: the linear congruential generator of Numerical Recipes, of which the upper half counts.
#[derive(Drop)]
pub struct Dice(pub u32);

impl Dice {
    /// A number below that of the sides.
    pub fn throw(&mut self, sides: u32) -> u32 {
        self.0 = self.0.wrapping_mul(1_664_525).wrapping_add(1_013_904_223);
        (self.0 >> 16) % sides.max(1)
    }
}

/// Two switches, whose ports are bound to three chassis, and a frame for a port that moves before it arrives. The port p6 takes
/// packets for addresses that no port has.
pub const NETWORK: &[&str] = &[
    r#"{"edit":[{"add":"switch","name":"s0"}]}"#,
    r#"{"edit":[{"add":"switch","name":"s1"}]}"#,
    r#"{"chassis":{"add":"hv0"}}"#,
    r#"{"chassis":{"add":"hv1"}}"#,
    r#"{"chassis":{"add":"hv2"}}"#,
    r#"{"edit":[{"add":"switch_port","name":"p0","switch":"s0","addresses":["0a:00:00:00:00:00"]}]}"#,
    r#"{"bind":{"port":"p0","chassis":"hv0"}}"#,
    r#"{"edit":[{"add":"switch_port","name":"p1","switch":"s1","addresses":["0a:00:00:00:00:01"]}]}"#,
    r#"{"bind":{"port":"p1","chassis":"hv1"}}"#,
    r#"{"edit":[{"add":"switch_port","name":"p2","switch":"s0","addresses":["0a:00:00:00:00:02"]}]}"#,
    r#"{"bind":{"port":"p2","chassis":"hv2"}}"#,
    r#"{"edit":[{"add":"switch_port","name":"p3","switch":"s1","addresses":["0a:00:00:00:00:03"]}]}"#,
    r#"{"bind":{"port":"p3","chassis":"hv0"}}"#,
    r#"{"edit":[{"add":"switch_port","name":"p4","switch":"s0","addresses":["0a:00:00:00:00:04"]}]}"#,
    r#"{"bind":{"port":"p4","chassis":"hv1"}}"#,
    r#"{"edit":[{"add":"switch_port","name":"p5","switch":"s1","addresses":["0a:00:00:00:00:05"]}]}"#,
    r#"{"bind":{"port":"p5","chassis":"hv2"}}"#,
    r#"{"edit":[{"add":"switch_port","name":"p6","switch":"s0","addresses":["0a:00:00:00:00:06","unknown"]}]}"#,
    r#"{"bind":{"port":"p6","chassis":"hv0"}}"#,
    r#"{"edit":[{"add":"switch_port","name":"p7","switch":"s1","addresses":["0a:00:00:00:00:07"]}]}"#,
    r#"{"bind":{"port":"p7","chassis":"hv1"}}"#,
    r#"{"inject":{"port":"p0","frame":"0a00000000020a000000000088b56869"}}"#,
    r#"{"bind":{"port":"p2","chassis":"hv0"}}"#,
    r#"{"deliver":{"frame":1}}"#,
];

/// The keys of the switches and of the ports, and whose they are.
pub const NAMES: &[(u32, u16, &str)] = &[
    (1, 0, "s0"),
    (2, 0, "s1"),
    (1, 1, "p0"),
    (2, 1, "p1"),
    (1, 2, "p2"),
    (2, 2, "p3"),
    (1, 3, "p4"),
    (2, 3, "p5"),
    (1, 4, "p6"),
    (2, 4, "p7"),
];

// The line that binds a port to a chassis.
fn of_binding(alloc: Global, dice: &mut Dice) -> Result<String, NoMemory> {
    let port = dice.throw(8);
    let chassis = dice.throw(3);
    let line = format!(in alloc;
        "{{\"bind\":{{\"port\":\"p{port}\",\"chassis\":\"hv{chassis}\"}}}}"
    )?;
    Ok(line)
}

// The line that names one of the frames that were sent.
fn of_frame(alloc: Global, kind: &str, dice: &mut Dice, sent: u32) -> Result<String, NoMemory> {
    let frame = dice.throw(sent).wrapping_add(1);
    let line = format!(in alloc; "{{\"{kind}\":{{\"frame\":{frame}}}}}")?;
    Ok(line)
}

// The line by which a packet enters at a port: to one of the ports, to all, to an address that no port has, or with a tag.
fn of_packet(alloc: Global, kind: &str, dice: &mut Dice) -> Result<String, NoMemory> {
    let port = dice.throw(8);
    let to = dice.throw(8);
    let (front, tag) = match dice.throw(8) {
        0 => ("ffffffffff", "88b5"),
        1 => ("0c00000000", "88b5"),
        2 => ("0a00000000", "8100"),
        _ => ("0a00000000", "88b5"),
    };
    let line = format!(in alloc;
        "{{\"{kind}\":{{\"port\":\"p{port}\",\"frame\":\"{front}0{to}0a000000000{port}{tag}6869\"}}}}"
    )?;
    Ok(line)
}

/// A line of the run, where this many frames were sent before.
pub fn next_line(alloc: Global, dice: &mut Dice, sent: u32) -> Result<String, NoMemory> {
    match dice.throw(12) {
        0 => of_frame(alloc, "deliver", dice, sent),
        1 => of_frame(alloc, "repeat", dice, sent),
        2 => of_frame(alloc, "lose", dice, sent),
        3 => {
            let line = format!(in alloc; "{{\"drain\":{{}}}}")?;
            Ok(line)
        }
        4 => of_binding(alloc, dice),
        5 | 6 => of_packet(alloc, "packet", dice),
        _ => of_packet(alloc, "inject", dice),
    }
}
