//! Rows of switches, each on a function that does nothing: its clauses say that the definitions come to the row's lines.
ghost use Rattle.model_rows.specs.Frames.{AreFramesOf};
ghost use Rattle.model_rows.specs.Play.{ComesOut};
ghost use Rattle.model_rows.specs.Switch as row;

/// The packets of these rows have the frames that the rows write.
#[tactic(auto, using(crate::proofs::SwitchRows::frames))]
pub fn frames()
    ensures { AreFramesOf row.switch_frames }
{}

/// A frame for a port goes to it, on its own chassis and through a tunnel, and never back to the port of entry.
#[tactic(auto, using(crate::proofs::SwitchRows::first_path, crate::proofs::SwitchRows::tunnel_row, crate::proofs::SwitchRows::loopback))]
pub fn known_addresses()
    ensures first_path { ComesOut row.first_path }
    ensures tunnel { ComesOut row.tunnel_row }
    ensures loopback { ComesOut row.loopback }
{}

/// A request for an address is answered in the name of its port, or goes to all; a frame for nobody goes to those that want it.
#[tactic(auto, using(crate::proofs::SwitchRows::arp_answers, crate::proofs::SwitchRows::unknown_group, crate::proofs::SwitchRows::broadcast_beside_distributed_router))]
pub fn groups()
    ensures arp_answers { ComesOut row.arp_answers }
    ensures unknown_group { ComesOut row.unknown_group }
    ensures broadcast_beside_distributed_router { ComesOut row.broadcast_beside_distributed_router }
{}

/// A port may send from its own addresses alone, and gets what is for them.
#[tactic(auto, using(crate::proofs::SwitchRows::port_security, crate::proofs::SwitchRows::secured_addresses))]
pub fn port_security()
    ensures port_security { ComesOut row.port_security }
    ensures secured_addresses { ComesOut row.secured_addresses }
{}
