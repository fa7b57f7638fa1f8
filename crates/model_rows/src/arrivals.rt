//! Rows of frames between chassis, each on a function that does nothing: its clauses say that the definitions come to the row's
//! lines.
ghost use Rattle.model_rows.specs.Arrivals as row;
ghost use Rattle.model_rows.specs.Play.{ComesOut};

/// A frame is lost where its port is gone, also where another port has the name; else it arrives as often as it is delivered.
#[tactic(auto, using(crate::proofs::ArrivalRows::late_frame_to_removed_port, crate::proofs::ArrivalRows::repeated_and_lost_frames, crate::proofs::ArrivalRows::retired_keys))]
pub fn arrivals()
    ensures late_frame_to_removed_port { ComesOut row.late_frame_to_removed_port }
    ensures repeated_and_lost_frames { ComesOut row.repeated_and_lost_frames }
    ensures retired_keys { ComesOut row.retired_keys }
{}

/// One to all gives its port of entry no copy, wherever that is by then, and another port of the name one.
#[tactic(auto, using(crate::proofs::ArrivalRows::moved_port_of_entry, crate::proofs::ArrivalRows::replaced_port_of_entry))]
pub fn ports_of_entry()
    ensures moved_port_of_entry { ComesOut row.moved_port_of_entry }
    ensures replaced_port_of_entry { ComesOut row.replaced_port_of_entry }
{}
