//! Rows of rules, each on a function that does nothing: its clauses say that the definitions come to the row's lines.
ghost use Rattle.model_rows.specs.Frames.{AreFramesOf};
ghost use Rattle.model_rows.specs.Play.{ComesOut};
ghost use Rattle.model_rows.specs.Precedence as precedence;
ghost use Rattle.model_rows.specs.Rules as row;

/// The packets of these rows have the frames that the rows write.
#[tactic(auto, using(crate::proofs::RuleRows::frames))]
pub fn frames()
    ensures { AreFramesOf row.rule_frames }
{}

/// Of rules of one priority that match, the one that drops wins; numbers are compared as numbers, and a group's ports as ports.
#[tactic(auto, using(crate::proofs::RuleRows::equal_priority_rules, crate::proofs::RuleRows::widths, crate::proofs::RuleRows::group_on_two_switches))]
pub fn verdicts()
    ensures equal_priority_rules { ComesOut row.equal_priority_rules }
    ensures widths { ComesOut row.widths }
    ensures group_on_two_switches { ComesOut row.group_on_two_switches }
{}

/// A rule of greater priority comes before others, of equal priority one that rejects before one that allows; a rule on what goes to ports
/// speaks where a packet leaves.
#[tactic(auto, using(crate::proofs::RuleRows::lower_drop, crate::proofs::RuleRows::drop_at_exit, crate::proofs::RuleRows::reject_first))]
pub fn precedence()
    ensures lower_drop { ComesOut precedence.lower_drop }
    ensures drop_at_exit { ComesOut precedence.drop_at_exit }
    ensures reject_first { ComesOut precedence.reject_first }
{}

/// Answers pass, but where a rule has blocked the connection and none allows it again, where its port was bound anew, after being bound nowhere or with its chassis gone for a while too, or where it was idle too long.
#[tactic(auto, using(crate::proofs::RuleRows::blocked_connection, crate::proofs::RuleRows::unblocked_connection, crate::proofs::RuleRows::rebound_port, crate::proofs::RuleRows::unbound_port, crate::proofs::RuleRows::removed_chassis, crate::proofs::RuleRows::idle_connection, crate::proofs::RuleRows::used_connection))]
pub fn connections()
    ensures blocked_connection { ComesOut row.blocked_connection }
    ensures unblocked_connection { ComesOut row.unblocked_connection }
    ensures rebound_port { ComesOut row.rebound_port }
    ensures unbound_port { ComesOut row.unbound_port }
    ensures removed_chassis { ComesOut row.removed_chassis }
    ensures idle_connection { ComesOut row.idle_connection }
    ensures used_connection { ComesOut row.used_connection }
{}
