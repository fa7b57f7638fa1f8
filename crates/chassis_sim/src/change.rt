//! A change of what the chassis hold.

use flow_table::flow::SharedFlow;
use ovn_base::delta::Delta;
use ovn_base::list::List;
use ovn_base::name::Name;

/// What comes to the chassis and what goes: first the deltas of tables are made, then chassis go, then chassis come, and
/// then zones are emptied.
#[derive(Drop)]
pub struct SimChange<T> {
    /// The chassis that come, each with its tables and without a zone. One that is there already gets these tables.
    pub added: List<(Name, T)>,
    /// The chassis that go, with their zones.
    pub removed: List<Name>,
    /// How the tables of chassis change. No chassis stands twice; one that isn't held has no tables.
    pub tables: List<(Name, Delta<SharedFlow>)>,
    /// The zones that are emptied, by chassis and number. One that isn't there comes; on a chassis that isn't held nothing comes of it.
    pub emptied: List<(Name, u16)>,
    /// The ports that are bound to a chassis, or to none.
    pub bound: List<(Name, Option<Name>)>,
    /// The names of pairs of a datapath key and a port key; the port key 0 is for the datapath itself.
    pub names: List<(u32, u16, Name)>,
}
