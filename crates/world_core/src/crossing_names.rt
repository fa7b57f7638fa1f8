//! Whom the crossings name that wait.

use net_model::crossing::Aim;
use tunnel_keys::owner::Identity;

/// The switch of a crossing, its port of entry, and to whom it goes.
#[derive(Drop)]
pub(crate) struct CrossingNames {
    pub(crate) datapath: Identity,
    pub(crate) in_port: Identity,
    pub(crate) aim: Aim,
}
