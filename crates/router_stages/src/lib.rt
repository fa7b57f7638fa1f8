//! The stages of routers: a router, a port of it, a route and a neighbour as units of the compiler. Their rows are made stage by stage.
#![tactic(auto)]

mod facts;
pub mod neighbour_unit;
pub mod port_unit;
pub mod route_unit;
pub mod router_unit;
mod stages;
