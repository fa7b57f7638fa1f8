//! Tests of the rows of NAT and of load balancers, as the tables of stages write them.
#![tactic(auto)]

#[cfg(test)]
mod balancers;
#[cfg(test)]
mod nats;
