//! Tests of the rows of routers, of their ports, routes and neighbours, as the tables of stages write them.
#![tactic(auto)]

#[cfg(test)]
mod tests;
