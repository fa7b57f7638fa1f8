//! The rows of routers, of their ports, routes and neighbours, a file for each group of stages.
pub(crate) mod admit;
pub(crate) mod input;
pub(crate) mod neighbours;
pub(crate) mod own;
pub(crate) mod routing;
pub(crate) mod translations;
