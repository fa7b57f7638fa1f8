//! Rows of a gateway router, of its ports, and of the switch before it.
ghost use Rattle.row_tests.specs.RouterLines as line;

/// What a port admits, answers, routes and reaches, and what the switch sends to it.
#[tactic(auto, using(crate::proofs::RouterLines::for_router, crate::proofs::RouterLines::answered, crate::proofs::RouterLines::for_itself, crate::proofs::RouterLines::network, crate::proofs::RouterLines::default_route, crate::proofs::RouterLines::neighbour, crate::proofs::RouterLines::looked_up_behind))]
pub fn ports()
    ensures for_router { line.for_router }
    ensures answered { line.answered }
    ensures for_itself { line.for_itself }
    ensures network { line.network }
    ensures default_route { line.default_route }
    ensures neighbour { line.neighbour }
    ensures looked_up_behind { line.looked_up_behind }
{}

/// What the router refuses, and where it looks for connections.
#[tactic(auto, using(crate::proofs::RouterLines::refused, crate::proofs::RouterLines::undone, crate::proofs::RouterLines::known_connections, crate::proofs::RouterLines::found, crate::proofs::RouterLines::known_sources))]
pub fn the_router()
    ensures refused { line.refused }
    ensures undone { line.undone }
    ensures known_connections { line.known_connections }
    ensures found { line.found }
    ensures known_sources { line.known_sources }
{}

/// NAT of sources and destinations, and a balancer.
#[tactic(auto, using(crate::proofs::RouterLines::snat, crate::proofs::RouterLines::dnat, crate::proofs::RouterLines::resolver))]
pub fn translations()
    ensures snat { line.snat }
    ensures dnat { line.dnat }
    ensures resolver { line.resolver }
{}
