//! The least of several addresses.
ghost use Rattle.std.specs.Prelude.{◌≡◌};
ghost use Rattle.nb_rules.specs.First.{lesser};
ghost use Rattle.nb_rules.specs.Holders.{mac_number_of, ip_number};

use ovn_base::address::{Ip4, Mac};

/// The lesser of the address and of the least one so far.
pub(crate) fn lesser_mac(mac: &Mac, so_far: &Option<Mac>) -> Mac
    ensures { result ≡ lesser mac_number_of mac.now so_far.now }
{
    match so_far {
        Some(least) if least.number() < mac.number() => *least,
        _ => *mac,
    }
}

/// The lesser of the address and of the least one so far.
pub(crate) fn lesser_ip(ip: Ip4, so_far: Option<Ip4>) -> Ip4
    ensures { result ≡ lesser ip_number ip so_far }
{
    match so_far {
        Some(least) if least.0 < ip.0 => least,
        _ => ip,
    }
}
