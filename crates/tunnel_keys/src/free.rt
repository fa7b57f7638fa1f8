//! Which keys are taken, and which are free.
ghost use Rattle.std.specs.Prelude.{◌≡◌, ◌++◌, IfOk, OnOk, take, cond, [], ◌∷◌};
ghost use Rattle.std.specs.List.Sorted.{IsNonDecreasing, IsPermutation};
ghost use Rattle.std.specs.Set.{is_member};
ghost use Rattle.std.proofs.Math.Dec.{eqb as nat_eq};
ghost use Rattle.tunnel_keys.specs.Same.{same_identity};
ghost use Rattle.tunnel_keys.specs.Keys.{free_in, free_one, taken_datapaths};
ghost use Rattle.tunnel_keys.specs.Giving.{taken_on};

use crate::owner::{DatapathKey, HeldDatapath, HeldPort, Identity};
use ovn_base::list::List;
use ovn_base::memory::NoMemory;
use ovn_base::name::Name;
use std::alloc::Global;
use std::collections::BTreeMap;

// The first of the keys up to the range that are not taken, at most so many.
pub(crate) fn free_keys(
    alloc: Global,
    range: u32,
    taken: &[u32],
    count: usize,
) -> Result<List<u32>, NoMemory>
    ensures { IfOk result (λ l. l ≡ take count (free_in range taken.now)) }
{
    let rising = in_rising_order(alloc, taken)?;
    let found = free_beside(alloc, range, rising.as_slice(), count)?;
    Ok(found)
}

// The keys, the least first.
fn in_rising_order(alloc: Global, keys: &[u32]) -> Result<Vec<u32>, NoMemory>
    ensures rising { IfOk result (λ v. IsNonDecreasing v.items) }
    ensures same { IfOk result (λ v. IsPermutation keys.now v.items) }
{
    let mut rising = Vec::from_slice(alloc, keys)?;
    rising.sort_unstable();
    Ok(rising)
}

// The first of the keys up to the range that are not taken, at most so many. The taken keys rise.
fn free_beside(
    alloc: Global,
    range: u32,
    taken: &[u32],
    count: usize,
) -> Result<List<u32>, NoMemory>
    requires { IsNonDecreasing taken.now }
    ensures { IfOk result (λ l. l ≡ take count (free_in range taken.now)) }
{
    let mut found: List<u32> = List::new(alloc);
    for passed in 0..range {
        if found.len() == count {
            return Ok(found);
        }
        push_free(&mut found, taken, passed + 1)?;
    }
    found.truncate(count);
    Ok(found)
}

// Puts the key behind those that were found, if it is free. The taken keys rise.
fn push_free(found: &mut List<u32>, taken: &[u32], key: u32) -> Result<(), NoMemory>
    requires { IsNonDecreasing taken.now }
    ensures { OnOk result (found.new ≡ found.old ++ free_one taken.now key) }
{
    if is_taken(taken, key) {
        return Ok(());
    }
    found.push(key)?;
    Ok(())
}

// Whether the key is one of the rising ones.
fn is_taken(rising: &[u32], key: u32) -> bool
    requires { IsNonDecreasing rising.now }
    ensures { result ≡ is_member nat_eq rising.now key }
{
    rising.binary_search(&key).is_ok()
}

// The keys of datapaths that are live or retired.
pub(crate) fn taken_by_datapaths(
    alloc: Global,
    live: &BTreeMap<Name, DatapathKey>,
    retired: &[HeldDatapath],
) -> Result<List<u32>, NoMemory>
    ensures { IfOk result (λ l. l ≡ taken_datapaths live.now.entries retired.now) }
{
    let mut taken = List::new(alloc);
    for (_, datapath) in live {
        taken.push(datapath.key)?;
    }
    for held in retired {
        taken.push(held.key)?;
    }
    Ok(taken)
}

// The live keys, and those of the retired ones that are the datapath's.
pub(crate) fn taken_by_ports(
    alloc: Global,
    live: &[(Name, u16)],
    retired: &[HeldPort],
    datapath: &Identity,
) -> Result<List<u32>, NoMemory>
    ensures { IfOk result (λ l. l ≡ taken_on live.now retired.now datapath.now) }
{
    let mut taken = List::new(alloc);
    for (_, key) in live {
        taken.push(u32::from(*key))?;
    }
    for held in retired {
        push_retired(&mut taken, datapath, held)?;
    }
    Ok(taken)
}

// Puts the retired key behind the others, if it was one of the datapath.
fn push_retired(taken: &mut List<u32>, datapath: &Identity, held: &HeldPort) -> Result<(), NoMemory>
    ensures { OnOk result (taken.new ≡ taken.old ++ cond (same_identity datapath.now held.now.datapath) (held.now.key ∷ []) []) }
{
    if datapath.name == held.datapath.name && datapath.birth.0 == held.datapath.birth.0 {
        taken.push(u32::from(held.key))?;
        return Ok(());
    }
    Ok(())
}
