//! How zones get numbers.
ghost use Rattle.std.specs.Prelude.{◌≡◌, ◌↔◌, ◌++◌, ◌∷◌, ◌<◌, ◌≤◌, ℕ, [], IfOk, OnOk, cond, false, get_or, length, true};
ghost use Rattle.ovn_base.specs.lists.Among.{Among};
ghost use Rattle.ovn_base.specs.names.SameName.{same_name};
ghost use Rattle.conn_zones.specs.declared.numbers.TheConstants.{MAX_ZONE};
ghost use Rattle.conn_zones.specs.Rezoning.{IsLeastFree};
ghost use Rattle.conn_zones.specs.Giving.{put_place, numbers_in, numbers_of, IsGivenOne, AreGiven, HaveNumbers};

use crate::name_map::NameMap;
use crate::numbers::{ZoneNumbers, ZonePlace, ZoneUse};
use ovn_base::list::List;
use ovn_base::memory::NoMemory;
use ovn_base::name::Name;
use std::alloc::Global;

// Puts the number behind the others, if it is one of the chassis.
fn push_number(taken: &mut List<u16>, place: &ZonePlace, chassis: &Name) -> Result<(), NoMemory>
    ensures { OnOk result (taken.new ≡ taken.old ++ cond (same_name place.now.chassis chassis.now) (place.now.number ∷ []) []) }
{
    if place.chassis == *chassis {
        taken.push(place.number)?;
        return Ok(());
    }
    Ok(())
}

// Puts the numbers of the chassis behind the others.
fn push_numbers(
    taken: &mut List<u16>,
    places: &NameMap<ZonePlace>,
    chassis: &Name,
) -> Result<(), NoMemory>
    ensures { OnOk result (taken.new ≡ taken.old ++ numbers_in places.now chassis.now) }
{
    'places: for (_, place) in places.entries() {
        push_number(taken, place, chassis)?;
    }
    Ok(())
}

// The numbers of the chassis.
fn numbers_of(alloc: Global, numbers: &ZoneNumbers, chassis: &Name) -> Result<List<u16>, NoMemory>
    ensures { IfOk result (λ l. l ≡ numbers_of numbers.now chassis.now) }
{
    let mut taken = List::new(alloc);
    push_numbers(&mut taken, &numbers.ports, chassis)?;
    push_numbers(&mut taken, &numbers.dnat, chassis)?;
    push_numbers(&mut taken, &numbers.snat, chassis)?;
    Ok(taken)
}

// Of each number below the end, whether it is one of these.
fn marks_below(alloc: Global, end: usize, numbers: &[u16]) -> Result<Vec<bool>, NoMemory>
    ensures each { IfOk result (λ marks. length marks.items ≡ end) }
    ensures marked { IfOk result (λ marks. (m : ℕ) → m < end → (get_or marks.items m false ≡ true) ↔ Among m numbers.now) }
{
    let mut marks = vec![in alloc; false; end]?;
    'numbers: for number in numbers {
        let at = usize::from(*number);
        if at < end {
            marks[at] = true;
        }
    }
    Ok(marks)
}

// The least number from 1 on that isn't one of these: they are too few to take all up to one more than their count.
fn least_free(alloc: Global, numbers: &[u16]) -> Result<u16, NoMemory>
    requires few { length numbers.now < MAX_ZONE }
    ensures least { IfOk result (IsLeastFree (λ m. Among m numbers.now)) }
    ensures few { IfOk result (λ n. n ≤ MAX_ZONE) }
{
    let end = numbers.len() + 2;
    let taken = marks_below(alloc, end, numbers)?;
    'free: for free in 1..end {
        if !taken[free] {
            return Ok(free as u16);
        }
    }
    unreachable!()
}

impl ZoneNumbers {
    // Gives the zone this place.
    fn put(&mut self, zone: &ZoneUse, place: ZonePlace) -> Result<(), NoMemory>
        ensures { OnOk result (self.new ≡ put_place self.old zone.now place) }
    {
        match zone {
            ZoneUse::Port(name) => self.ports.insert(*name, place)?,
            ZoneUse::Dnat(name) => self.dnat.insert(*name, place)?,
            ZoneUse::Snat(name) => self.snat.insert(*name, place)?,
        };
        Ok(())
    }
}

// Gives the zone the least number that is free on the chassis.
fn give(
    alloc: Global,
    numbers: &mut ZoneNumbers,
    zone: &ZoneUse,
    chassis: &Name,
) -> Result<(), NoMemory>
    requires { length (numbers_of numbers.old chassis.now) < MAX_ZONE }
    ensures { OnOk result (IsGivenOne numbers.old zone.now chassis.now numbers.new) }
{
    let taken = numbers_of(alloc, numbers, chassis)?;
    let number = least_free(alloc, taken.as_slice())?;
    let place = ZonePlace {
        chassis: *chassis,
        number,
    };
    numbers.put(zone, place)
}

// Gives each of the zones in turn the least number that is free on its chassis.
pub(crate) fn give_each(
    alloc: Global,
    numbers: &mut ZoneNumbers,
    zones: &[(ZoneUse, Name)],
) -> Result<(), NoMemory>
    requires { HaveNumbers numbers.old zones.now }
    ensures { OnOk result (AreGiven numbers.old zones.now numbers.new) }
{
    'zones: for (zone, chassis) in zones {
        give(alloc, numbers, zone, chassis)?;
    }
    Ok(())
}
