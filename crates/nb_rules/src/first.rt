//! The first record that breaks a clause.
ghost use Rattle.std.specs.Prelude.{◌≡◌, Option};
ghost use Rattle.nb_rules.specs.First as spec;
ghost use Rattle.nb_rules.specs.declared.fault.SchemaFault.{SchemaFault};

use crate::fault::SchemaFault;
use ovn_base::name::Name;
use std::collections::BTreeMap;

/// A clause, as it stands for the records of a kind.
pub(crate) trait Clause<R> {
    ghost broken: { Self → R → Option SchemaFault };

    /// What is wrong with the record, if it breaks the clause.
    fn broken(&self, row: &R) -> Option<SchemaFault>
        ensures { result ≡ broken self.now row.now };
}

/// What is wrong with the first record of the kind that breaks the clause.
pub(crate) fn first_of<R, C: Clause<R>>(
    clause: &C,
    records: &BTreeMap<Name, R>,
) -> Option<SchemaFault>
    ensures { result ≡ spec.first_of (C.broken clause.now) records.now.entries }
{
    for (_name, record) in records {
        if let Some(fault) = clause.broken(record) {
            return Some(fault);
        }
    }
    None
}
