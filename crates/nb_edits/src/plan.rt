//! Planned edits, and why an edit isn't planned.
ghost use Rattle.std.specs.Prelude.{◌≡◌};

use nb_records::records::Records;
use nb_rules::fault::SchemaFault;
use ovn_base::list::List;
use ovn_base::memory::NoMemory;
use tunnel_keys::owner::KeyOwner;

/// Why an edit isn't planned.
#[derive(Clone, Copy, PartialEq, Eq, Debug)]
pub enum EditFault {
    /// What is wrong with it.
    Schema(SchemaFault),
    /// There is no memory.
    Memory,
}

impl From<NoMemory> for EditFault {
    ghost use Rattle.nb_edits.specs.declared.plan.EditFault.TheVariants as failed;

    ghost from_gives = { λ _ error. error ≡ failed.Memory };

    fn from(_error: NoMemory) -> EditFault {
        EditFault::Memory
    }
}

/// An edit that may be applied to the records on which it was planned.
#[derive(Drop)]
pub struct EditPlan {
    pub(crate) after: Records,
    pub(crate) added: List<KeyOwner>,
    pub(crate) removed: List<KeyOwner>,
}

impl EditPlan {
    /// The records as the edit leaves them.
    pub fn after(&self) -> &Records
        ensures { result.now ≡ self.now.after }
    {
        &self.after
    }

    /// The datapaths and ports that come.
    pub fn added(&self) -> &[KeyOwner]
        ensures { result.now ≡ self.now.added }
    {
        self.added.as_slice()
    }

    /// The datapaths and ports that go.
    pub fn removed(&self) -> &[KeyOwner]
        ensures { result.now ≡ self.now.removed }
    {
        self.removed.as_slice()
    }
}
