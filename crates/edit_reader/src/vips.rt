// The virtual addresses of a balancer, with the backends of each.
ghost use Rattle.std.specs.Prelude.{◌≡◌, ◌==◌, ◌≤◌, ℕ, List, [], length, map, position, IfOk, IfSome, OnOk};
ghost use Rattle.std.specs.List.{AllByRecursion, slice_split};
ghost use Rattle.std.specs.Ordering.{is_lt};
ghost use Rattle.serde_json.specs.View.{view, members_view};
ghost use Rattle.nb_records.specs.Grammar.{IsBackend, AreVips};
ghost use Rattle.nb_records.specs.Network.{backend_cmp};
ghost use Rattle.edit_reader.specs.Outcomes.{Gives, GivesBy};
ghost use Rattle.edit_reader.specs.Vips as spec;

use crate::addresses::BackendText;
use crate::event::ReadError;
use crate::field::{Field, Grammar, each_by, in_range, of_kind, text_in};
use nb_records::balancer::Vip;
use ovn_base::address::Backend;
use ovn_base::list::List;
use ovn_base::memory::NoMemory;
use serde_json::{Map, Value};
use std::alloc::{AllocError, Global};

// The names and texts of an object, all of whose values are texts.
fn member_texts<'v>(
    alloc: Global,
    field: &str,
    object: &'v Map<String, Value>,
) -> Result<Vec<(&'v [u8], &'v [u8])>, ReadError>
    ensures { GivesBy (λ texts. map (λ t. (t.0.now, t.1.now)) texts.items) result (spec.member_texts field.now (members_view object.now.entries)) }
{
    let mut texts = Vec::new(alloc);
    let mut members = object.iter();
    'members: while let Some((key, value)) = members.next() {
        let text = text_in(alloc, field, value)?;
        texts.push((key.as_bytes(), text.as_bytes()))?;
    }
    Ok(texts)
}

// The pieces between commas.
fn pieces_of(alloc: Global, text: &[u8]) -> Result<Vec<&[u8]>, AllocError>
    ensures { IfOk result (λ pieces. map (λ t. t.now) pieces.items ≡ slice_split (λ b. b == 44) text.now) }
{
    text.split(|byte| *byte == b',').collect(alloc)
}

// Backends with a comma between; there may be none.
#[tactic(auto, unfolding(crate::specs::Vips::spelled_backends))]
fn backends_of(alloc: Global, text: &[u8]) -> Result<Option<List<Backend>>, NoMemory>
    ensures value { IfOk result (λ found. found ≡ spec.spelled_backends text.now) }
    ensures fits { IfOk result (λ found. IfSome found (AllByRecursion IsBackend)) }
{
    if text.is_empty() {
        return Ok(Some(List::new(alloc)));
    }
    let pieces = pieces_of(alloc, text)?;
    each_by(alloc, pieces.as_slice(), &BackendText)
}

#[tactic(auto, unfolding(crate::specs::Vips::vip_of))]
fn vip_of(alloc: Global, at: &[u8], backends: &[u8]) -> Result<Option<Vip>, NoMemory>
    ensures value { IfOk result (λ found. found ≡ spec.vip_of (at.now, backends.now)) }
{
    let Some(at) = BackendText.spelled(alloc, at)? else {
        return Ok(None);
    };
    match backends_of(alloc, backends)? {
        Some(backends) => Ok(Some(Vip { at, backends })),
        None => Ok(None),
    }
}

// Where a vip of that address and port stands in order: before the first that is greater.
fn greater_among(at: &Backend, vips: &[Vip]) -> Option<usize>
    ensures value { result ≡ position (λ v. is_lt (backend_cmp at.now v.at)) vips.now }
    ensures within { IfSome result (λ i. i ≤ length vips.now) }
{
    vips.iter().position(|vip| *at < vip.at)
}

fn place_among(vip: &Vip, vips: &[Vip]) -> usize
    ensures value { result ≡ spec.place_among vip.now vips.now }
    ensures within { result ≤ length vips.now }
{
    match greater_among(&vip.at, vips) {
        Some(index) => index,
        None => vips.len(),
    }
}

// Puts the vip in its place.
fn place(vips: &mut Vec<Vip>, vip: Vip) -> Result<(), NoMemory>
    ensures { OnOk result (vips.new.items ≡ spec.placed vip vips.old.items) }
{
    let index = place_among(&vip, vips.as_slice());
    vips.insert(index, vip)?;
    Ok(())
}

// The vips that the names and texts spell, in order.
fn vips_by(alloc: Global, texts: &[(&[u8], &[u8])]) -> Result<Option<List<Vip>>, NoMemory>
    ensures { IfOk result (λ found. found ≡ spec.vips_by [] (map (λ t. (t.0.now, t.1.now)) texts.now)) }
{
    let mut vips = Vec::new(alloc);
    'texts: for (at, backends) in texts {
        match vip_of(alloc, at, backends)? {
            Some(vip) => place(&mut vips, vip)?,
            None => return Ok(None),
        }
    }
    Ok(Some(List::from_vec(vips)))
}

/// The virtual addresses of a balancer.
pub struct Vips;

impl Field for Vips {
    type Of = List<Vip>;

    ghost reads = { λ _. spec.vips_in };

    ghost fits = { λ _ _. Unit {0} };

    #[tactic(auto, unfolding(crate::specs::Vips::vips_in))]
    fn read(&self, alloc: Global, field: &str, value: &Value) -> Result<List<Vip>, ReadError> {
        let members = of_kind(alloc, field, value.as_object())?;
        let texts = member_texts(alloc, field, members)?;
        in_range(alloc, field, vips_by(alloc, texts.as_slice())?)
    }
}
