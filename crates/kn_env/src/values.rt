//! The compliance values of a query, by their names, and why a text has none.
ghost use Rattle.std.specs.Prelude.{◌≡◌, ◌⊎◌, ◌<◌, ◌≤◌, ◌+◌, ◌-◌, ◌&&◌, ◌==◌, ℕ, [], true, Some, None};
ghost use Rattle.std.specs.Prelude.{length, slice_get, slice_index_or, take, IfOk, IfErr, IfSome, nat_le, count_by};
ghost use Rattle.std.specs.List.{list_all, list_any, join_with_byte, AllByRecursion, IsDistinct};
ghost use Rattle.std.specs.Str.{bytes_eq};
ghost use Rattle.kn_env.specs.Values.{between_commas, is_value_name, stood_before, bad_place, twice_place};
ghost use Rattle.kn_env.specs.Values.{name_fault, values_fault, values_of, index_of};
ghost use Rattle.kn_env.specs.declared.values.ValuesFault.TheVariants as F;

use kn_base::limits::{COMPLIANCE_VALUE_BYTES, FEWEST_COMPLIANCE_VALUES, MOST_COMPLIANCE_VALUES};
use kn_base::{List, NoMemory, Octets};
use std::alloc::Global;
use std::marker::Model;

/// Why names are no compliance values, in the order in which it is tried. The limits are keynoted's own.
#[derive(Clone, Copy, PartialEq, Eq)]
pub enum ValuesFault {
    /// Fault 1: there are `n` names, and not 2 to 64.
    Count { n: usize },
    /// Fault 2: the name at place `i`, counted from 0, hasn't 1 to 128 bytes from 33 to 126.
    BadName { i: u32 },
    /// Fault 3: the name at place `i`, counted from 0, stood before.
    Twice { i: u32 },
    /// Out of memory for the names.
    NoMemory,
}

/// The compliance values of a query by their names, the lowest first (RFC 2704, section 5). There are 2 to 64.
#[derive(Drop)]
pub struct Values {
    text: Octets,
    names: List<Octets>,
}

impl Model for Values {
    ghost use Rattle.std.specs.Prelude.{List, ℕ, ◌≡◌};
    ghost use Rattle.std.specs.List.{join_with_byte};
    ghost use Rattle.kn_env.specs.Values.{AreValueNames};

    ghost Value = { List (List ℕ) };

    ghost view = { λ v. v.names };

    ghost invariant = { λ v. (v.text ≡ join_with_byte 44 v.names) × AreValueNames v.names };
}

impl Values {
    /// The values whose names a text has with commas between them. `NoMemory`: out of memory for them.
    pub fn of(alloc: Global, text: &[u8]) -> Result<Values, ValuesFault>
        ensures ok { IfOk result (λ values. values_of text.now ≡ Some values) }
        ensures fault { IfErr result (λ fault. (fault ≡ F.NoMemory) ⊎ (values_fault text.now ≡ Some fault)) }
    {
        let n = count_names(text);
        if n < FEWEST_COMPLIANCE_VALUES as usize || n > MOST_COMPLIANCE_VALUES as usize {
            return Err(ValuesFault::Count { n });
        }
        let Ok(names) = between_commas(alloc, text) else {
            return Err(ValuesFault::NoMemory);
        };
        if let Some(fault) = name_fault(names.as_slice()) {
            return Err(fault);
        }
        match Octets::from_slice(alloc, text) {
            Ok(text) => Ok(Values { text, names }),
            Err(_) => Err(ValuesFault::NoMemory),
        }
    }

    /// The index of the value of this name, the lowest having 0.
    pub fn index_of(&self, name: &[u8]) -> Option<u8>
        ensures index { result ≡ index_of name.now self.now }
        ensures within { IfSome result (λ index. index < length self.now) }
    {
        match place_of(self.names.as_slice(), name) {
            Some(place) => Some(place as u8),
            None => None,
        }
    }

    /// The name of the value of this index.
    pub fn name(&self, i: u8) -> &[u8]
        requires { i < length self.now }
        ensures { slice_get self.now i ≡ Some result.now }
    {
        self.names.as_slice()[i as usize].as_slice()
    }

    /// How many values there are. Their names are of their form, and no two are equal.
    pub fn len(&self) -> u8
        ensures count { result ≡ length self.now }
        ensures at_least_two { FEWEST_COMPLIANCE_VALUES ≤ length self.now }
        ensures at_most { length self.now ≤ MOST_COMPLIANCE_VALUES }
        ensures form { AllByRecursion (λ name. is_value_name name ≡ true) self.now }
        ensures different { IsDistinct bytes_eq self.now }
    {
        self.names.len() as u8
    }

    /// The index of the highest value.
    pub fn highest(&self) -> u8
        ensures index { result + 1 ≡ length self.now }
        ensures at_least_one { 1 ≤ result }
        ensures at_most { result < MOST_COMPLIANCE_VALUES }
    {
        (self.names.len() - 1) as u8
    }

    pub(crate) fn lowest_name(&self) -> &[u8]
        ensures { result.now ≡ slice_index_or self.now 0 [] }
    {
        self.names.as_slice()[0].as_slice()
    }

    pub(crate) fn highest_name(&self) -> &[u8]
        ensures { result.now ≡ slice_index_or self.now (length self.now - 1) [] }
    {
        let names = self.names.as_slice();
        names[names.len() - 1].as_slice()
    }

    // The names with commas between them.
    pub(crate) fn text(&self) -> &[u8]
        ensures { result.now ≡ join_with_byte 44 self.now }
    {
        self.text.as_slice()
    }
}

fn count_names(text: &[u8]) -> usize
    ensures { result ≡ length (between_commas text.now) }
{
    count_commas(text) + 1
}

fn count_commas(text: &[u8]) -> usize
    ensures count { result ≡ count_by (λ byte. byte == 44) text.now }
    ensures within { result ≤ length text.now }
{
    text.iter().filter(|byte| **byte == b',').count()
}

fn between_commas(alloc: Global, text: &[u8]) -> Result<List<Octets>, NoMemory>
    ensures { IfOk result (λ names. names ≡ between_commas text.now) }
{
    let mut names = List::new(alloc);
    for name in text.split(|byte| *byte == b',') {
        names.add(Octets::from_slice(alloc, name)?)?;
    }
    Ok(names)
}

fn place_of(names: &[Octets], name: &[u8]) -> Option<usize>
    ensures place { result ≡ index_of name.now names.now }
    ensures within { IfSome result (λ place. place < length names.now) }
{
    names.iter().position(|other| other.as_slice() == name)
}

// Why so many names are no values.
fn name_fault(names: &[Octets]) -> Option<ValuesFault>
    requires { length names.now ≤ MOST_COMPLIANCE_VALUES }
    ensures { result ≡ name_fault (bad_place names.now) names.now }
{
    if let Some(at) = bad_place(names) {
        return Some(ValuesFault::BadName { i: at as u32 });
    }
    match twice_place(names) {
        Some(at) => Some(ValuesFault::Twice { i: at as u32 }),
        None => None,
    }
}

fn bad_place(names: &[Octets]) -> Option<usize>
    ensures place { result ≡ bad_place names.now }
    ensures within { IfSome result (λ at. at < length names.now) }
{
    names
        .iter()
        .position(|name| !is_value_name(name.as_slice()))
}

fn is_value_name(name: &[u8]) -> bool
    ensures { result ≡ is_value_name name.now }
{
    1 <= name.len() && name.len() <= COMPLIANCE_VALUE_BYTES && are_printing(name)
}

fn are_printing(name: &[u8]) -> bool
    ensures { result ≡ list_all (λ byte. nat_le 33 byte && nat_le byte 126) name.now }
{
    name.iter().all(|byte| 33 <= *byte && *byte <= 126)
}

fn twice_place(names: &[Octets]) -> Option<usize>
    ensures place { result ≡ twice_place names.now }
    ensures within { IfSome result (λ at. at < length names.now) }
{
    for (at, name) in names.iter().enumerate() {
        if is_there(name.as_slice(), &names[..at]) {
            return Some(at);
        }
    }
    None
}

fn is_there(name: &[u8], names: &[Octets]) -> bool
    ensures { result ≡ list_any (bytes_eq name.now) names.now }
{
    names.iter().any(|other| name == other.as_slice())
}
