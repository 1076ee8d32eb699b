//! The attributes of an action.
ghost use Rattle.std.specs.Prelude.{◌≡◌, ◌<◌, ◌≤◌, ◌⊎◌, true, false, [], length, Some, None, OnOk, OnErr, IfOk, IfErr};
ghost use Rattle.std.specs.List.{list_all, IsDistinct};
ghost use Rattle.std.specs.Option.{option_map};
ghost use Rattle.std.specs.Str.{bytes_eq};
ghost use Rattle.kn_env.specs.Attributes.{is_attribute_name, begins_low, is_settable, is_letter, begins_name};
ghost use Rattle.kn_env.specs.Attributes.{continues_name, has_attribute, attribute_value, attribute_names};
ghost use Rattle.kn_env.specs.Attributes.{with_attribute, without_attribute, attribute_fault};
ghost use Rattle.kn_env.specs.declared.attributes.EnvFault.TheVariants as F;

use indexmap::IndexMap;
use kn_base::NoMemory;
use kn_base::limits::{ATTRIBUTES, NAME_BYTES, VALUE_BYTES};
use std::alloc::Global;
use std::marker::Model;

/// Why an attribute isn't set, in the order in which it is tried. The limits are keynoted's own.
#[derive(Clone, Copy, PartialEq, Eq)]
pub enum EnvFault {
    /// Fault 1: the name is no attribute name, has more than 128 bytes or begins with `_`.
    BadName,
    /// Fault 2: the value has more than 4,096 bytes.
    BadValue,
    /// Fault 3: the name is new, and there are `count` attributes, as many as there may be.
    Full { count: u32 },
    /// Out of memory for the attribute.
    NoMemory,
}

/// There is no attribute of this name.
#[derive(Clone, Copy, PartialEq, Eq)]
pub struct Absent;

/// The attributes of an action, seen as the list of them in the order of their entry (keynote(3)).
#[derive(Drop)]
pub struct Attributes {
    alloc: Global,
    entries: IndexMap<Vec<u8>, Vec<u8>>,
}

impl Model for Attributes {
    ghost use Rattle.std.specs.Prelude.{List, ◌≤◌, length, map};
    ghost use Rattle.kn_base.specs.declared.limits.TheConstants.{ATTRIBUTES};
    ghost use Rattle.kn_env.specs.Attributes.{Attribute};
    ghost use Rattle.kn_env.specs.Entries.{attribute_of};

    ghost Value = { List Attribute };

    ghost view = { λ a. map attribute_of a.entries.entries };

    ghost invariant = { λ a. length a.entries.entries ≤ ATTRIBUTES };
}

fn is_letter(byte: u8) -> bool
    ensures { result ≡ is_letter byte }
{
    byte.is_ascii_uppercase() || byte.is_ascii_lowercase()
}

fn begins_name(byte: u8) -> bool
    ensures { result ≡ begins_name byte }
{
    is_letter(byte) || byte == b'_'
}

fn continues_name(byte: u8) -> bool
    ensures { result ≡ continues_name byte }
{
    begins_name(byte) || byte.is_ascii_digit()
}

fn continue_name(bytes: &[u8]) -> bool
    ensures { result ≡ list_all continues_name bytes.now }
{
    bytes.iter().all(|byte| continues_name(*byte))
}

/// Whether a text is an attribute name: a letter or `_`, then letters, digits and `_` (RFC 2704, section 4).
pub fn is_attribute_name(name: &[u8]) -> bool
    ensures { result ≡ is_attribute_name name.now }
{
    match name.split_first() {
        Some((first, rest)) => begins_name(*first) && continue_name(rest),
        None => false,
    }
}

/// Whether a name is kept for values that no action sets: it begins with `_`.
pub(crate) fn begins_low(name: &[u8]) -> bool
    ensures { result ≡ begins_low name.now }
{
    match name.first() {
        Some(first) => *first == b'_',
        None => false,
    }
}

fn is_settable(name: &[u8]) -> bool
    ensures { result ≡ is_settable name.now }
{
    is_attribute_name(name) && name.len() <= NAME_BYTES && !begins_low(name)
}

impl Attributes {
    /// No attributes.
    pub fn new(alloc: Global) -> Attributes
        ensures { result ≡ [] }
    {
        Attributes {
            alloc,
            entries: IndexMap::new(alloc),
        }
    }

    /// Gives an attribute this value. A name that is there keeps its place, and a new one comes last.
    pub fn set(&mut self, name: &[u8], value: &[u8]) -> Result<(), EnvFault>
        ensures ok { OnOk result (attribute_fault name.now value.now self.old ≡ None) }
        ensures after { OnOk result (self.new ≡ with_attribute name.now value.now self.old) }
        ensures err { OnErr result (self.new ≡ self.old) }
        ensures fault { IfErr result (λ fault.
            (fault ≡ F.NoMemory) ⊎ (attribute_fault name.now value.now self.old ≡ Some fault)) }
    {
        if let Some(fault) = self.fault(name, value) {
            return Err(fault);
        }
        match self.enter(name, value) {
            Ok(()) => Ok(()),
            Err(NoMemory) => Err(EnvFault::NoMemory),
        }
    }

    // Why this isn't set.
    fn fault(&self, name: &[u8], value: &[u8]) -> Option<EnvFault>
        ensures { result ≡ attribute_fault name.now value.now self.now }
    {
        let count = self.len();
        if !is_settable(name) {
            Some(EnvFault::BadName)
        } else if value.len() > VALUE_BYTES {
            Some(EnvFault::BadValue)
        } else if !self.has(name) && count >= ATTRIBUTES {
            Some(EnvFault::Full { count })
        } else {
            None
        }
    }

    fn has(&self, name: &[u8]) -> bool
        ensures { result ≡ has_attribute name.now self.now }
    {
        self.entries.get(name).is_some()
    }

    // Gives an attribute this value. There is room for it where the name is new.
    fn enter(&mut self, name: &[u8], value: &[u8]) -> Result<(), NoMemory>
        requires room { has_attribute name.now self.old ≡ false → length self.old < ATTRIBUTES }
        ensures ok { OnOk result (self.new ≡ with_attribute name.now value.now self.old) }
        ensures err { OnErr result (self.new ≡ self.old) }
    {
        let Ok(key) = Vec::from_slice(self.alloc, name) else {
            return Err(NoMemory);
        };
        let Ok(kept) = Vec::from_slice(self.alloc, value) else {
            return Err(NoMemory);
        };
        match self.entries.insert(key, kept) {
            Ok(_) => Ok(()),
            Err(_) => Err(NoMemory),
        }
    }

    /// Takes an attribute away; those of other names stay in their order. Takes no memory.
    pub fn unset(&mut self, name: &[u8]) -> Result<(), Absent>
        ensures ok { OnOk result (has_attribute name.now self.old ≡ true) }
        ensures absent { OnErr result (has_attribute name.now self.old ≡ false) }
        ensures err { OnErr result (self.new ≡ self.old) }
        ensures rest { self.new ≡ without_attribute name.now self.old }
    {
        match self.entries.shift_remove(name) {
            Some(_) => Ok(()),
            None => Err(Absent),
        }
    }

    /// The value of an attribute, or None where there is none of this name.
    pub fn get(&self, name: &[u8]) -> Option<&[u8]>
        ensures { option_map (λ value. value.now) result ≡ attribute_value name.now self.now }
    {
        match self.entries.get(name) {
            Some(value) => Some(value.as_slice()),
            None => None,
        }
    }

    /// How many attributes there are. No two have the same name.
    pub fn len(&self) -> u32
        ensures count { result ≡ length self.now }
        ensures at_most { length self.now ≤ ATTRIBUTES }
        ensures different { IsDistinct bytes_eq (attribute_names self.now) }
    {
        self.entries.len() as u32
    }

    /// The same attributes, in their order.
    pub fn copy(&self) -> Result<Attributes, NoMemory>
        ensures { IfOk result (λ copy. copy ≡ self.now) }
    {
        let mut copy = Attributes::new(self.alloc);
        for (name, value) in self.entries.iter() {
            copy.enter(name.as_slice(), value.as_slice())?;
        }
        Ok(copy)
    }

    /// Takes all attributes away. Takes no memory.
    pub fn clear(&mut self)
        ensures { self.new ≡ [] }
    {
        self.entries.clear();
    }
}
