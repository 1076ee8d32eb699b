//! What a session asks with.
ghost use Rattle.std.specs.Prelude.{◌≡◌, IfOk, IfErr};
ghost use Rattle.kn_fields.specs.declared.fault.ReadFault.TheVariants.{NoMemory as Lacking};

use crate::standing::StandingQuery;
use kn_assert::{ReadFault, read};
use kn_base::{List, NoMemory, Octets};
use kn_env::Attributes;
use kn_store::Snapshot;
use kn_trees::Assertion;
use std::alloc::Global;

/// An assertion that one session alone asks with.
#[derive(Drop)]
pub struct Private {
    /// Its number among those that were ever added to the session, from 1.
    pub id: u32,
    pub text: Octets,
    /// What the text spells.
    pub assertion: Assertion,
}

impl Private {
    ghost use Rattle.kn_session.specs.Views.{IsReadPrivate};

    /// The same private assertion, read anew from its text. `NoMemory` comes only when memory runs out.
    pub(crate) fn copy(&self, alloc: Global) -> Result<Private, NoMemory>
        requires { IsReadPrivate self.now }
        ensures { IfOk result (λ copy. copy ≡ self.now) }
    {
        let Ok(assertion) = self.read_again(alloc) else {
            return Err(NoMemory);
        };
        Ok(Private {
            id: self.id,
            text: Octets::from_slice(alloc, self.text.as_slice())?,
            assertion,
        })
    }

    // The assertion that the text spells. It is there, so the only fault is out of memory.
    fn read_again(&self, alloc: Global) -> Result<Assertion, ReadFault>
        requires { IsReadPrivate self.now }
        ensures ok { IfOk result (λ assertion. assertion ≡ self.now.assertion) }
        ensures err { IfErr result (λ fault. fault ≡ Lacking) }
    {
        read(alloc, self.text.as_slice())
    }
}

/// What a session asks with, as it stands.
#[derive(Clone, Copy)]
pub struct View<'a> {
    /// The session's number on its connection, from 1.
    pub number: u32,
    /// How many private assertions were ever added to the session.
    pub made: u32,
    /// The version that the session is pinned to.
    pub snapshot: &'a Snapshot,
    /// The private assertions in the order of their ids.
    pub private: &'a List<Private>,
    /// The action attributes in the order of their entry.
    pub attributes: &'a Attributes,
    /// The requesters by normal forms, in the order of their entry.
    pub requesters: &'a List<Octets>,
    /// The standing query, if the session keeps one.
    pub standing: Option<&'a StandingQuery>,
}
