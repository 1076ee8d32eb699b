//! What is asked, beside the assertions.
ghost use Rattle.std.specs.Prelude.{◌≡◌, ◌≤◌, length, find, ◌∷◌, IfOk};
ghost use Rattle.std.specs.List.{join_with_byte};
ghost use Rattle.std.specs.Option.{option_map, option_copied};
ghost use Rattle.std.specs.Str.{bytes_eq};
ghost use Rattle.kn_env.specs.Environment.{constant_value, asked_value, plain_value, name_value, AreRequesters};

use crate::attributes::{Attributes, begins_low};
use crate::constant::Constant;
use crate::values::Values;
use kn_base::{List, NoMemory, Octets};
use std::alloc::Global;
use std::marker::Model;

/// What is asked of a set of assertions (RFC 2704, section 5): an action's attributes, compliance values and
/// requesters.
#[derive(Drop)]
pub struct Query<'a> {
    attributes: &'a Attributes,
    values: &'a Values,
    requesters: &'a List<Octets>,
    authorizers: Octets,
}

impl<'a> Model for Query<'a> {
    ghost use Rattle.std.specs.Prelude.{◌≡◌, ◌≤◌, length};
    ghost use Rattle.std.specs.List.{join_with_byte};
    ghost use Rattle.kn_env.specs.Environment.{Asked, AreRequesters};

    ghost Value = { Asked };

    ghost view = { λ q. record {
      attributes = q.attributes.now;
      values = q.values.now;
      requesters = q.requesters.now;
    } };

    ghost invariant = { λ q. (q.authorizers ≡ join_with_byte 44 q.requesters.now) × AreRequesters q.requesters.now };
}

impl<'a> Query<'a> {
    /// The query of these requesters, who are taken by normal forms as they stand.
    pub fn of(
        alloc: Global,
        attributes: &'a Attributes,
        values: &'a Values,
        requesters: &'a List<Octets>,
    ) -> Result<Query<'a>, NoMemory>
        requires { AreRequesters requesters.now }
        ensures attributes { IfOk result (λ query. query.attributes ≡ attributes.now) }
        ensures values { IfOk result (λ query. query.values ≡ values.now) }
        ensures requesters { IfOk result (λ query. query.requesters ≡ requesters.now) }
    {
        let authorizers = with_commas(alloc, requesters)?;
        Ok(Query {
            attributes,
            values,
            requesters,
            authorizers,
        })
    }

    /// The compliance values.
    pub fn values(&self) -> &Values
        ensures { result.now ≡ self.now.values }
    {
        self.values
    }

    /// Who requests, by normal forms in the order of their entry: at most 64, each of 1 to 4,096 bytes, and never
    /// `POLICY` (the limits are keynoted's own).
    pub fn requesters(&self) -> &List<Octets>
        ensures requesters { result.now ≡ self.now.requesters }
        ensures right { AreRequesters self.now.requesters }
    {
        self.requesters
    }

    // The value of a name that is no local constant.
    fn value(&self, name: &[u8]) -> &[u8]
        ensures { result.now ≡ asked_value name.now self.now }
    {
        if name == b"_MIN_TRUST".as_slice() {
            self.values.lowest_name()
        } else if name == b"_MAX_TRUST".as_slice() {
            self.values.highest_name()
        } else if name == b"_VALUES".as_slice() {
            self.values.text()
        } else if name == b"_ACTION_AUTHORIZERS".as_slice() {
            self.authorizers.as_slice()
        } else if begins_low(name) {
            b""
        } else {
            self.plain_value(name)
        }
    }

    // The value of an action attribute.
    fn plain_value(&self, name: &[u8]) -> &[u8]
        ensures { result.now ≡ plain_value name.now self.now }
    {
        match self.attributes.get(name) {
            Some(value) => value,
            None => b"",
        }
    }
}

fn with_commas(alloc: Global, names: &List<Octets>) -> Result<Octets, NoMemory>
    ensures { IfOk result (λ text. text ≡ join_with_byte 44 names.now) }
{
    match names.as_slice().split_first() {
        Some((first, others)) => with_others(alloc, first.as_slice(), others),
        None => Ok(Octets::new(alloc)),
    }
}

// A name and others behind it, each with a comma before it.
fn with_others(alloc: Global, first: &[u8], others: &[Octets]) -> Result<Octets, NoMemory>
    ensures { IfOk result (λ text. text ≡ join_with_byte 44 (first.now ∷ others.now)) }
{
    let mut text = Octets::from_slice(alloc, first)?;
    for name in others {
        text.push(b',')?;
        text.extend(name.as_slice())?;
    }
    Ok(text)
}

/// Where names have their values: a query, and the local constants of an assertion.
#[derive(Drop)]
pub struct Env<'a> {
    query: &'a Query<'a>,
    constants: &'a List<Constant>,
}

impl<'a> Model for Env<'a> {
    ghost use Rattle.kn_env.specs.Environment.{Environment};

    ghost Value = { Environment };

    ghost view = { λ e. record { asked = e.query.now; constants = e.constants.now } };
}

impl<'a> Env<'a> {
    /// The environment of an assertion with these constants in a query.
    pub fn of(query: &'a Query<'a>, constants: &'a List<Constant>) -> Env<'a>
        ensures asked { result.asked ≡ query.now }
        ensures constants { result.constants ≡ constants.now }
    {
        Env { query, constants }
    }

    /// The value of a name (RFC 2704, section 4).
    #[tactic(auto, unfolding(crate::specs::Environment::name_value))]
    pub fn value(&self, name: &[u8]) -> &[u8]
        ensures { result.now ≡ name_value self.now name.now }
    {
        match constant_value(self.constants.as_slice(), name) {
            Some(value) => value,
            None => self.query.value(name),
        }
    }

    /// The compliance values of the query.
    pub fn values(&self) -> &Values
        ensures { result.now ≡ self.now.asked.values }
    {
        let query = self.query;
        query.values
    }
}

/// The value of the local constant of a name.
pub fn constant_value<'a>(constants: &'a [Constant], name: &[u8]) -> Option<&'a [u8]>
    ensures { option_map (λ value. value.now) result ≡ constant_value name.now constants.now }
{
    match constant_of(constants, name) {
        Some(constant) => Some(constant.value.as_slice()),
        None => None,
    }
}

fn constant_of<'a>(constants: &'a [Constant], name: &[u8]) -> Option<&'a Constant>
    ensures { option_copied result ≡ find (λ constant. bytes_eq name.now constant.name) constants.now }
{
    constants
        .iter()
        .find(|constant| name == constant.name.as_slice())
}
