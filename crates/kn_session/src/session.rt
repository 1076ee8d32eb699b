//! One open session.
ghost use Rattle.std.specs.Prelude.{◌≡◌, ◌⊎◌, ◌<◌, ◌+◌, ◌^◌, true, false, ◌==◌, bytes_eq, length, remove};
ghost use Rattle.std.specs.Prelude.{slice_get, option_map, position, Some, None, IfOk, IfErr, OnOk, OnErr};
ghost use Rattle.std.specs.Option.{ForSome, option_copied};
ghost use Rattle.std.specs.Arc.{arc_value};
ghost use Rattle.kn_principal.specs.Principals.{normal_form};
ghost use Rattle.kn_assert.specs.Reading.{assertion_of};
ghost use Rattle.kn_session.specs.Sessions.{started_session, pin_at};
ghost use Rattle.kn_session.specs.Sessions.{standing_fault, watch_with, query_at, move_standing, end_standing};
ghost use Rattle.kn_session.specs.Asking.{IsLevelIfKnown, IsQueryLevelIfKnown};
ghost use Rattle.kn_session.specs.Calls.{private_fault, retract_fault, set_fault, unset_fault, auth_fault};
ghost use Rattle.kn_session.specs.Calls.{unauth_fault, fault_of_attribute, is_principal, is_named, clear_session};
ghost use Rattle.kn_session.specs.Calls.{add_private, take_private, set_attribute, unset_attribute};
ghost use Rattle.kn_session.specs.Calls.{add_requester, take_requester};
ghost use Rattle.kn_session.specs.declared.fault.SessionFault.TheVariants as F;

use crate::call::Call;
use crate::fault::SessionFault;
use crate::standing::StandingQuery;
use crate::view::{Private, View};
use kn_base::limits::{PRINCIPAL_BYTES, PRIVATE_ASSERTIONS, PRIVATE_BYTES, REQUESTERS};
use kn_base::{List, NoMemory, Octets};
use kn_env::{Attributes, EnvFault, Values};
use kn_principal::{POLICY, PrincipalFault, normal, same};
use kn_store::Snapshot;
use kn_trees::Assertion;
use std::alloc::Global;
use std::marker::Model;

/// An open session of a connection.
#[derive(Drop)]
pub(crate) struct OpenSession {
    number: u32,
    snapshot: Snapshot,
    private: List<Private>,
    /// The bytes of the private assertions' texts together.
    private_bytes: u32,
    made: u32,
    attributes: Attributes,
    requesters: List<Octets>,
    standing: Option<StandingQuery>,
}

impl Model for OpenSession {
    ghost use Rattle.kn_session.specs.Sessions.{Session};

    ghost Value = { Session };

    ghost use Rattle.kn_session.specs.Fields.{session_of_fields};
    ghost use Rattle.kn_session.specs.Views.{IsKept};

    ghost view = { session_of_fields };

    ghost invariant = { λ s. IsKept s.private s.private_bytes (session_of_fields s) };
}

impl OpenSession {
    ghost use Rattle.kn_session.specs.Calls.{call_of, is_change, session_fault, call_change, call_may_lack_memory};
    ghost use Rattle.kn_session.specs.Calls.{IsDue};
    ghost use Rattle.kn_session.specs.Views.{session_of_view, AreReadPrivates, IsSession};

    /// A session of this number, pinned to a version.
    pub(crate) fn new(alloc: Global, number: u32, snapshot: Snapshot) -> OpenSession
        ensures { result ≡ started_session number (arc_value snapshot) }
    {
        OpenSession {
            number,
            snapshot,
            private: List::new(alloc),
            private_bytes: 0,
            made: 0,
            attributes: Attributes::new(alloc),
            requesters: List::new(alloc),
            standing: None,
        }
    }

    pub(crate) fn number(&self) -> u32
        ensures { result ≡ self.now.number }
    {
        self.number
    }

    /// What the session asks with.
    pub(crate) fn view(&self) -> View<'_>
        ensures session { session_of_view result ≡ self.now }
        ensures readings { AreReadPrivates result.private.now }
        ensures right { IsSession self.now }
    {
        View {
            number: self.number,
            made: self.made,
            snapshot: &self.snapshot,
            private: &self.private,
            attributes: &self.attributes,
            requesters: &self.requesters,
            standing: self.standing.as_ref(),
        }
    }

    /// The standing query, if the session keeps one.
    pub(crate) fn standing(&self) -> Option<&StandingQuery>
        ensures { option_copied result ≡ self.now.standing }
    {
        self.standing.as_ref()
    }

    /// Keeps what the session asks with, and these compliance values, as its standing query. The index of its value may
    /// be known.
    pub(crate) fn watch(
        &mut self,
        alloc: Global,
        values: Values,
        level: Option<u8>,
    ) -> Result<(), SessionFault>
        requires level { IsLevelIfKnown self.old values level }
        ensures ok { OnOk result (self.new ≡ watch_with values self.old) }
        ensures err { OnErr result (self.new ≡ self.old) }
        ensures fault { IfErr result (λ fault. fault ≡ F.NoMemory) }
    {
        match StandingQuery::of(alloc, &self.view(), values, level) {
            Ok(query) => {
                self.standing = Some(query);
                Ok(())
            }
            Err(NoMemory) => Err(SessionFault::NoMemory),
        }
    }

    /// Moves the standing query to a version. The index of its value there may be known.
    pub(crate) fn move_standing(
        &mut self,
        snapshot: Snapshot,
        level: Option<u8>,
    ) -> Result<(), SessionFault>
        requires level { ForSome self.old.standing (λ query.
            IsQueryLevelIfKnown (query_at (arc_value snapshot) query) level) }
        ensures accepted { OnOk result (standing_fault self.old ≡ None) }
        ensures ok { OnOk result (self.new ≡ move_standing (arc_value snapshot) self.old) }
        ensures err { OnErr result (self.new ≡ self.old) }
        ensures fault { IfErr result (λ fault. standing_fault self.old ≡ Some fault) }
    {
        match &mut self.standing {
            Some(query) => {
                query.move_to(snapshot, level);
                Ok(())
            }
            None => Err(SessionFault::Absent),
        }
    }

    /// Ends the standing query.
    pub(crate) fn unwatch(&mut self) -> Result<(), SessionFault>
        ensures accepted { OnOk result (standing_fault self.old ≡ None) }
        ensures ok { OnOk result (self.new ≡ end_standing self.old) }
        ensures err { OnErr result (self.new ≡ self.old) }
        ensures fault { IfErr result (λ fault. standing_fault self.old ≡ Some fault) }
    {
        if self.standing.is_none() {
            return Err(SessionFault::Absent);
        }
        self.standing = None;
        Ok(())
    }

    pub(crate) fn pin(&mut self, snapshot: Snapshot)
        ensures { self.new ≡ pin_at (arc_value snapshot) self.old }
    {
        self.snapshot = snapshot;
    }

    /// Takes all attributes and requesters away.
    pub(crate) fn clear(&mut self, alloc: Global)
        ensures { self.new ≡ clear_session self.old }
    {
        self.attributes.clear();
        self.requesters = List::new(alloc);
    }

    /// Does a call that changes the session and gives nothing.
    pub(crate) fn change(&mut self, alloc: Global, call: Call<'_>) -> Result<(), SessionFault>
        requires { is_change (call_of call) ≡ true }
        ensures accepted { OnOk result (session_fault (call_of call.entry) self.old ≡ None) }
        ensures ok { OnOk result (self.new ≡ call_change (call_of call.entry) self.old) }
        ensures err { OnErr result (self.new ≡ self.old) }
        ensures fault { IfErr result
            (IsDue (call_may_lack_memory (call_of call.entry)) (session_fault (call_of call.entry) self.old)) }
    {
        match call {
            Call::Close => unreachable!(),
            Call::Assert { .. } => unreachable!(),
            Call::Clear => Ok(self.clear(alloc)),
            Call::Retract { k } => self.retract(k),
            Call::Set { name, value } => self.set(name, value),
            Call::Unset { name } => self.unset(name),
            Call::Auth { principal } => self.auth(alloc, principal),
            Call::Unauth { principal } => self.unauth(principal),
            Call::Unwatch => self.unwatch(),
        }
    }

    /// Adds an assertion that this session alone asks with, and gives its id.
    pub(crate) fn add_private(
        &mut self,
        alloc: Global,
        text: &[u8],
        assertion: Assertion,
    ) -> Result<u32, SessionFault>
        requires reading { assertion_of text.now ≡ Some assertion }
        requires few { self.old.made < 2 ^ 31 }
        ensures accepted { OnOk result (private_fault text.now assertion self.old ≡ None) }
        ensures id { IfOk result (λ id. id ≡ self.old.made + 1) }
        ensures ok { OnOk result (self.new ≡ add_private text.now self.old) }
        ensures err { OnErr result (self.new ≡ self.old) }
        ensures fault { IfErr result (λ fault.
            (fault ≡ F.NoMemory) ⊎ (private_fault text.now assertion self.old ≡ Some fault)) }
    {
        match self.private_fault(text, &assertion) {
            Some(fault) => Err(fault),
            None => self.push_private(alloc, text, assertion),
        }
    }

    fn private_fault(&self, text: &[u8], assertion: &Assertion) -> Option<SessionFault>
        ensures { result ≡ private_fault text.now assertion.now self.now }
    {
        let count = self.private.len();
        let bytes = self.private_bytes;
        if assertion.authorizer.as_slice() == POLICY {
            Some(SessionFault::ByPolicy)
        } else if count >= PRIVATE_ASSERTIONS {
            Some(SessionFault::Privates { count })
        } else if text.len() > PRIVATE_BYTES - bytes as usize {
            Some(SessionFault::PrivateBytes { bytes })
        } else {
            None
        }
    }

    // Adds what there is no fault with.
    fn push_private(
        &mut self,
        alloc: Global,
        text: &[u8],
        assertion: Assertion,
    ) -> Result<u32, SessionFault>
        requires reading { assertion_of text.now ≡ Some assertion }
        requires few { self.old.made < 2 ^ 31 }
        requires accepted { private_fault text.now assertion self.old ≡ None }
        ensures id { IfOk result (λ id. id ≡ self.old.made + 1) }
        ensures ok { OnOk result (self.new ≡ add_private text.now self.old) }
        ensures err { OnErr result (self.new ≡ self.old) }
        ensures fault { IfErr result (λ fault. fault ≡ F.NoMemory) }
    {
        let id = self.made + 1;
        let Ok(octets) = Octets::from_slice(alloc, text) else {
            return Err(SessionFault::NoMemory);
        };
        let added = Private {
            id,
            text: octets,
            assertion,
        };
        match self.private.push(added) {
            Ok(()) => {}
            Err(_) => return Err(SessionFault::NoMemory),
        }
        self.private_bytes += text.len() as u32;
        self.made = id;
        Ok(id)
    }

    /// Takes the private assertion of this id away.
    pub(crate) fn retract(&mut self, id: u32) -> Result<(), SessionFault>
        ensures accepted { OnOk result (retract_fault id self.old ≡ None) }
        ensures ok { OnOk result (self.new ≡ take_private id self.old) }
        ensures err { OnErr result (self.new ≡ self.old) }
        ensures fault { IfErr result (λ fault. retract_fault id self.old ≡ Some fault) }
    {
        let Some(i) = place_of_id(self.private.as_slice(), id) else {
            return Err(SessionFault::NoSuch { id });
        };
        let bytes = remove_private(&mut self.private, i as u32);
        self.private_bytes -= bytes as u32;
        Ok(())
    }

    pub(crate) fn set(&mut self, name: &[u8], value: &[u8]) -> Result<(), SessionFault>
        ensures accepted { OnOk result (set_fault name.now value.now self.old ≡ None) }
        ensures ok { OnOk result (self.new ≡ set_attribute name.now value.now self.old) }
        ensures err { OnErr result (self.new ≡ self.old) }
        ensures fault { IfErr result (λ fault.
            (fault ≡ F.NoMemory) ⊎ (set_fault name.now value.now self.old ≡ Some fault)) }
    {
        match self.attributes.set(name, value) {
            Ok(()) => Ok(()),
            Err(fault) => Err(fault_of_attribute(fault)),
        }
    }

    pub(crate) fn unset(&mut self, name: &[u8]) -> Result<(), SessionFault>
        ensures accepted { OnOk result (unset_fault name.now self.old ≡ None) }
        ensures ok { OnOk result (self.new ≡ unset_attribute name.now self.old) }
        ensures err { OnErr result (self.new ≡ self.old) }
        ensures fault { IfErr result (λ fault. unset_fault name.now self.old ≡ Some fault) }
    {
        match self.attributes.unset(name) {
            Ok(()) => Ok(()),
            Err(_) => Err(SessionFault::Absent),
        }
    }

    /// Enters the normal form of a principal as a requester, unless it is there.
    pub(crate) fn auth(&mut self, alloc: Global, principal: &[u8]) -> Result<(), SessionFault>
        ensures accepted { OnOk result (auth_fault principal.now self.old ≡ None) }
        ensures ok { OnOk result (self.new ≡ add_requester principal.now self.old) }
        ensures err { OnErr result (self.new ≡ self.old) }
        ensures fault { IfErr result (λ fault.
            (fault ≡ F.NoMemory) ⊎ (auth_fault principal.now self.old ≡ Some fault)) }
    {
        if !is_principal(principal) {
            return Err(SessionFault::Principal);
        }
        if is_named(self.requesters.as_slice(), principal) {
            return Ok(());
        }
        let count = self.requesters.len();
        if count >= REQUESTERS {
            return Err(SessionFault::Requesters { count });
        }
        self.enter(alloc, principal)
    }

    // Enters a principal that isn't there, where there is room.
    fn enter(&mut self, alloc: Global, principal: &[u8]) -> Result<(), SessionFault>
        requires accepted { auth_fault principal.now self.old ≡ None }
        requires absent { is_named self.old.requesters principal.now ≡ false }
        ensures ok { OnOk result (self.new ≡ add_requester principal.now self.old) }
        ensures err { OnErr result (self.new ≡ self.old) }
        ensures fault { IfErr result (λ fault. fault ≡ F.NoMemory) }
    {
        let form = normal_of(alloc, principal)?;
        match self.requesters.push(form) {
            Ok(()) => Ok(()),
            Err(_) => Err(SessionFault::NoMemory),
        }
    }

    /// Takes a requester away, who may be named by another text of the same normal form.
    pub(crate) fn unauth(&mut self, principal: &[u8]) -> Result<(), SessionFault>
        ensures accepted { OnOk result (unauth_fault principal.now self.old ≡ None) }
        ensures ok { OnOk result (self.new ≡ take_requester principal.now self.old) }
        ensures err { OnErr result (self.new ≡ self.old) }
        ensures fault { IfErr result (λ fault. unauth_fault principal.now self.old ≡ Some fault) }
    {
        let Some(i) = place_of_principal(self.requesters.as_slice(), principal) else {
            return Err(SessionFault::Absent);
        };
        let _gone = self.requesters.remove(i as u32);
        Ok(())
    }
}

// The place of the private assertion of this id.
fn place_of_id(privates: &[Private], id: u32) -> Option<usize>
    ensures { result ≡ position (λ p. p.id == id) privates.now }
{
    privates.iter().position(|p| p.id == id)
}

// Takes the private assertion at a place away, and gives the bytes of its text.
fn remove_private(privates: &mut List<Private>, i: u32) -> usize
    requires { i < length privates.old }
    ensures rest { privates.new ≡ remove privates.old i }
    ensures bytes { option_map (λ p. length p.text) (slice_get privates.old i) ≡ Some result }
{
    let gone = privates.remove(i);
    gone.text.len()
}

// The place of the requester that this text names.
fn place_of_principal(requesters: &[Octets], principal: &[u8]) -> Option<usize>
    ensures { result ≡ position (bytes_eq (normal_form principal.now)) requesters.now }
{
    requesters
        .iter()
        .position(|r| same(principal, r.as_slice()))
}

// Whether the principal of this text is among the requesters.
fn is_named(requesters: &[Octets], principal: &[u8]) -> bool
    ensures { result ≡ is_named requesters.now principal.now }
{
    requesters.iter().any(|r| same(principal, r.as_slice()))
}

// Whether a text may name a requester.
fn is_principal(text: &[u8]) -> bool
    ensures { result ≡ is_principal text.now }
{
    !text.is_empty() && text.len() <= PRINCIPAL_BYTES && text != POLICY
}

// The normal form of a text that may name a requester.
fn normal_of(alloc: Global, principal: &[u8]) -> Result<Octets, SessionFault>
    requires { is_principal principal.now ≡ true }
    ensures ok { IfOk result (λ form. form ≡ normal_form principal.now) }
    ensures err { IfErr result (λ fault. fault ≡ F.NoMemory) }
{
    match normal(alloc, principal) {
        Ok(form) => Ok(form),
        Err(PrincipalFault::Empty) => Err(SessionFault::Principal),
        Err(PrincipalFault::TooLong { .. }) => Err(SessionFault::Principal),
        Err(PrincipalFault::NoMemory) => Err(SessionFault::NoMemory),
    }
}

// The fault of a session's attribute.
fn fault_of_attribute(fault: EnvFault) -> SessionFault
    ensures { fault_of_attribute (Some fault) ≡ Some result }
{
    match fault {
        EnvFault::BadName => SessionFault::Name,
        EnvFault::BadValue => SessionFault::Value,
        EnvFault::Full { count } => SessionFault::Attributes { count },
        EnvFault::NoMemory => SessionFault::NoMemory,
    }
}
