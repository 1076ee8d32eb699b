//! The open sessions of a connection.
ghost use Rattle.std.specs.Prelude.{◌≡◌, ◌⊎◌, ◌↔◌, ◌<◌, ◌+◌, ◌==◌, ◌^◌, ℕ, List, true, [], length, position};
ghost use Rattle.std.specs.Prelude.{Some, None, Option, IsTrue, IfOk, IfErr, OnOk, OnErr};
ghost use Rattle.std.specs.Option.{ForSome, IsSomeAnd};
ghost use Rattle.std.specs.Arc.{arc_value};
ghost use Rattle.kn_env.specs.Environment.{AreRequesters};
ghost use Rattle.kn_assert.specs.Reading.{assertion_of};
ghost use Rattle.kn_session.specs.Sessions.{Session, session_in, with_started, start_fault, pin_at};
ghost use Rattle.kn_session.specs.Sessions.{watch_with, query_at, move_standing, standing_fault, end_standing};
ghost use Rattle.kn_session.specs.Asking.{IsLevelIfKnown, IsQueryLevelIfKnown};
ghost use Rattle.kn_session.specs.Laws.{standing_in};
ghost use Rattle.kn_session.specs.Calls.{private_fault, retract_fault, set_fault, unset_fault, auth_fault};
ghost use Rattle.kn_session.specs.Calls.{unauth_fault, add_private, take_private, set_attribute, unset_attribute};
ghost use Rattle.kn_session.specs.Calls.{add_requester, take_requester, clear_session, answer_done};
ghost use Rattle.kn_session.specs.OnePlace.{IsOneAt};
ghost use Rattle.kn_session.specs.declared.fault.SessionFault.{SessionFault};
ghost use Rattle.kn_session.specs.declared.fault.SessionFault.TheVariants as F;

use crate::call::{Applied, Call};
use crate::fault::{CallFault, SessionFault};
use crate::session::OpenSession;
use crate::standing::StandingQuery;
use crate::view::View;
use kn_assert::read;
use kn_base::limits::SESSIONS;
use kn_env::Values;
use kn_store::Snapshot;
use kn_trees::Assertion;
use std::alloc::Global;
use std::marker::Model;

/// The sessions of one connection, seen as how many it started and those that are open.
///
/// A session is named by its number. Each call leaves all other sessions as they were, and a call that is refused
/// leaves all of them.
pub struct Sessions {
    alloc: Global,
    started: u32,
    sessions: Vec<OpenSession>,
}

// Written out, so that a crate that drops sessions rests on this proof, and proves none for all that they hold.
impl Drop for Sessions {
    fn drop(self) {
        let Sessions {
            alloc: _,
            started: _,
            sessions,
        } = self;
    }
}

impl Model for Sessions {
    ghost use Rattle.kn_session.specs.Sessions.{OpenSessions};
    ghost use Rattle.kn_session.specs.Connection.{AreOpen};

    ghost Value = { OpenSessions };

    ghost view = { λ s. record { started = s.started; sessions = s.sessions.items } };

    ghost invariant = { λ s. AreOpen s.started s.sessions.items };
}

impl Sessions {
    ghost use Rattle.kn_session.specs.Calls.{Assert, call_of, is_change, session_fault, call_change};
    ghost use Rattle.kn_session.specs.Calls.{call_may_lack_memory, IsDue, Accepts, Refuses};
    ghost use Rattle.kn_session.specs.Connection.{fault_at, with_open_session, with_closed};
    ghost use Rattle.kn_session.specs.Views.{session_of_view, AreReadPrivates, ArePrivates, AreNormalForms};

    /// No sessions. Takes no memory.
    pub fn new(alloc: Global) -> Sessions
        ensures { result ≡ record { started = 0; sessions = [] } }
    {
        Sessions {
            alloc,
            started: 0,
            sessions: Vec::new(alloc),
        }
    }

    /// Starts a session that is pinned to a version, and gives its number: how many were started, with itself.
    pub fn start(&mut self, snapshot: Snapshot) -> Result<u32, SessionFault>
        requires few { self.old.started < 2 ^ 31 }
        ensures number { IfOk result (λ s. s ≡ self.old.started + 1) }
        ensures accepted { OnOk result (start_fault self.old.sessions ≡ None) }
        ensures ok { OnOk result (self.new ≡ record {
          started = self.old.started + 1;
          sessions = with_started self.old.started self.old.sessions (arc_value snapshot);
        }) }
        ensures err { OnErr result (self.new ≡ self.old) }
        ensures fault { IfErr result (λ fault. (fault ≡ F.NoMemory) ⊎ (start_fault self.old.sessions ≡ Some fault)) }
    {
        let count = self.sessions.len() as u32;
        if count >= SESSIONS {
            return Err(SessionFault::Sessions { count });
        }
        let number = self.started + 1;
        match self
            .sessions
            .push(OpenSession::new(self.alloc, number, snapshot))
        {
            Ok(()) => {}
            Err(_) => return Err(SessionFault::NoMemory),
        }
        self.started = number;
        Ok(number)
    }

    // The place of the session of this number.
    fn place(&self, s: u32) -> Result<usize, SessionFault>
        ensures place { IfOk result (IsOneAt (λ x. x.number == s) self.now.sessions) }
        ensures fault { IfErr result (λ fault.
            (f : Session → Option SessionFault) → fault_at self.now s f ≡ Some fault) }
    {
        match place_of_number(self.sessions.as_slice(), s) {
            Some(i) => Ok(i),
            None => Err(SessionFault::Unknown { session: s }),
        }
    }

    /// Closes a session. Takes no memory.
    fn close(&mut self, s: u32) -> Result<(), SessionFault>
        ensures accepted { OnOk result (fault_at self.old s (λ x. None) ≡ None) }
        ensures ok { OnOk result (self.new ≡ with_closed self.old s) }
        ensures err { OnErr result (self.new ≡ self.old) }
        ensures fault { IfErr result (λ fault. fault_at self.old s (λ x. None) ≡ Some fault) }
    {
        let i = self.place(s)?;
        let _closed = self.sessions.remove(i);
        Ok(())
    }

    /// Pins a session to another version. Takes no memory.
    pub fn repin(&mut self, s: u32, snapshot: Snapshot) -> Result<(), SessionFault>
        ensures accepted { OnOk result (fault_at self.old s (λ x. None) ≡ None) }
        ensures ok { OnOk result (self.new ≡ with_open_session self.old s (pin_at (arc_value snapshot))) }
        ensures err { OnErr result (self.new ≡ self.old) }
        ensures fault { IfErr result (λ fault. fault_at self.old s (λ x. None) ≡ Some fault) }
    {
        let i = self.place(s)?;
        let session = &mut self.sessions[i];
        session.pin(snapshot);
        Ok(())
    }

    // Does a call that changes a session and gives nothing.
    fn change(&mut self, s: u32, call: Call<'_>) -> Result<(), SessionFault>
        requires { is_change (call_of call) ≡ true }
        ensures accepted { OnOk result (fault_at self.old s (session_fault (call_of call.entry)) ≡ None) }
        ensures ok { OnOk result (self.new ≡ with_open_session self.old s (call_change (call_of call.entry))) }
        ensures err { OnErr result (self.new ≡ self.old) }
        ensures fault { IfErr result (IsDue (call_may_lack_memory (call_of call.entry))
            (fault_at self.old s (session_fault (call_of call.entry)))) }
    {
        match self.place(s) {
            Ok(i) => {
                let alloc = self.alloc;
                let session = &mut self.sessions[i];
                session.change(alloc, call)
            }
            Err(fault) => Err(fault),
        }
    }

    /// Takes all attributes and all requesters of a session away; its private assertions and its version stay. Takes no
    /// memory.
    fn clear(&mut self, s: u32) -> Result<(), SessionFault>
        ensures accepted { OnOk result (fault_at self.old s (λ x. None) ≡ None) }
        ensures ok { OnOk result (self.new ≡ with_open_session self.old s clear_session) }
        ensures err { OnErr result (self.new ≡ self.old) }
        ensures fault { IfErr result (λ fault. fault_at self.old s (λ x. None) ≡ Some fault) }
    {
        self.change(s, Call::Clear)
    }

    /// Adds an assertion that this session alone asks with, and gives its id: how many were ever added to the session,
    /// with itself.
    fn add_private(
        &mut self,
        s: u32,
        text: &[u8],
        assertion: Assertion,
    ) -> Result<u32, SessionFault>
        requires reading { assertion_of text.now ≡ Some assertion }
        requires few { ForSome (session_in self.old.sessions s) (λ x. x.made < 2 ^ 31) }
        ensures id { IfOk result (λ id. IsSomeAnd (session_in self.old.sessions s) (λ x. id ≡ x.made + 1)) }
        ensures accepted { OnOk result (fault_at self.old s (private_fault text.now assertion) ≡ None) }
        ensures ok { OnOk result (self.new ≡ with_open_session self.old s (add_private text.now)) }
        ensures err { OnErr result (self.new ≡ self.old) }
        ensures fault { IfErr result (λ fault.
            (fault ≡ F.NoMemory) ⊎ (fault_at self.old s (private_fault text.now assertion) ≡ Some fault)) }
    {
        let i = self.place(s)?;
        let alloc = self.alloc;
        let session = &mut self.sessions[i];
        session.add_private(alloc, text, assertion)
    }

    /// Takes the private assertion of this id away from a session. Takes no memory.
    fn retract(&mut self, s: u32, id: u32) -> Result<(), SessionFault>
        ensures accepted { OnOk result (fault_at self.old s (retract_fault id) ≡ None) }
        ensures ok { OnOk result (self.new ≡ with_open_session self.old s (take_private id)) }
        ensures err { OnErr result (self.new ≡ self.old) }
        ensures fault { IfErr result (λ fault. fault_at self.old s (retract_fault id) ≡ Some fault) }
    {
        self.change(s, Call::Retract { k: id })
    }

    /// Gives an attribute of a session this value. A name that is there keeps its place, and a new one comes last.
    fn set(&mut self, s: u32, name: &[u8], value: &[u8]) -> Result<(), SessionFault>
        ensures accepted { OnOk result (fault_at self.old s (set_fault name.now value.now) ≡ None) }
        ensures ok { OnOk result (self.new ≡ with_open_session self.old s (set_attribute name.now value.now)) }
        ensures err { OnErr result (self.new ≡ self.old) }
        ensures fault { IfErr result (λ fault.
            (fault ≡ F.NoMemory) ⊎ (fault_at self.old s (set_fault name.now value.now) ≡ Some fault)) }
    {
        self.change(s, Call::Set { name, value })
    }

    /// Takes an attribute away from a session. Takes no memory.
    fn unset(&mut self, s: u32, name: &[u8]) -> Result<(), SessionFault>
        ensures accepted { OnOk result (fault_at self.old s (unset_fault name.now) ≡ None) }
        ensures ok { OnOk result (self.new ≡ with_open_session self.old s (unset_attribute name.now)) }
        ensures err { OnErr result (self.new ≡ self.old) }
        ensures fault { IfErr result (λ fault. fault_at self.old s (unset_fault name.now) ≡ Some fault) }
    {
        self.change(s, Call::Unset { name })
    }

    /// Enters a requester of a session by the principal's normal form. One that is there keeps its place, and another
    /// one comes last.
    fn auth(&mut self, s: u32, principal: &[u8]) -> Result<(), SessionFault>
        ensures accepted { OnOk result (fault_at self.old s (auth_fault principal.now) ≡ None) }
        ensures ok { OnOk result (self.new ≡ with_open_session self.old s (add_requester principal.now)) }
        ensures err { OnErr result (self.new ≡ self.old) }
        ensures fault { IfErr result (λ fault.
            (fault ≡ F.NoMemory) ⊎ (fault_at self.old s (auth_fault principal.now) ≡ Some fault)) }
    {
        self.change(s, Call::Auth { principal })
    }

    /// Takes a requester away from a session, who is found by the principal's normal form. Takes no memory.
    fn unauth(&mut self, s: u32, principal: &[u8]) -> Result<(), SessionFault>
        ensures accepted { OnOk result (fault_at self.old s (unauth_fault principal.now) ≡ None) }
        ensures ok { OnOk result (self.new ≡ with_open_session self.old s (take_requester principal.now)) }
        ensures err { OnErr result (self.new ≡ self.old) }
        ensures fault { IfErr result (λ fault. fault_at self.old s (unauth_fault principal.now) ≡ Some fault) }
    {
        self.change(s, Call::Unauth { principal })
    }

    /// Keeps what a session asks with, and these compliance values, as its standing query, in place of an earlier one.
    /// The index of its value over the session's version may be known.
    pub fn watch(&mut self, s: u32, values: Values, level: Option<u8>) -> Result<(), SessionFault>
        requires level { ForSome (session_in self.old.sessions s) (λ session. IsLevelIfKnown session values level) }
        ensures accepted { OnOk result (fault_at self.old s (λ x. None) ≡ None) }
        ensures ok { OnOk result (self.new ≡ with_open_session self.old s (watch_with values)) }
        ensures err { OnErr result (self.new ≡ self.old) }
        ensures fault { IfErr result (λ fault. (fault ≡ F.NoMemory) ⊎ (fault_at self.old s (λ x. None) ≡ Some fault)) }
    {
        let i = self.place(s)?;
        let alloc = self.alloc;
        let session = &mut self.sessions[i];
        session.watch(alloc, values, level)
    }

    /// The standing query of a session. Takes no memory.
    pub fn standing(&self, s: u32) -> Result<&StandingQuery, SessionFault>
        ensures query { IfOk result (λ query.
            IsSomeAnd (session_in self.now.sessions s) (λ x. x.standing ≡ Some query.now)) }
        ensures fault { IfErr result (λ fault. fault_at self.now s standing_fault ≡ Some fault) }
    {
        let i = self.place(s)?;
        let session = &self.sessions[i];
        match session.standing() {
            Some(query) => Ok(query),
            None => Err(SessionFault::Absent),
        }
    }

    /// Moves the standing query of a session to another version. The index of its value there may be known. Takes no
    /// memory.
    pub fn move_standing(
        &mut self,
        s: u32,
        snapshot: Snapshot,
        level: Option<u8>,
    ) -> Result<(), SessionFault>
        requires level { ForSome (standing_in self.old.sessions s) (λ query.
            IsQueryLevelIfKnown (query_at (arc_value snapshot) query) level) }
        ensures accepted { OnOk result (fault_at self.old s standing_fault ≡ None) }
        ensures ok { OnOk result (self.new ≡ with_open_session self.old s (move_standing (arc_value snapshot))) }
        ensures err { OnErr result (self.new ≡ self.old) }
        ensures fault { IfErr result (λ fault. fault_at self.old s standing_fault ≡ Some fault) }
    {
        let i = self.place(s)?;
        let session = &mut self.sessions[i];
        session.move_standing(snapshot, level)
    }

    /// Ends the standing query of a session. Takes no memory.
    fn unwatch(&mut self, s: u32) -> Result<(), SessionFault>
        ensures accepted { OnOk result (fault_at self.old s standing_fault ≡ None) }
        ensures ok { OnOk result (self.new ≡ with_open_session self.old s end_standing) }
        ensures err { OnErr result (self.new ≡ self.old) }
        ensures fault { IfErr result (λ fault. fault_at self.old s standing_fault ≡ Some fault) }
    {
        self.change(s, Call::Unwatch)
    }

    /// Answers a call of a session. An assertion is read, by `alloc`, once the session is found open.
    pub fn apply(&mut self, alloc: Global, s: u32, call: Call<'_>) -> Result<Applied, CallFault>
        requires few { (text : List ℕ) → call_of call ≡ Assert text
            → ForSome (session_in self.old.sessions s) (λ x. x.made < 2 ^ 31) }
        ensures ok { IfOk result (Accepts self.old self.new s (call_of call.entry)) }
        ensures err { IfErr result (Refuses self.old self.new s (call_of call.entry)) }
    {
        match call {
            Call::Close => answer_done(self.close(s)),
            Call::Assert { text } => self.assert_text(alloc, s, text),
            Call::Clear
            | Call::Retract { .. }
            | Call::Set { .. }
            | Call::Unset { .. }
            | Call::Auth { .. }
            | Call::Unauth { .. }
            | Call::Unwatch => self.answer_change(s, call),
        }
    }

    // Answers a call that changes a session and gives nothing.
    fn answer_change(&mut self, s: u32, call: Call<'_>) -> Result<Applied, CallFault>
        requires { is_change (call_of call) ≡ true }
        ensures ok { IfOk result (Accepts self.old self.new s (call_of call.entry)) }
        ensures err { IfErr result (Refuses self.old self.new s (call_of call.entry)) }
    {
        answer_done(self.change(s, call))
    }

    // Reads a text and adds its assertion.
    fn assert_text(&mut self, alloc: Global, s: u32, text: &[u8]) -> Result<Applied, CallFault>
        requires few { ForSome (session_in self.old.sessions s) (λ x. x.made < 2 ^ 31) }
        ensures ok { IfOk result (Accepts self.old self.new s (Assert text.now)) }
        ensures err { IfErr result (Refuses self.old self.new s (Assert text.now)) }
    {
        match self.view(s) {
            Ok(_) => {}
            Err(fault) => return Err(CallFault::Session { fault }),
        }
        let assertion = match read(alloc, text) {
            Ok(assertion) => assertion,
            Err(fault) => return Err(CallFault::Text { fault }),
        };
        match self.add_private(s, text, assertion) {
            Ok(k) => Ok(Applied::Added { k }),
            Err(fault) => Err(CallFault::Session { fault }),
        }
    }

    /// What a session asks with. Takes no memory.
    pub fn view(&self, s: u32) -> Result<View<'_>, SessionFault>
        ensures session { IfOk result (λ view. session_in self.now.sessions s ≡ Some (session_of_view view)) }
        ensures privates { IfOk result (λ view. ArePrivates (session_of_view view).privates) }
        ensures readings { IfOk result (λ view. AreReadPrivates view.private.now) }
        ensures requesters { IfOk result (λ view. AreRequesters view.requesters.now) }
        ensures forms { IfOk result (λ view. AreNormalForms view.requesters.now) }
        ensures fault { IfErr result (λ fault. fault_at self.now s (λ x. None) ≡ Some fault) }
    {
        let i = self.place(s)?;
        let session = &self.sessions[i];
        Ok(session.view())
    }

    /// How many sessions are open.
    pub fn len(&self) -> u32
        ensures { result ≡ length self.now.sessions }
    {
        self.sessions.len() as u32
    }

    /// Whether no session is open.
    pub fn is_empty(&self) -> bool
        ensures { IsTrue result ↔ (self.now.sessions ≡ []) }
    {
        self.sessions.is_empty()
    }
}

// The answer of a call that gives nothing.
fn answer_done(called: Result<(), SessionFault>) -> Result<Applied, CallFault>
    ensures { result ≡ answer_done called }
{
    match called {
        Ok(()) => Ok(Applied::Done),
        Err(fault) => Err(CallFault::Session { fault }),
    }
}

// The place of the session of this number.
fn place_of_number(sessions: &[OpenSession], s: u32) -> Option<usize>
    ensures { result ≡ position (λ x. x.number == s) sessions.now }
{
    sessions.iter().position(|session| session.number() == s)
}
