//! Examples of the calls of a session: what refuses each, and what it makes of the session. The functions have no body:
//! their clauses are what they say.

ghost use Rattle.std.specs.Prelude.{ℕ, List, ◌≡◌, ◌∷◌, [], true, false, length, replicate, codes, Some, None};
ghost use Rattle.kn_session.specs.declared.fault.SessionFault.TheVariants as F;
ghost use Rattle.kn_session.specs.declared.fault.CallFault.TheVariants as T;
ghost use Rattle.kn_session.specs.declared.call.Applied.TheVariants as A;
ghost use Rattle.kn_session.specs.Sessions.{start_fault, standing_fault, watch_with, with_started};
ghost use Rattle.kn_session.specs.Calls as Q;
ghost use Rattle.kn_session.specs.Calls.{private_fault, has_private, retract_fault, set_fault, unset_fault};
ghost use Rattle.kn_session.specs.Calls.{auth_fault, unauth_fault, add_private, take_private, set_attribute};
ghost use Rattle.kn_session.specs.Calls.{unset_attribute, add_requester, take_requester, clear_session};
ghost use Rattle.kn_session.specs.Calls.{call_fault, call_fault_in, call_answer, after_call, call_may_lack_memory};
ghost use Rattle.kn_examples.specs.Queries.{attribute};
ghost use Rattle.kn_examples.specs.Histories.{numbered_text};
ghost use Rattle.kn_examples.specs.Sessions.{session, empty, assertion_by};

/// CLEAR takes all attributes and all requesters, and leaves the rest.
pub fn cleared_sessions()
    ensures attributes { (clear_session session).attributes ≡ [] }
    ensures requesters { (clear_session session).requesters ≡ [] }
    ensures privates { (clear_session session).privates ≡ session.privates }
    ensures version { (clear_session session).pinned ≡ session.pinned }
    ensures standing { (clear_session (watch_with [] session)).standing ≡ (watch_with [] session).standing }
{}

/// A session's own assertions have ids that aren't used again.
pub fn private_ids()
    ensures there { has_private 3 session ≡ true }
    ensures retracted { has_private 2 session ≡ false }
    ensures taken { (take_private 3 session).privates ≡ numbered_text 1 (codes "ab") ∷ [] }
    ensures next { (add_private (codes "d") (take_private 3 session)).privates
        ≡ numbered_text 1 (codes "ab") ∷ numbered_text 4 (codes "d") ∷ [] }
    ensures exact { call_answer (Q.Assert (codes "d")) session ≡ A.Added 4 }
    ensures first { call_answer (Q.Assert (codes "d")) (empty 1) ≡ A.Added 1 }
    ensures fault { retract_fault 2 session ≡ Some (F.NoSuch 2) }
    ensures no_fault { retract_fault 1 session ≡ None }
{}

/// What refuses an assertion of a session's own, once it is read: an assertion by the policy before all else.
pub fn refused_privates()
    ensures accepted { private_fault (codes "x") (assertion_by (codes "alice")) session ≡ None }
    ensures policy { private_fault (codes "x") (assertion_by (codes "POLICY")) session ≡ Some F.ByPolicy }
    ensures lower_case { private_fault (codes "x") (assertion_by (codes "policy")) session ≡ None }
    ensures count { private_fault (codes "x") (assertion_by (codes "alice"))
        (record session { privates = replicate 64 (numbered_text 1 []) }) ≡ Some (F.Privates 64) }
    ensures policy_first { private_fault (codes "x") (assertion_by (codes "POLICY"))
        (record session { privates = replicate 64 (numbered_text 1 []) }) ≡ Some F.ByPolicy }
    ensures bytes { (text : List ℕ) → length text ≡ 262143
        → private_fault (codes "xy") (assertion_by (codes "alice"))
        (record session { privates = numbered_text 1 text ∷ [] }) ≡ Some (F.PrivateBytes 262143) }
    ensures last_byte { (text : List ℕ) → length text ≡ 262143
        → private_fault (codes "x") (assertion_by (codes "alice"))
        (record session { privates = numbered_text 1 text ∷ [] }) ≡ None }
{}

/// Attributes of a session.
pub fn attributes_of_sessions()
    ensures set { (set_attribute (codes "x") (codes "2") session).attributes
        ≡ attribute (codes "v") (codes "1") ∷ attribute (codes "w") [] ∷ attribute (codes "x") (codes "2") ∷ [] }
    ensures set_again { (set_attribute (codes "v") (codes "2") session).attributes
        ≡ attribute (codes "v") (codes "2") ∷ attribute (codes "w") [] ∷ [] }
    ensures unset { (unset_attribute (codes "v") session).attributes ≡ attribute (codes "w") [] ∷ [] }
    ensures bad_name { set_fault (codes "_v") (codes "3") session ≡ Some F.Name }
    ensures long_value { set_fault (codes "v") (replicate 4097 97) session ≡ Some F.Value }
    ensures full { set_fault (codes "v") [] (record session { attributes = replicate 256 (attribute (codes "w") []) })
        ≡ Some (F.Attributes 256) }
    ensures full_of_it { set_fault (codes "w") []
        (record session { attributes = replicate 256 (attribute (codes "w") []) }) ≡ None }
    ensures empty_is_there { unset_fault (codes "w") session ≡ None }
    ensures absent { unset_fault (codes "x") session ≡ Some F.Absent }
{}

/// Requesters of a session are named by normal forms.
pub fn requesters_of_sessions()
    ensures entered { (add_requester (codes "DSA-HEX:0F") (empty 1)).requesters ≡ codes "dsa-hex:0f" ∷ [] }
    ensures other_letters { (add_requester (codes "DSA-base64:aF") (empty 1)).requesters ≡ codes "dsa-base64:aF" ∷ [] }
    ensures no_colon { (add_requester (codes "Alice") (empty 1)).requesters ≡ codes "Alice" ∷ [] }
    ensures again { (add_requester (codes "RSA-HEX:1023ABCD") session).requesters ≡ session.requesters }
    ensures taken { (take_requester (codes "RSA-HEX:1023ABCD") session).requesters ≡ codes "alice" ∷ [] }
    ensures there { unauth_fault (codes "RSA-hex:1023abcd") session ≡ None }
    ensures absent { unauth_fault (codes "Alice") session ≡ Some F.Absent }
{}

/// Which texts may name a requester.
pub fn refused_requesters()
    ensures nobody { auth_fault [] session ≡ Some F.Principal }
    ensures policy { auth_fault (codes "POLICY") session ≡ Some F.Principal }
    ensures lower_case { auth_fault (codes "policy") session ≡ None }
    ensures longest { auth_fault (replicate 4096 97) session ≡ None }
    ensures longer { auth_fault (replicate 4097 97) session ≡ Some F.Principal }
    ensures full { auth_fault (codes "bob") (record session { requesters = replicate 64 (codes "alice") })
        ≡ Some (F.Requesters 64) }
    ensures full_of_it { auth_fault (codes "alice") (record session { requesters = replicate 64 (codes "alice") })
        ≡ None }
    ensures unauth_of_policy { unauth_fault (codes "POLICY") session ≡ Some F.Absent }
{}

/// The sessions of a connection.
pub fn sessions_of_a_connection()
    ensures last { start_fault (replicate 15 (empty 1)) ≡ None }
    ensures full { start_fault (replicate 16 (empty 1)) ≡ Some (F.Sessions 16) }
    ensures started { with_started 4 (session ∷ []) [] ≡ session ∷ empty 5 ∷ [] }
    ensures closed { after_call (empty 1 ∷ session ∷ []) 2 Q.Close ≡ empty 1 ∷ [] }
    ensures not_open { call_fault_in 7 None Q.Clear ≡ Some (T.Session (F.Unknown 7)) }
    ensures clear { call_fault Q.Clear session ≡ None }
    ensures close { call_fault Q.Close session ≡ None }
    ensures one_changes { after_call (empty 1 ∷ empty 2 ∷ []) 2 (Q.Auth (codes "alice"))
        ≡ empty 1 ∷ record (empty 2) { requesters = codes "alice" ∷ [] } ∷ [] }
    ensures no_standing_query { standing_fault session ≡ Some F.Absent }
    ensures standing_query { standing_fault (watch_with [] session) ≡ None }
    ensures ended { after_call (watch_with [] session ∷ []) 2 Q.Unwatch ≡ session ∷ [] }
{}

/// Which calls may run out of memory.
pub fn memory_of_calls()
    ensures assert { call_may_lack_memory (Q.Assert []) ≡ true }
    ensures set { call_may_lack_memory (Q.Set [] []) ≡ true }
    ensures auth { call_may_lack_memory (Q.Auth []) ≡ true }
    ensures close { call_may_lack_memory Q.Close ≡ false }
    ensures clear { call_may_lack_memory Q.Clear ≡ false }
    ensures retract { call_may_lack_memory (Q.Retract 1) ≡ false }
    ensures unset { call_may_lack_memory (Q.Unset []) ≡ false }
    ensures unauth { call_may_lack_memory (Q.Unauth []) ≡ false }
    ensures unwatch { call_may_lack_memory Q.Unwatch ≡ false }
{}
