//! Examples of histories: which credentials are live, under which ids, what refuses a change, and which versions are
//! retained. The functions have no body: their clauses are what they say.

ghost use Rattle.std.specs.Prelude.{ℕ, List, ◌≡◌, ◌==◌, ◌∷◌, ◌++◌, [], true, false, length, codes};
ghost use Rattle.std.specs.Prelude.{Some, None};
ghost use Rattle.std.specs.List.{list_any};
ghost use Rattle.kn_history.specs.declared.update.Numbered.{Numbered};
ghost use Rattle.kn_history.specs.declared.item.Item.TheVariants.{Add, Remove};
ghost use Rattle.kn_history.specs.declared.fault.StoreFault.TheVariants.{Unknown, LiveFull, BytesFull};
ghost use Rattle.kn_history.specs.declared.fault.StoreFault.TheVariants.{HistoryFull, LogFull};
ghost use Rattle.kn_history.specs.History.{live, additions, text_bytes, logged_bytes, refusal_of_text, refusal_of_id};
ghost use Rattle.kn_history.specs.History.{may_follow, update_may_follow};
ghost use Rattle.kn_history.specs.Batches.{numbered_from, refusal_of_items};
ghost use Rattle.kn_history.specs.Retained.{is_retained, retained_version};
ghost use Rattle.kn_examples.specs.Histories.{add, remove, numbered_text, update, two_added, one_left};

/// The live credentials, and what is counted of a history. A removed text stays in the log, and its id isn't used
/// again.
pub fn live_credentials()
    ensures both { live two_added ≡ numbered_text 1 (codes "ab") ∷ numbered_text 2 (codes "c") ∷ [] }
    ensures one { live one_left ≡ numbered_text 2 (codes "c") ∷ [] }
    ensures none { live (one_left ++ remove 2 ∷ []) ≡ [] }
    ensures same_text { live (one_left ++ add (codes "ab") 3 ∷ [])
        ≡ numbered_text 2 (codes "c") ∷ numbered_text 3 (codes "ab") ∷ [] }
    ensures bytes { text_bytes (live one_left) ≡ 1 }
    ensures logged { logged_bytes one_left ≡ 3 }
    ensures count { additions one_left ≡ 2 }
    ensures next_ids { numbered_from 3 (Add (codes "d") ∷ Remove 1 ∷ Add (codes "e") ∷ [])
        ≡ add (codes "d") 3 ∷ remove 1 ∷ add (codes "e") 4 ∷ [] }
{}

/// What refuses a removal.
pub fn refused_removals()
    ensures nothing_there { refusal_of_id [] 1 ≡ Some (Unknown 1) }
    ensures there { refusal_of_id two_added 1 ≡ None }
    ensures removed { refusal_of_id one_left 1 ≡ Some (Unknown 1) }
    ensures never_there { refusal_of_id two_added 9 ≡ Some (Unknown 9) }
    ensures full { (past : List Numbered) (id : ℕ) → list_any (λ c. c.id == id) (live past) ≡ true
        → length past ≡ 65536 → refusal_of_id past id ≡ Some (HistoryFull 65536) }
{}

/// What refuses an addition: of several limits that are met the first is named, with what is counted before the
/// addition.
pub fn refused_additions()
    ensures nothing_there { refusal_of_text [] (codes "ab") ≡ None }
    ensures live_texts { (past : List Numbered) (text : List ℕ) → length (live past) ≡ 4096
        → refusal_of_text past text ≡ Some (LiveFull 4096) }
    ensures live_bytes { (past : List Numbered) (text : List ℕ) → length (live past) ≡ 4095
        → text_bytes (live past) ≡ 8388600 → length text ≡ 9 → refusal_of_text past text ≡ Some (BytesFull 8388600) }
    ensures changes { (past : List Numbered) (text : List ℕ) → length (live past) ≡ 4095
        → text_bytes (live past) ≡ 8388600 → length text ≡ 8 → length past ≡ 65536
        → refusal_of_text past text ≡ Some (HistoryFull 65536) }
    ensures logged_bytes { (past : List Numbered) (text : List ℕ) → length (live past) ≡ 4095
        → text_bytes (live past) ≡ 8388600 → length text ≡ 8 → length past ≡ 65535
        → logged_bytes past ≡ 67108857 → refusal_of_text past text ≡ Some (LogFull 67108857) }
    ensures none { (past : List Numbered) (text : List ℕ) → length (live past) ≡ 4095
        → text_bytes (live past) ≡ 8388600 → length text ≡ 8 → length past ≡ 65535
        → logged_bytes past ≡ 67108856 → refusal_of_text past text ≡ None }
{}

/// What refuses a batch: its first item that is refused behind those in front of it. A removal may name an addition of
/// the same batch.
pub fn refused_batches()
    ensures second { refusal_of_items two_added (Add (codes "d") ∷ Remove 9 ∷ []) ≡ Some (2, Unknown 9) }
    ensures twice { refusal_of_items two_added (Remove 1 ∷ Remove 1 ∷ []) ≡ Some (2, Unknown 1) }
    ensures own_addition { refusal_of_items two_added (Add (codes "d") ∷ Remove 3 ∷ []) ≡ None }
    ensures later_addition { refusal_of_items two_added (Remove 3 ∷ Add (codes "d") ∷ []) ≡ Some (1, Unknown 3) }
    ensures first { refusal_of_items two_added (Remove 8 ∷ Remove 9 ∷ []) ≡ Some (1, Unknown 8) }
{}

/// Which updates may follow.
pub fn following_updates()
    ensures removal { update_may_follow two_added (update 1 (remove 2 ∷ [])) ≡ true }
    ensures both_removed { update_may_follow two_added (update 1 (remove 2 ∷ remove 1 ∷ [])) ≡ true }
    ensures twice_removed { update_may_follow two_added (update 1 (remove 2 ∷ remove 2 ∷ [])) ≡ false }
    ensures nothing { update_may_follow two_added (update 1 []) ≡ false }
    ensures wrong_id { may_follow two_added (add (codes "d") 4) ≡ false }
    ensures id_again { may_follow one_left (add (codes "d") 1) ≡ false }
{}

/// The newest version and the 15 before it are retained.
pub fn retained_versions()
    ensures newest { is_retained 17 17 ≡ true }
    ensures oldest { is_retained 17 2 ≡ true }
    ensures older { is_retained 17 1 ≡ false }
    ensures not_there { is_retained 17 18 ≡ false }
    ensures empty { is_retained 15 0 ≡ true }
    ensures kept { retained_version (update 1 (remove 1 ∷ []) ∷ update 2 (remove 2 ∷ []) ∷ []) 1
        ≡ Some (update 1 (remove 1 ∷ []) ∷ []) }
    ensures ahead { retained_version (update 1 (remove 1 ∷ []) ∷ []) 2 ≡ None }
{}
