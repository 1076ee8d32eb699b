//! Worked examples of replies as text, each shown by computing it. The function has no body: its clauses are what it
//! says.

ghost use Rattle.std.specs.Prelude.{◌≡◌, [], ◌∷◌, codes};
ghost use Rattle.kn_reply.specs.Replies.{reply_text, Done, Started, Value, Batched, PinnedAt, Log, News};
ghost use Rattle.kn_reply.specs.Replies.{Critical, No, NoMemory};
ghost use Rattle.kn_proof.specs.declared.named.Id.TheVariants.{Shared, Private};
ghost use Rattle.kn_history.specs.History.{addition_by, removal_by};
ghost use Rattle.kn_reply.specs.declared.refusal.ItemRefusal.TheVariants as I;
ghost use Rattle.kn_reply.specs.declared.refusal.Refusal.TheVariants as R;
ghost use Rattle.kn_reply.specs.declared.refusal.LimitWord.TheVariants as W;

/// The texts of replies.
pub fn reply_texts()
    ensures done { reply_text Done ≡ codes "OK\n" }
    ensures started { reply_text (Started 1 1) ≡ codes "OK 1 1\n" }
    ensures granted { reply_text (Value 1 (codes "yes") 1 []) ≡ codes "VALUE 1 yes 1 0\nEND\n" }
    ensures denied { reply_text (Value 0 (codes "no") 0 []) ≡ codes "VALUE 0 no 0 0\nEND\n" }
    ensures syntax { reply_text (No R.Syntax) ≡ codes "NO 1 syntax\n" }
    ensures session { reply_text (No R.Session) ≡ codes "NO 3 session\n" }
    ensures limit { reply_text (No (R.Limit W.Sessions 16)) ≡ codes "NO 13 limit sessions 16\n" }
    ensures read { reply_text (No (R.Read 12 0)) ≡ codes "NO 5 read 12 0\n" }
    ensures batched { reply_text (Batched 2 1 2) ≡ codes "OK a2 1 2\n" }
    ensures pinned_at { reply_text (PinnedAt 1 2) ≡ codes "OK 1 2\n" }
    ensures log { reply_text (Log 1 (addition_by 0 (codes "x\n") 1 ∷ addition_by 3 (codes "y\n") 2
        ∷ removal_by 0 1 ∷ [])) ≡ codes "LOG 1 2 3\nUPDATE 3 1\nADD 2\ny\n\nUPDATE 0 1\nDROP a1\nEND\n" }
    ensures log_end { reply_text (Log 2 (addition_by 0 (codes "x") 1 ∷ removal_by 0 1 ∷ []))
        ≡ codes "LOG 2 0 2\nEND\n" }
    ensures news { reply_text (News 0 (codes "no") 3) ≡ codes "NEWS 0 no 3\n" }
    ensures critical { reply_text (Critical 1 (Shared 1 ∷ Private 1 ∷ []))
        ≡ codes "CRITICAL 1 2\nNEED a1\nNEED p1\nEND\n" }
    ensures none_critical { reply_text (Critical 1 []) ≡ codes "CRITICAL 1 0\nEND\n" }
    ensures nodes { reply_text (No (R.Limit W.Nodes 16385)) ≡ codes "NO 13 limit nodes 16385\n" }
    ensures batch { reply_text (No (R.Batch 1)) ≡ codes "NO 16 batch 1\n" }
    ensures item { reply_text (No (R.Item 2 I.Unknown)) ≡ codes "NO 17 item 2 12 unknown\n" }
    ensures retained { reply_text (No (R.Retained 2)) ≡ codes "NO 18 retained 2\n" }
    ensures ahead { reply_text (No (R.Ahead 2)) ≡ codes "NO 19 ahead 2\n" }
    ensures no_memory { reply_text NoMemory ≡ codes "NOMEM\n" }
{}
