//! Examples of replies as text. The functions have no body: their clauses are what they say.

ghost use Rattle.std.specs.Prelude.{◌≡◌, ◌∷◌, ◌++◌, [], length, replicate, codes};
ghost use Rattle.kn_proof.specs.declared.named.Id.TheVariants.{Shared, Private};
ghost use Rattle.kn_reply.specs.declared.refusal.ItemRefusal.TheVariants as I;
ghost use Rattle.kn_reply.specs.declared.refusal.Refusal.TheVariants as R;
ghost use Rattle.kn_reply.specs.declared.refusal.LimitWord.TheVariants as W;
ghost use Rattle.kn_reply.specs.Logs.{log_part};
ghost use Rattle.kn_reply.specs.Replies.{reply_text, Number, PrivateAdded, Added, Value, Log, Critical, No};
ghost use Rattle.kn_examples.specs.Histories.{add, remove, update};
ghost use Rattle.kn_examples.specs.Rows.{row};

/// Refusals that are a code and a word.
pub fn refusals()
    ensures command { reply_text (No R.Command) ≡ codes "NO 2 command\n" }
    ensures admin { reply_text (No R.Admin) ≡ codes "NO 4 admin\n" }
    ensures policy { reply_text (No R.Policy) ≡ codes "NO 6 policy\n" }
    ensures name { reply_text (No R.Name) ≡ codes "NO 8 name\n" }
    ensures value { reply_text (No R.Value) ≡ codes "NO 9 value\n" }
    ensures values { reply_text (No R.Values) ≡ codes "NO 10 values\n" }
    ensures principal { reply_text (No R.Principal) ≡ codes "NO 11 principal\n" }
    ensures unknown { reply_text (No R.Unknown) ≡ codes "NO 12 unknown\n" }
    ensures long { reply_text (No R.Long) ≡ codes "NO 14 long\n" }
    ensures block { reply_text (No R.Block) ≡ codes "NO 15 block\n" }
{}

/// Refusals that tell numbers, of a request and of an item of a batch.
pub fn refusals_with_numbers()
    ensures read { reply_text (No (R.Read 16 3)) ≡ codes "NO 5 read 16 3\n" }
    ensures auth { reply_text (No (R.Auth 2)) ≡ codes "NO 7 auth 2\n" }
    ensures item_read { reply_text (No (R.Item 1 (I.Read 12 0))) ≡ codes "NO 17 item 1 5 read 12 0\n" }
    ensures item_auth { reply_text (No (R.Item 256 (I.Auth 5))) ≡ codes "NO 17 item 256 7 auth 5\n" }
    ensures item_limit { reply_text (No (R.Item 10 (I.Limit W.Live 4096)))
        ≡ codes "NO 17 item 10 13 limit live 4096\n" }
    ensures last_batch_item { reply_text (No (R.Batch 257)) ≡ codes "NO 16 batch 257\n" }
{}

/// The words of the limits.
pub fn limit_words()
    ensures sessions { reply_text (No (R.Limit W.Sessions 16)) ≡ codes "NO 13 limit sessions 16\n" }
    ensures privates { reply_text (No (R.Limit W.Private 64)) ≡ codes "NO 13 limit private 64\n" }
    ensures private_bytes { reply_text (No (R.Limit W.PrivateBytes 262144))
        ≡ codes "NO 13 limit private-bytes 262144\n" }
    ensures requesters { reply_text (No (R.Limit W.Requesters 64)) ≡ codes "NO 13 limit requesters 64\n" }
    ensures attributes { reply_text (No (R.Limit W.Attributes 256)) ≡ codes "NO 13 limit attributes 256\n" }
    ensures live { reply_text (No (R.Limit W.Live 4096)) ≡ codes "NO 13 limit live 4096\n" }
    ensures live_bytes { reply_text (No (R.Limit W.LiveBytes 8388608)) ≡ codes "NO 13 limit live-bytes 8388608\n" }
    ensures updates { reply_text (No (R.Limit W.Updates 65536)) ≡ codes "NO 13 limit updates 65536\n" }
    ensures log_bytes { reply_text (No (R.Limit W.LogBytes 67108864)) ≡ codes "NO 13 limit log-bytes 67108864\n" }
    ensures nodes { reply_text (No (R.Limit W.Nodes 16385)) ≡ codes "NO 13 limit nodes 16385\n" }
{}

/// Replies that tell ids and versions.
pub fn numbers_of_replies()
    ensures version { reply_text (Number 10) ≡ codes "OK 10\n" }
    ensures own { reply_text (PrivateAdded 1) ≡ codes "OK p1\n" }
    ensures shared { reply_text (Added 2 20) ≡ codes "OK a2 20\n" }
    ensures zero { reply_text (Number 0) ≡ codes "OK 0\n" }
{}

/// Rows of a proof, and principals in quotes.
pub fn rows_of_replies()
    ensures in_order { reply_text (Value 1 (codes "log") 2
        (row 1 (Shared 2) (codes "y") ∷ row 1 (Private 1) (codes "POLICY") ∷ []))
        ≡ codes "VALUE 1 log 2 2\nROW 1 a2 \"y\"\nROW 1 p1 \"POLICY\"\nEND\n" }
    ensures quotes { reply_text (Value 1 (codes "yes") 1 (row 1 (Shared 1) (codes "a\"b\\c") ∷ []))
        ≡ codes "VALUE 1 yes 1 1\nROW 1 a1 \"a\\\"b\\\\c\"\nEND\n" }
    ensures other_bytes { reply_text (Value 1 (codes "yes") 1
        (row 1 (Shared 1) (10 ∷ 31 ∷ 32 ∷ 126 ∷ 127 ∷ 255 ∷ []) ∷ []))
        ≡ codes "VALUE 1 yes 1 1\nROW 1 a1 \"\\012\\037 ~\\177\\377\"\nEND\n" }
    ensures needs { reply_text (Critical 2 (Private 3 ∷ Shared 12 ∷ []))
        ≡ codes "CRITICAL 2 2\nNEED p3\nNEED a12\nEND\n" }
{}

/// Updates of several changes, and how many updates a reply hands on.
pub fn logs()
    ensures several_changes { reply_text (Log 0 (update 2 (add (codes "x\n") 1 ∷ add [] 2 ∷ remove 1 ∷ []) ∷ []))
        ≡ codes "LOG 0 1 1\nUPDATE 2 3\nADD 2\nx\n\nADD 0\n\nDROP a1\nEND\n" }
    ensures first_16 { log_part 0 (replicate 17 (update 1 (remove 1 ∷ []))) ≡ replicate 16 (update 1 (remove 1 ∷ [])) }
    ensures last { log_part 16 (replicate 17 (update 1 (remove 1 ∷ []))) ≡ update 1 (remove 1 ∷ []) ∷ [] }
    ensures none { log_part 17 (replicate 17 (update 1 (remove 1 ∷ []))) ≡ [] }
{}
