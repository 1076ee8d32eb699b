//! Worked examples of requests, each shown by computing it. The functions have no body: their clauses are what they
//! say.

ghost use Rattle.std.specs.Prelude.{ℕ, List, ◌≡◌, ◌<◌, ◌≤◌, ◌++◌, ◌∷◌, [], false, length, codes, Some, None, Ok, Err};
ghost use Rattle.std.specs.List.{list_any};
ghost use Rattle.kn_wire.specs.Requests as Q;
ghost use Rattle.kn_wire.specs.Items.{items_of, AddText, DropId};
ghost use Rattle.kn_wire.specs.Requests.{first_of, Takes, is_newline, first_of_line, line_of, without_return};
ghost use Rattle.kn_wire.specs.declared.fault.WireFault.TheVariants as F;

/// The first request of a text, and what is left of it.
pub fn first_requests()
    ensures open { first_of (codes "OPEN\nBYE\n") ≡ Some (Q.Open, codes "BYE\n") }
    ensures carriage_return { first_of (codes "OPEN\r\n") ≡ Some (Q.Open, []) }
    ensures no_newline { first_of (codes "OPEN") ≡ None }
    ensures nothing { first_of [] ≡ None }
    ensures block { first_of (codes "ADD 2\nab\nBYE\n") ≡ Some (Q.Add (codes "ab"), codes "BYE\n") }
    ensures block_underway { first_of (codes "ADD 2\nab") ≡ None }
    ensures block_unended { first_of (codes "ADD 1\nab\n") ≡ Some (Q.Faulty (F.Block 1), []) }
    ensures block_above { first_of (codes "ADD 16385\n") ≡ Some (Q.Faulty (F.Block 16385), []) }
{}

/// Lines that spell no request.
pub fn faulty_lines()
    ensures two_words { first_of (codes "OPEN x\n") ≡ Some (Q.Faulty F.Syntax, []) }
    ensures space_behind { first_of (codes "OPEN \n") ≡ Some (Q.Faulty F.Syntax, []) }
    ensures no_principal { first_of (codes "AUTH 1\n") ≡ Some (Q.Faulty F.Syntax, []) }
    ensures leading_zero { first_of (codes "AUTH 01 alice\n") ≡ Some (Q.Faulty F.Syntax, []) }
    ensures no_name { first_of (codes "SET 1  v\n") ≡ Some (Q.Faulty F.Syntax, []) }
    ensures lower_case { first_of (codes "open\n") ≡ Some (Q.Faulty F.Command, []) }
    ensures empty_line { first_of (codes "\n") ≡ Some (Q.Faulty F.Command, []) }
    ensures return_alone { first_of (codes "\r\n") ≡ Some (Q.Faulty F.Command, []) }
    ensures space_before { first_of (codes " OPEN\n") ≡ Some (Q.Faulty F.Command, []) }
{}

/// The requests of a whole session, and of a text with faulty lines.
pub fn whole_texts()
    ensures session { Takes (codes "OPEN\nAUTH 1 alice\nQUERY 1 no,yes\n")
        (Q.Open ∷ Q.Auth 1 (codes "alice") ∷ Q.Query 1 (codes "no,yes") ∷ []) [] }
    ensures faulty { Takes (codes "OPEN\nOPEN x\nopen\n\nBY")
        (Q.Open ∷ Q.Faulty F.Syntax ∷ Q.Faulty F.Command ∷ Q.Faulty F.Command ∷ []) (codes "BY") }
    ensures spaces { Takes (codes "AUTH 1  a b \nAUTH 1 \nQUERY 1 \n")
        (Q.Auth 1 (codes " a b ") ∷ Q.Auth 1 [] ∷ Q.Query 1 [] ∷ []) [] }
    ensures attributes { Takes (codes "SET 1 v a b\r\nSET 1 v \nSET 1 v\n")
        (Q.Set 1 (codes "v") (codes "a b") ∷ Q.Set 1 (codes "v") [] ∷ Q.Set 1 (codes "v") [] ∷ []) [] }
{}

/// A line of more than 8,192 bytes is refused as too long; a line up to that length is read.
pub fn line_lengths()
    ensures long { (line rest : List ℕ) → list_any is_newline line ≡ false → 8192 < length line
        → first_of (line ++ 10 ∷ rest) ≡ Some (Q.Faulty F.Long, rest) }
    ensures long_underway { (line : List ℕ) → list_any is_newline line ≡ false → 8192 < length line
        → first_of line ≡ Some (Q.Faulty F.Long, []) }
    ensures read { (line rest : List ℕ) → list_any is_newline line ≡ false → length line ≤ 8192
        → first_of (line ++ 10 ∷ rest) ≡ first_of_line (line_of (without_return line)) rest }
    ensures underway { (line : List ℕ) → list_any is_newline line ≡ false → length line ≤ 8192 → first_of line ≡ None }
{}

/// Lines of the later requests.
pub fn later_requests()
    ensures batch { first_of (codes "BATCH 8\nDROP a9\n\nBYE\n") ≡ Some (Q.Batch (codes "DROP a9\n"), codes "BYE\n") }
    ensures batch_of_nothing { first_of (codes "BATCH 0\n\n") ≡ Some (Q.Batch [], []) }
    ensures pin { first_of (codes "PIN 1\n") ≡ Some (Q.Pin 1, []) }
    ensures pin_at { first_of (codes "PIN 1 2\n") ≡ Some (Q.PinAt 1 2, []) }
    ensures pin_more { first_of (codes "PIN 1 2 3\n") ≡ Some (Q.Faulty F.Syntax, []) }
    ensures log { first_of (codes "LOG 0\n") ≡ Some (Q.Log 0, []) }
{}

/// Lines of standing queries.
pub fn standing_queries()
    ensures watch { first_of (codes "WATCH 1 no,yes\n") ≡ Some (Q.Watch 1 (codes "no,yes"), []) }
    ensures watch_nothing { first_of (codes "WATCH 1 \n") ≡ Some (Q.Watch 1 [], []) }
    ensures watch_no_values { first_of (codes "WATCH 1\n") ≡ Some (Q.Faulty F.Syntax, []) }
    ensures news { first_of (codes "NEWS 1\n") ≡ Some (Q.News 1, []) }
    ensures news_alone { first_of (codes "NEWS\n") ≡ Some (Q.Faulty F.Syntax, []) }
    ensures news_more { first_of (codes "NEWS 1 2\n") ≡ Some (Q.Faulty F.Syntax, []) }
    ensures unwatch { first_of (codes "UNWATCH 1\nBYE\n") ≡ Some (Q.Unwatch 1, codes "BYE\n") }
    ensures unwatch_leading_zero { first_of (codes "UNWATCH 01\n") ≡ Some (Q.Faulty F.Syntax, []) }
    ensures lower_case { first_of (codes "watch 1 no,yes\n") ≡ Some (Q.Faulty F.Command, []) }
{}

/// Lines that ask for critical credentials.
pub fn critical_credentials()
    ensures critical { first_of (codes "CRITICAL 1 no,yes\r\n") ≡ Some (Q.Critical 1 (codes "no,yes"), []) }
    ensures no_number { first_of (codes "CRITICAL x no,yes\n") ≡ Some (Q.Faulty F.Syntax, []) }
    ensures no_values { first_of (codes "CRITICAL 1\n") ≡ Some (Q.Faulty F.Syntax, []) }
{}

/// The items of blocks.
pub fn items_of_blocks()
    ensures both { items_of (codes "ADD 2\nab\nDROP a9\n") ≡ Ok (AddText (codes "ab") ∷ DropId 9 ∷ []) }
    ensures nothing { items_of [] ≡ Err 1 }
    ensures with_return { items_of (codes "DROP a1\nDROP a2\r\n") ≡ Err 2 }
    ensures unended { items_of (codes "DROP a1\nADD 2\nab") ≡ Err 2 }
    ensures above { items_of (codes "ADD 2\nabc\n") ≡ Err 1 }
    ensures blank { items_of (codes "DROP a1\n\n") ≡ Err 2 }
    ensures no_bytes { items_of (codes "ADD 0\n\n") ≡ Ok (AddText [] ∷ []) }
    ensures zero { items_of (codes "DROP a0\n") ≡ Ok (DropId 0 ∷ []) }
    ensures leading_zero { items_of (codes "DROP a01\n") ≡ Err 1 }
    ensures size_with_return { items_of (codes "ADD 2\r\nab\n") ≡ Err 1 }
{}
