//! Laws of the definitions, for the crates above: each is the contract of a function that does nothing.

ghost use Rattle.std.specs.Prelude.{◌≡◌, ◌≤◌, ◌+◌, ◌*◌, ◌⊎◌, ℕ, List as Of, length};
ghost use Rattle.kn_proof.specs.declared.named.NamedRow.{NamedRow};
ghost use Rattle.kn_proof.specs.declared.reply.ReadReply.{ReadReply};
ghost use Rattle.kn_proof.specs.Texts.{row_text};
ghost use Rattle.kn_proof.specs.declared.header.Header.{Header};
ghost use Rattle.kn_proof.specs.Lines.{HeaderTexts, IsHeaderForm, IsHeaderInRange, header_line};
ghost use Rattle.kn_proof.specs.Lines.{IsLine, IsRowForm, IsRowInRange, RowTexts, row_line};
ghost use Rattle.kn_proof.specs.Reading.{IsFirstFault, IsHeader, IsReplyText, IsReadRow, header_text};
ghost use Rattle.kn_proof.specs.declared.fault.ProofFault.{ProofFault};

use crate::reply::FILE_ROWS;
use kn_base::limits::FILE_BYTES;

/// What has the form of line 1 or of a ROW line is one line: its one newline is its last byte. So what is left behind a
/// line 1 and so many rows begins with the line of the number of these rows and 2.
pub fn forms_are_lines()
    ensures header { (texts : HeaderTexts) → IsHeaderForm texts → IsLine (header_line texts) }
    ensures row { (texts : RowTexts) → IsRowForm texts → IsLine (row_line texts) }
{}

/// The lines of a reply whose name and numbers are in range have their forms, by texts that are in range.
pub fn replies_have_the_forms()
    ensures header { (header : Header) → IsHeader header
        → (texts : HeaderTexts) × (header_text header ≡ header_line texts)
        × IsHeaderForm texts × IsHeaderInRange texts }
    ensures row { (row : NamedRow) → IsReadRow row
        → (texts : RowTexts) × (row_text row ≡ row_line texts) × IsRowForm texts × IsRowInRange texts }
{}

/// A text is that of one reply or has one first fault, and never both.
pub fn one_reply_or_fault()
    ensures each { (text : Of ℕ)
        → ((reply : ReadReply) × IsReplyText text reply) ⊎ ((fault : ProofFault) × IsFirstFault text fault) }
    ensures not_both { (text : Of ℕ) (reply : ReadReply) (fault : ProofFault)
        → IsReplyText text reply → ¬ IsFirstFault text fault }
    ensures one_reply { (text : Of ℕ) (reply other : ReadReply)
        → IsReplyText text reply → IsReplyText text other → reply ≡ other }
    ensures one_fault { (text : Of ℕ) (fault other : ProofFault)
        → IsFirstFault text fault → IsFirstFault text other → fault ≡ other }
{}

/// A row takes 12 bytes at least, and the rest of a reply 18. So a file has no reply of more than `FILE_ROWS` rows.
pub fn rows_take_bytes()
    ensures bytes { (text : Of ℕ) (reply : ReadReply)
        → IsReplyText text reply → 12 * length reply.rows + 18 ≤ length text }
    ensures rows { (text : Of ℕ) (reply : ReadReply)
        → IsReplyText text reply → length text ≤ FILE_BYTES → length reply.rows ≤ FILE_ROWS }
    ensures most { FILE_ROWS ≡ 1398099 }
{}
