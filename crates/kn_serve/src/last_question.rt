//! The last question of a connection, by whose compliance values the next one mostly asks too, and its answer.
ghost use Rattle.std.specs.Prelude.{◌≡◌, None, Some, IfSome};
ghost use Rattle.kn_env.specs.Values.{values_of};
ghost use Rattle.kn_serve.specs.LastQuestions.{IsKeptFor, Takes};

use kn_answer::Answer;
use kn_base::Octets;
use kn_env::Values;
use std::alloc::Global;
use std::marker::Model;

/// The most rows of an answer that is kept.
const MOST_ROWS: u32 = 64;

/// The answer to a question of a session at a version.
#[derive(Drop)]
pub(crate) struct LastAnswer {
    /// The number of the session.
    pub s: u32,
    /// The number of the version that it was pinned to.
    pub version: u32,
    pub answer: Answer,
}

/// The compliance values of a connection's last QUERY, with the text that they were read from, and its answer. A QUERY
/// by the same text need not read them again, and where nothing else has changed it has the same answer.
pub(crate) struct LastQuestion {
    text: Octets,
    values: Option<Values>,
    answer: Option<LastAnswer>,
}

// Written out, so that each place that drops one rests on this proof.
impl Drop for LastQuestion {
    fn drop(self) {
        let LastQuestion {
            text,
            values,
            answer,
        } = self;
    }
}

impl Model for LastQuestion {
    ghost use Rattle.std.specs.Prelude.{◌≡◌, Some, IfSome};
    ghost use Rattle.kn_env.specs.Values.{values_of};
    ghost use Rattle.kn_serve.specs.LastQuestions.{LastAsked};

    ghost Value = { LastAsked };

    ghost view = { λ q. record { values = q.values; answer = q.answer } };

    ghost invariant = { λ q. IfSome q.values (λ values. values_of q.text ≡ Some values) };
}

impl LastQuestion {
    /// No question.
    pub(crate) fn new(alloc: Global) -> LastQuestion
        ensures { result.answer ≡ None }
    {
        LastQuestion {
            text: Octets::new(alloc),
            values: None,
            answer: None,
        }
    }

    /// The answer with its compliance values, where it is to a question by this text of that session at that version.
    pub(crate) fn answer_to(&self, s: u32, version: u32, names: &[u8]) -> Option<(&Values, &Answer)>
        ensures { IfSome result (λ kept. IsKeptFor self.now s version names.now kept.0.now kept.1.now) }
    {
        let (Some(values), Some(last)) = (&self.values, &self.answer) else {
            return None;
        };
        if last.s != s || last.version != version || self.text.as_slice() != names {
            return None;
        }
        Some((values, &last.answer))
    }

    /// Takes the compliance values, where they are those of this text. The answer goes.
    pub(crate) fn take(&mut self, names: &[u8]) -> Option<Values>
        ensures values { IfSome result (λ values. values_of names.now ≡ Some values) }
        ensures answer { self.new.answer ≡ None }
    {
        self.answer = None;
        if self.text.as_slice() != names {
            return None;
        }
        self.values.take()
    }

    /// Keeps the compliance values of this text, and the answer, where it has few rows. When out of memory for the text
    /// nothing is kept.
    pub(crate) fn keep(&mut self, alloc: Global, names: &[u8], values: Values, answer: LastAnswer)
        requires { values_of names.now ≡ Some values }
        ensures { Takes values answer self.new }
    {
        let answer = if answer.answer.rows.len() <= MOST_ROWS {
            Some(answer)
        } else {
            None
        };
        if self.text.as_slice() == names {
            self.values = Some(values);
            self.answer = answer;
            return;
        }
        *self = match Octets::from_slice(alloc, names) {
            Ok(text) => LastQuestion {
                text,
                values: Some(values),
                answer,
            },
            Err(_) => LastQuestion::new(alloc),
        };
    }

    /// Forgets the answer, since what it hangs on may have changed.
    pub(crate) fn forget(&mut self)
        ensures { self.new.answer ≡ None }
    {
        self.answer = None;
    }
}
