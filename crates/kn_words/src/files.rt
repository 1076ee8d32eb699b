//! The files of a command, by their names.
ghost use Rattle.std.specs.Prelude.{◌≡◌};
ghost use Rattle.kn_words.specs.Sources.{name_of};

use std::marker::Model;

/// The files of `ask`, by their names.
#[derive(Drop)]
pub struct AskFiles<'a> {
    pub policy: &'a [u8],
    /// The key file, if there is one.
    pub keys: Option<&'a [u8]>,
}

impl<'a> Model for AskFiles<'a> {
    ghost use Rattle.std.specs.Prelude.{option_map};
    ghost use Rattle.kn_words.specs.Names.{AskNames};

    ghost Value = { AskNames };

    ghost view = { λ f. record { policy = f.policy.now; keys = option_map (λ k. k.now) f.keys } };
}

/// Which file of `check`.
#[derive(Clone, Copy, PartialEq, Eq)]
pub enum Source {
    /// The policy file, whose assertions are loaded first.
    Policy,
    /// The requests that are played.
    Script,
    /// The `VALUE` reply whose proof is checked.
    Reply,
}

/// The files of `check`, by their names.
#[derive(Drop)]
pub struct CheckFiles<'a> {
    pub policy: &'a [u8],
    pub script: &'a [u8],
    pub reply: &'a [u8],
}

impl<'a> Model for CheckFiles<'a> {
    ghost use Rattle.kn_words.specs.Names.{CheckNames};

    ghost Value = { CheckNames };

    ghost view = { λ f. record { policy = f.policy.now; script = f.script.now; reply = f.reply.now } };
}

impl<'a> CheckFiles<'a> {
    /// The name of one of them.
    pub fn name(&self, source: Source) -> &[u8]
        ensures { result.now ≡ name_of self.now source }
    {
        match source {
            Source::Policy => self.policy,
            Source::Script => self.script,
            Source::Reply => self.reply,
        }
    }
}

/// The files of `verify`, by their names.
#[derive(Drop)]
pub struct VerifyFiles<'a> {
    pub policy: &'a [u8],
    /// What a client sent on a whole connection.
    pub script: &'a [u8],
    /// What it got.
    pub replies: &'a [u8],
}

impl<'a> Model for VerifyFiles<'a> {
    ghost use Rattle.kn_words.specs.Names.{VerifyNames};

    ghost Value = { VerifyNames };

    ghost view = { λ f. record { policy = f.policy.now; script = f.script.now; replies = f.replies.now } };
}
