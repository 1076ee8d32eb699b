//! Laws of histories and of loading, each of them the contract of a function that does nothing.

ghost use Rattle.std.specs.Prelude.{◌≡◌, ℕ, List};
ghost use Rattle.kn_history.specs.Laws.{LoadingEnds, LoadingEndsOnce, LoadableIsValid, ValidGrows, ValidBefore};
ghost use Rattle.kn_history.specs.Laws.{AdditionIsLive, RemovalIsGone, CredentialsByUpdate, IdsDiffer, ValidIdsAscend};
ghost use Rattle.kn_history.specs.Laws.{RefusedItems, IdsGoOn, BatchFollows, ItemsDetermineUpdate};
ghost use Rattle.kn_history.specs.Laws.{SinglesAreHistories, RetainedAreNewest, RetainedIsValid};

/// Loading texts makes a history of them, or ends at the first one that has a fault or is refused; and it ends
/// in one way.
pub fn loading_ends()
    ensures one_way { LoadingEnds }
    ensures no_other { (texts : List (List ℕ)) → LoadingEndsOnce texts }
{}

/// Texts make a history exactly where the history that adds them is valid.
pub fn loadable_is_valid()
    ensures { LoadableIsValid }
{}

/// One more addition is one more live credential, and one more removal takes the credential of its id away.
pub fn credentials_change()
    ensures addition { AdditionIsLive }
    ensures removal { RemovalIsGone }
{}

/// Credentials whose ids ascend have ids that differ.
pub fn ids_differ()
    ensures { IdsDiffer }
{}

/// A valid history with an update that may follow is valid, and so is each part from its beginning.
pub fn valid_histories()
    ensures grows { ValidGrows }
    ensures before { ValidBefore }
{}

/// The items of a batch: which one refuses it, and that its update may follow where they may.
pub fn batches_follow()
    ensures refused { RefusedItems }
    ensures ids { IdsGoOn }
    ensures follows { BatchFollows }
    ensures determined { ItemsDetermineUpdate }
{}

/// A history whose updates have one change each is valid exactly where it is by the rules for single changes.
pub fn singles_are_histories()
    ensures { SinglesAreHistories }
{}

/// One more update makes its changes to the credentials one by one, and the ids of a valid history's ascend.
pub fn updates_change_credentials()
    ensures changes { CredentialsByUpdate }
    ensures ids { ValidIdsAscend }
{}

/// The newest 16 versions of a history are retained, and each of them is a valid history where the whole is.
pub fn retained_is_valid()
    ensures newest { RetainedAreNewest }
    ensures valid { RetainedIsValid }
{}
