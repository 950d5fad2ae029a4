//! What holds of all runs, and of the store that docs/STORE.md shows. Each function here has a law as its contract, and does nothing.

ghost use Rattle.std.specs.Prelude.{◌≡◌};
ghost use Rattle.ct_keep.specs.Content.{weight};
ghost use Rattle.db_state.specs.Room.{room};
ghost use Rattle.db_state.specs.States.{StandsForState, empty_state};
ghost use Rattle.db_engine.specs.Alike.{OptimisingChangesNoReply};
ghost use Rattle.db_engine.specs.Runs.{RunsKeepLimit};
ghost use Rattle.db_engine.specs.ShownStore.{after_all, shown_state, shown_statements, shown_store};

/// The store that docs/STORE.md shows stands for the state that its statements lead to, and has the weight and the room that
/// stand there.
pub fn shown_store_stands()
    ensures state { after_all empty_state shown_statements ≡ shown_state }
    ensures stands { StandsForState shown_store shown_state }
    ensures weight { weight shown_store ≡ 704 }
    ensures room { room shown_state ≡ 921 }
{}

/// After statements that were answered within a limit on the content, it is within the limit, or no heavier than before them.
pub fn runs_keep_limit()
    ensures { RunsKeepLimit }
{}

/// Optimising changes no later reply: what is said beside the replies to optimisations is what is said where nothing is optimised.
pub fn optimising_changes_no_reply()
    ensures { OptimisingChangesNoReply }
{}
