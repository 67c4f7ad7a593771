//! What holds of runs one after the other. It is a function that does nothing, and its contract is the law.
ghost use Rattle.fare_run.specs.Many.{RunsKeep};

use sqlite::Alter;

/// Stores in databases agree with lists of taps after any number of runs, each over what the one before it left, where they
/// agreed before the first and all frames that came in each are of the lists: what `serve_databases` and `ask_databases`
/// say of one run goes on to the next, whatever way a run ended, and also where a stop ended its process. The scheme of a run is
/// that of the run before it, or one that adds to it, and then the databases of its new owners' ledgers were vacant. Before a
/// run a scheme is kept beside the outbox, or told of what is kept there, as `fare_registry::scheme_of_run` does: that is so of
/// any number of these, too.
pub fn runs_keep_stores<S: Alter>()
    ensures { RunsKeep S.Store }
{}
