//! The law of activity, the contract of a function that does nothing.
ghost use Rattle.ec_store.specs.Table.{KeptProp};
ghost use Rattle.std.specs.Prelude.{List};
ghost use Rattle.ec_context.specs.Activity.{EvaluatingIsActivity};

/// To evaluate an entry over the numbers of a table is to ask whether the entry that the table shows is active.
pub fn evaluating_is_activity_law()
    ensures { (table : List KeptProp) → EvaluatingIsActivity table }
{}
