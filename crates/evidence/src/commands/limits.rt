//! How many bytes of a text are read, and how many workers search? The functions do nothing: their contracts are laws.

ghost use Rattle.std.specs.Prelude.{◌≡◌};
ghost use Rattle.command_line.specs.declared.words.Effort.{Effort};
ghost use Rattle.command_line.specs.Requests.{IsSoundEffort};
ghost use Rattle.command_streams.specs.declared.limits.TheConstants.{CERTIFICATE_LIMIT, INSTANCE_LIMIT, LONG_CERTIFICATE_LIMIT, PLAN_LIMIT};
ghost use Rattle.search_workers.specs.Workers.{workers_of};

/// The limits that clauses of commands name have these numbers of bytes.
pub fn limits_of_texts()
    ensures instance { INSTANCE_LIMIT ≡ 8388608 }
    ensures plan { PLAN_LIMIT ≡ 131072 }
    ensures certificate { CERTIFICATE_LIMIT ≡ 268435456 }
    ensures long { LONG_CERTIFICATE_LIMIT ≡ 1099511627776 }
{}

/// As many workers search as words may ask for.
pub fn workers_asked_for_search()
    ensures { (effort : Effort) → IsSoundEffort effort → workers_of effort.workers ≡ effort.workers }
{}
