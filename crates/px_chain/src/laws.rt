// Laws of the definitions.
ghost use Rattle.px_chain.specs.Laws.{GenuineLogsAreShort, LearntClausesDiffer, LearntClausesHoldNoVariableTwice, RefutedIsUnmet, ResolutionIsSound};

/// The law that resolution is sound: every assignment that meets the clauses meets what a chain resolves to over them. It does nothing.
pub fn resolution_is_sound()
    ensures { ResolutionIsSound }
{}

/// The law that no assignment meets clauses that chains refute. It does nothing.
pub fn refuted_is_unmet()
    ensures { RefutedIsUnmet }
{}

/// The law that the clauses that a genuine log learns are pairwise different, and that none holds a variable twice. It does nothing.
pub fn learnt_clauses_differ()
    ensures differ { LearntClausesDiffer }
    ensures no_variable_twice { LearntClausesHoldNoVariableTwice }
{}

/// The law that a genuine log has fewer entries than 3 to the power of the variables. It does nothing.
pub fn genuine_logs_are_short()
    ensures { GenuineLogsAreShort }
{}
