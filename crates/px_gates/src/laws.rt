// Laws of the definitions.
ghost use Rattle.px_gates.specs.Laws.{CircuitHasOneModel, GateHasItsValue, SpelledOfAppend, SpelledOfComplements, SumIsCircuit, SumIsSum};

/// The law that where an assignment meets the clauses of a gate, its literal has the gate's value. It does nothing.
pub fn gate_has_its_value()
    ensures { GateHasItsValue }
{}

/// The law that for each values of a circuit's inputs each assignment that meets a formula goes on in exactly one way. It does nothing.
pub fn circuit_has_one_model()
    ensures { CircuitHasOneModel }
{}

/// The law that the bits and the carry of a sum spell the sum. It does nothing.
pub fn sum_is_sum()
    ensures { SumIsSum }
{}

/// The law that a sum is a circuit over the variables of its numbers. It does nothing.
pub fn sum_is_circuit()
    ensures { SumIsCircuit }
{}

/// The law on the number that two lists of literals spell. It does nothing.
pub fn spelled_of_append()
    ensures { SpelledOfAppend }
{}

/// The law on the number that complements spell. It does nothing.
pub fn spelled_of_complements()
    ensures { SpelledOfComplements }
{}
