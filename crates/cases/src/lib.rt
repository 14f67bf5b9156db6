// Nine worked cases: drawings of inked points and inked segments, followed call by call through the definitions of crate grammar.
#![tactic(auto)]

ghost use Rattle.cases.specs.Cases.{Cases};

// Each case is a history of calls with the drawing that it leads to, or a list of places.
pub fn worked_cases()
    ensures { Cases }
{}
