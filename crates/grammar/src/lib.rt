// What a drawing means: covered sets, the places of rules and their numbers, the record, refusals and histories.
// The definitions stand in specs/; each function here carries a statement about them, for any two kinds.
#![tactic(auto)]

ghost use Rattle.grammar.specs.Again.{StepsCanBeMadeAgain};
ghost use Rattle.grammar.specs.Answered.{Determined, EveryCallHasOneAnswer};
ghost use Rattle.grammar.specs.Meaning.{Meaning};

use kinds::kind::Kind;

pub mod ordinal;

// Places and their numbers follow from what a drawing covers, and that follows from its record.
pub fn places_follow_cover<M: Kind, C: Kind>()
    ensures { Meaning M.Kind.model C.Kind.model }
{}

// Lists of places, records and drawings are determined by what they are made of.
pub fn determined<M: Kind, C: Kind>()
    ensures { Determined M.Kind.model C.Kind.model }
{}

// After any history every call has an answer, and only one.
pub fn every_call_has_one_answer<M: Kind, C: Kind>()
    ensures { EveryCallHasOneAnswer M.Kind.model C.Kind.model }
{}

// After any history every recorded step finds the room that it had, when it is made again from the start copies.
pub fn steps_can_be_made_again<M: Kind, C: Kind>()
    ensures { StepsCanBeMadeAgain M.Kind.model C.Kind.model }
{}
