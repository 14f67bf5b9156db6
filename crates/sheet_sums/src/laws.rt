// The laws of sums and differences, for any kind.
ghost use Rattle.sheets.specs.Maximal.{ExactlyMaximal, OneList};
ghost use Rattle.sheet_sums.specs.Laws.{SumsExist, DifferencesExist, SumCommutes, SumAssociates, SumWithItself, DifferenceThenSum, PartOfSum, PartBothWays};

use kinds::kind::Kind;

// A set has one list, which is that of its maximal elements.
pub fn one_list<K: Kind>(_any: &K)
    ensures maximal { ExactlyMaximal K.model }
    ensures one { OneList K.model }
{}

// What holds of sums, differences and parts.
pub fn laws<K: Kind>(_any: &K)
    ensures sums { SumsExist K.model }
    ensures differences { DifferencesExist K.model }
    ensures commutes { SumCommutes K.model }
    ensures associates { SumAssociates K.model }
    ensures idempotent { SumWithItself K.model }
    ensures back { DifferenceThenSum K.model }
    ensures part { PartOfSum K.model }
    ensures both { PartBothWays K.model }
{}
