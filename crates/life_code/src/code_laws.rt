//! Laws that hold for all kinds and codes.
ghost use Rattle.std.specs.Prelude.{◌≡◌};
ghost use Rattle.life_code.specs.CodeLaws.{ApartEvolveIndependently, BirthAtOneNeverReturns, BoxesHaveOneSize, OneKind, PairsNeverReturn, PartingNeverReturns, PhasesRepeat, PhasesDiffer, StripsAreTheirColumns, TextsTellApart, LeastIsLeast, SameIsEquivalence, CodeIsInvariant, CodeIsComplete, CodeSpells, SpellsOne, CodeStays};

use crate::period::PERIOD_LIMIT;

/// A pattern has one kind, and a code names one object: a class of patterns whose phases differ only by moves,
/// rotations and reflections. A law: calling it has no effect.
pub fn laws_of_codes()
    ensures limit { PERIOD_LIMIT ≡ 2048 }
    ensures one_size { BoxesHaveOneSize }
    ensures one_kind { OneKind }
    ensures births { BirthAtOneNeverReturns }
    ensures pairs { PairsNeverReturn }
    ensures alone { ApartEvolveIndependently }
    ensures parting { PartingNeverReturns }
    ensures phases_repeat { PhasesRepeat }
    ensures phases_differ { PhasesDiffer }
    ensures columns { StripsAreTheirColumns }
    ensures texts_tell_apart { TextsTellApart }
    ensures least { LeastIsLeast }
    ensures equivalence { SameIsEquivalence }
    ensures invariant { CodeIsInvariant }
    ensures complete { CodeIsComplete }
    ensures spells { CodeSpells }
    ensures spells_one { SpellsOne }
    ensures stays { CodeStays }
{}
