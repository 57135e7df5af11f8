//! Laws that check the definitions of replies and runs.
ghost use Rattle.life_desk.specs.DeskLaws.{FilesAreReadAgain, EqualTexts, OneReply, NothingIsLost, DepositsStay, CensusesStay, DepositsActOnce, CensusesActOnce, FlagTellsSteady, SameReplies};

use life_census::laws_of_steady_fields;

/// Reading the canonical text of a file's record gives the same record, so deposits have equal texts exactly when they
/// have equal records. Each request has one reply. A run loses and changes nothing: a number, once given, names the
/// same deposit or census in every later archive. Sending a request again gets the same number and changes nothing, at
/// once or later. The flag of a census is true exactly when the counted generation is steady. Two runs of the same
/// requests from the same archive are equal if no reply is `unavailable`. A law: calling it does nothing.
pub fn laws_of_runs()
    ensures again { FilesAreReadAgain }
    ensures same { EqualTexts }
    ensures one_reply { OneReply }
    ensures nothing_is_lost { NothingIsLost }
    ensures deposits_stay { DepositsStay }
    ensures censuses_stay { CensusesStay }
    ensures deposits { DepositsActOnce }
    ensures censuses { CensusesActOnce }
    ensures flag { FlagTellsSteady }
    ensures same_replies { SameReplies }
{
    laws_of_steady_fields();
}
