//! Laws that check the definitions of messages, heads and routes.
ghost use Rattle.life_pages.specs.PagesLaws.{OneListOfMessages, NoneWithoutMessages, AcknowledgementsAreKnown, PagesAcknowledgeNothing, RepliesAreReadInOneWay, PartsAreTheValue, CapturesAreThePath, OneTemplate};
ghost use Rattle.life_pages.specs.Requests.{MessagesRunAsRequests, RequestsRunAsMessages};

/// A stream has exactly one list of messages. A run over messages is a run of the requests that they make. The bytes of
/// a reply show whether it says that something is stored, and no reply is a prefix of another. A law: calling it does
/// nothing.
pub fn laws_of_messages()
    ensures one { OneListOfMessages }
    ensures some { NoneWithoutMessages }
    ensures requests { MessagesRunAsRequests }
    ensures messages { RequestsRunAsMessages }
    ensures kept { AcknowledgementsAreKnown }
    ensures pages { PagesAcknowledgeNothing }
    ensures apart { RepliesAreReadInOneWay }
{}

/// Nothing is lost when a value is split at its commas or a path at its parameters, and no path fits two templates. A
/// law: calling it does nothing.
pub fn laws_of_heads()
    ensures parts { PartsAreTheValue }
    ensures captures { CapturesAreThePath }
    ensures one { OneTemplate }
{}
