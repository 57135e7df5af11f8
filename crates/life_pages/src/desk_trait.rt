//! The trait that serving needs of an archive.
ghost use Rattle.std.specs.Prelude.{◌≡◌, true};
ghost use Rattle.life_desk.specs.declared.request.Request.{Request};
ghost use Rattle.life_desk.specs.declared.request.Reply.{Reply};
ghost use Rattle.life_desk.specs.declared.request.Reply.TheVariants as replies;
ghost use Rattle.life_desk.specs.declared.refusal.Refusal.{Refusal};
ghost use Rattle.life_desk.specs.declared.refusal.Refusal.TheVariants as refusals;
ghost use Rattle.life_desk.specs.Validation.{validated, MayRefuse};
ghost use Rattle.life_desk.specs.Replies.{is_shown};

use life_desk::{Reply, Request};
use std::alloc::Global;

/// Answers requests. In the program it is an archive; serving depends only on this trait.
pub(crate) trait Desk {
    // The possible replies to a request, and the state after each.
    ghost answers: { Self → Request → Reply → Self → Type 0 };

    /// Answers a request.
    fn answer(&mut self, alloc: Global, request: Request) -> Reply
        ensures answered { answers self.old request result self.new }
        // A read may be answered `unavailable` instead, since it changes no archive.
        ensures may_be_unavailable { is_shown result ≡ true → answers self.old request (replies.Refused refusals.Unavailable) self.new };

    /// A request may be refused before `answer` is called: for its own fields or, if these are valid, as `unavailable`.
    /// A law: calling it does nothing.
    fn law_of_refusals(&self)
        ensures { (request : Request) (refusal : Refusal) → MayRefuse (validated request) refusal → answers self.now request (replies.Refused refusal) self.now };
}
