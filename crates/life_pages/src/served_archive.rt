//! Serving the messages of a stream from an archive.
ghost use Rattle.std.specs.Prelude.{◌≡◌, Err, OnOk};
ghost use Rattle.life_rle.specs.Stream.{Appends, AppendsSome};
ghost use Rattle.life_desk.specs.Run.{RequestStep};
ghost use Rattle.life_pages.specs.Message.{AnswersMessage};
ghost use Rattle.life_pages.specs.Serving.{AreAllOf, AreFirstOfStream, IsServed, RepliesCutShort, UsesStreams};
ghost use Rattle.life_pages.specs.ServedArchive.{AnswersFirmly, ByArchive, InMemory, IsAnswered, IsServedSafely};
ghost use Rattle.life_pages.specs.Requests.{ServesTheHeadline};

use crate::desk_trait::Desk;
use crate::pages_fault::IoFault;
use crate::serving::serve_desk;
use life_desk::{Reply, Request, answer, law_of_the_archive};
use life_rle::{Inlet, Outlet};
use life_store::Archive;
use sqlite::{Alter, MemStore};
use std::alloc::Global;

impl<S: Alter> Desk for Archive<S> {
    ghost use Rattle.life_pages.specs.ServedArchive.{StoreAnswers};

    ghost answers = { StoreAnswers S.Store };

    #[tactic(auto, unfolding(crate::specs::ServedArchive::StoreAnswers))]
    fn answer(&mut self, alloc: Global, request: Request) -> Reply {
        answer(self, alloc, request)
    }

    fn law_of_refusals(&self) {}
}

/// Answers the messages of a stream, each once it is complete, until the stream ends, a message asks to close it, or a
/// message is bad. At most 1,048,576 reads are made. Bytes after a closing or a bad message may have been read.
///
/// After an error the archive has answered every message that was read completely. Only if a write failed may later
/// ones be unanswered, and the last reply may be cut short.
pub fn serve<S: Alter, I: Inlet, O: Outlet>(
    alloc: Global,
    archive: &mut Archive<S>,
    input: &mut I,
    output: &mut O,
) -> Result<(), IoFault>
    // Depending on the result: which messages the archive answered in a run, and how much of the replies was written.
    ensures served { IsServed (AnswersMessage RequestStep) (λ P. ByArchive S.Store P archive.old archive.new) I.Inlet O.Outlet input.old input.new output.old output.new result }
    // For one list of messages, the first of the stream: the store answered them, each archive that it represented went
    // through a run over them, and a prefix of the replies was written. A request with an invalid field gets its
    // refusal, whatever the database does. A crash during the call leaves the archive after a prefix of them, or after
    // one more.
    ensures steps { IsAnswered S.Store (AreFirstOfStream (I.to_come input.old)) (AppendsSome (O.already output.old) (O.already output.new)) archive.old archive.new }
    // On Ok these are all messages, and all replies were written.
    ensures whole { OnOk result (IsAnswered S.Store (AreAllOf (I.to_come input.old)) (Appends (O.already output.old) (O.already output.new)) archive.old archive.new) }
    // The headline about sets of live cells holds for the replies: on Ok for all messages, otherwise for the first of
    // them.
    ensures headline { OnOk result (ByArchive S.Store (ServesTheHeadline (AreAllOf (I.to_come input.old)) (Appends (O.already output.old) (O.already output.new))) archive.old archive.new) }
    ensures headlines { ByArchive S.Store (ServesTheHeadline (AreFirstOfStream (I.to_come input.old)) (AppendsSome (O.already output.old) (O.already output.new))) archive.old archive.new }
    // Whatever the database does, a request with an invalid field (member, token, limits, rule) gets that refusal,
    // never `unavailable` instead. Each other message gets the bytes of its refusal or of some reply.
    ensures own_refusals { RepliesCutShort (AnswersMessage AnswersFirmly) (I.to_come input.old) tt tt (O.already output.old) (O.already output.new) }
    // A crash during the call leaves the archive after a prefix of the messages, or after one more. Only replies to
    // that prefix say that something is stored.
    ensures crash { IsServedSafely S.Store (I.to_come input.old) archive.old archive.new (O.already output.old) (O.already output.new) }
    ensures streams { UsesStreams I.Inlet O.Outlet input.old input.new output.old output.new result }
    ensures memory { result ≡ Err IoFault.Memory → (archive.new ≡ archive.old) × (input.new ≡ input.old) × (output.new ≡ output.old) }
{
    law_of_the_archive();
    archive.law_of_crashes();
    serve_desk(alloc, archive, input, output)
}

/// Like [`serve`], for an archive in memory. There is no disk to fail, so the replies always come from a run.
pub fn serve_in_memory<I: Inlet, O: Outlet>(
    alloc: Global,
    archive: &mut Archive<MemStore>,
    input: &mut I,
    output: &mut O,
) -> Result<(), IoFault>
    ensures served { IsServed (AnswersMessage RequestStep) (λ P. InMemory P archive.old archive.new) I.Inlet O.Outlet input.old input.new output.old output.new result }
    ensures headline { OnOk result (InMemory (ServesTheHeadline (AreAllOf (I.to_come input.old)) (Appends (O.already output.old) (O.already output.new))) archive.old archive.new) }
    ensures headlines { InMemory (ServesTheHeadline (AreFirstOfStream (I.to_come input.old)) (AppendsSome (O.already output.old) (O.already output.new))) archive.old archive.new }
    ensures memory { result ≡ Err IoFault.Memory → (archive.new ≡ archive.old) × (input.new ≡ input.old) × (output.new ≡ output.old) }
{
    let served = serve(alloc, archive, input, output);
    archive.law_of_memory();
    served
}
