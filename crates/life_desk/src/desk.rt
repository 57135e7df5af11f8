//! The desk: validates a request's fields, asks the archive, and makes the reply.
ghost use Rattle.std.specs.Prelude.{◌≡◌, ◌≤◌, ◌∷◌, ◌⊎◌, [], bytes_eq, if◌then◌else◌, None, IfErr, IfOk, IsTrue, OnErr, OnOk, length, option_map, Some, true};
ghost use Rattle.life_rle.specs.Record.{IsInside};
ghost use Rattle.life_store.specs.Kept.{numbered, deposit_by, census_by, listed_after};
ghost use Rattle.life_store.specs.Crash.{NothingNew};
ghost use Rattle.life_store.specs.Tables.{IsTransition, IsHealthyIfClean, HoldsTheSame, HasOrder};
ghost use Rattle.life_desk.specs.declared.request.Reply.TheVariants as replies;
ghost use Rattle.life_desk.specs.declared.refusal.Refusal.TheVariants as refusals;
ghost use Rattle.life_desk.specs.Submission.{Adds};
ghost use Rattle.life_desk.specs.Replies.{deposit_by_token, deposit_verdict, deposit_reply, with_deposit, is_same_census, census_by_token, census_verdict, census_reply, with_census, file_reply, at_reply, kind_reply, shown_reply, csv_reply, IsTotal, IsTotalUnder, IsReplyTo, after_all_of, is_shown};
ghost use Rattle.life_core.specs.Pattern.{IsWithin};
ghost use Rattle.life_core.specs.RuleText.{read_rule};
ghost use Rattle.life_code.specs.Codes as codes;
ghost use Rattle.life_code.specs.Period as periods;
ghost use Rattle.life_desk.specs.Validation.{validated, IsGood};
ghost use Rattle.life_desk.specs.DeskState.{Effect, EffectIf, ReadOnly, RepresentChanged, RepresentChangedIf, AcknowledgesOnlyIfHealthy, AnswersOnlyIfHealthy, reused_reply};
ghost use Rattle.life_desk.specs.Headline.{IsTheArchive, IsTheArchiveOrFaults, IsTheArchiveInMemory};
ghost use Rattle.life_desk.specs.Run.{Answered, IsStateless, IsCrashSafe};
ghost use Rattle.life_desk.specs.Archive.{tally_for, tally_at, tally_of_cells, steady_for};
ghost use Rattle.life_rle.specs.Writer.{text};
ghost use Rattle.life_census.specs.Steady.{is_steady};
ghost use Rattle.life_census.specs.CensusTable.{csv_text};

use crate::bytes::Bytes;
use crate::counting::tally_of_generation;
use crate::headline::law_of_the_archive;
use crate::lookups::{
    add_census, add_deposit, counted_census, counts_of, deposit_of, deposits_after, file_of,
    find_census, find_file, has_census_room, has_deposit, has_room,
};
use crate::refusal::Refusal;
use crate::request::{Reply, Request, Shown};
use crate::validation::validate;
use life_census::{Tally, csv};
use life_code::{CodeFault, Kind, PERIOD_LIMIT, code_of_kind, kind, open_code, settled_generation};
use life_core::{Fault, GENERATION_LIMIT, Pattern, Rule};
use life_rle::{RleFault, Text, into_plain, read, write};
use life_store::{Archive, Census, Deposit, Unavailable};
use sqlite::{Alter, MemStore};
use std::alloc::Global;

/// The reply if the token is used already: the stored number if the content is the same, otherwise a refusal.
fn repeated(is_same: bool, number: Reply) -> Reply
    ensures { result ≡ (if is_same then number else replies.Refused refusals.TokenReused) }
{
    if is_same {
        number
    } else {
        Reply::Refused(Refusal::TokenReused)
    }
}

/// The reply to a deposit whose token is used already. Canonical texts are compared, so that spelling plays no part.
fn kept_again(alloc: Global, id: u64, file: &[u8], deposit: &Deposit) -> Result<Reply, Unavailable>
    ensures { IfOk result (λ r. r ≡ (if bytes_eq file.now (text deposit.now.content) then replies.Deposited id else replies.Refused refusals.TokenReused)) }
{
    let text = write(alloc, &deposit.content)?;
    Ok(repeated(file == text.as_slice(), Reply::Deposited(id)))
}

/// Answers a deposit whose token is new: stores it unless the archive is full.
fn keep_new<S: Alter>(
    archive: &mut Archive<S>,
    alloc: Global,
    deposit: &Deposit,
) -> Result<Reply, Unavailable>
    requires { IsInside 1024 deposit.now.content.cells }
    ensures transition { IsTransition S.Store (RepresentChanged archive.old (λ A. with_deposit A (deposit_by_token A deposit.now None))) archive.old archive.new }
    ensures promised { AcknowledgesOnlyIfHealthy S.Store archive.new result }
    ensures healthy { OnOk result (IsHealthyIfClean S.Store archive.new) }
    ensures effect { Effect archive.old archive.new result
        (λ A r. r ≡ deposit_reply A (deposit_by_token A deposit.now None))
        (λ A. with_deposit A (deposit_by_token A deposit.now None)) }
{
    if !has_room(archive)? {
        return Ok(Reply::Refused(Refusal::Full));
    }
    Ok(Reply::Deposited(add_deposit(archive, alloc, deposit)?))
}

/// Answers a deposit whose file is valid: looks up its token first, so that repeating it works in a full archive.
fn keep_deposit<S: Alter>(
    archive: &mut Archive<S>,
    alloc: Global,
    deposit: &Deposit,
) -> Result<Reply, Unavailable>
    requires { IsInside 1024 deposit.now.content.cells }
    ensures transition { IsTransition S.Store (RepresentChanged archive.old (λ A. with_deposit A (deposit_by_token A deposit.now (deposit_by deposit.now.member deposit.now.token A.deposits)))) archive.old archive.new }
    ensures promised { AcknowledgesOnlyIfHealthy S.Store archive.new result }
    ensures healthy { OnOk result (IsHealthyIfClean S.Store archive.new) }
    ensures effect { Effect archive.old archive.new result
        (λ A r. r ≡ deposit_reply A (deposit_by_token A deposit.now (deposit_by deposit.now.member deposit.now.token A.deposits)))
        (λ A. with_deposit A (deposit_by_token A deposit.now (deposit_by deposit.now.member deposit.now.token A.deposits))) }
{
    match find_file(archive, alloc, deposit)? {
        Some((id, file)) => kept_again(alloc, id, file.as_slice(), deposit),
        None => keep_new(archive, alloc, deposit),
    }
}

/// Answers a deposit. Its file is read before the archive is queried.
fn deposit<S: Alter>(
    archive: &mut Archive<S>,
    alloc: Global,
    member: Text,
    token: Text,
    file: Bytes,
) -> Result<Reply, Unavailable>
    ensures transition { IsTransition S.Store (RepresentChanged archive.old (λ A. with_deposit A (deposit_verdict A member token file))) archive.old archive.new }
    ensures promised { AcknowledgesOnlyIfHealthy S.Store archive.new result }
    ensures healthy { AnswersOnlyIfHealthy S.Store archive.new result (λ A r. r ≡ deposit_reply A (deposit_verdict A member token file)) (λ A. with_deposit A (deposit_verdict A member token file)) }
    ensures effect { Effect archive.old archive.new result
        (λ A r. r ≡ deposit_reply A (deposit_verdict A member token file))
        (λ A. with_deposit A (deposit_verdict A member token file)) }
{
    match read(alloc, file.as_slice()) {
        Ok(content) => keep_deposit(
            archive,
            alloc,
            &Deposit {
                member,
                token,
                content,
            },
        ),
        Err(RleFault::Memory) => Err(Unavailable),
        Err(fault) => Ok(Reply::Refused(Refusal::BadPattern(fault))),
    }
}

/// Answers with the stored file of a deposit, in its canonical text.
fn show<S: Alter>(archive: &mut Archive<S>, alloc: Global, id: u64) -> Result<Reply, Unavailable>
    ensures { ReadOnly S.Store archive.old archive.new result (λ A r. r ≡ file_reply (numbered A.deposits id)) }
{
    match file_of(archive, alloc, id)? {
        None => Ok(Reply::Refused(Refusal::NoSuchDeposit)),
        Some(file) => Ok(Reply::File(Bytes::of(file))),
    }
}

/// Answers with the first 100 deposits after a number.
fn list_after<S: Alter>(
    archive: &mut Archive<S>,
    alloc: Global,
    id: u64,
) -> Result<Reply, Unavailable>
    ensures { ReadOnly S.Store archive.old archive.new result (λ A r. r ≡ replies.Deposits (listed_after id A.deposits)) }
{
    Ok(Reply::Deposits(deposits_after(archive, alloc, id)?))
}

/// The reply with the file of a generation of a deposit. The file has the rule, but no name, author or comments.
fn file_at(alloc: Global, deposit: &Deposit, n: u32) -> Result<Reply, Unavailable>
    requires small { IsInside 1024 deposit.now.content.cells }
    requires few { n ≤ GENERATION_LIMIT }
    ensures { IfOk result (λ r. r ≡ at_reply n (Some deposit.now)) }
{
    let rule = deposit.content.rule;
    let later = settled_generation(alloc, &rule, &deposit.content.cells, n)?;
    let content = into_plain(alloc, rule, later);
    Ok(Reply::File(Bytes::of(write(alloc, &content)?)))
}

/// Answers with the file of a generation of a deposit.
fn show_at<S: Alter>(
    archive: &mut Archive<S>,
    alloc: Global,
    id: u64,
    n: u32,
) -> Result<Reply, Unavailable>
    requires { n ≤ GENERATION_LIMIT }
    ensures { ReadOnly S.Store archive.old archive.new result (λ A r. r ≡ at_reply n (numbered A.deposits id)) }
{
    match deposit_of(archive, alloc, id)? {
        None => Ok(Reply::Refused(Refusal::NoSuchDeposit)),
        Some(deposit) => file_at(alloc, &deposit, n),
    }
}

/// The code of a pattern, if it has one. The kind is known already, so its period is not searched again.
fn code_by_kind(
    alloc: Global,
    rule: &Rule,
    cells: &Pattern,
    limit: u32,
    kind: Kind,
) -> Result<Option<Bytes>, Unavailable>
    requires few { limit ≤ PERIOD_LIMIT }
    requires room { IsWithin 400_000_000 cells.now }
    requires kind { kind ≡ periods.kind_of rule.now cells.now limit }
    ensures { IfOk result (λ c. c ≡ codes.code_of rule.now cells.now limit) }
{
    match code_of_kind(alloc, rule, cells, limit, kind)? {
        None => Ok(None),
        Some(coded) => Ok(Some(Bytes::from_slice(alloc, coded.text())?)),
    }
}

/// The kind of a deposit, with its code. The period is searched once.
fn kind_of(alloc: Global, deposit: &Deposit, limit: u32) -> Result<Reply, Unavailable>
    requires small { IsInside 1024 deposit.now.content.cells }
    requires some { 1 ≤ limit }
    requires few { limit ≤ PERIOD_LIMIT }
    ensures { IfOk result (λ r. r ≡ kind_reply limit (Some deposit.now)) }
{
    let rule = deposit.content.rule;
    let kind = kind(alloc, &rule, &deposit.content.cells, limit)?;
    let code = code_by_kind(alloc, &rule, &deposit.content.cells, limit, kind)?;
    Ok(Reply::Kinded(kind, code))
}

/// Answers with the kind of a deposit.
fn name_kind<S: Alter>(
    archive: &mut Archive<S>,
    alloc: Global,
    id: u64,
    limit: u32,
) -> Result<Reply, Unavailable>
    requires some { 1 ≤ limit }
    requires few { limit ≤ PERIOD_LIMIT }
    ensures { ReadOnly S.Store archive.old archive.new result (λ A r. r ≡ kind_reply limit (numbered A.deposits id)) }
{
    match deposit_of(archive, alloc, id)? {
        None => Ok(Reply::Refused(Refusal::NoSuchDeposit)),
        Some(deposit) => kind_of(alloc, &deposit, limit),
    }
}

/// Counts a census of a deposit that exists, and adds it.
fn add_counted<S: Alter>(
    archive: &mut Archive<S>,
    alloc: Global,
    deposit: &Deposit,
    census: &Census,
) -> Result<Reply, Unavailable>
    requires small { IsInside 1024 deposit.now.content.cells }
    requires few { census.now.generation ≤ GENERATION_LIMIT }
    requires some { 1 ≤ census.now.limit }
    requires short { census.now.limit ≤ PERIOD_LIMIT }
    ensures transition { IsTransition S.Store (RepresentChangedIf archive.old (λ A. numbered A.deposits census.now.deposit ≡ Some deposit.now) (λ A. with_census A (Adds census.now))) archive.old archive.new }
    ensures promised { AcknowledgesOnlyIfHealthy S.Store archive.new result }
    ensures healthy { OnOk result (IsHealthyIfClean S.Store archive.new) }
    ensures effect { EffectIf archive.old archive.new result
        (λ A. numbered A.deposits census.now.deposit ≡ Some deposit.now)
        (λ A r. r ≡ census_reply A (Adds census.now))
        (λ A. with_census A (Adds census.now)) }
{
    let (tally, steady) = tally_of_generation(alloc, deposit, census)?;
    Ok(Reply::Counted(add_census(archive, census, &tally, steady)?))
}

/// Answers a census whose deposit exists and whose token is new: counts it unless the archive is full.
fn count_new<S: Alter>(
    archive: &mut Archive<S>,
    alloc: Global,
    deposit: &Deposit,
    census: &Census,
) -> Result<Reply, Unavailable>
    requires small { IsInside 1024 deposit.now.content.cells }
    requires few { census.now.generation ≤ GENERATION_LIMIT }
    requires some { 1 ≤ census.now.limit }
    requires short { census.now.limit ≤ PERIOD_LIMIT }
    ensures transition { IsTransition S.Store (RepresentChangedIf archive.old (λ A. numbered A.deposits census.now.deposit ≡ Some deposit.now) (λ A. with_census A (census_by_token A census.now None))) archive.old archive.new }
    ensures promised { AcknowledgesOnlyIfHealthy S.Store archive.new result }
    ensures healthy { OnOk result (IsHealthyIfClean S.Store archive.new) }
    ensures effect { EffectIf archive.old archive.new result
        (λ A. numbered A.deposits census.now.deposit ≡ Some deposit.now)
        (λ A r. r ≡ census_reply A (census_by_token A census.now None))
        (λ A. with_census A (census_by_token A census.now None)) }
{
    if !has_census_room(archive)? {
        return Ok(Reply::Refused(Refusal::Full));
    }
    add_counted(archive, alloc, deposit, census)
}

/// Answers a census whose token is new. The deposit is read only here, since a repeated census doesn't need it.
fn keep_census<S: Alter>(
    archive: &mut Archive<S>,
    alloc: Global,
    census: &Census,
) -> Result<Reply, Unavailable>
    requires few { census.now.generation ≤ GENERATION_LIMIT }
    requires some { 1 ≤ census.now.limit }
    requires short { census.now.limit ≤ PERIOD_LIMIT }
    ensures transition { IsTransition S.Store (RepresentChangedIf archive.old (λ A. None ≡ census_by census.now.member census.now.token A.censuses) (λ A. with_census A (census_verdict A census.now))) archive.old archive.new }
    ensures promised { AcknowledgesOnlyIfHealthy S.Store archive.new result }
    ensures healthy { OnOk result (IsHealthyIfClean S.Store archive.new) }
    ensures effect { EffectIf archive.old archive.new result
        (λ A. None ≡ census_by census.now.member census.now.token A.censuses)
        (λ A r. r ≡ census_reply A (census_verdict A census.now))
        (λ A. with_census A (census_verdict A census.now)) }
{
    match deposit_of(archive, alloc, census.deposit)? {
        None => Ok(Reply::Refused(Refusal::NoSuchDeposit)),
        Some(deposit) => count_new(archive, alloc, &deposit, census),
    }
}

/// Refuses a census whose token is used by another census. A missing deposit is reported first.
fn refuse_reused<S: Alter>(archive: &mut Archive<S>, census: &Census) -> Result<Reply, Unavailable>
    ensures { ReadOnly S.Store archive.old archive.new result (λ A r. r ≡ reused_reply (numbered A.deposits census.now.deposit)) }
{
    if has_deposit(archive, census.deposit)? {
        return Ok(Reply::Refused(Refusal::TokenReused));
    }
    Ok(Reply::Refused(Refusal::NoSuchDeposit))
}

/// Whether two censuses with the same member and token count the same.
fn is_same_census(a: &Census, b: &Census) -> bool
    ensures { result ≡ is_same_census a.now b.now }
{
    a.deposit == b.deposit && a.generation == b.generation && a.limit == b.limit
}

/// Answers a census. The token is looked up first. The deposit of a stored census exists, so repeating one does not
/// read it.
fn take_census<S: Alter>(
    archive: &mut Archive<S>,
    alloc: Global,
    census: &Census,
) -> Result<Reply, Unavailable>
    requires few { census.now.generation ≤ GENERATION_LIMIT }
    requires some { 1 ≤ census.now.limit }
    requires short { census.now.limit ≤ PERIOD_LIMIT }
    ensures transition { IsTransition S.Store (RepresentChanged archive.old (λ A. with_census A (census_verdict A census.now))) archive.old archive.new }
    ensures promised { AcknowledgesOnlyIfHealthy S.Store archive.new result }
    ensures healthy { OnOk result (IsHealthyIfClean S.Store archive.new) }
    ensures effect { Effect archive.old archive.new result
        (λ A r. r ≡ census_reply A (census_verdict A census.now))
        (λ A. with_census A (census_verdict A census.now)) }
{
    match find_census(archive, alloc, census)? {
        None => keep_census(archive, alloc, census),
        Some((id, stored)) => {
            if is_same_census(&stored, census) {
                return Ok(Reply::Counted(id));
            }
            refuse_reused(archive, census)
        }
    }
}

/// Answers with a census, its tally and its flag.
fn show_census<S: Alter>(
    archive: &mut Archive<S>,
    alloc: Global,
    id: u64,
) -> Result<Reply, Unavailable>
    ensures { ReadOnly S.Store archive.old archive.new result (λ A r. r ≡ shown_reply A.deposits id (numbered A.censuses id)) }
{
    match counted_census(archive, alloc, id)? {
        None => Ok(Reply::Refused(Refusal::NoSuchCensus)),
        Some(counted) => Ok(Reply::Shown(Shown {
            census: id,
            deposit: counted.census.deposit,
            generation: counted.census.generation,
            limit: counted.census.limit,
            tally: counted.tally,
            steady: counted.steady,
        })),
    }
}

/// The reply with a tally as CSV.
fn csv_of(alloc: Global, tally: &Tally) -> Result<Reply, Unavailable>
    ensures { IfOk result (λ r. r ≡ replies.Csv (csv_text tally.now)) }
{
    Ok(Reply::Csv(Bytes::of(csv(alloc, tally)?)))
}

/// Answers with the tally of a census as CSV.
fn census_csv<S: Alter>(
    archive: &mut Archive<S>,
    alloc: Global,
    id: u64,
) -> Result<Reply, Unavailable>
    ensures { ReadOnly S.Store archive.old archive.new result (λ A r. r ≡ csv_reply A.deposits (numbered A.censuses id)) }
{
    match counted_census(archive, alloc, id)? {
        None => Ok(Reply::Refused(Refusal::NoSuchCensus)),
        Some(counted) => csv_of(alloc, &counted.tally),
    }
}

/// Answers with the total over all censuses. The code has to be valid under the rule and the limit.
fn total<S: Alter>(
    archive: &mut Archive<S>,
    alloc: Global,
    rule: &Rule,
    text: &[u8],
    limit: u32,
) -> Result<Reply, Unavailable>
    requires some { 1 ≤ limit }
    requires few { limit ≤ PERIOD_LIMIT }
    ensures transition { IsTransition S.Store NothingNew archive.old archive.new }
    ensures promised { AcknowledgesOnlyIfHealthy S.Store archive.new result }
    ensures healthy { AnswersOnlyIfHealthy S.Store archive.new result (λ A r. IsTotal A rule.now text.now limit r) (λ A. A) }
    ensures effect { Effect archive.old archive.new result (λ A r. IsTotal A rule.now text.now limit r) (λ A. A) }
{
    match open_code(alloc, rule, text, limit) {
        Ok(_) => {}
        Err(CodeFault::Memory) => return Err(Unavailable),
        Err(_) => return Ok(Reply::Refused(Refusal::BadCode)),
    }
    Ok(Reply::Total(counts_of(archive, alloc, rule, text)?))
}

/// Answers with a total, after reading the rule in any spelling.
fn total_under<S: Alter>(
    archive: &mut Archive<S>,
    alloc: Global,
    rule: &[u8],
    text: &[u8],
    limit: u32,
) -> Result<Reply, Unavailable>
    requires some { 1 ≤ limit }
    requires few { limit ≤ PERIOD_LIMIT }
    ensures transition { IsTransition S.Store NothingNew archive.old archive.new }
    ensures promised { AcknowledgesOnlyIfHealthy S.Store archive.new result }
    ensures healthy { AnswersOnlyIfHealthy S.Store archive.new result (λ A r. IsTotalUnder A (read_rule rule.now) text.now limit r) (λ A. A) }
    ensures effect { Effect archive.old archive.new result (λ A r. IsTotalUnder A (read_rule rule.now) text.now limit r) (λ A. A) }
{
    match Rule::read(rule) {
        Ok(rule) => total(archive, alloc, &rule, text, limit),
        Err(_) => Ok(Reply::Refused(Refusal::BadRule)),
    }
}

/// Answers a request whose fields are valid, so that its generation and its limit fit into 32 bits.
fn act<S: Alter>(
    archive: &mut Archive<S>,
    alloc: Global,
    request: Request,
) -> Result<Reply, Unavailable>
    requires { IsGood request }
    ensures transition { IsTransition S.Store (RepresentChanged archive.old (λ A. after_all_of A request)) archive.old archive.new }
    ensures promised { AcknowledgesOnlyIfHealthy S.Store archive.new result }
    ensures healthy { AnswersOnlyIfHealthy S.Store archive.new result (λ A r. IsReplyTo A request r) (λ A. after_all_of A request) }
    ensures effect { Effect archive.old archive.new result (λ A r. IsReplyTo A request r) (λ A. after_all_of A request) }
{
    match request {
        Request::Deposit {
            member,
            token,
            file,
        } => deposit(archive, alloc, member, token, file),
        Request::Show { id } => show(archive, alloc, id),
        Request::ListAfter { id } => list_after(archive, alloc, id),
        Request::At { id, generation } => show_at(archive, alloc, id, generation as u32),
        Request::KindOf { id, limit } => name_kind(archive, alloc, id, limit as u32),
        Request::Census {
            member,
            token,
            deposit,
            generation,
            limit,
        } => take_census(
            archive,
            alloc,
            &Census {
                member,
                token,
                deposit,
                generation: generation as u32,
                limit: limit as u32,
            },
        ),
        Request::ShowCensus { id } => show_census(archive, alloc, id),
        Request::CensusCsv { id } => census_csv(archive, alloc, id),
        Request::Total { rule, code, limit } => total_under(
            archive,
            alloc,
            rule.as_slice(),
            code.as_slice(),
            limit as u32,
        ),
    }
}

/// Answers one request with the reply and the new archive that the model defines. If an allocation or the store failed,
/// the reply is [`Refusal::Unavailable`], and nothing has changed if the database is healthy after the call.
/// A refusal that depends only on the request's own fields ([`Refusal::BadMember`], `BadToken`, `OutOfLimit` and
/// `BadRule`) needs neither an allocation nor the store, so `Unavailable` never replaces it.
pub fn answer<S: Alter>(archive: &mut Archive<S>, alloc: Global, request: Request) -> Reply
    ensures answered { Answered S.Store archive.old archive.new (request ∷ []) (result ∷ []) }
    // If the database is not healthy and its disk has not lied, the reply says nothing about the stored contents.
    ensures healthy { IsHealthyIfClean S.Store archive.new ⊎ IsStateless request result }
    // A reply that shows stored contents changed no archive, and might have been `unavailable` instead.
    ensures may_be_unavailable { is_shown result ≡ true → Answered S.Store archive.old archive.new (request ∷ []) (replies.Refused refusals.Unavailable ∷ []) }
    // A crash during the call leaves the archive as it was before the request or after it.
    ensures crash { IsCrashSafe S.Store archive.old archive.new (request ∷ []) (result ∷ []) }
    // The store can't affect a refusal for the request's own fields.
    ensures own_refusals { IfErr (validated request) (λ refusal. (result ≡ replies.Refused refusal) × (archive.new ≡ archive.old)) }
{
    archive.law_of_crashes();
    match validate(&request) {
        Err(refusal) => Reply::Refused(refusal),
        Ok(()) => {
            let acted = act(archive, alloc, request);
            archive.law_of_crashes();
            match acted {
                Ok(reply) => reply,
                Err(_) => Reply::Refused(Refusal::Unavailable),
            }
        }
    }
}

/// Answers requests in turn. Room for all replies is allocated first, so that no request is answered without a reply.
fn answer_each<S: Alter>(
    archive: &mut Archive<S>,
    alloc: Global,
    requests: Vec<Request>,
) -> Result<Vec<Reply>, Fault>
    ensures ok { IfOk result (λ replies. Answered S.Store archive.old archive.new requests.items replies.items) }
    ensures err { OnErr result (archive.new ≡ archive.old) }
{
    let mut replies = match Vec::with_capacity(alloc, requests.len()) {
        Ok(replies) => replies,
        Err(_) => return Err(Fault::Memory),
    };
    for request in requests {
        replies.push_reserved(answer(archive, alloc, request));
    }
    Ok(replies)
}

/// Answers requests one after the other, with a reply each. [`Fault::Memory`] means that there was no memory for the
/// replies. In that case no request was answered.
pub fn answer_all<S: Alter>(
    archive: &mut Archive<S>,
    alloc: Global,
    requests: Vec<Request>,
) -> Result<Vec<Reply>, Fault>
    // The replies and the archive come from a run ..
    ensures ok { IfOk result (λ replies. Answered S.Store archive.old archive.new requests.items replies.items) }
    // .. for which the headline about sets of live cells holds.
    ensures headline { IfOk result (λ replies. IsTheArchive archive.old archive.new requests.items replies.items) }
    // A healthy database stays healthy unless its disk fails during the call. In either case the replies belong to a
    // run.
    ensures lasting { IfOk result (λ replies. IsTheArchiveOrFaults S.Store archive.old archive.new requests.items replies.items) }
    // A crash during the call leaves the archive after a prefix of the requests, or after one request more. Only
    // replies to that prefix say that something is stored.
    ensures crash { IfOk result (λ replies. IsCrashSafe S.Store archive.old archive.new requests.items replies.items) }
    ensures err { OnErr result (archive.new ≡ archive.old) }
{
    law_of_the_archive();
    archive.law_of_crashes();
    answer_each(archive, alloc, requests)
}

/// Like [`answer_all`], for an archive in memory. There is no disk to fail, so the replies and the archive always come
/// from a run.
pub fn answer_all_in_memory(
    archive: &mut Archive<MemStore>,
    alloc: Global,
    requests: Vec<Request>,
) -> Result<Vec<Reply>, Fault>
    ensures headline { IfOk result (λ replies. IsTheArchiveInMemory archive.old archive.new requests.items replies.items) }
    ensures err { OnErr result (archive.new ≡ archive.old) }
{
    let replies = answer_all(archive, alloc, requests);
    archive.law_of_memory();
    replies
}
