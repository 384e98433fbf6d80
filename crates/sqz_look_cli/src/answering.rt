//! Answering a request, and the exit.

ghost use Rattle.std.specs.Prelude.{◌≡◌, ◌≢◌, ◌⊎◌, ◌≤◌, false, true, IfOk, OnOk};
ghost use Rattle.sqz_image.specs.Devices.{WritesWhole};
ghost use Rattle.sqz_look_files.specs.declared.failure.Failure.TheVariants.{NotPrinted};
ghost use Rattle.sqz_look_files.specs.Verdicts.{AreChecked, EndsChecks};
ghost use Rattle.sqz_look_files.specs.Failures.{IsAnswerExit, exit_of_outcome};
ghost use Rattle.sqz_look_files.specs.Mending.{WritesMended};
ghost use Rattle.sqz_look_files.specs.Warnings.{IsSilent};
ghost use Rattle.sqz_look_cli.specs.Comparison.{EndsComparison, IfDiff, IsCompared};
ghost use Rattle.sqz_look_cli.specs.Each.{AreAnswered, EndsEach, IfEach};
ghost use Rattle.sqz_look_cli.specs.Endings.{EndsAnswer, HasPassedOn, IfCheck, IfMend};
ghost use Rattle.sqz_look_cli.specs.Endings.{is_mend, looks_past};
ghost use Rattle.sqz_look_cli.specs.Objects.{AreAsked, EndsObjects, IfObjects};
ghost use Rattle.sqz_trace.specs.WeakSlots.{weak_of};

use crate::answers::answer;
use sqz_cli::DONE;
use sqz_image::{Sink, write_all};
use sqz_look_args::{Question, Request};
use sqz_look_files::{Failure, Session, explain_failure, mend};
use sqz_look_view::{Format, Out};
use sqz_trace::Weak;
use std::alloc::Global;
use std::io::Read;
use std::rt::Files;
use std::thread::Threads;

/// Answers a request, and returns the exit: 0 if the answer was printed, and the images are sound
/// or alike if that is the question; 1 if an image is not sound or not readable, or does not hold
/// what is asked about, or if two images differ; 3 if a file could not be read or the answer not
/// printed; and 4 if out of memory.
///
/// A failure is one line on `err`, with the name of the program and of the file. So is a warning of
/// an image that is not sound.
pub fn answer_request<T: Files + Threads + Sync, C: Sink, E: Sink>(
    rt: &T,
    alloc: Global,
    request: &Request<'_>,
    out: &mut C,
    err: &mut E,
) -> u8
    ensures exits { result ≤ 4 }
    ensures accepted { result ≢ 2 }
    ensures ends { EndsAnswer T.File.remaining request.now (C.state out.new) result }
    ensures check { IfCheck request.now.question (λ strict files. result ≤ 1
        → AreChecked T.File.remaining (weak_of request.now.clear_weak) request.now.past_damage
        strict files result) }
    ensures compared { IfDiff request.now.question (result ≤ 1
        → IsCompared T.File.remaining (weak_of request.now.clear_weak) request.now.past_damage
        result) }
    ensures each { IfEach request.now.question (λ files. result ≤ 1
        → AreAnswered T.File.remaining (weak_of request.now.clear_weak) request.now.past_damage
        files result) }
    ensures objects { IfObjects request.now.question (λ words.
        AreAsked T.File.remaining (weak_of request.now.clear_weak) request.now.past_damage
        words result) }
    ensures mended { IfMend request.now.question (λ nil. result ≡ 0
        → WritesMended T.File.remaining (weak_of request.now.clear_weak) nil (C.state out.old)
        (C.state out.new)) }
    ensures whole { result ≡ 0 → HasPassedOn (C.state out.new) }
    ensures silent { result ≡ 0
        → IsSilent T.File.remaining (weak_of request.now.clear_weak) (looks_past request.now.question request.now.past_damage)
        err.old err.new }
{
    let weak = Weak::clear_if(request.clear_weak);
    let session = Session {
        rt,
        alloc,
        weak,
        past_damage: looks_past(request),
    };
    let outcome = outcome_of(&session, request, out, err);
    finish(&outcome, request.image, err)
}

/// Answers a request, and returns the exit, or why there is no answer.
fn outcome_of<T: Files + Threads + Sync, C: Sink, E: Sink>(
    session: &Session<'_, T>,
    request: &Request<'_>,
    out: &mut C,
    err: &mut E,
) -> Result<u8, Failure>
    requires { is_mend request.now.question ≡ true → session.now.past_damage ≡ true }
    ensures exits { IfOk result IsAnswerExit }
    ensures whole { OnOk result (HasPassedOn (C.state out.new)) }
    ensures check { IfCheck request.now.question (λ strict files.
        EndsChecks T.File.remaining session.now.weak
        session.now.past_damage strict files result) }
    ensures compared { IfDiff request.now.question (EndsComparison T.File.remaining
        session.now.weak session.now.past_damage result) }
    ensures each { IfEach request.now.question (λ files.
        EndsEach T.File.remaining session.now.weak session.now.past_damage files result) }
    ensures objects { IfObjects request.now.question (λ words.
        EndsObjects T.File.remaining session.now.weak session.now.past_damage words result) }
    ensures mended { IfMend request.now.question (λ nil. OnOk result
        (WritesMended T.File.remaining session.now.weak nil (C.state out.old) (C.state out.new))) }
    ensures silent { IfOk result (λ exit. exit ≡ 0
        → IsSilent T.File.remaining session.now.weak
        session.now.past_damage err.old err.new) }
{
    match &request.question {
        Question::Mend { image, nil } => mended(session, image, *nil, out, err),
        question => printed(session, question, format_of(request), out, err),
    }
}

/// Writes an image as it is mended, and returns the exit.
fn mended<T: Files + Threads + Sync, C: Sink, E: Sink>(
    session: &Session<'_, T>,
    path: &str,
    nil: bool,
    out: &mut C,
    err: &mut E,
) -> Result<u8, Failure>
    requires { session.now.past_damage ≡ true }
    ensures exit { IfOk result (λ exit. exit ≡ 0) }
    ensures whole { OnOk result (HasPassedOn (C.state out.new)) }
    ensures written { OnOk result (WritesMended T.File.remaining session.now.weak nil
        (C.state out.old) (C.state out.new)) }
    ensures silent { OnOk result (IsSilent T.File.remaining session.now.weak
        session.now.past_damage err.old err.new) }
{
    match mend(session, path, nil, out, err) {
        Ok(()) => Ok(DONE),
        Err(failure) => Err(failure),
    }
}

/// Prints the answer to a question, and returns the exit.
fn printed<T: Files + Threads + Sync, C: Sink, E: Sink>(
    session: &Session<'_, T>,
    question: &Question<'_>,
    format: Format,
    out: &mut C,
    err: &mut E,
) -> Result<u8, Failure>
    requires { is_mend question.now ≡ false }
    ensures exits { IfOk result IsAnswerExit }
    ensures whole { OnOk result (HasPassedOn (C.state out.new)) }
    ensures check { IfCheck question.now (λ strict files.
        EndsChecks T.File.remaining session.now.weak
        session.now.past_damage strict files result) }
    ensures compared { IfDiff question.now (EndsComparison T.File.remaining session.now.weak
        session.now.past_damage result) }
    ensures each { IfEach question.now (λ files.
        EndsEach T.File.remaining session.now.weak session.now.past_damage files result) }
    ensures objects { IfObjects question.now (λ words.
        EndsObjects T.File.remaining session.now.weak session.now.past_damage words result) }
    ensures silent { IfOk result (λ exit. exit ≡ 0
        → IsSilent T.File.remaining session.now.weak
        session.now.past_damage err.old err.new) }
{
    let mut printed = Out::new(session.alloc, out, format);
    let answered = answer(session, question, &mut printed, err);
    let rest = printed.into_unwritten();
    pass_on(answered, &rest, out)
}

/// Returns the form in which the answer to a request is printed.
fn format_of(request: &Request<'_>) -> Format {
    if request.json {
        Format::Json
    } else {
        Format::Text {
            all: request.all,
            human: request.human,
        }
    }
}

/// Returns whether images are read past what cannot be read: if that is asked for, or if one is to
/// be mended.
fn looks_past(request: &Request<'_>) -> bool
    ensures { result ≡ looks_past request.now.question request.now.past_damage }
{
    request.past_damage || is_mend(&request.question)
}

/// Returns whether an image is to be mended.
fn is_mend(question: &Question<'_>) -> bool
    ensures { result ≡ is_mend question.now }
{
    matches!(question, Question::Mend { .. })
}

/// Writes the rest of an answer, if there is an answer, and then flushes. Returns how that ends.
fn pass_on<C: Sink>(answered: Result<u8, Failure>, rest: &[u8], out: &mut C) -> Result<u8, Failure>
    ensures outcome { (result ≡ answered) ⊎ (result ≡ Err NotPrinted) }
    ensures written { OnOk result (WritesWhole (C.state out.old) (C.state out.new) rest.now) }
{
    match answered {
        Ok(exit) => match write_all(out, rest) {
            Ok(()) => Ok(exit),
            Err(_) => Err(Failure::NotPrinted),
        },
        Err(failure) => Err(failure),
    }
}

/// Prints why there is no answer, if there is none, and returns the exit.
fn finish<E: Sink>(outcome: &Result<u8, Failure>, path: Option<&str>, err: &mut E) -> u8
    ensures exit { result ≡ exit_of_outcome outcome.now }
    ensures silent { result ≡ 0 → err.new ≡ err.old }
{
    match outcome {
        Ok(exit) => *exit,
        Err(failure) => explain_failure(failure, path, err),
    }
}
