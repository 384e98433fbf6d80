//! Answers to questions.

ghost use Rattle.std.specs.Prelude.{◌≡◌, IfOk, false};
ghost use Rattle.sqz_look_files.specs.Failures.{IsAnswerExit};
ghost use Rattle.sqz_look_files.specs.Verdicts.{EndsChecks};
ghost use Rattle.sqz_look_files.specs.Warnings.{IsSilent};
ghost use Rattle.sqz_look_cli.specs.Comparison.{EndsComparison, IfDiff};
ghost use Rattle.sqz_look_cli.specs.Each.{EndsEach, IfEach};
ghost use Rattle.sqz_look_cli.specs.Endings.{IfCheck, is_mend};
ghost use Rattle.sqz_look_cli.specs.Objects.{EndsObjects, IfObjects};

use crate::comparison::compare;
use crate::each::{EachQuestion, answer_each};
use crate::images::{
    classes, code, dump, find, implementors, list, senders, stacks, top, unimplemented, unsent,
};
use crate::objects::{ObjectQuestion, answer_about_objects};
use crate::page::explore;
use sqz_image::Sink;
use sqz_look_args::Question;
use sqz_look_check::CheckOptions;
use sqz_look_files::{Failure, Session, check_all};
use sqz_look_view::Out;
use std::io::Read;
use std::rt::Files;
use std::thread::Threads;

/// Prints the answer to a question, and returns the exit. The end of the answer may still be in
/// `out`: the caller writes it. A line on `err` warns of an image that is not sound.
pub(crate) fn answer<T: Files + Threads + Sync, C: Sink, E: Sink>(
    session: &Session<'_, T>,
    question: &Question<'_>,
    out: &mut Out<'_, C>,
    err: &mut E,
) -> Result<u8, Failure>
    requires { is_mend question.now ≡ false }
    ensures exits { IfOk result IsAnswerExit }
    ensures check { IfCheck question.now (λ strict files.
        EndsChecks T.File.remaining session.now.weak
        session.now.past_damage strict files result) }
    ensures each { IfEach question.now (λ files.
        EndsEach T.File.remaining session.now.weak session.now.past_damage files result) }
    ensures objects { IfObjects question.now (λ words.
        EndsObjects T.File.remaining session.now.weak session.now.past_damage words result) }
    ensures compared { IfDiff question.now (EndsComparison T.File.remaining session.now.weak
        session.now.past_damage result) }
    ensures silent { IfOk result (λ exit. exit ≡ 0
        → IsSilent T.File.remaining session.now.weak
        session.now.past_damage err.old err.new) }
{
    match question {
        Question::Check {
            images,
            all,
            strict,
        } => {
            let (all, strict) = (*all, *strict);
            check_all(session, images, CheckOptions { all, strict }, out, err)
        }
        Question::Mend { .. } => unreachable!(),
        Question::Info { images } => answer_each(session, images, EachQuestion::Info, out, err),
        Question::Census {
            images,
            counting,
            by,
        } => answer_each(
            session,
            images,
            EachQuestion::Census(*counting, *by),
            out,
            err,
        ),
        Question::Digest { images } => answer_each(session, images, EachQuestion::Digest, out, err),
        Question::List {
            image,
            class,
            which,
        } => list(session, image, class.as_str(), *which, out, err),
        Question::Show { image, objects } => {
            answer_about_objects(session, image, objects, ObjectQuestion::Show, out, err)
        }
        Question::Why {
            image,
            objects,
            raw,
        } => {
            let raw = *raw;
            answer_about_objects(
                session,
                image,
                objects,
                ObjectQuestion::Why { raw },
                out,
                err,
            )
        }
        Question::Refs { image, objects } => {
            answer_about_objects(session, image, objects, ObjectQuestion::Refs, out, err)
        }
        Question::Top {
            image,
            object,
            options,
        } => top(session, image, object.as_deref(), *options, out, err),
        Question::Diff { old, new } => compare(session, old, new, out, err),
        Question::Code { image, object } => code(session, image, object.as_str(), out, err),
        Question::Classes { image } => classes(session, image, out, err),
        Question::Unsent { image } => unsent(session, image, out, err),
        Question::Unimplemented { image } => unimplemented(session, image, out, err),
        Question::Senders { image, selector } => senders(session, image, selector, out, err),
        Question::Implementors { image, selector } => {
            implementors(session, image, selector, out, err)
        }
        Question::Stacks { image } => stacks(session, image, out, err),
        Question::Find { image, pattern } => find(session, image, pattern, out, err),
        Question::Dump { image } => dump(session, image, out, err),
        Question::Explore { image, min } => explore(session, image, *min, out, err),
    }
}
