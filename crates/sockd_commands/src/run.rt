ghost use Rattle.std.specs.Prelude.{◌≡◌, IfOk};
ghost use Rattle.command_line.specs.Words.{wanted};
ghost use Rattle.sockd_commands.specs.Quick.{OnQuick, OnReplay, OnRun, OnText, OnWanted, StoreEnd, SourceEnd, ends, refused_end, sink, source, store, text_by};

use crate::conf_file::{ConfRead, read_conf};
use crate::end::End;
use crate::reporting::report;
use crate::whole::{Input, read_all, write_all};
use command_line::{Invocation, read_words};
use conf_model::write_config;
use conf_types::Config;
use lists::Text;
use net_ends::{Caller, Sink, Source, Store};
use replay_run::replay;
use replay_script::{ScriptFault, ScriptKind, read_script};
use std::alloc::{AllocError, Global};
use verdict_text::{Question, decide};

/// The most bytes that a script may have.
const LONGEST: usize = 67_108_864;

fn refused(fault: ScriptFault) -> End
    ensures { result ≡ refused_end fault }
{
    match fault.kind {
        ScriptKind::Memory => End::Memory,
        _ => End::Script(fault),
    }
}

/// Reads a script from the input, plays it, and writes its transcript.
fn run_replay<I: Source, O: Sink>(alloc: Global, input: &mut I, out: &mut O) -> End
    ensures { (files : StoreEnd) → OnReplay
        (ends (source (I.told input.old) (I.faults input.old)) (sink (O.told out.old) (O.faults out.old)) files)
        (ends (source (I.told input.new) (I.faults input.new)) (sink (O.told out.new) (O.faults out.new)) files) result }
{
    let text = match read_all(alloc, input, LONGEST) {
        Input::Whole(text) => text,
        Input::TooLong(_) => {
            return End::Script(ScriptFault {
                line: 0,
                kind: ScriptKind::Length,
            });
        }
        Input::Failed => return End::InputFault,
        Input::Memory => return End::Memory,
    };
    let script = match read_script(alloc, text.as_slice()) {
        Ok(script) => script,
        Err(fault) => return refused(fault),
    };
    let Ok(transcript) = replay(alloc, &script) else {
        return End::Memory;
    };
    if write_all(out, transcript.as_slice()) {
        End::Done
    } else {
        End::OutputFault
    }
}

/// What a configuration decides on a question, or its canonical text where nothing is asked.
fn text_of(alloc: Global, config: &Config, question: &Option<Question>) -> Result<Text, AllocError>
    ensures { IfOk result (λ text. text ≡ text_by question.now config.now) }
{
    match question {
        None => write_config(alloc, config),
        Some(question) => decide(alloc, config, question),
    }
}

/// Reads a file as a configuration, and writes its text.
fn run_text<F: Store, O: Sink>(
    alloc: Global,
    name: &str,
    question: &Option<Question>,
    files: &mut F,
    out: &mut O,
) -> End
    ensures ended { (input : SourceEnd) → OnText (text_by question.now) name.now
        (ends input (sink (O.told out.old) (O.faults out.old)) (store (F.files files.old) (F.faults files.old)))
        (ends input (sink (O.told out.new) (O.faults out.new)) (store (F.files files.new) (F.faults files.new))) result }
    ensures kept { F.files files.new ≡ F.files files.old }
{
    let config = match read_conf(alloc, files, name) {
        ConfRead::Read(config) => config,
        ConfRead::Refused(fault) => return End::Conf(fault),
        ConfRead::Failed => return End::StoreFault,
        ConfRead::Memory => return End::Memory,
    };
    let Ok(text) = text_of(alloc, &config, question) else {
        return End::Memory;
    };
    if write_all(out, text.as_slice()) {
        End::Done
    } else {
        End::OutputFault
    }
}

/// Does what the words ask for.
fn run_asked<I: Source, O: Sink, F: Store>(
    alloc: Global,
    asked: Invocation,
    input: &mut I,
    out: &mut O,
    files: &mut F,
) -> End
    ensures { OnWanted (wanted asked.entry)
        (ends (source (I.told input.old) (I.faults input.old)) (sink (O.told out.old) (O.faults out.old)) (store (F.files files.old) (F.faults files.old)))
        (ends (source (I.told input.new) (I.faults input.new)) (sink (O.told out.new) (O.faults out.new)) (store (F.files files.new) (F.faults files.new))) result }
{
    match asked {
        Invocation::Replay => run_replay(alloc, input, out),
        Invocation::Check { file } => run_text(alloc, file, &None, files, out),
        Invocation::Decide {
            file,
            from,
            to,
            name,
            command,
        } => {
            let question = Question {
                from,
                to,
                name,
                command,
            };
            run_text(alloc, file, &Some(question), files, out)
        }
    }
}

/// Runs all but the report on standard error.
fn run<I: Source, O: Sink, F: Store>(
    alloc: Global,
    words: &[String],
    input: &mut I,
    out: &mut O,
    files: &mut F,
) -> End
    ensures { OnRun words.now
        (ends (source (I.told input.old) (I.faults input.old)) (sink (O.told out.old) (O.faults out.old)) (store (F.files files.old) (F.faults files.old)))
        (ends (source (I.told input.new) (I.faults input.new)) (sink (O.told out.new) (O.faults out.new)) (store (F.files files.new) (F.faults files.new))) result }
{
    match read_words(alloc, words) {
        Ok(Some(asked)) => run_asked(alloc, asked, input, out, files),
        Ok(None) => End::Usage,
        Err(_) => End::Memory,
    }
}

/// One run of the program. `replay` reads a script from the input and writes its transcript; `check FILE` reads a
/// configuration from a file and writes its canonical text; `decide FILE FROM TO CMD` reads one and writes what it decides.
/// It answers the status that the program ends with, and has written the fault text of that status, if any, to standard error.
/// No command calls anybody yet.
pub fn quick<I: Source, O: Sink, E: Sink, F: Store, C: Caller>(
    alloc: Global,
    words: &[String],
    input: &mut I,
    out: &mut O,
    err: &mut E,
    files: &mut F,
    caller: &mut C,
) -> u8
    ensures ended { OnQuick words.now
        (ends (source (I.told input.old) (I.faults input.old)) (sink (O.told out.old) (O.faults out.old)) (store (F.files files.old) (F.faults files.old)))
        (ends (source (I.told input.new) (I.faults input.new)) (sink (O.told out.new) (O.faults out.new)) (store (F.files files.new) (F.faults files.new)))
        (sink (E.told err.old) (E.faults err.old))
        (sink (E.told err.new) (E.faults err.new)) result }
    ensures uncalled { (C.told caller.new ≡ C.told caller.old) × (C.counts caller.new ≡ C.counts caller.old) }
{
    let _uncalled = caller;
    let end = run(alloc, words, input, out, files);
    report(&end, err);
    end.status()
}
