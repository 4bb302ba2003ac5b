//! The command `pmseq`: judges the files that its words name, or answers a bundle on standard
//! input.
#![tactic(auto)]

mod call;
mod explaining;
mod fault_lines;
mod file_fault;
mod help;
mod judging;
mod misuse;
mod named;
mod played;
mod reading;
mod rule_pages;
mod stop;
mod telling;
mod version;

use crate::call::{Call, NoteForm, Options, Request, call_of};
use crate::explaining::{page_on, unknown_topic};
use crate::file_fault::{fault_in, fault_note};
use crate::help::{HELP, SHORT_HELP, page_of};
use crate::judging::judge;
use crate::misuse::misuse_text;
use crate::named::{SectionFile, told_name};
use crate::played::{Played, play};
use crate::reading::read_file;
use crate::stop::{MISUSED, Stop, unread};
use crate::telling::{tell, tell_alone, tell_text};
use crate::version::version_text;
use bundles::{Command, Header};
use diagnostics::{Answered, Beside, answer};
use session::{DeviceFault, Status};
use std::env;
use std::io::{IsTerminal, Write};
use std::process::ExitCode;

/// Prints a page.
fn print_page(rt: &HostRuntime, page: &str) -> Result<u8, Stop> {
    match rt.stdout().write_all(page.as_bytes()) {
        Ok(()) => Ok(Status::Accepted.code()),
        Err(_) => Err(Stop::Device(DeviceFault::Writer)),
    }
}

/// The exit status of what was answered and told. It is dropped by a call, since the proof has a
/// path for each part that may be there to drop.
fn ended(answered: Answered) -> u8 {
    let code = answered.status.code();
    drop(answered);
    code
}

/// Answers a bundle on standard input.
fn answer_bundle(rt: &HostRuntime) -> Result<u8, Stop> {
    let beside = Beside::Nothing;
    let answered = answer(rt.alloc(), &mut rt.stdin(), &mut rt.stdout(), beside)?;
    tell(
        rt.alloc(),
        &mut rt.stderr(),
        &[],
        &answered.notes,
        NoteForm::Lines,
    );
    Ok(ended(answered))
}

/// Looks whether a file's bytes may be judged.
fn judgeable(
    rt: &HostRuntime,
    bytes: Vec<u8>,
    told: &str,
    form: NoteForm,
) -> Result<Vec<u8>, Stop> {
    match fault_in(&bytes) {
        Some(fault) => {
            let note = fault_note(rt.alloc(), told, fault)?;
            tell_alone(rt.alloc(), &mut rt.stderr(), told, &note, form)?;
            Err(Stop::Told(MISUSED))
        }
        None => Ok(bytes),
    }
}

/// Reads a file, and looks whether it may be judged.
fn take_file(rt: &HostRuntime, name: &str, told: &str, form: NoteForm) -> Result<Vec<u8>, Stop> {
    match read_file(rt, name) {
        Ok(bytes) => judgeable(rt, bytes, told, form),
        Err(error) => Err(unread(rt, told, error)),
    }
}

/// Takes a seed as the file of its section.
fn take_seed(
    rt: &HostRuntime,
    seed: &str,
    form: NoteForm,
    files: &mut Vec<SectionFile>,
    texts: &mut Vec<Vec<u8>>,
) -> Result<(), Stop> {
    let line = format!(in rt.alloc(); "{seed}\n")?;
    texts.push(judgeable(rt, line.into_bytes(), "seed", form)?)?;
    files.push(SectionFile {
        header: Header::Seed,
        name: String::from_str(rt.alloc(), "seed")?,
    })?;
    Ok(())
}

/// Reads the files of a call, one for each of its command's sections, into lists of their names and
/// their bytes.
fn take_files(
    rt: &HostRuntime,
    request: Request<'_>,
    files: &mut Vec<SectionFile>,
    texts: &mut Vec<Vec<u8>>,
) -> Result<(), Stop> {
    for (header, name) in request.command.headers().iter().zip(request.names) {
        let told = told_name(rt.alloc(), name)?;
        texts.push(take_file(rt, name, &told, request.options.form)?)?;
        files.push(SectionFile {
            header: *header,
            name: told,
        })?;
    }
    Ok(())
}

/// Takes an empty plan, where a draft was asked for without one.
fn take_plan(
    rt: &HostRuntime,
    command: Command,
    files: &mut Vec<SectionFile>,
    texts: &mut Vec<Vec<u8>>,
) -> Result<(), Stop> {
    if command == Command::Draft && texts.len() == 1 {
        texts.push(Vec::new(rt.alloc()))?;
        files.push(SectionFile {
            header: Header::Plan,
            name: String::from_str(rt.alloc(), "plan")?,
        })?;
    }
    Ok(())
}

/// Does what a command asks for on files, and tells what is to be told.
fn answer_files(
    rt: &HostRuntime,
    command: Command,
    files: &[SectionFile],
    texts: &[Vec<u8>],
    options: Options<'_>,
) -> Result<u8, Stop> {
    let alloc = rt.alloc();
    let answered = judge(alloc, command, texts, &mut rt.stdout(), options.beside)?;
    tell(
        alloc,
        &mut rt.stderr(),
        files,
        &answered.notes,
        options.form,
    );
    Ok(ended(answered))
}

/// Writes the reply where no run could be played, and tells why.
fn refuse_play(
    rt: &HostRuntime,
    files: &[SectionFile],
    reply: &[u8],
    answered: Answered,
    form: NoteForm,
) -> Result<u8, Stop> {
    if rt.stdout().write_all(reply).is_err() {
        return Err(Stop::Device(DeviceFault::Writer));
    }
    tell(rt.alloc(), &mut rt.stderr(), files, &answered.notes, form);
    Ok(ended(answered))
}

/// Plays a run, and does what a command asks for with its answers.
fn answer_played(
    rt: &HostRuntime,
    command: Command,
    files: &[SectionFile],
    mut texts: Vec<Vec<u8>>,
    options: Options<'_>,
) -> Result<u8, Stop> {
    match play(rt.alloc(), &texts)? {
        Played::Answers(answers) => {
            let _seed = texts.pop();
            texts.push(answers)?;
            answer_files(rt, command, files, &texts, options)
        }
        Played::Refused(reply, answered) => refuse_play(rt, files, &reply, answered, options.form),
    }
}

/// Reads all files, and then does what is asked for on them.
fn judge_files(rt: &HostRuntime, request: Request<'_>) -> Result<u8, Stop> {
    let alloc = rt.alloc();
    let Request {
        command,
        options,
        ..
    } = request;
    let mut files = Vec::new(alloc);
    let mut texts = Vec::new(alloc);
    take_files(rt, request, &mut files, &mut texts)?;
    take_plan(rt, command, &mut files, &mut texts)?;
    let Some(seed) = options.seed else {
        return answer_files(rt, command, &files, &texts, options);
    };
    take_seed(rt, seed, options.form, &mut files, &mut texts)?;
    if command == Command::Play {
        answer_files(rt, command, &files, &texts, options)
    } else {
        answer_played(rt, command, &files, texts, options)
    }
}

/// Prints the page on a rule or on a fault.
fn explain(rt: &HostRuntime, word: &str) -> Result<u8, Stop> {
    match page_on(rt.alloc(), word)? {
        Some(page) => print_page(rt, &page),
        None => {
            let text = unknown_topic(rt.alloc(), word)?;
            let _told = eprintln!(rt; "pmseq: {text}");
            Ok(MISUSED)
        }
    }
}

/// Does what a call asks for.
fn carry_out(rt: &HostRuntime, call: Call<'_>) -> Result<u8, Stop> {
    match call {
        Call::Nothing if rt.stdin().is_terminal() => {
            tell_text(&mut rt.stderr(), SHORT_HELP);
            Ok(MISUSED)
        }
        Call::Nothing | Call::Bundle => answer_bundle(rt),
        Call::Help => print_page(rt, HELP),
        Call::HelpOn(command) => print_page(rt, page_of(command)),
        Call::Version => print_page(rt, &version_text(rt)?),
        Call::Explain(word) => explain(rt, word),
        Call::Judge(request) => judge_files(rt, request),
    }
}

/// Does what the words behind the command's name ask for.
fn obey(rt: &HostRuntime, words: &[String]) -> Result<u8, Stop> {
    match call_of(words) {
        Ok(call) => carry_out(rt, call),
        Err(misuse) => {
            let text = misuse_text(rt.alloc(), misuse)?;
            let _told = eprintln!(rt; "pmseq: {text}");
            Ok(MISUSED)
        }
    }
}

/// The words behind the command's name.
fn words_of(rt: &HostRuntime) -> Result<Vec<String>, Stop> {
    let Ok(mut words) = env::args(rt) else {
        let _told = eprintln!(rt; "pmseq: a word of the call isn't UTF-8");
        return Err(Stop::Told(MISUSED));
    };
    let _program = words.next();
    Ok(words.collect(rt.alloc())?)
}

/// Ends with a status, after all that is to be told.
fn run(rt: &HostRuntime) -> Result<u8, Stop> {
    let words = words_of(rt)?;
    obey(rt, &words)
}

fn main(rt: HostRuntime) -> ExitCode {
    let code = match run(&rt) {
        Ok(code) | Err(Stop::Told(code)) => code,
        Err(Stop::Device(fault)) => {
            let _told = eprintln!(rt; "pmseq: {fault}");
            Status::DeviceFault.code()
        }
    };
    ExitCode::from(code)
}
