//! A run of the program, from its words to its exit status.
ghost use Rattle.std.specs.Prelude.{◌≡◌, ◌⊎◌, [], IfErr, map};
ghost use Rattle.std.specs.IoError.{error_kind};
ghost use Rattle.clap.specs.Words.{kind_of};
ghost use Rattle.vp_language.specs.declared.language.Language.{Language};
ghost use Rattle.vp_engine.specs.Session.{IsAt};
ghost use Rattle.vp_engine.specs.Setups.{Setup, Listing, ListingWithOffsets};
ghost use Rattle.vp_exit_status.specs.Statuses.{status_of};
ghost use Rattle.vp_cli.specs.Orders.{AreJoined, AreOpenedAndJoined, Does, IsCarriedOut, IsObeyed, IsSetup, ended_joining, set_up, setup_in};
ghost use Rattle.vp_cli.specs.Runs.{IsRunOf, exit_status, status_without_words, usage_status};
ghost use Rattle.vp_cli.specs.Sessions.{IsRun, stop_of};

use crate::file::{Folder, open};
use crate::sheets;
use clap::error::ErrorKind;
use std::alloc::Global;
use std::convert::AsStr;
use std::io::Write;
use std::rt::Env;
use std::{env, io};
use vp_command_line::{Form, Order, Stream, Task};
use vp_engine::{Counted, Language, RunFault, Session, Sink, Source};
use vp_exit_status::Stop;
use vp_glyph::Sheets;
use vp_join::{JoinFault, join};
use vp_picture::{PngWriter, join_png};

/// The exit status where the words are wrong.
const USAGE: u8 = 2;

/// The words of the command line, or the exit status where they can't be had.
pub fn words<R: Env + Alloc, E: Write>(
    rt: &R,
    errors: &mut E,
) -> Result<Vec<String<R::A>, R::A>, u8>
    ensures { IfErr result (λ status. (status ≡ 2) ⊎ (status ≡ 4)) }
{
    let all = match env::args(rt) {
        Ok(all) => all,
        Err(error) => return Err(no_words(&error, errors)),
    };
    match all.collect(rt.alloc()) {
        Ok(words) => Ok(words),
        Err(_) => Err(report(&Stop::Memory, errors)),
    }
}

/// Says why the words can't be had, and gives the exit status.
fn no_words<E: Write>(error: &io::Error, errors: &mut E) -> u8
    ensures { result ≡ status_without_words (error_kind error.now) }
{
    if error.kind() != io::ErrorKind::InvalidData {
        return report(&Stop::Memory, errors);
    }
    let _ = writeln!(errors, "error: a word of the command line is not UTF-8");
    USAGE
}

/// Runs the program on its words, the first of which is its name, and gives the exit status and the output:
/// 0 success, 1 a fault of the stream or of the images, 2 usage, 3 a file, a sheet, a read or a write, 4 want
/// of memory. What was printed is written first.
pub fn run<F: Folder, S: AsStr, I: Source, O: Write + Drop, E: Write>(
    folder: &F,
    alloc: Global,
    words: &[S],
    input: &mut I,
    output: O,
    errors: &mut E,
) -> (u8, O)
    ensures { IsRunOf (F.names folder.now) F.File.remaining input.old input.new I.remaining
        (O.contents output) (O.contents result.1) (map S.text words.now) result.0 }
{
    match Order::read(alloc, words) {
        Ok(order) => {
            let (ended, output) = obey(folder, alloc, order, input, Counted::new(output));
            (status(&ended, errors), output.into_inner())
        }
        Err(error) => usage(&error, output, errors),
    }
}

/// The exit status, once the line of a run that ends early is written.
fn status<E: Write>(ended: &Result<(), Stop<'_>>, errors: &mut E) -> u8
    ensures { result ≡ exit_status ended.now }
{
    match ended {
        Ok(()) => 0,
        Err(stop) => report(stop, errors),
    }
}

/// Does what an order asks for, and gives the output back.
fn obey<'a, F: Folder, I: Source, K: Sink + Drop>(
    folder: &F,
    alloc: Global,
    order: Order<'a>,
    input: &mut I,
    mut output: K,
) -> (Result<(), Stop<'a>>, K)
    ensures { IsObeyed (F.names folder.now) F.File.remaining input.old input.new I.remaining
        (K.contents output) (K.contents result.1) order.entry result.0 }
{
    match order {
        Order::Read(stream) => {
            let ended = carry_out(folder, alloc, stream, input, &mut output);
            (ended, output)
        }
        Order::Join { file, form } => join_images(folder, file, form, output),
    }
}

/// Joins the images of a file, which is opened twice, and gives the output back.
fn join_images<'a, F: Folder, K: Sink + Drop>(
    folder: &F,
    name: &'a str,
    form: Form,
    output: K,
) -> (Result<(), Stop<'a>>, K)
    ensures { AreOpenedAndJoined (F.names folder.now) F.File.remaining name.entry form
        (K.contents output) (K.contents result.1) result.0 }
{
    let first = match open(folder, name) {
        Ok(file) => file,
        Err(stop) => return (Err(stop), output),
    };
    let second = match open(folder, name) {
        Ok(file) => file,
        Err(stop) => return (Err(stop), output),
    };
    let (height, output) = joined(
        form,
        &mut Counted::new(first),
        &mut Counted::new(second),
        output,
    );
    (ended_joining(height), output)
}

/// Joins the images that two readers tell to this form, and gives the output back.
fn joined<S: Source, T: Source, K: Sink + Drop>(
    form: Form,
    first: &mut S,
    second: &mut T,
    mut output: K,
) -> (Result<u64, JoinFault>, K)
    ensures { AreJoined form (S.remaining first.old) (S.remaining first.new)
        (T.remaining second.old) (T.remaining second.new)
        (K.contents output) (K.contents result.1) result.0 }
{
    match form {
        Form::Pbm => {
            let height = join(first, second, &mut output);
            (height, output)
        }
        Form::Png => {
            let mut picture = PngWriter::new(output);
            let height = join_png(first, second, &mut picture);
            (height, picture.into_output())
        }
    }
}

/// Why images weren't joined.
fn ended_joining<'a>(height: Result<u64, JoinFault>) -> Result<(), Stop<'a>>
    ensures { result ≡ ended_joining height }
{
    match height {
        Ok(_) => Ok(()),
        Err(fault) => Err(Stop::of_join(fault)),
    }
}

/// What is done with what is read, once the sheets are.
#[derive(Drop)]
enum Work {
    Print(Sheets),
    List,
    ListWithOffsets,
}

/// Reads the sheets, where something is printed.
fn prepared<'a, F: Folder>(folder: &F, alloc: Global, task: Task<'a>) -> Result<Work, Stop<'a>>
    ensures { (language : Language) →
        IsSetup (F.names folder.now) F.File.remaining language task.entry (set_up language result) }
{
    match task {
        Task::Print(fonts) => match sheets::read(folder, alloc, fonts) {
            Ok(sheets) => Ok(Work::Print(sheets)),
            Err(stop) => Err(stop),
        },
        Task::List => Ok(Work::List),
        Task::ListWithOffsets => Ok(Work::ListWithOffsets),
    }
}

/// Reads the sheets, opens the file if one is named, and prints or lists.
fn carry_out<'a, F: Folder, I: Source, K: Sink>(
    folder: &F,
    alloc: Global,
    stream: Stream<'a>,
    input: &mut I,
    output: &mut K,
) -> Result<(), Stop<'a>>
    ensures { IsCarriedOut (F.names folder.now) F.File.remaining input.old input.new I.remaining
        (K.contents output.old) (K.contents output.new) stream.entry result }
{
    let work = prepared(folder, alloc, stream.task)?;
    let Some(name) = stream.file else {
        return work_on(alloc, work, stream.language, input, output);
    };
    let file = open(folder, name)?;
    work_on(
        alloc,
        work,
        stream.language,
        &mut Counted::new(file),
        output,
    )
}

/// Prints or lists what is read, as it comes.
fn work_on<'a, I: Source, K: Sink>(
    alloc: Global,
    work: Work,
    language: Language,
    input: &mut I,
    output: &mut K,
) -> Result<(), Stop<'a>>
    ensures { Does (K.contents output.old) (K.contents output.new) (setup_in language work)
        (I.remaining input.old) (I.remaining input.new) result }
{
    match work {
        Work::Print(sheets) => match Session::new(alloc, language, sheets) {
            Ok(mut session) => pump(&mut session, input, output),
            Err(_) => Err(Stop::Memory),
        },
        Work::List => list(language, input, output),
        Work::ListWithOffsets => list_with_offsets(language, input, output),
    }
}

/// Lists what is read.
// Apart, as the next one, since a session's room would be cleared where none is needed.
#[inline(never)]
fn list<'a, I: Source, K: Sink>(
    language: Language,
    input: &mut I,
    output: &mut K,
) -> Result<(), Stop<'a>>
    ensures { IsRun (Listing language) (I.remaining input.old) (I.remaining input.new)
        (K.contents output.old) (K.contents output.new) result }
{
    pump(&mut Session::listing(language), input, output)
}

/// Lists what is read, each item with its place.
#[inline(never)]
fn list_with_offsets<'a, I: Source, K: Sink>(
    language: Language,
    input: &mut I,
    output: &mut K,
) -> Result<(), Stop<'a>>
    ensures { IsRun (ListingWithOffsets language) (I.remaining input.old) (I.remaining input.new)
        (K.contents output.old) (K.contents output.new) result }
{
    pump(&mut Session::listing_with_offsets(language), input, output)
}

/// Does what a session does from its beginning, between the input and the output.
fn pump<'a, I: Source, K: Sink>(
    session: &mut Session,
    input: &mut I,
    output: &mut K,
) -> Result<(), Stop<'a>>
    ensures { (setup : Setup) → IsAt setup session.old [] [] →
        IsRun setup (I.remaining input.old) (I.remaining input.new)
        (K.contents output.old) (K.contents output.new) result }
{
    match session.pump(input, output) {
        Ok(_) => Ok(()),
        Err(fault) => Err(ended_by(fault)),
    }
}

/// Why a session ended before its input did.
fn ended_by<'a>(fault: RunFault) -> Stop<'a>
    ensures { result ≡ stop_of fault }
{
    match fault {
        RunFault::Print { fault, after } => Stop::Print { fault, after },
        RunFault::Read => Stop::Read,
        RunFault::Write => Stop::Write,
        RunFault::TooManyTurns => Stop::TooManyTurns,
    }
}

/// Writes help to the output, and usage to the errors, and gives the output back.
fn usage<O: Write + Drop, E: Write>(error: &clap::Error, mut output: O, errors: &mut E) -> (u8, O)
    ensures status { result.0 ≡ usage_status (kind_of error.now) }
    ensures kept { (result.0 ≡ 0) ⊎ (O.contents result.1 ≡ O.contents output) }
{
    if error.kind() == ErrorKind::OutOfMemory {
        return (report(&Stop::Memory, errors), output);
    }
    if error.use_stderr() {
        let _ = write!(errors, "{error}");
        return (USAGE, output);
    }
    let _ = write!(output, "{error}");
    (0, output)
}

/// Writes the line of a run that ends early, and gives its exit status.
fn report<E: Write>(stop: &Stop<'_>, errors: &mut E) -> u8
    ensures { result ≡ status_of stop.now }
{
    let _ = writeln!(errors, "vp: {stop}");
    stop.status()
}
