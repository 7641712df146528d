//! The program: the words of its command line, the files that they name, and the job over them.
#![tactic(auto)]

ghost use Rattle.std.specs.Prelude.{◌≡◌};
ghost use Rattle.auc_run.specs.Jobs.{IsInRange};
ghost use Rattle.auction.specs.CommandLine.{words_status};

mod asked;
mod grammar;
mod numbers;
mod timer;
mod usage;
mod wanted;
mod word_fault;
mod words;
mod words_error;
mod wrong_words;

use asked::Words;
use auc_messages::{Page, Spot, Subject, page_of, remark_at, remark_of, write_name, write_remark};
use auc_place::{Place, find_token};
use auc_run::status::{NO_MEMORY, OPTIMAL, REFUSED, UNWRITTEN, USAGE};
use auc_run::{Ending, FreeGate, Job, Threading, perform};
use std::fs::File;
use std::io;
use std::io::{BufWriter, ErrorKind, Read, Seek, SeekFrom, Write};
use std::process::ExitCode;
use std::rt::{Clock, Env, Files};
use std::sync::Wait;
use std::thread::Threads;
use timer::Timer;
use usage::{CHECK_PAGE, HALL_PAGE, MAIL_PAGE, SOLVE_PAGE, USAGE_PAGE, VERSION_PAGE};
use words::read_words;
use words_error::WordsError;
use wrong_words::fault_of;

/// The most reads that look for the place of a token, 4,096 bytes each: in the first 64 MiB of a file. A token that
/// comes after them is named by its number, so that the answer isn't long past when the sentence comes.
const MOST_PLACE_READS: u32 = 16_384;

/// Linux's number of the error of a read where a descriptor is not open, or not for reading.
const NOT_OPEN: i32 = 9;

/// How a job ended; or the status alone, where standard error says why already.
type Ended = Result<Ending, u8>;

/// The words that the program was started with, without its name. One that is not UTF-8 is at fault.
fn given_words<R: Env + AllocGlobal>(rt: &R) -> Result<Vec<String>, WordsError> {
    let all = match std::env::args(rt) {
        Ok(all) => all,
        Err(error) if error.kind() == ErrorKind::OutOfMemory => {
            return Err(WordsError::NoMemory);
        }
        Err(_) => return Err(WordsError::Usage),
    };
    Ok(all.skip(1).collect(rt.alloc())?)
}

/// Does the job with these readers, watched as the words ask, and writes to standard output.
fn answer<R: Print + Eprint + Clock + AllocGlobal + Threads + Wait + Sync, A: Read, B: Read>(
    rt: &R,
    words: &Words,
    first: &mut A,
    second: &mut B,
) -> Ended
    requires { IsInRange words.now.job }
{
    let alloc = rt.alloc();
    let Ok(mut writer) = BufWriter::new(alloc, io::writer(rt)) else {
        let _ = eprintln!(rt; "{}", WordsError::NoMemory);
        return Err(NO_MEMORY);
    };
    let mut timer = Timer::start(rt, words.watching);
    let threading = Threading {
        rt,
        gate: &FreeGate,
    };
    let ending = perform(
        &threading,
        alloc,
        &words.job,
        first,
        second,
        &mut writer,
        &mut timer,
    );
    if writer.flush().is_err() {
        return Ok(Ending {
            status: UNWRITTEN,
            refusal: ending.refusal,
            reason: ending.reason,
        });
    }
    Ok(ending)
}

/// Opens a file, or says on standard error why not.
fn open<R: Files + Eprint, E: Write>(rt: &R, errors: &mut E, name: &str) -> Option<R::File> {
    match File::open(rt, name) {
        Ok(file) => Some(file),
        Err(error) => {
            let _ = errors.write_all(b"auction: ");
            let _ = write_name(errors, name);
            let _ = match error.kind() {
                ErrorKind::NotFound => eprintln!(rt; ": there is no such file"),
                ErrorKind::PermissionDenied => eprintln!(rt; ": this user may not read it"),
                _ => eprintln!(rt; ": it can't be opened: {error}"),
            };
            None
        }
    }
}

/// Opens the second file, and does the job.
fn with_second<
    R: Files + Input + Print + Eprint + Clock + AllocGlobal + Threads + Wait + Sync,
    E: Write,
    A: Read,
>(rt: &R, errors: &mut E, words: &Words, first: &mut A) -> Ended
    requires { IsInRange words.now.job }
{
    match &words.second {
        Some(name) => match open(rt, errors, name.as_str()) {
            Some(mut second) => answer(rt, words, first, &mut second),
            None => Err(REFUSED),
        },
        None => answer(rt, words, first, &mut rt.reader()),
    }
}

/// Where the token is that the end of the job is about, looked up in the first file; none where there is no such
/// token, it is too far after, or the file can't be read a second time, as a pipe.
fn place_in<F: Read + Seek>(file: &mut F, job: &Job, ended: &Ended) -> Option<Place> {
    let Ok(ending) = ended else {
        return None;
    };
    let remark = remark_of(job, *ending)?;
    let (Subject::First, Spot::Token(number)) = (remark.subject, remark.spot) else {
        return None;
    };
    if file.seek(SeekFrom::Start(0)).is_err() {
        return None;
    }
    match find_token(file, number, MOST_PLACE_READS) {
        Ok(place) => place,
        Err(_) => None,
    }
}

/// The name of an input.
fn name_of(words: &Words, subject: Subject) -> Option<&str> {
    let name = match subject {
        Subject::First => &words.first,
        Subject::Second => &words.second,
        Subject::Neither => return None,
    };
    match name {
        Some(name) => Some(name.as_str()),
        None => Some("standard input"),
    }
}

/// Says the end of a job, where its status isn't 0 and nothing has been said yet, and gives the status.
fn conclude<E: Write>(errors: &mut E, words: &Words, ended: Ended, place: &Option<Place>) -> u8 {
    let ending = match ended {
        Ok(ending) => ending,
        Err(status) => return status,
    };
    if let Some(remark) = remark_at(&words.job, ending, place) {
        let _ = write_remark(errors, name_of(words, remark.subject), place, remark);
    }
    ending.status
}

/// Whether the job reads standard input: a problem or a script without a name, and a certificate to be checked.
fn reads_standard_input(words: &Words) -> bool {
    words.first.is_none() || words.second.is_none() && matches!(&words.job, Job::Check { .. })
}

/// Whether standard input is open. Where it isn't, the first file that is opened gets its descriptor, and would be read
/// in its place.
fn is_standard_input_open<R: Input>(rt: &R) -> bool {
    match rt.reader().read(&mut []) {
        Ok(_) => true,
        Err(error) => error.raw_os_error() != Some(NOT_OPEN),
    }
}

/// Opens the first file, then the second, before anything is read, and does the job.
fn with_files<
    R: Files + Input + Print + Eprint + Clock + AllocGlobal + Threads + Wait + Sync,
    E: Write,
>(rt: &R, errors: &mut E, words: &Words) -> u8
    requires { IsInRange words.now.job }
{
    match &words.first {
        Some(name) => match open(rt, errors, name.as_str()) {
            Some(mut first) => {
                let ended = with_second(rt, errors, words, &mut first);
                let place = place_in(&mut first, &words.job, &ended);
                conclude(errors, words, ended, &place)
            }
            None => REFUSED,
        },
        None => {
            let ended = with_second(rt, errors, words, &mut rt.reader());
            conclude(errors, words, ended, &None)
        }
    }
}

/// The status where the words are no job.
fn status_of(error: WordsError) -> u8
    ensures { result ≡ words_status error }
{
    match error {
        WordsError::Usage
        | WordsError::AuditAlone
        | WordsError::FromObjects
        | WordsError::DirectThreads
        | WordsError::WatchAlone
        | WordsError::LargeAlone => USAGE,
        WordsError::NoMemory => NO_MEMORY,
    }
}

/// Says on standard error why the words are no job, and gives the status.
fn refuse<R: Eprint>(rt: &R, error: WordsError) -> u8
    ensures { result ≡ words_status error }
{
    let _ = eprintln!(rt; "{error}");
    status_of(error)
}

/// The same, and which of the words is at fault where none of the errors says more.
fn refuse_words<R: Eprint + AllocGlobal, E: Write>(
    rt: &R,
    errors: &mut E,
    words: &[String],
    error: WordsError,
) -> u8
    ensures { result ≡ words_status error }
{
    if error != WordsError::Usage {
        return refuse(rt, error);
    }
    match fault_of(rt.alloc(), words) {
        Ok(fault) => {
            fault.write(errors);
            status_of(error)
        }
        Err(_) => refuse(rt, error),
    }
}

/// Writes a page about the program to standard output, and gives the status.
fn show<R: Print + Eprint>(rt: &R, page: Page) -> u8 {
    let text = match page {
        Page::Usage => USAGE_PAGE,
        Page::Solve => SOLVE_PAGE,
        Page::Check => CHECK_PAGE,
        Page::Hall => HALL_PAGE,
        Page::Mail => MAIL_PAGE,
        Page::Version => VERSION_PAGE,
    };
    if println!(rt; "{}", text).is_err() {
        let _ = eprintln!(rt; "auction: standard output was not written, or not all of it");
        return UNWRITTEN;
    }
    OPTIMAL
}

/// Reads the words, opens the files that they name, does the job, and gives the status.
fn run<
    R: Env + Files + Input + Print + Eprint + Clock + AllocGlobal + Threads + Wait + Sync,
    E: Write,
>(rt: &R, errors: &mut E) -> u8 {
    let given = match given_words(rt) {
        Ok(given) => given,
        Err(error) => return refuse(rt, error),
    };
    if let Some(page) = page_of(given.as_slice()) {
        return show(rt, page);
    }
    match read_words(rt.alloc(), given.as_slice()) {
        Ok(words) if reads_standard_input(&words) && !is_standard_input_open(rt) => {
            let _ = eprintln!(rt;
                "auction: standard input is closed, or not open for reading; name a file"
            );
            REFUSED
        }
        Ok(words) => with_files(rt, errors, &words),
        Err(error) => refuse_words(rt, errors, given.as_slice(), error),
    }
}

fn main(rt: HostRuntime) -> ExitCode {
    ExitCode::from(run(&rt, &mut rt.stderr()))
}
