//! A stream through the printer in each way: in one piece, cut into bytes, between a reader and a
//! writer, and where one of these fails.
use crate::cases::{Case, Kind, cases};
use crate::checks::{same, same_at};
use crate::pieces::{reader, writer};
use crate::sheet::{sheet, sheets};
use std::alloc::Global;
use std::process::Abort;
use std::test::Fail;
use vp_dots::Fault;
use vp_engine::{Language, Printer, Report, RunFault, Session, State, print_all};

/// Never reached: no call fails.
const NEVER: usize = 0;

/// How a case is printed.
#[derive(Clone, Copy)]
pub enum Way {
    InOnePiece,
    /// One byte in and one byte out at a time.
    InBytes,
    /// Each of its fronts through a session.
    ByFronts,
    /// Through sessions in which a read or a write fails once. Where a write fails, a call moves at most this
    /// number of bytes, or a thirtieth of the paper where that is more.
    Failing(usize),
}

/// A case prints what it must.
fn prints_its_images(
    rt: &impl Abort,
    alloc: Global,
    image: &[u8],
    case: &Case,
) -> Result<(), Fail> {
    let (paper, fault) = print_all(alloc, case.language, sheets(alloc, image), case.bytes)?;
    let want = (case.paper.as_slice(), case.fault);
    same(rt, case.name, &(paper.as_slice(), fault), &want);
    Ok(())
}

/// One byte in, at most, and one byte out.
fn step_a_byte(
    printer: &mut Printer,
    rest: &mut &[u8],
    paper: &mut Vec<u8>,
) -> Result<State, Fail> {
    let mut output = [0u8; 1];
    let step = printer.step(&rest[..rest.len().min(1)], &mut output);
    *rest = &rest[step.taken.min(rest.len())..];
    if step.put == 1 {
        paper.push(output[0])?;
    }
    Ok(step.state)
}

/// The bytes of a stream through a printer, one byte in and one byte out at a time.
fn cut_into_bytes(printer: &mut Printer, bytes: &[u8], paper: &mut Vec<u8>) -> Result<State, Fail> {
    let mut state = State::More;
    let mut rest = bytes;
    for _ in 0..90000u32 {
        state = step_a_byte(printer, &mut rest, paper)?;
    }
    Ok(state)
}

/// What a printer comes to behind a stream that ends in this fault.
pub fn end(fault: Option<Fault>) -> State {
    match fault {
        None | Some(Fault::Truncated | Fault::Unprinted) => State::More,
        Some(fault) => State::Stopped(fault),
    }
}

/// A new printer prints what a case must, one byte in and one byte out at a time.
fn prints_the_same(
    rt: &impl Abort,
    alloc: Global,
    printer: &mut Printer,
    case: &Case,
) -> Result<(), Fail> {
    let mut paper = Vec::new(alloc);
    let state = cut_into_bytes(printer, case.bytes, &mut paper)?;
    let want = (case.paper.as_slice(), end(case.fault));
    same(rt, case.name, &(paper.as_slice(), state), &want);
    Ok(())
}

/// A case prints the same, one byte in and one byte out at a time.
fn prints_in_bytes(rt: &impl Abort, alloc: Global, image: &[u8], case: &Case) -> Result<(), Fail> {
    let mut printer = Printer::new(alloc, case.language, sheets(alloc, image))?;
    prints_the_same(rt, alloc, &mut printer, case)
}

/// What a session came to: what it wrote, its answers, and how often it read and wrote.
#[derive(Drop)]
pub struct Pumped {
    pub paper: Vec<u8>,
    pub first: Result<Report, RunFault>,
    pub last: Result<Report, RunFault>,
    reads: usize,
    writes: usize,
}

/// Pumps `session` with at most `most` bytes a call, and once more after a failed read or write.
fn pump_with(
    session: &mut Session,
    alloc: Global,
    bytes: &[u8],
    most: usize,
    (bad_read, bad_write): (usize, usize),
) -> Pumped {
    let mut reader = reader(bytes, most, bad_read);
    let mut writer = writer(alloc, most, bad_write);
    let first = session.pump(&mut reader, &mut writer);
    let last = match first {
        Err(RunFault::Read | RunFault::Write) => session.pump(&mut reader, &mut writer),
        _ => first,
    };
    let writer = writer.into_inner();
    Pumped {
        paper: writer.bytes,
        first,
        last,
        reads: reader.into_inner().calls,
        writes: writer.calls,
    }
}

/// Pumps a new session with at most `most` bytes a call, and once more after a failed read or write.
pub fn pump(
    alloc: Global,
    image: &[u8],
    language: Language,
    bytes: &[u8],
    most: usize,
    fails: (usize, usize),
) -> Result<Pumped, Fail> {
    let mut session = Session::new(alloc, language, sheets(alloc, image))?;
    Ok(pump_with(&mut session, alloc, bytes, most, fails))
}

/// How many bytes of a case are taken, up to its fault: that of an unknown command comes with its second
/// byte, every other one with the last byte of its stream.
fn taken(case: &Case) -> usize {
    let Some(Fault::Unknown(lead, byte)) = case.fault else {
        return case.bytes.len();
    };
    for i in 1..case.bytes.len() {
        if case.bytes[i - 1] == lead && case.bytes[i] == byte {
            return i + 1;
        }
    }
    case.bytes.len()
}

/// What a session answers to the first n bytes of a case.
fn answer(case: &Case, n: usize, written: usize, fault: Option<Fault>) -> Result<Report, RunFault> {
    match fault {
        None => Ok(Report {
            taken: n as u64,
            written: written as u64,
        }),
        Some(fault) => Err(RunFault::Print {
            fault,
            after: n.min(taken(case)) as u64,
        }),
    }
}

/// Whether the first n bytes of a case may have this fault: before its own comes, that of ending there.
fn is_fault_of(case: &Case, n: usize, fault: Option<Fault>) -> bool {
    if n >= taken(case) {
        return fault == case.fault;
    }
    matches!(fault, None | Some(Fault::Truncated | Fault::Unprinted))
}

/// A new session comes to this paper and this answer of a front.
fn comes_to(
    rt: &impl Abort,
    alloc: Global,
    image: &[u8],
    case: &Case,
    front: &[u8],
    (paper, answer): (&[u8], Result<Report, RunFault>),
) -> Result<(), Fail> {
    let pumped = pump(alloc, image, case.language, front, 7, (NEVER, NEVER))?;
    let found = (pumped.paper.as_slice(), pumped.first);
    same_at(rt, case.name, front.len(), &found, &(paper, answer));
    Ok(())
}

/// What a front must print, if it prints so many bytes: the beginning of the paper, and all of it where it is
/// the whole stream.
fn begun(case: &Case, n: usize, printed: usize) -> &[u8] {
    if n >= case.bytes.len() {
        return case.paper.as_slice();
    }
    &case.paper.as_slice()[..printed.min(case.paper.len())]
}

/// A front prints the beginning of the paper, and so it does through a session.
fn pump_a_front(
    rt: &impl Abort,
    alloc: Global,
    image: &[u8],
    case: &Case,
    n: usize,
) -> Result<(), Fail> {
    let front = &case.bytes[..n.min(case.bytes.len())];
    let (paper, fault) = print_all(alloc, case.language, sheets(alloc, image), front)?;
    let want = begun(case, n, paper.len());
    let found = (paper.as_slice(), is_fault_of(case, n, fault));
    same_at(rt, case.name, n, &found, &(want, true));
    let answer = answer(case, n, want.len(), fault);
    comes_to(rt, alloc, image, case, front, (want, answer))
}

/// Each front prints the beginning of the paper.
fn pump_its_fronts(rt: &impl Abort, alloc: Global, image: &[u8], case: &Case) -> Result<(), Fail> {
    for n in 0..case.bytes.len() + 1 {
        pump_a_front(rt, alloc, image, case, n)?;
    }
    Ok(())
}

/// A session failed in this way at its call, and went on to what one that doesn't fail comes to.
fn went_on(
    rt: &impl Abort,
    case: &Case,
    (fault, call): (RunFault, usize),
    pumped: &Pumped,
    calm: Result<Report, RunFault>,
) {
    let found = (pumped.first, pumped.last, pumped.paper.as_slice());
    let want = (Err(fault), calm, case.paper.as_slice());
    same_at(rt, case.name, call, &found, &want);
}

/// One read or one write fails.
fn fail_at(
    rt: &impl Abort,
    alloc: Global,
    image: &[u8],
    case: &Case,
    most: usize,
    (fault, call): (RunFault, usize),
    calm: Result<Report, RunFault>,
) -> Result<(), Fail> {
    let fails = match fault {
        RunFault::Read => (call, NEVER),
        _ => (NEVER, call),
    };
    let pumped = pump(alloc, image, case.language, case.bytes, most, fails)?;
    went_on(rt, case, (fault, call), &pumped, calm);
    Ok(())
}

/// How often a session that doesn't fail reads, or else writes.
fn calls(
    alloc: Global,
    image: &[u8],
    case: &Case,
    most: usize,
    fault: RunFault,
) -> Result<usize, Fail> {
    let pumped = pump(
        alloc,
        image,
        case.language,
        case.bytes,
        most,
        (NEVER, NEVER),
    )?;
    Ok(match fault {
        RunFault::Read => pumped.reads,
        _ => pumped.writes,
    })
}

/// How often at least a session reads, or else writes, with at most `most` bytes a call.
fn fewest(case: &Case, most: usize, fault: RunFault) -> usize {
    match fault {
        RunFault::Read => taken(case).div_ceil(most.max(1)).max(1),
        _ => case.paper.len().div_ceil(most.max(1)),
    }
}

/// Each read, or each write, of at most `most` bytes fails once.
fn fail_each(
    rt: &impl Abort,
    alloc: Global,
    image: &[u8],
    case: &Case,
    most: usize,
    fault: RunFault,
) -> Result<(), Fail> {
    let calm = answer(case, case.bytes.len(), case.paper.len(), case.fault);
    let calls = calls(alloc, image, case, most, fault)?;
    let are_all = calls >= fewest(case, most, fault);
    same_at(rt, case.name, calls, &are_all, &true);
    for call in 1..calls.saturating_add(1) {
        fail_at(rt, alloc, image, case, most, (fault, call), calm)?;
    }
    Ok(())
}

/// Each read and each write fails once, up to the last.
fn fail_once(
    rt: &impl Abort,
    alloc: Global,
    image: &[u8],
    case: &Case,
    sip: usize,
) -> Result<(), Fail> {
    fail_each(rt, alloc, image, case, 3, RunFault::Read)?;
    let most = (case.paper.len() / 30).max(sip);
    fail_each(rt, alloc, image, case, most, RunFault::Write)
}

/// A case comes to what it must in this way.
fn prints(rt: &impl Abort, alloc: Global, image: &[u8], case: &Case, way: Way) -> Result<(), Fail> {
    match way {
        Way::InOnePiece => prints_its_images(rt, alloc, image, case),
        Way::InBytes => prints_in_bytes(rt, alloc, image, case),
        Way::ByFronts => pump_its_fronts(rt, alloc, image, case),
        Way::Failing(sip) => fail_once(rt, alloc, image, case, sip),
    }
}

/// These cases come to what they must in this way.
fn print_cases(rt: &impl Abort, alloc: Global, cases: &[Case], way: Way) -> Result<(), Fail> {
    let image = sheet(alloc)?;
    for case in cases {
        prints(rt, alloc, &image, case, way)?;
    }
    Ok(())
}

/// Each case of a kind comes to what it must in this way.
pub fn each_prints(rt: &impl Abort, alloc: Global, kind: Kind, way: Way) -> Result<(), Fail> {
    let cases = cases(alloc, kind)?;
    print_cases(rt, alloc, &cases, way)
}
