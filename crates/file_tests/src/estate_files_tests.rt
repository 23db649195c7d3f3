use estate::{Clock, Edge, Edges, Estate, EstateError, InputError, Inputs, Names, PartName};
use estate_files::{FileEstate, FileInputs, RealClock};
use row_core::{Bytes, NoMemory};
use std::alloc::Global;
use std::fs::OpenFile;
use std::os::unix::fs::symlink;
use std::test::Fail;
use std::{env, fs, io, process};

type Files<'a> = FileEstate<'a, HostRuntime>;

const PART: PartName = PartName {
    vertex: 0,
    subtask: 12,
    epoch: 1,
    attempt: 4_294_967_295,
};

const PART_FILE: &str = "estate/parts/0.12.1.4294967295";

// ---- calls, and their answers as texts

// A call of an estate. A part that is put has two edges, a commit is of an id and a job's text.
#[derive(Clone, Copy)]
enum Call {
    Len,
    Read(u64, u64),
    Write(u64, &'static str),
    Sync,
    Put,
    Cell(u32, u32),
    Names,
    Commit(&'static str, &'static str),
    Committed(&'static str),
}

fn bytes(alloc: Global, text: &str) -> Result<Bytes, NoMemory> {
    Bytes::from_slice(alloc, text.as_bytes())
}

// Two edges: one with the cells `first` and none, and one without cells.
fn edges(alloc: Global) -> Result<Edges, NoMemory> {
    let mut edge = Edge::new(alloc);
    edge.push(bytes(alloc, "first")?)?;
    edge.push(bytes(alloc, "")?)?;
    let mut edges = Edges::new(alloc);
    edges.push(edge)?;
    edges.push(Edge::new(alloc))?;
    Ok(edges)
}

fn number(alloc: Global, number: u64) -> Result<Bytes, NoMemory> {
    bytes(alloc, format!(in alloc; "{number}")?.as_str())
}

// The names, each in a line.
fn shown(alloc: Global, names: &Names) -> Result<Bytes, NoMemory> {
    let mut text = String::new(alloc);
    for name in names.as_slice() {
        let (vertex, subtask) = (name.vertex, name.subtask);
        let (epoch, attempt) = (name.epoch, name.attempt);
        writeln!(text, "{vertex}.{subtask}.{epoch}.{attempt}")?;
    }
    bytes(alloc, text.as_str())
}

fn found(alloc: Global, bytes_there: Option<Bytes>) -> Result<Bytes, NoMemory> {
    match bytes_there {
        Some(bytes) => Ok(bytes),
        None => bytes(alloc, "none"),
    }
}

fn write(alloc: Global, files: &mut Files<'_>, at: u64, text: &str) -> Result<(), EstateError> {
    files.log_write(at, &bytes(alloc, text)?)
}

fn put(alloc: Global, files: &mut Files<'_>) -> Result<(), EstateError> {
    files.shelf_put(PART, &edges(alloc)?)
}

fn commit(alloc: Global, files: &mut Files<'_>, id: &str, job: &str) -> Result<(), EstateError> {
    let (id, job) = (bytes(alloc, id)?, bytes(alloc, job)?);
    files.sink_commit(&id, &job, &job)
}

fn committed(alloc: Global, files: &mut Files<'_>, id: &str) -> Result<Option<Bytes>, EstateError> {
    files.sink_committed(&bytes(alloc, id)?)
}

// The answer of a call that gives nothing.
fn done(alloc: Global, answer: Result<(), EstateError>) -> Result<Bytes, EstateError> {
    answer?;
    Ok(bytes(alloc, "ok")?)
}

fn answer(alloc: Global, files: &mut Files<'_>, call: Call) -> Result<Bytes, EstateError> {
    match call {
        Call::Len => Ok(number(alloc, files.log_len()?)?),
        Call::Read(at, len) => files.log_read(at, len),
        Call::Write(at, text) => done(alloc, write(alloc, files, at, text)),
        Call::Sync => done(alloc, files.log_sync()),
        Call::Put => done(alloc, put(alloc, files)),
        Call::Cell(edge, cell) => Ok(found(alloc, files.shelf_cell(PART, edge, cell)?)?),
        Call::Names => Ok(shown(alloc, &files.shelf_names()?)?),
        Call::Commit(id, job) => done(alloc, commit(alloc, files, id, job)),
        Call::Committed(id) => Ok(found(alloc, committed(alloc, files, id)?)?),
    }
}

// The same, or `fault`.
fn told(alloc: Global, files: &mut Files<'_>, call: Call) -> Result<Bytes, NoMemory> {
    match answer(alloc, files, call) {
        Ok(answer) => Ok(answer),
        Err(EstateError::Failed) => bytes(alloc, "fault"),
        Err(EstateError::NoMemory) => bytes(alloc, "no memory"),
    }
}

// The first of the calls that answers otherwise than wanted, counted from 0.
fn wrong(
    alloc: Global,
    files: &mut Files<'_>,
    calls: &[(Call, &str)],
) -> Result<Option<usize>, NoMemory> {
    for (number, (call, want)) in calls.iter().enumerate() {
        if told(alloc, files, *call)?.as_slice() != want.as_bytes() {
            return Ok(Some(number));
        }
    }
    Ok(None)
}

// ---- folders

// An empty folder of the test's own.
fn folder(rt: &HostRuntime, name: &str) -> io::Result<String> {
    let number = process::id(rt.process());
    let path = format!(in rt.alloc(); "{}/files_{number}_{name}", env::temp_dir(rt)?.display())?;
    remove(rt, path.as_str())?;
    fs::create_dir(rt, path.as_str())?;
    Ok(path)
}

fn remove(rt: &HostRuntime, path: &str) -> io::Result<()> {
    match fs::remove_dir_all(rt, path) {
        Err(error) if error.kind() != io::ErrorKind::NotFound => Err(error),
        _ => Ok(()),
    }
}

fn opened<'a>(rt: &'a HostRuntime, root: &str) -> Result<Files<'a>, NoMemory> {
    FileEstate::new(rt, rt.process(), rt.alloc(), root)
}

fn path(rt: &HostRuntime, root: &str, name: &str) -> Result<String, NoMemory> {
    format!(in rt.alloc(); "{root}/{name}")
}

// The first wrong answer of an estate that is opened anew.
fn wrong_anew(
    rt: &HostRuntime,
    root: &str,
    calls: &[(Call, &str)],
) -> Result<Option<usize>, NoMemory> {
    let mut files = opened(rt, root)?;
    wrong(rt.alloc(), &mut files, calls)
}

// Writes a file, and the folders that it stands in.
fn write_file(rt: &HostRuntime, root: &str, folder: &str, name: &str) -> io::Result<()> {
    let folder = path(rt, root, folder)?;
    fs::create_dir_all(rt, folder.as_str())?;
    fs::write(rt, path(rt, folder.as_str(), name)?, "x")
}

fn is_there(rt: &HostRuntime, root: &str, name: &str) -> io::Result<bool> {
    fs::exists(rt, path(rt, root, name)?)
}

// ---- what is written is read

const MADE: &[(Call, &str)] = &[
    (Call::Len, "0"),
    (Call::Write(0, "abc"), "ok"),
    (Call::Write(1, "xyz!"), "ok"),
    (Call::Sync, "ok"),
    (Call::Write(6, "far"), "fault"),
    (Call::Put, "ok"),
    (Call::Put, "fault"),
    (Call::Commit("orders", "job"), "ok"),
    (Call::Commit("orders", "job"), "fault"),
];

const READ: &[(Call, &str)] = &[
    (Call::Len, "5"),
    (Call::Read(0, 5), "axyz!"),
    (Call::Read(2, 2), "yz"),
    (Call::Read(3, 3), "fault"),
    (Call::Read(u64::MAX, 2), "fault"),
    (Call::Names, "0.12.1.4294967295\n"),
    (Call::Cell(0, 0), "first"),
    (Call::Cell(0, 1), ""),
    (Call::Cell(0, 2), ""),
    (Call::Cell(1, 0), ""),
    (Call::Cell(2, 0), ""),
    (Call::Cell(u32::MAX, u32::MAX), ""),
    (Call::Committed("orders"), "job"),
    (Call::Committed("other"), "none"),
];

#[test]
fn a_log_a_part_and_a_commit_are_read_after_opening_again(rt: HostRuntime) -> Result<(), Fail> {
    let root = folder(&rt, "again")?;
    assert_eq!(rt; wrong_anew(&rt, root.as_str(), MADE)?, None);
    assert_eq!(rt; wrong_anew(&rt, root.as_str(), READ)?, None);
    Ok(remove(&rt, root.as_str())?)
}

// ---- one writer

const REFUSED: &[(Call, &str)] = &[
    (Call::Sync, "fault"),
    (Call::Write(0, ""), "fault"),
    (Call::Put, "fault"),
    (Call::Commit("orders", ""), "fault"),
    (Call::Read(0, 3), "abc"),
    (Call::Names, ""),
];

const WRITES: &[(Call, &str)] = &[(Call::Sync, "ok"), (Call::Write(0, "abc"), "ok")];

// An estate writes, and the other one beside it may not: the first wrong answer of each.
fn wrong_beside(
    rt: &HostRuntime,
    root: &str,
    other: &mut Files<'_>,
) -> Result<(Option<usize>, Option<usize>), NoMemory> {
    let mut files = opened(rt, root)?;
    let first = wrong(rt.alloc(), &mut files, WRITES)?;
    Ok((first, wrong(rt.alloc(), other, REFUSED)?))
}

#[test]
fn one_estate_at_a_time_writes_and_any_reads(rt: HostRuntime) -> Result<(), Fail> {
    let root = folder(&rt, "lock")?;
    let mut files = opened(&rt, root.as_str())?;
    assert_eq!(rt; wrong(rt.alloc(), &mut files, &[(Call::Len, "0")])?, None);
    assert_eq!(rt; wrong_beside(&rt, root.as_str(), &mut files)?, (None, None));
    assert_eq!(rt;
        wrong(
            rt.alloc(),
            &mut files,
            &[(Call::Sync, "ok"), (Call::Put, "ok")]
        )?,
        None
    );
    Ok(remove(&rt, root.as_str())?)
}

// ---- what dead processes left

const PARTS_LEFT: &[(Call, &str)] = &[
    (Call::Names, "7.0.1.0\n"),
    (Call::Put, "ok"),
    (Call::Names, "0.12.1.4294967295\n7.0.1.0\n"),
];

#[test]
fn a_part_that_a_dead_process_left_aside_is_removed(rt: HostRuntime) -> Result<(), Fail> {
    let root = folder(&rt, "parts_left")?;
    write_file(&rt, root.as_str(), "estate/parts", ".0.1.1.0.7.partial")?;
    write_file(&rt, root.as_str(), "estate/parts", "7.0.1.0")?;
    assert_eq!(rt; wrong_anew(&rt, root.as_str(), PARTS_LEFT)?, None);
    assert!(rt; !is_there(&rt, root.as_str(), "estate/parts/.0.1.1.0.7.partial")?);
    Ok(remove(&rt, root.as_str())?)
}

#[test]
fn a_commit_that_a_dead_process_left_aside_is_removed(rt: HostRuntime) -> Result<(), Fail> {
    let root = folder(&rt, "commits_left")?;
    write_file(
        &rt,
        root.as_str(),
        "estate/out/.orders.7.partial",
        "job.json",
    )?;
    assert_eq!(rt;
        wrong_anew(&rt, root.as_str(), &[(Call::Commit("orders", "job"), "ok")])?,
        None
    );
    assert!(rt; !is_there(&rt, root.as_str(), "estate/out/.orders.7.partial")?);
    Ok(remove(&rt, root.as_str())?)
}

// ---- parts of another form

const FIRST: Call = Call::Cell(0, 0);

const NO_PART: &[(Call, &str)] = &[(FIRST, "fault"), (Call::Put, "fault")];

// Cuts the part's file at each place, and writes it whole again: the first length at which it is
// no fault.
fn cut(rt: &HostRuntime, files: &mut Files<'_>, place: &str) -> io::Result<Option<usize>> {
    let whole = fs::read(rt, place)?;
    for end in 0..whole.len() {
        fs::write(rt, place, &whole[..end])?;
        if told(rt.alloc(), files, FIRST)?.as_slice() != b"fault".as_slice() {
            return Ok(Some(end));
        }
    }
    fs::write(rt, place, whole.as_slice())?;
    Ok(None)
}

#[test]
fn a_part_that_is_cut_is_a_fault_and_one_that_is_gone_is_not_held(
    rt: HostRuntime,
) -> Result<(), Fail> {
    let root = folder(&rt, "cut")?;
    let place = path(&rt, root.as_str(), PART_FILE)?;
    let mut files = opened(&rt, root.as_str())?;
    assert_eq!(rt;
        wrong(
            rt.alloc(),
            &mut files,
            &[(Call::Put, "ok"), (FIRST, "first")]
        )?,
        None
    );
    assert_eq!(rt; cut(&rt, &mut files, place.as_str())?, None);
    assert_eq!(rt; wrong(rt.alloc(), &mut files, &[(FIRST, "first")])?, None);
    fs::remove_file(&rt, place.as_str())?;
    assert_eq!(rt;
        wrong(
            rt.alloc(),
            &mut files,
            &[(FIRST, "none"), (Call::Names, "")]
        )?,
        None
    );
    Ok(remove(&rt, root.as_str())?)
}

#[test]
fn a_link_or_a_folder_is_no_part(rt: HostRuntime) -> Result<(), Fail> {
    let root = folder(&rt, "parts")?;
    let place = path(&rt, root.as_str(), PART_FILE)?;
    let mut files = opened(&rt, root.as_str())?;
    assert_eq!(rt; wrong(rt.alloc(), &mut files, &[(Call::Put, "ok")])?, None);
    fs::remove_file(&rt, place.as_str())?;
    symlink(&rt, "/nowhere", place.as_str())?;
    assert_eq!(rt; wrong(rt.alloc(), &mut files, NO_PART)?, None);
    fs::remove_file(&rt, place.as_str())?;
    fs::create_dir(&rt, place.as_str())?;
    assert_eq!(rt; wrong(rt.alloc(), &mut files, NO_PART)?, None);
    Ok(remove(&rt, root.as_str())?)
}

// ---- logs of another form

const NO_LOG: &[(Call, &str)] = &[
    (Call::Len, "fault"),
    (Call::Read(0, 0), "fault"),
    (Call::Sync, "fault"),
    (Call::Write(0, "x"), "fault"),
];

#[test]
fn no_log_stands_behind_a_folder_or_a_link(rt: HostRuntime) -> Result<(), Fail> {
    let root = folder(&rt, "log")?;
    let place = path(&rt, root.as_str(), "estate/log")?;
    fs::create_dir_all(&rt, place.as_str())?;
    let mut files = opened(&rt, root.as_str())?;
    assert_eq!(rt; wrong(rt.alloc(), &mut files, NO_LOG)?, None);
    fs::remove_dir(&rt, place.as_str())?;
    symlink(&rt, "/dev/null", place.as_str())?;
    assert_eq!(rt; wrong(rt.alloc(), &mut files, NO_LOG)?, None);
    fs::remove_file(&rt, place.as_str())?;
    assert_eq!(rt;
        wrong(rt.alloc(), &mut files, &[(Call::Write(0, "abc"), "ok")])?,
        None
    );
    Ok(remove(&rt, root.as_str())?)
}

const CUT_LOG: &[(Call, &str)] = &[
    (Call::Len, "1"),
    (Call::Read(0, 3), "fault"),
    (Call::Write(3, "x"), "fault"),
];

fn set_len(rt: &HostRuntime, place: &str, len: u64) -> io::Result<()> {
    let file = fs::OpenOptions::new().write(true).open(rt, place)?;
    file.set_len(len)
}

#[test]
fn a_log_that_is_cut_has_what_is_left(rt: HostRuntime) -> Result<(), Fail> {
    let root = folder(&rt, "cut_log")?;
    let place = path(&rt, root.as_str(), "estate/log")?;
    let mut files = opened(&rt, root.as_str())?;
    assert_eq!(rt;
        wrong(rt.alloc(), &mut files, &[(Call::Write(0, "abc"), "ok")])?,
        None
    );
    set_len(&rt, place.as_str(), 1)?;
    assert_eq!(rt; wrong(rt.alloc(), &mut files, CUT_LOG)?, None);
    Ok(remove(&rt, root.as_str())?)
}

// ---- commits of another form

#[test]
fn a_bad_id_is_a_fault(rt: HostRuntime) -> Result<(), Fail> {
    let root = folder(&rt, "ids")?;
    let mut files = opened(&rt, root.as_str())?;
    for id in ["", ".", "..", ".hidden", "a/b", "../a", "a\0b"] {
        let calls = [
            (Call::Commit(id, "job"), "fault"),
            (Call::Committed(id), "fault"),
        ];
        assert_eq!(rt; wrong(rt.alloc(), &mut files, &calls)?, None);
    }
    Ok(remove(&rt, root.as_str())?)
}

const NO_COMMIT: &[(Call, &str)] = &[
    (Call::Committed("orders"), "fault"),
    (Call::Commit("orders", "job"), "fault"),
];

#[test]
fn half_a_commit_is_a_fault(rt: HostRuntime) -> Result<(), Fail> {
    let root = folder(&rt, "half")?;
    fs::create_dir_all(&rt, path(&rt, root.as_str(), "estate/out/orders")?)?;
    assert_eq!(rt; wrong_anew(&rt, root.as_str(), NO_COMMIT)?, None);
    write_file(&rt, root.as_str(), "estate/out/orders", "job.json")?;
    assert_eq!(rt; wrong_anew(&rt, root.as_str(), NO_COMMIT)?, None);
    write_file(&rt, root.as_str(), "estate/out/orders", "rows.csv")?;
    assert_eq!(rt;
        wrong_anew(&rt, root.as_str(), &[(Call::Committed("orders"), "x")])?,
        None
    );
    Ok(remove(&rt, root.as_str())?)
}

#[test]
fn a_link_is_no_commit(rt: HostRuntime) -> Result<(), Fail> {
    let root = folder(&rt, "linked")?;
    assert_eq!(rt;
        wrong_anew(&rt, root.as_str(), &[(Call::Commit("other", "job"), "ok")])?,
        None
    );
    let place = path(&rt, root.as_str(), "estate/out/other")?;
    symlink(
        &rt,
        place.as_str(),
        path(&rt, root.as_str(), "estate/out/orders")?,
    )?;
    assert_eq!(rt; wrong_anew(&rt, root.as_str(), NO_COMMIT)?, None);
    Ok(remove(&rt, root.as_str())?)
}

// ---- inputs

// A call of the inputs.
#[derive(Clone, Copy)]
enum Asked {
    Job,
    Sizes(&'static str),
    File(&'static str, u32),
}

fn sizes(
    alloc: Global,
    inputs: &mut FileInputs<'_, HostRuntime>,
    table: &str,
) -> Result<Bytes, InputError> {
    let sizes = inputs.file_sizes(&bytes(alloc, table)?)?;
    let text = format!(in alloc; "{:?}", sizes.as_slice())?;
    Ok(bytes(alloc, text.as_str())?)
}

fn input(
    alloc: Global,
    inputs: &mut FileInputs<'_, HostRuntime>,
    asked: Asked,
) -> Result<Bytes, InputError> {
    match asked {
        Asked::Job => inputs.job_text(),
        Asked::Sizes(table) => sizes(alloc, inputs, table),
        Asked::File(table, file) => inputs.read_file(&bytes(alloc, table)?, file),
    }
}

// Whether the inputs of the folder answer with this text, or with a fault where there is none.
fn gives(rt: &HostRuntime, root: &str, asked: Asked, want: Option<&str>) -> Result<bool, NoMemory> {
    let mut inputs = FileInputs::new(rt, rt.alloc(), root)?;
    Ok(match input(rt.alloc(), &mut inputs, asked) {
        Ok(text) => want.is_some_and(|want| text.as_slice() == want.as_bytes()),
        Err(error) => error == InputError::Failed && want.is_none(),
    })
}

const WITH_NO_FILES: &[(Asked, Option<&str>)] = &[
    (Asked::Job, None),
    (Asked::Sizes("orders"), None),
];

#[test]
fn inputs_that_are_not_there_are_a_fault(rt: HostRuntime) -> Result<(), Fail> {
    let root = folder(&rt, "no_inputs")?;
    for (asked, want) in WITH_NO_FILES {
        assert!(rt; gives(&rt, root.as_str(), *asked, *want)?);
    }
    Ok(remove(&rt, root.as_str())?)
}

const FILES: &[(&str, &str)] = &[
    ("tables/orders/b.csv", "2\n"),
    ("tables/orders/a.csv", "1,2\n"),
    ("tables/orders/B.csv", ""),
    ("tables/orders/a.txt", "no"),
    ("job.json", "{}"),
];

const FOLDERS: &[&str] = &["tables/orders", "tables/folders/x.csv"];

const WITH_FILES: &[(Asked, Option<&str>)] = &[
    (Asked::Job, Some("{}")),
    (Asked::Sizes("orders"), Some("[0, 4, 2]")),
    (Asked::File("orders", 1), Some("1,2\n")),
    (Asked::File("orders", 3), None),
    (Asked::Sizes("missing"), None),
    (Asked::Sizes(""), None),
    (Asked::Sizes(".."), None),
    (Asked::Sizes("a/b"), None),
    (Asked::Sizes("folders"), None),
];

fn make_inputs(rt: &HostRuntime, root: &str) -> io::Result<()> {
    for folder in FOLDERS {
        fs::create_dir_all(rt, path(rt, root, folder)?)?;
    }
    for (name, text) in FILES {
        fs::write(rt, path(rt, root, name)?, *text)?;
    }
    Ok(())
}

#[test]
fn inputs_are_the_files_of_a_folder_in_byte_order(rt: HostRuntime) -> Result<(), Fail> {
    let root = folder(&rt, "inputs")?;
    make_inputs(&rt, root.as_str())?;
    for (asked, want) in WITH_FILES {
        assert!(rt; gives(&rt, root.as_str(), *asked, *want)?);
    }
    Ok(remove(&rt, root.as_str())?)
}

// ---- the clock

#[test]
fn the_systems_clock_goes_on_by_a_pause(rt: HostRuntime) -> Result<(), Fail> {
    let mut clock = RealClock::new(&rt);
    let before = clock.now();
    clock.pause(&rt);
    assert!(rt; clock.now() >= before.saturating_add(50));
    Ok(())
}
