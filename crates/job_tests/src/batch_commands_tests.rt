use batch_commands::{look, run, serve};
use estate::{Files, FixedClock, MemEstate, MemInputs, MemPrinter, NoGate, Table};
use row_core::{Bytes, NoMemory};
use std::alloc::Global;
use std::test::Fail;
use test_estates::{failing_at, numbers};

// Tables by their names, each of some files.
pub type Tables = &'static [(&'static str, &'static [&'static str])];

// Which calls fail of the estate, of the inputs and of the printer, by their numbers.
pub type Failing = (&'static [u64], &'static [u64], &'static [u64]);

// A line of words, the job's text, the tables, and which calls fail.
pub type Given = (&'static str, &'static str, Tables, Failing);

// The status, what is printed, and the text of the commit.
type Answer = (u8, &'static str, Option<&'static str>);

pub const NONE: Failing = (&[], &[], &[]);

pub const JOB: &str = "{\"job\":\"orders\",\"nodes\":[
 {\"op\":\"source\",\"table\":\"orders\",\"columns\":[[\"id\",\"int\"],[\"city\",\"text\"],[\"amount\",\"int\"]]},
 {\"op\":\"filter\",\"input\":0,\"where\":[\"ge\",[\"col\",2],[\"int\",10]]},
 {\"op\":\"sink\",\"input\":1,\"name\":\"out\"}]}";

// The same job as it is printed: compact, members in byte order, all settings.
const PRINTED: &str =
    "{\"job\":\"orders\",\"nodes\":[{\"columns\":[[\"id\",\"int\"],[\"city\",\"text\"],[\"amount\",\"int\"]],\"op\":\"source\",\"table\":\"orders\"},{\"input\":0,\"op\":\"filter\",\"where\":[\"ge\",[\"col\",2],[\"int\",10]]},{\"input\":1,\"name\":\"out\",\"op\":\"sink\"}],\"settings\":{\"attempts\":2,\"block_ms\":60000,\"broadcast_bytes\":1048576,\"flush_every\":16,\"max_parallelism\":16,\"min_parallelism\":1,\"restart_limit\":3,\"skew_bytes\":16777216,\"skew_percent\":400,\"slots_per_worker\":1,\"slow_lower_ms\":60000,\"slow_percent\":150,\"slow_ratio\":75,\"target_bytes\":16777216}}";

const ROWS: &str = "1,Bonn,20\n2,Kiel,5\n3,Bonn,10\n";

pub const ORDERS: Tables = &[("orders", &[ROWS])];

pub const COMMITTED: &str = "sink out\n1,Bonn,20\n3,Bonn,10\n";

// Orders of at least 20 by city, their number and sum: a filter, an inner join, an aggregate.
const TOTALS: &str = "{\"job\":\"totals\",\"settings\":{\"max_parallelism\":8},\"nodes\":[
 {\"op\":\"source\",\"table\":\"orders\",\"columns\":[[\"id\",\"int\"],[\"city\",\"int\"],[\"amount\",\"int\"]]},
 {\"op\":\"filter\",\"input\":0,\"where\":[\"ge\",[\"col\",2],[\"int\",20]]},
 {\"op\":\"source\",\"table\":\"cities\",\"columns\":[[\"city\",\"int\"],[\"name\",\"text\"]]},
 {\"op\":\"join\",\"kind\":\"inner\",\"left\":1,\"right\":2,\"keys\":[[1,0]]},
 {\"op\":\"aggregate\",\"input\":3,\"keys\":[4],\"aggs\":[[\"count\"],[\"sum\",2]]},
 {\"op\":\"sink\",\"input\":4,\"name\":\"totals\"}]}";

const TOTALS_TABLES: Tables = &[
    (
        "cities",
        &[
            "0,city0\n1,city1\n2,city2\n3,city3\n4,city4\n5,city5\n6,city6\n7,city7\n8,city8\n9,city9\n",
        ],
    ),
    (
        "orders",
        &[
            "0,0,7\n1,7,38\n2,4,69\n3,1,0\n4,8,31\n",
            "5,5,62\n6,2,93\n7,9,24\n8,6,55\n9,3,86\n",
        ],
    ),
];

const TOTALS_TEXT: &str = "sink totals
city2,1,93
city3,1,86
city4,1,69
city5,1,62
city6,1,55
city7,1,38
city8,1,31
city9,1,24
";

const TOTALS_PLAN: &str = "vertex 0 nodes=0,1 in=files out=3:hash
vertex 1 nodes=2 in=files out=3:hash
vertex 2 nodes=3 in=1:hash,2:hash out=4:hash
vertex 3 nodes=4,5 in=3:hash out=sink
";

// A call of the crate.
#[derive(Clone, Copy)]
pub enum Entry {
    Run,
    Look,
    Serve,
}

// What a command reads and prints to.
#[derive(Drop)]
struct Objects {
    inputs: MemInputs,
    printer: MemPrinter,
    clock: FixedClock,
}

fn files_of(alloc: Global, files: &[&str]) -> Result<Files, NoMemory> {
    let mut made = Files::new(alloc);
    for file in files {
        made.push(Bytes::from_slice(alloc, file.as_bytes())?)?;
    }
    Ok(made)
}

fn tables_of(alloc: Global, tables: &[(&str, &[&str])]) -> Result<estate::Tables, NoMemory> {
    let mut made = estate::Tables::new(alloc);
    for (name, files) in tables {
        made.push(Table {
            table: Bytes::from_slice(alloc, name.as_bytes())?,
            files: files_of(alloc, files)?,
        })?;
    }
    Ok(made)
}

fn inputs_of(
    alloc: Global,
    job: &str,
    tables: Tables,
    failing: &[u64],
) -> Result<MemInputs, NoMemory> {
    let job = Bytes::from_slice(alloc, job.as_bytes())?;
    let tables = tables_of(alloc, tables)?;
    MemInputs::new(alloc, &job, &tables, &numbers(alloc, failing)?)
}

fn objects_of(alloc: Global, given: Given) -> Result<Objects, NoMemory> {
    let (_, job, tables, (_, inputs, printer)) = given;
    Ok(Objects {
        inputs: inputs_of(alloc, job, tables, inputs)?,
        printer: MemPrinter::new(alloc, &numbers(alloc, printer)?)?,
        clock: FixedClock::new(alloc, &numbers(alloc, &[])?)?,
    })
}

// The words of a line, between its spaces.
fn words_of(alloc: Global, line: &str) -> Result<Vec<String>, NoMemory> {
    let mut made = Vec::new(alloc);
    for word in line.split(' ') {
        made.push(String::from_str(alloc, word)?)?;
    }
    Ok(made)
}

// The status of a call with these words.
fn call(
    alloc: Global,
    entry: Entry,
    words: &[String],
    estate: &mut MemEstate,
    objects: &mut Objects,
) -> u8 {
    let Objects {
        inputs,
        printer,
        clock,
    } = objects;
    match entry {
        Entry::Run => run(alloc, words, estate, inputs, printer, clock, &NoGate).status,
        Entry::Look => look(alloc, words, estate, inputs, printer).status,
        Entry::Serve => serve(alloc, words, estate, inputs, printer, clock, &NoGate).status,
    }
}

// The status of the call over the estate, and what it prints.
pub fn called(
    alloc: Global,
    entry: Entry,
    estate: &mut MemEstate,
    given: Given,
) -> Result<(u8, Bytes), NoMemory> {
    let words = words_of(alloc, given.0)?;
    let mut objects = objects_of(alloc, given)?;
    let status = call(alloc, entry, words.as_slice(), estate, &mut objects);
    Ok((status, objects.printer.printed()?))
}

// Whether there is one commit with this text, or none.
fn has_committed(estate: &MemEstate, text: Option<&str>) -> Result<bool, NoMemory> {
    let commits = estate.commits()?;
    Ok(match (commits.as_slice(), text) {
        ([], None) => true,
        ([commit], Some(text)) => commit.text.as_slice() == text.as_bytes(),
        _ => false,
    })
}

// Whether the call answers so over a fresh estate.
fn answers(alloc: Global, entry: Entry, given: Given, answer: Answer) -> Result<bool, NoMemory> {
    let (wanted, told, committed) = answer;
    let mut estate = failing_at(alloc, given.3.0)?;
    let (status, printed) = called(alloc, entry, &mut estate, given)?;
    let is_told = status == wanted && printed.as_slice() == told.as_bytes();
    Ok(is_told && has_committed(&estate, committed)?)
}

const SERVED: &[(Given, Answer)] = &[
    // the commands over their jobs
    (
        ("run", JOB, ORDERS, NONE),
        (0, "finished job=orders\n", Some(COMMITTED)),
    ),
    (
        ("run --workers 0", TOTALS, TOTALS_TABLES, NONE),
        (0, "finished job=totals\n", Some(TOTALS_TEXT)),
    ),
    (
        ("check", TOTALS, &[], NONE),
        (0, "ok nodes=6 sinks=1\n", None),
    ),
    (("plan", TOTALS, &[], NONE), (0, TOTALS_PLAN, None)),
    (
        ("reference", TOTALS, TOTALS_TABLES, NONE),
        (0, TOTALS_TEXT, None),
    ),
    // refused words
    (
        ("", JOB, ORDERS, NONE),
        (1, "usage at=0 unknown-command\n", None),
    ),
    (
        ("run run run", JOB, ORDERS, NONE),
        (1, "usage at=1 unknown-word\n", None),
    ),
    (
        ("run --workers 65", JOB, ORDERS, NONE),
        (1, "usage at=2 bad-number\n", None),
    ),
    (
        ("run --workers", JOB, ORDERS, NONE),
        (1, "usage at=1 missing-number\n", None),
    ),
    (
        ("run --workers 1 --workers=2", JOB, ORDERS, NONE),
        (1, "usage at=3 repeated\n", None),
    ),
    // what is not built
    (
        ("run --workers 1", JOB, ORDERS, NONE),
        (18, "not-built workers\n", None),
    ),
    (
        ("generate 10", JOB, ORDERS, NONE),
        (18, "not-built generate\n", None),
    ),
    // faults of the inputs, of the sink, and of the printer after the commit and before it
    (
        ("run", JOB, ORDERS, (&[], &[2], &[])),
        (7, "input-fault\n", None),
    ),
    (
        ("run", JOB, ORDERS, (&[1], &[], &[])),
        (6, "sink-fault\n", None),
    ),
    (
        ("run", JOB, ORDERS, (&[], &[], &[0])),
        (8, "", Some(COMMITTED)),
    ),
    (("runs", JOB, ORDERS, (&[], &[], &[0])), (1, "", None)),
    // refused jobs
    (
        ("run", "[", &[], NONE),
        (2, "job-refused not-json node=- name=-\n", None),
    ),
    (
        (
            "check",
            "{\"job\":\"a\",\"nodes\":[{\"op\":\"sort\"}]}",
            &[],
            NONE,
        ),
        (2, "job-refused unknown-op node=0 name=op\n", None),
    ),
    (
        ("plan", "{\"job\":\"a\",\"nodes\":[]}", &[], NONE),
        (2, "job-refused no-sink node=- name=-\n", None),
    ),
];

#[test]
fn serves_its_commands(rt: HostRuntime) -> Result<(), Fail> {
    for (given, answer) in SERVED {
        let is_so = answers(rt.alloc(), Entry::Serve, *given, *answer)?;
        assert!(rt; is_so, "{}", given.0);
    }
    Ok(())
}

// Each call has its own commands.
const OTHERS: &[(Entry, &str)] = &[(Entry::Run, "check"), (Entry::Look, "run")];

#[test]
fn a_command_of_the_other_call_is_refused(rt: HostRuntime) -> Result<(), Fail> {
    for (entry, line) in OTHERS {
        let refused = (1, "usage at=0 other-call\n", None);
        assert!(rt;
            answers(rt.alloc(), *entry, (*line, JOB, &[], NONE), refused)?,
            "{line}"
        );
    }
    Ok(())
}

#[test]
fn commits_the_job_as_it_is_printed(rt: HostRuntime) -> Result<(), Fail> {
    let mut estate = failing_at(rt.alloc(), &[])?;
    called(
        rt.alloc(),
        Entry::Run,
        &mut estate,
        ("run", JOB, ORDERS, NONE),
    )?;
    let commits = estate.commits()?;
    assert_eq!(rt; commits.as_slice().len(), 1);
    assert_eq!(rt; commits.as_slice()[0].job.as_slice(), PRINTED.as_bytes());
    Ok(())
}

// What is read when: the sink is asked before the files of a table are read, and a command that shows
// no rows reads the job's text alone. The first run's calls of the inputs are the job's text, the
// sizes and the file: later the file fails, then the sizes.
const ONE_AFTER_ANOTHER: &[(Given, &str)] = &[
    (("run", JOB, ORDERS, NONE), "finished job=orders\n"),
    (("run", JOB, ORDERS, (&[], &[2], &[])), "not-built commit\n"),
    (
        ("check", JOB, ORDERS, (&[], &[1], &[])),
        "ok nodes=3 sinks=1\n",
    ),
    (
        ("plan", JOB, ORDERS, (&[], &[1], &[])),
        "vertex 0 nodes=0,1,2 in=files out=sink\n",
    ),
    (
        ("reference", JOB, ORDERS, (&[], &[1], &[])),
        "input-fault\n",
    ),
];

#[test]
fn reads_no_more_than_it_needs(rt: HostRuntime) -> Result<(), Fail> {
    let mut estate = failing_at(rt.alloc(), &[])?;
    for (given, told) in ONE_AFTER_ANOTHER {
        let (_, printed) = called(rt.alloc(), Entry::Serve, &mut estate, *given)?;
        assert_eq!(rt; printed.as_slice(), told.as_bytes(), "{}", given.0);
    }
    assert!(rt; has_committed(&estate, Some(COMMITTED))?);
    Ok(())
}
