use crate::bounds::are_below;
use crate::tasks::index_of;
use reader_index::ReaderIndex;
use rerun_set::reruns;
use row_core::NoMemory;
use std::alloc::Global;
use std::test::Fail;

// Of the tasks of a diamond: which were done, whose results are gone, and which run again, worked by
// hand from the two rules. The result of the last, task 3, is awaited.
const ROWS: &[(&str, &str, &str)] = &[
    ("0123", "", ""),
    ("0123", "0", ""),
    ("0123", "1", ""),
    ("0123", "2", ""),
    ("0123", "3", "3"),
    ("0123", "01", ""),
    ("0123", "02", ""),
    ("0123", "03", "3"),
    ("0123", "12", ""),
    ("0123", "13", "13"),
    ("0123", "23", "23"),
    ("0123", "012", ""),
    ("0123", "013", "0123"),
    ("0123", "023", "0123"),
    ("0123", "123", "123"),
    ("0123", "0123", "0123"),
    ("012", "0", ""),
    ("012", "1", "1"),
    ("012", "2", "2"),
    ("012", "01", "012"),
    ("012", "02", "012"),
    ("012", "12", "12"),
    ("012", "012", "012"),
    ("01", "0", "01"),
    ("01", "1", "1"),
    ("01", "01", "01"),
    ("0", "0", "0"),
    ("", "", ""),
];

#[test]
fn runs_again_what_is_wanted(rt: HostRuntime) -> Result<(), Fail> {
    for (done, gone, again) in ROWS {
        assert!(rt;
            runs_again(rt.alloc(), done, gone, again)?,
            "{done}, {gone}"
        );
    }
    Ok(())
}

fn runs_again(alloc: Global, done: &str, gone: &str, again: &str) -> Result<bool, NoMemory> {
    let tasks = diamond(alloc, done)?;
    let gone = numbers(alloc, gone)?;
    let awaited = awaited(alloc, gone.as_slice())?;
    let count = tasks.count();
    if !are_below(gone.as_slice(), count) || !are_below(awaited.as_slice(), count) {
        return Ok(false);
    }
    let mut found = reruns(alloc, &tasks, gone.as_slice(), awaited.as_slice())?;
    found.sort()?;
    Ok(found.as_slice() == numbers(alloc, again)?.as_slice())
}

// The result of task 3 alone is awaited from outside.
fn awaited(alloc: Global, gone: &[usize]) -> Result<Vec<usize>, NoMemory> {
    let mut awaited = Vec::new(alloc);
    if gone.contains(&3) {
        awaited.push(3)?;
    }
    Ok(awaited)
}

// The tasks 1 and 2 read from 0, and 3 reads from both.
const DIAMOND: &[&[&[usize]]] = &[&[&[]], &[&[0], &[0]], &[&[1, 2]]];

fn diamond(alloc: Global, done: &str) -> Result<ReaderIndex, NoMemory> {
    let mut tasks = index_of(alloc, DIAMOND)?;
    finish_all(&mut tasks, numbers(alloc, done)?.as_slice());
    Ok(tasks)
}

fn finish_all(tasks: &mut ReaderIndex, numbers: &[usize]) {
    for task in numbers {
        if *task < tasks.count() && !tasks.is_done(*task) {
            tasks.finish(*task);
        }
    }
}

fn numbers(alloc: Global, tasks: &str) -> Result<Vec<usize>, NoMemory> {
    let mut numbers = Vec::new(alloc);
    for (number, digit) in ['0', '1', '2', '3'].iter().enumerate() {
        if tasks.contains(*digit) {
            numbers.push(number)?;
        }
    }
    Ok(numbers)
}
