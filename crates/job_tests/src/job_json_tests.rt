use job_json::{JobError, print_job, read_job};
use row_core::Bytes;
use std::alloc::{AllocError, Global};
use std::test::Fail;

// Each operator once, with white space, members in another order and two settings.
const EVERY: &str =
    r#"{ "settings" : {"slow_ratio": 1, "attempts": 4}, "job": "every", "nodes": [ {"op":"source","table":"t","columns":[["a","int"],["b","text"]]}, {"op":"filter","input":0,"where":["and",["not",["isnull",["col",0]]],["or",["lt",["col",0],["int",-5]],["ne",["col",1],["text","\u00e9\n"]]]],"ship":"rebalance"}, {"op":"project","input":1,"exprs":[["add",["col",0],["int",1]],["concat",["col",1],["null"]],["sub",["mul",["col",0],["col",0]],["int",0]]],"ship":"forward"}, {"op":"explode","input":2,"column":1,"separator":",","ship":"rebalance"}, {"op":"union","inputs":[2,3]}, {"op":"aggregate","input":4,"keys":[1,0],"aggs":[["count"],["sum",0],["min",1],["max",2]]}, {"op":"distinct","input":5}, {"op":"join","kind":"left","left":6,"right":0,"keys":[[0,1],[1,0]]}, {"op":"sink","input":7,"name":"out_1","ship":"rebalance"} ] }"#;

const EVERY_PRINTED: &str =
    r#"{"job":"every","nodes":[{"columns":[["a","int"],["b","text"]],"op":"source","table":"t"},{"input":0,"op":"filter","ship":"rebalance","where":["and",["not",["isnull",["col",0]]],["or",["lt",["col",0],["int",-5]],["ne",["col",1],["text","é\n"]]]]},{"exprs":[["add",["col",0],["int",1]],["concat",["col",1],["null"]],["sub",["mul",["col",0],["col",0]],["int",0]]],"input":1,"op":"project"},{"column":1,"input":2,"op":"explode","separator":",","ship":"rebalance"},{"inputs":[2,3],"op":"union"},{"aggs":[["count"],["sum",0],["min",1],["max",2]],"input":4,"keys":[1,0],"op":"aggregate"},{"input":5,"op":"distinct"},{"keys":[[0,1],[1,0]],"kind":"left","left":6,"op":"join","right":0},{"input":7,"name":"out_1","op":"sink","ship":"rebalance"}],"settings":{"attempts":4,"block_ms":60000,"broadcast_bytes":1048576,"flush_every":16,"max_parallelism":16,"min_parallelism":1,"restart_limit":3,"skew_bytes":16777216,"skew_percent":400,"slots_per_worker":1,"slow_lower_ms":60000,"slow_percent":150,"slow_ratio":1,"target_bytes":16777216}}"#;

fn is_printed(alloc: Global, text: &str, want: &str) -> Result<bool, JobError> {
    let bytes = Bytes::from_slice(alloc, text.as_bytes())?;
    let job = read_job(alloc, &bytes)?;
    let printed = print_job(alloc, &job)?;
    Ok(printed.as_slice() == want.as_bytes())
}

#[test]
fn prints_jobs(rt: HostRuntime) -> Result<(), Fail> {
    let alloc = rt.alloc();
    assert!(rt; is_printed(alloc, EVERY, EVERY_PRINTED)?);
    assert!(rt; is_printed(alloc, EVERY_PRINTED, EVERY_PRINTED)?);
    Ok(())
}

// Whether the text is a job.
fn is_job(alloc: Global, text: &str) -> Result<bool, AllocError> {
    let bytes = Bytes::from_slice(alloc, text.as_bytes())?;
    match read_job(alloc, &bytes) {
        Ok(_) => Ok(true),
        Err(JobError::NoMemory) => Err(AllocError),
        Err(JobError::Fault(_)) => Ok(false),
    }
}

// What the reader of JSON decides: of two members of one name the last counts, and a number past
// all floats is none.
#[test]
fn reads_json(rt: HostRuntime) -> Result<(), Fail> {
    let alloc = rt.alloc();
    assert!(rt; is_job(alloc, r#"{"job":1,"nodes":[],"job":"a"}"#)?);
    assert!(rt; !is_job(alloc, r#"{"job":"a","nodes":[],"job":1}"#)?);
    assert!(rt; !is_job(alloc, r#"{"job":"a","nodes":[],"zz":1e400}"#)?);
    Ok(())
}
