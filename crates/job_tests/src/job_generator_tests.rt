ghost use Rattle.std.specs.Prelude.{◌≤◌};

use job_generator::generate;
use std::alloc::Global;
use std::test::Fail;
use std::time::Instant;

const TEN_ORDERS: &str =
    "0,0,7\n1,7,38\n2,4,69\n3,1,0\n4,8,31\n5,5,62\n6,2,93\n7,9,24\n8,6,55\n9,3,86\n";

const JOB_OF_TEN: &str =
    r#"{"job":"generated_10","nodes":[{"columns":[["id","int"],["city","int"],["amount","int"]],"op":"source","table":"orders"},{"input":0,"op":"filter","where":["ge",["col",2],["int",20]]},{"columns":[["city","int"],["name","text"]],"op":"source","table":"cities"},{"keys":[[1,0]],"kind":"inner","left":1,"op":"join","right":2},{"aggs":[["count"],["sum",2]],"input":3,"keys":[4],"op":"aggregate"},{"input":4,"name":"totals","op":"sink"}],"settings":{"attempts":1,"block_ms":60000,"broadcast_bytes":1024,"flush_every":16,"max_parallelism":8,"min_parallelism":1,"restart_limit":3,"skew_bytes":16777216,"skew_percent":400,"slots_per_worker":1,"slow_lower_ms":60000,"slow_percent":150,"slow_ratio":75,"target_bytes":4096}}"#;

const TEN_CITIES: &str =
    "0,city0\n1,city1\n2,city2\n3,city3\n4,city4\n5,city5\n6,city6\n7,city7\n8,city8\n9,city9\n";

#[test]
fn ten_orders_and_their_job(rt: HostRuntime) -> Result<(), Fail> {
    let (text, tables) = generate(rt.alloc(), 10)?;
    assert_eq!(rt; text.as_slice(), JOB_OF_TEN.as_bytes());
    let expected = [("orders", TEN_ORDERS), ("cities", TEN_CITIES)];
    for (table, (name, content)) in tables.as_slice().iter().zip(expected.iter()) {
        assert_eq!(rt; table.table.as_slice(), name.as_bytes());
        for file in table.files.as_slice() {
            assert_eq!(rt; file.as_slice(), content.as_bytes());
        }
    }
    Ok(())
}

// The sizes of all files, in the order of the tables.
fn file_sizes(alloc: Global, n: u32) -> Result<Vec<usize>, Fail>
    requires least { 1 ≤ n }
    requires most { n ≤ 100000 }
{
    let (_, tables) = generate(alloc, n)?;
    let mut sizes = Vec::new(alloc);
    for table in tables.as_slice() {
        for file in table.files.as_slice() {
            sizes.push(file.len())?;
        }
    }
    Ok(sizes)
}

#[test]
fn files_have_250_orders(rt: HostRuntime) -> Result<(), Fail> {
    let thousand = file_sizes(rt.alloc(), 1000)?;
    assert_eq!(rt;
        thousand.as_slice(),
        [2114, 2226, 2224, 2226, 80].as_slice()
    );
    Ok(())
}

// The largest job is made within a second: prints the milliseconds.
#[test]
fn a_hundred_thousand_orders(rt: HostRuntime) -> Result<(), Fail> {
    let start = Instant::now(&rt)?;
    let sizes = file_sizes(rt.alloc(), 100_000)?;
    println!(rt; "{} ms", start.elapsed(&rt)?.as_millis())?;
    assert_eq!(rt; sizes.len(), 401);
    Ok(())
}
