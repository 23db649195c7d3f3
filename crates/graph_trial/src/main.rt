//! Tries what the graph of a job costs: a plan of one long chain, each vertex of which reads all
//! subtasks of the one before, is made, decided and finished, and then all its parts are lost. Its
//! words are the number of nodes and the number of subtasks of each vertex; with none it tries a
//! few. It says how many subtasks had finished, and how many are left so.
#![tactic(auto)]

mod chain;
mod trial;
mod trial_error;
mod turns;

use crate::chain::{chain_plan, chain_settings, table_sizes};
use crate::trial::{Trial, trial_of};
use crate::trial_error::TrialError;
use crate::turns::{count_winners, finish_all, lose_all};
use event_graph::EventGraph;
use std::process::ExitCode;
use std::{env, io};

fn main(rt: HostRuntime) -> ExitCode {
    match serve(&rt) {
        Ok((trial, finished, left)) => {
            let _ = println!(rt;
                "nodes={} subtasks={} finished={finished} left={left}",
                trial.nodes, trial.subtasks
            );
            ExitCode::SUCCESS
        }
        Err(error) => {
            let _ = println!(rt; "{error:?}");
            ExitCode::FAILURE
        }
    }
}

fn serve(rt: &HostRuntime) -> Result<(Trial, usize, usize), TrialError> {
    let alloc = rt.alloc();
    let trial = trial_of(words(rt)?.as_slice())?;
    let plan = chain_plan(alloc, trial.nodes)?;
    let files = table_sizes(alloc, trial.subtasks)?;
    let mut graph = EventGraph::new(alloc, plan, chain_settings(trial.subtasks)?, &files)?;
    finish_all(alloc, &mut graph, trial)?;
    let finished = count_winners(alloc, &graph, trial)?;
    lose_all(alloc, &mut graph, trial)?;
    let left = count_winners(alloc, &graph, trial)?;
    Ok((trial, finished, left))
}

fn words(rt: &HostRuntime) -> io::Result<Vec<String>> {
    Ok(env::args(rt)?.skip(1).collect(rt.alloc())?)
}
