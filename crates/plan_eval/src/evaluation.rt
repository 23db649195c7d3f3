ghost use Rattle.std.specs.Prelude.{◌≡◌, ◌<◌, ◌++◌, ◌∷◌, [], All, IfOk, OnOk, codes, length, slice_set};
ghost use Rattle.plan_eval.specs.Evaluated.{HasRun, Keeps, MayRun, bag_with, inputs_in, is_taken_later};
ghost use Rattle.plan_eval.specs.Tables.{files_of};
ghost use Rattle.plan_eval.specs.Takers.{AreLast};
ghost use Rattle.plan_model.specs.Plans.{bag_at, sink_section};

use crate::TableRows;
use crate::node_output::NodeOutput;
use crate::operating::operate;
use crate::takers::last_takers;
use csv_tables::sink_text;
use plan_model::{Node, Op};
use row_core::{Bytes, NoMemory, Rows};
use std::alloc::Global;

/// The nodes of a plan that have run so far. Rows are let go with the last node that takes them.
#[derive(Drop)]
pub struct Evaluation {
    // for each node of the plan the place of the last one that takes its rows, 0 where none does
    last: Vec<usize>,
    // what each node gives that has run
    outputs: Vec<NodeOutput>,
    // the text of the sinks among them
    text: Bytes,
}

impl Evaluation {
    pub fn new(alloc: Global, nodes: &[Node]) -> Result<Self, NoMemory>
        ensures outputs { IfOk result (λ e. e.outputs.items ≡ []) }
        ensures text { IfOk result (λ e. e.text ≡ []) }
        ensures last { IfOk result (λ e. AreLast nodes.now e.last.items) }
    {
        Ok(Evaluation {
            last: last_takers(alloc, nodes)?,
            outputs: Vec::with_capacity(alloc, nodes.len())?,
            text: Bytes::new(alloc),
        })
    }

    /// The text of the sinks so far.
    pub fn into_text(self) -> Bytes
        ensures { result ≡ self.text }
    {
        self.text
    }

    /// Adds what the next node gives.
    pub fn push(&mut self, output: NodeOutput) -> Result<(), NoMemory>
        ensures outputs { OnOk result (self.new.outputs.items ≡ self.old.outputs.items
            ++ output ∷ []) }
        ensures last { self.new.last.items ≡ self.old.last.items }
        ensures text { self.new.text ≡ self.old.text }
    {
        self.outputs.push(output)?;
        Ok(())
    }

    /// Runs the next node.
    pub fn run(
        &mut self,
        alloc: Global,
        tables: &TableRows,
        node: &Node,
    ) -> Result<NodeOutput, NoMemory>
        requires { MayRun node.now.op node.now.inputs self.old }
        ensures { IfOk result (λ output.
            HasRun (files_of tables.now) node.now.op node.now.inputs self.old self.new output) }
    {
        let inputs = node.inputs.as_slice();
        let output = operate(alloc, tables, &node.op, inputs, self.outputs.as_slice())?;
        self.add_text(alloc, &node.op, inputs)?;
        self.let_go(alloc, inputs);
        Ok(output)
    }

    // Adds the section of a node, where it is a sink.
    fn add_text(&mut self, alloc: Global, op: &Op, inputs: &[u32]) -> Result<(), NoMemory>
        requires { MayRun op.now inputs.now self.old }
        ensures text { OnOk result (self.new.text ≡ self.old.text
            ++ sink_section op.now (bag_at (inputs_in self.old inputs.now) 0)) }
        ensures outputs { self.new.outputs.items ≡ self.old.outputs.items }
        ensures last { self.new.last.items ≡ self.old.last.items }
    {
        let Op::Sink { name } = op else {
            return Ok(());
        };
        let input = &self.outputs[inputs[0] as usize];
        let lines = sink_text(alloc, &input.rows)?;
        self.text.extend(b"sink ")?;
        self.text.extend(name.as_slice())?;
        self.text.push(b'\n')?;
        self.text.extend(lines.as_slice())
    }

    // Lets go of the rows of these inputs that no later node takes.
    fn let_go(&mut self, alloc: Global, inputs: &[u32])
        requires { All (λ input. input < length self.old.outputs.items) inputs.now }
        ensures kept { Keeps self.old self.new }
        ensures text { self.new.text ≡ self.old.text }
    {
        for input in inputs {
            self.let_one_go(alloc, *input);
        }
    }

    fn let_one_go(&mut self, alloc: Global, input: u32)
        requires { input < length self.old.outputs.items }
        ensures kept { Keeps self.old self.new }
        ensures text { self.new.text ≡ self.old.text }
    {
        if !self.is_taken_later(input) {
            self.empty(alloc, input);
        }
    }

    fn empty(&mut self, alloc: Global, input: u32)
        requires { input < length self.old.outputs.items }
        ensures outputs { self.new.outputs.items ≡ slice_set self.old.outputs.items input
            (bag_with (bag_at self.old.outputs.items input).width []) }
        ensures last { self.new.last.items ≡ self.old.last.items }
        ensures text { self.new.text ≡ self.old.text }
    {
        self.outputs[input as usize].rows = Rows::new(alloc);
    }

    // Whether a node behind the next one takes the rows of the input.
    fn is_taken_later(&self, input: u32) -> bool
        ensures { result ≡ is_taken_later self.now input }
    {
        match self.last.get(input as usize) {
            Some(taker) => self.outputs.len() < *taker,
            None => false,
        }
    }
}
