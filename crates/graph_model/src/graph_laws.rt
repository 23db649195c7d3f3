ghost use Rattle.graph_model.specs.Folds.{PrefixLaw};
ghost use Rattle.graph_model.specs.Links.{LinkLaw, SingleLaw};
ghost use Rattle.graph_model.specs.Reading.{ReadLaw};
ghost use Rattle.graph_model.specs.Valid.{ValidLaw};

/// Each list of events with which a list of legal events begins is one.
pub fn prefixes_are_legal()
    ensures { PrefixLaw }
{}

/// Every list of legal events over a plan without a fault leads to a valid state: its vertices are
/// those of their chains, its decisions are covers, and what its winners read are the present
/// winners' parts.
pub fn folds_are_valid()
    ensures { ValidLaw }
{}

/// In a valid state the inputs of a vertex come from the last nodes of earlier vertices, by an
/// output that has the input's ship and as many cells.
pub fn inputs_are_linked()
    ensures { LinkLaw }
{}

/// In a valid state no node is in two vertices.
pub fn nodes_are_in_one_vertex()
    ensures { SingleLaw }
{}

/// After any legal events each part that a winner read has, cell by cell, the rows that the present
/// winner of that subtask has there.
pub fn winners_rows_are_read()
    ensures { ReadLaw }
{}
