ghost use Rattle.plan_composition.specs.Results.{SinkBagsLaw, TextLaw, TruthLaw, VertexBagsLaw};

use graph_model::{
    folds_are_valid, inputs_are_linked, nodes_are_in_one_vertex, winners_rows_are_read,
};
use rect_cover::vertices_go_by_bags;
use vertex_laws::{vertex_rows_go_by_bags, vertices_give_bags};

/// Where each part that was done was, when it came, one that its task may give of the parts that it
/// read, so is each winner's part by the state that the events lead to.
pub fn winners_are_true()
    ensures { TruthLaw }
{}

/// Where each node is in a complete vertex, the winners of each vertex have, at each of its
/// outputs, the plan's bag of its last node.
pub fn vertices_have_bags()
    ensures { VertexBagsLaw }
{
    winners_are_true();
    vertices_give_bags();
    vertices_go_by_bags();
    vertex_rows_go_by_bags();
    inputs_are_linked();
    nodes_are_in_one_vertex();
    folds_are_valid();
    winners_rows_are_read();
}

/// The winners of each sink have the plan's bag of the sink.
pub fn sinks_have_bags()
    ensures { SinkBagsLaw }
{
    vertices_have_bags();
    folds_are_valid();
}

/// The text of the sinks' winners is the one that the plan commits.
pub fn sinks_have_the_text()
    ensures { TextLaw }
{
    sinks_have_bags();
}
