//! Tests of jobs and plans: the text of a job, its plan, what is printed of it, the commands.
#![tactic(auto)]

#[cfg(test)]
mod batch_commands_tests;
#[cfg(test)]
mod events_command_tests;
#[cfg(test)]
mod job_generator_tests;
#[cfg(test)]
mod job_json_tests;
#[cfg(test)]
mod plan_model_tests;
#[cfg(test)]
mod plan_text_tests;
#[cfg(test)]
mod vertex_builder_tests;
