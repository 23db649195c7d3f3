//! A reader of a job's JSON: what every part of it does with the members of an object.
ghost use Rattle.std.specs.Prelude.{◌≡◌, IfOk, map, option_map};
ghost use Rattle.serde_json.specs.View.{view, members_view};
ghost use Rattle.job_json.specs.Faults.{fault, Gives, TellsFault};
ghost use Rattle.job_json.specs.Members.{member_of, name_of, number_of, list_of, unknown_among, known_alone};
ghost use Rattle.job_json.specs.Parts.{not_too_long};

use crate::json_shape::{has_number, list_items, number_u32};
use crate::names::read_name;
use crate::object::Object;
use crate::{JobError, JobFault, JobFaultKind};
use row_core::{Bytes, NoMemory};
use serde_json::{Map, Value};
use std::alloc::Global;

/// The greatest number of items of a node's list.
pub const LIST_LIMIT: usize = 256;

/// Reads within a node, or outside the nodes. It takes memory for what it reads and for the faults
/// that it finds.
#[derive(Clone, Copy)]
pub struct NodeReader {
    pub alloc: Global,
    pub node: Option<u32>,
}

impl NodeReader {
    /// The error for a fault at this name.
    pub fn fault(self, kind: JobFaultKind, name: &str) -> JobError
        ensures { TellsFault result (fault kind self.node name.now) }
    {
        match self.named_fault(kind, name.as_bytes()) {
            Ok(fault) => JobError::Fault(fault),
            Err(_) => JobError::NoMemory,
        }
    }

    fn named_fault(self, kind: JobFaultKind, name: &[u8]) -> Result<JobFault, NoMemory>
        ensures { IfOk result (λ named. named ≡ fault kind self.node name.now) }
    {
        let name = Bytes::from_slice(self.alloc, name)?;
        Ok(JobFault {
            kind,
            node: self.node,
            name: Some(name),
        })
    }

    /// The member of this name, which must be there.
    pub fn member<'v>(self, object: &'v Value, name: &str) -> Result<&'v Value, JobError>
        ensures { Gives
            (λ value. view value.now) result (member_of self.node name.now (view object.now)) }
    {
        match object.get(name) {
            Some(value) => Ok(value),
            None => Err(self.fault(JobFaultKind::MissingMember, name)),
        }
    }

    /// A member that is a name.
    #[tactic(auto, unfolding(crate::specs::Members::name_of))]
    pub fn name(self, object: &Value, name: &str) -> Result<Bytes, JobError>
        ensures { Gives (λ x. x) result (name_of self.node name.now (view object.now)) }
    {
        let value = self.member(object, name)?;
        match read_name(self.alloc, value)? {
            Some(name) => Ok(name),
            None => Err(self.fault(JobFaultKind::BadMember, name)),
        }
    }

    /// A member that numbers a node or a column.
    #[tactic(auto, unfolding(crate::specs::Members::number_of))]
    pub fn number(self, object: &Value, name: &str) -> Result<u32, JobError>
        ensures { Gives (λ x. x) result (number_of self.node name.now (view object.now)) }
    {
        let value = self.member(object, name)?;
        if !has_number(value) {
            return Err(self.fault(JobFaultKind::BadMember, name));
        }
        match number_u32(value) {
            Some(number) => Ok(number),
            None => Err(self.fault(JobFaultKind::BadNumber, name)),
        }
    }

    /// A member that is a list.
    #[tactic(auto, unfolding(crate::specs::Members::list_of))]
    pub fn list<'v>(self, object: &'v Value, name: &str) -> Result<&'v [Value], JobError>
        ensures { Gives
            (λ items. map view items.now) result (list_of self.node name.now (view object.now)) }
    {
        let value = self.member(object, name)?;
        match list_items(value) {
            Some(items) => Ok(items),
            None => Err(self.fault(JobFaultKind::BadMember, name)),
        }
    }

    /// Refuses a member that has no meaning, the first in byte order.
    pub fn check_known(self, whose: Object, members: &Map<String, Value>) -> Result<(), JobError>
        ensures { Gives
            (λ _. tt) result (known_alone self.node whose (members_view members.now.entries)) }
    {
        match first_unknown(whose, members) {
            None => Ok(()),
            Some(name) => Err(self.fault(JobFaultKind::UnknownMember, name)),
        }
    }

    /// Refuses a list of a node that has too many items.
    pub fn check_length(self, items: &[Value]) -> Result<(), JobError>
        ensures { Gives (λ _. tt) result (not_too_long self.node (map view items.now)) }
    {
        if items.len() > LIST_LIMIT {
            return Err(self.fault(JobFaultKind::TooMany(items.len() as u64), "list"));
        }
        Ok(())
    }
}

fn first_unknown(whose: Object, members: &Map<String, Value>) -> Option<&str>
    ensures { option_map (λ name. name.now) result
        ≡ unknown_among whose (members_view members.now.entries) }
{
    for (name, _) in members.iter() {
        if !whose.has_member(name.as_str()) {
            return Some(name.as_str());
        }
    }
    None
}
