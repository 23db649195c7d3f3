use estate::PartName;
use std::marker::Model;

/// How long an attempt that won had run, in milliseconds.
#[derive(Debug, Drop)]
pub struct RunTime {
    pub name: PartName,
    pub time: u64,
}

impl Model for RunTime {
    ghost use Rattle.core_model.specs.Cores.{RunTime as AttemptTime};

    ghost Value = { AttemptTime };

    ghost view = { λ t. record { name = t.name; time = t.time } };
}
