ghost use Rattle.std.specs.Prelude.{◌≡◌};
ghost use Rattle.std.specs.Bool.{OnTrue, OnFalse};
ghost use Rattle.plan_model.specs.Settings.{value_of, with_value, default_values, is_within, IsInRange, AreInRange};
ghost use Rattle.plan_model.specs.declared.setting.Setting.TheVariants.{Attempts, BlockMs, BroadcastBytes, FlushEvery, MaxParallelism, MinParallelism, RestartLimit, SkewBytes, SkewPercent, SlotsPerWorker, SlowLowerMs, SlowPercent, SlowRatio, TargetBytes};

use crate::Setting;
use crate::setting_values::SettingValues;
use std::marker::Model;

/// The settings of a job, each in its range; docs/FORMATS.md has their table.
#[derive(Debug, Drop)]
pub struct Settings {
    values: SettingValues,
}

impl Model for Settings {
    ghost use Rattle.plan_model.specs.declared.setting_values.SettingValues.{SettingValues};
    ghost use Rattle.plan_model.specs.Settings.{AreInRange};

    ghost Value = { SettingValues };

    ghost view = { λ s. s.values };

    ghost invariant = { λ s. AreInRange s.values };
}

impl Settings {
    /// The settings of a job that says nothing of them.
    pub fn defaults() -> Self
        ensures { result ≡ default_values }
    {
        Settings {
            values: SettingValues::defaults(),
        }
    }

    pub fn get(&self, setting: Setting) -> u64
        ensures value { result ≡ value_of self.now setting }
        ensures range { IsInRange self.now setting result }
        ensures all { AreInRange self.now }
    {
        self.values.get(setting)
    }

    /// Changes one setting; false where the value is out of its range, and then nothing changes.
    #[tactic(auto, using(crate::proofs::SettingRanges::in_range_with))]
    pub fn set(&mut self, setting: Setting, value: u64) -> bool
        ensures answer { result ≡ is_within self.old setting value }
        ensures changed { OnTrue result (self.new ≡ with_value self.old setting value) }
        ensures same { OnFalse result (self.new ≡ self.old) }
    {
        if !self.values.allows(setting, value) {
            return false;
        }
        self.values = self.values.with(setting, value);
        true
    }

    pub fn copy(&self) -> Self
        ensures { result ≡ self.now }
    {
        Settings {
            values: self.values,
        }
    }

    /// The attempts of one subtask that may run at once.
    pub fn attempts(&self) -> u32
        ensures value { result ≡ self.now.attempts }
        ensures range { IsInRange self.now Attempts result }
    {
        self.get(Setting::Attempts) as u32
    }

    /// How long a worker that runs a slow subtask gets no further attempts, in milliseconds.
    pub fn block_ms(&self) -> u64
        ensures value { result ≡ self.now.block_ms }
        ensures range { IsInRange self.now BlockMs result }
    {
        self.get(Setting::BlockMs)
    }

    /// The greatest size of a join's side that is repeated, in bytes.
    pub fn broadcast_bytes(&self) -> u64
        ensures value { result ≡ self.now.broadcast_bytes }
        ensures range { IsInRange self.now BroadcastBytes result }
    {
        self.get(Setting::BroadcastBytes)
    }

    /// How many events the log gathers before it writes them.
    pub fn flush_every(&self) -> u32
        ensures value { result ≡ self.now.flush_every }
        ensures range { IsInRange self.now FlushEvery result }
    {
        self.get(Setting::FlushEvery) as u32
    }

    /// The greatest number of subtasks of a vertex.
    pub fn max_parallelism(&self) -> u32
        ensures value { result ≡ self.now.max_parallelism }
        ensures range { IsInRange self.now MaxParallelism result }
    {
        self.get(Setting::MaxParallelism) as u32
    }

    /// The least number of subtasks of a vertex that has as many items to share.
    pub fn min_parallelism(&self) -> u32
        ensures value { result ≡ self.now.min_parallelism }
        ensures range { IsInRange self.now MinParallelism result }
    {
        self.get(Setting::MinParallelism) as u32
    }

    /// How many troubles a job may have and go on.
    pub fn restart_limit(&self) -> u32
        ensures value { result ≡ self.now.restart_limit }
        ensures range { IsInRange self.now RestartLimit result }
    {
        self.get(Setting::RestartLimit) as u32
    }

    /// The size above which a column of a join may be cut, in bytes.
    pub fn skew_bytes(&self) -> u64
        ensures value { result ≡ self.now.skew_bytes }
        ensures range { IsInRange self.now SkewBytes result }
    {
        self.get(Setting::SkewBytes)
    }

    /// How far above the median such a column is, in percent.
    pub fn skew_percent(&self) -> u32
        ensures value { result ≡ self.now.skew_percent }
        ensures range { IsInRange self.now SkewPercent result }
    {
        self.get(Setting::SkewPercent) as u32
    }

    /// How many attempts a worker runs at once.
    pub fn slots_per_worker(&self) -> u32
        ensures value { result ≡ self.now.slots_per_worker }
        ensures range { IsInRange self.now SlotsPerWorker result }
    {
        self.get(Setting::SlotsPerWorker) as u32
    }

    /// The least running time at which a subtask is slow, in milliseconds.
    pub fn slow_lower_ms(&self) -> u64
        ensures value { result ≡ self.now.slow_lower_ms }
        ensures range { IsInRange self.now SlowLowerMs result }
    {
        self.get(Setting::SlowLowerMs)
    }

    /// The running time at which a subtask is slow, in percent of the median.
    pub fn slow_percent(&self) -> u32
        ensures value { result ≡ self.now.slow_percent }
        ensures range { IsInRange self.now SlowPercent result }
    {
        self.get(Setting::SlowPercent) as u32
    }

    /// The part of a vertex's subtasks that must be finished before one is slow, in percent.
    pub fn slow_ratio(&self) -> u32
        ensures value { result ≡ self.now.slow_ratio }
        ensures range { IsInRange self.now SlowRatio result }
    {
        self.get(Setting::SlowRatio) as u32
    }

    /// The size that a subtask's input is to have, in bytes.
    pub fn target_bytes(&self) -> u64
        ensures value { result ≡ self.now.target_bytes }
        ensures range { IsInRange self.now TargetBytes result }
    {
        self.get(Setting::TargetBytes)
    }
}
