ghost use Rattle.std.specs.Prelude.{◌≡◌};
ghost use Rattle.plan_model.specs.Settings.{setting_name, setting_named};

/// One of the settings of a job, in byte order of their names; docs/FORMATS.md has the default and
/// the range of each.
#[derive(Clone, Copy, Debug, PartialEq, Eq)]
pub enum Setting {
    Attempts,
    BlockMs,
    BroadcastBytes,
    FlushEvery,
    MaxParallelism,
    MinParallelism,
    RestartLimit,
    SkewBytes,
    SkewPercent,
    SlotsPerWorker,
    SlowLowerMs,
    SlowPercent,
    SlowRatio,
    TargetBytes,
}

/// All settings, in byte order of their names.
pub const SETTINGS: [Setting; 14] = [
    Setting::Attempts,
    Setting::BlockMs,
    Setting::BroadcastBytes,
    Setting::FlushEvery,
    Setting::MaxParallelism,
    Setting::MinParallelism,
    Setting::RestartLimit,
    Setting::SkewBytes,
    Setting::SkewPercent,
    Setting::SlotsPerWorker,
    Setting::SlowLowerMs,
    Setting::SlowPercent,
    Setting::SlowRatio,
    Setting::TargetBytes,
];

impl Setting {
    /// The name by which a job's text gives it.
    pub fn name(self) -> &'static str
        ensures { result.now ≡ setting_name self }
    {
        match self {
            Setting::Attempts => "attempts",
            Setting::BlockMs => "block_ms",
            Setting::BroadcastBytes => "broadcast_bytes",
            Setting::FlushEvery => "flush_every",
            Setting::MaxParallelism => "max_parallelism",
            Setting::MinParallelism => "min_parallelism",
            Setting::RestartLimit => "restart_limit",
            Setting::SkewBytes => "skew_bytes",
            Setting::SkewPercent => "skew_percent",
            Setting::SlotsPerWorker => "slots_per_worker",
            Setting::SlowLowerMs => "slow_lower_ms",
            Setting::SlowPercent => "slow_percent",
            Setting::SlowRatio => "slow_ratio",
            Setting::TargetBytes => "target_bytes",
        }
    }

    /// The setting of this name, if there is one.
    pub fn named(name: &[u8]) -> Option<Setting>
        ensures { result ≡ setting_named name.now }
    {
        SETTINGS
            .iter()
            .copied()
            .find(|setting| setting.name().as_bytes() == name)
    }
}
