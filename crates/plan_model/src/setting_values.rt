ghost use Rattle.std.specs.Prelude.{◌≡◌, ◌^◌, ◌<◌, IsTrue};
ghost use Rattle.plan_model.specs.Settings.{value_of, with_value, limits, default_values, is_within};

use crate::Setting;

/// The numbers behind `Settings`, which keeps each in its range.
#[derive(Clone, Copy, Debug, PartialEq, Eq)]
pub struct SettingValues {
    pub attempts: u64,
    pub block_ms: u64,
    pub broadcast_bytes: u64,
    pub flush_every: u64,
    pub max_parallelism: u64,
    pub min_parallelism: u64,
    pub restart_limit: u64,
    pub skew_bytes: u64,
    pub skew_percent: u64,
    pub slots_per_worker: u64,
    pub slow_lower_ms: u64,
    pub slow_percent: u64,
    pub slow_ratio: u64,
    pub target_bytes: u64,
}

impl SettingValues {
    pub(crate) fn defaults() -> Self
        ensures { result ≡ default_values }
    {
        SettingValues {
            attempts: 2,
            block_ms: 60_000,
            broadcast_bytes: 1_048_576,
            flush_every: 16,
            max_parallelism: 16,
            min_parallelism: 1,
            restart_limit: 3,
            skew_bytes: 16_777_216,
            skew_percent: 400,
            slots_per_worker: 1,
            slow_lower_ms: 60_000,
            slow_percent: 150,
            slow_ratio: 75,
            target_bytes: 16_777_216,
        }
    }

    pub(crate) fn get(self, setting: Setting) -> u64
        ensures { result ≡ value_of self setting }
    {
        match setting {
            Setting::Attempts => self.attempts,
            Setting::BlockMs => self.block_ms,
            Setting::BroadcastBytes => self.broadcast_bytes,
            Setting::FlushEvery => self.flush_every,
            Setting::MaxParallelism => self.max_parallelism,
            Setting::MinParallelism => self.min_parallelism,
            Setting::RestartLimit => self.restart_limit,
            Setting::SkewBytes => self.skew_bytes,
            Setting::SkewPercent => self.skew_percent,
            Setting::SlotsPerWorker => self.slots_per_worker,
            Setting::SlowLowerMs => self.slow_lower_ms,
            Setting::SlowPercent => self.slow_percent,
            Setting::SlowRatio => self.slow_ratio,
            Setting::TargetBytes => self.target_bytes,
        }
    }

    pub(crate) fn with(self, setting: Setting, value: u64) -> Self
        ensures { result ≡ with_value self setting value }
    {
        match setting {
            Setting::Attempts => SettingValues {
                attempts: value,
                ..self
            },
            Setting::BlockMs => SettingValues {
                block_ms: value,
                ..self
            },
            Setting::BroadcastBytes => SettingValues {
                broadcast_bytes: value,
                ..self
            },
            Setting::FlushEvery => SettingValues {
                flush_every: value,
                ..self
            },
            Setting::MaxParallelism => SettingValues {
                max_parallelism: value,
                ..self
            },
            Setting::MinParallelism => SettingValues {
                min_parallelism: value,
                ..self
            },
            Setting::RestartLimit => SettingValues {
                restart_limit: value,
                ..self
            },
            Setting::SkewBytes => SettingValues {
                skew_bytes: value,
                ..self
            },
            Setting::SkewPercent => SettingValues {
                skew_percent: value,
                ..self
            },
            Setting::SlotsPerWorker => SettingValues {
                slots_per_worker: value,
                ..self
            },
            Setting::SlowLowerMs => SettingValues {
                slow_lower_ms: value,
                ..self
            },
            Setting::SlowPercent => SettingValues {
                slow_percent: value,
                ..self
            },
            Setting::SlowRatio => SettingValues {
                slow_ratio: value,
                ..self
            },
            Setting::TargetBytes => SettingValues {
                target_bytes: value,
                ..self
            },
        }
    }

    /// The least and the greatest value that a setting may take beside the others.
    pub(crate) fn limits(self, setting: Setting) -> (u64, u64)
        ensures { result ≡ limits self setting }
    {
        match setting {
            Setting::Attempts => (1, 4),
            Setting::BlockMs => (0, 86_400_000),
            Setting::BroadcastBytes => (0, 1_073_741_824),
            Setting::FlushEvery => (1, 1024),
            Setting::MaxParallelism => (self.min_parallelism, 128),
            Setting::MinParallelism => (1, self.max_parallelism),
            Setting::RestartLimit => (0, 100),
            Setting::SkewBytes => (0, 1_073_741_824),
            Setting::SkewPercent => (100, 10_000),
            Setting::SlotsPerWorker => (1, 8),
            Setting::SlowLowerMs => (0, 86_400_000),
            Setting::SlowPercent => (100, 10_000),
            Setting::SlowRatio => (1, 100),
            Setting::TargetBytes => (1, 1_073_741_824),
        }
    }

    pub(crate) fn allows(self, setting: Setting, value: u64) -> bool
        ensures { result ≡ is_within self setting value }
    {
        let (low, high) = self.limits(setting);
        low <= value && value <= high
    }
}
