ghost use Rattle.std.specs.Prelude.{◌≡◌, IfOk};
ghost use Rattle.refusals.specs.Refusals as refusals;
ghost use Rattle.sessions.specs.Answers.{IsAnswerBy};
ghost use Rattle.statement_runs.specs.Changes as changes;

use crate::SettingName;
use crate::names::{mode_of, setting_named, truth_of};
use pg_values::Refusal;
use refusals::{no_setting, no_value};
use sessions::Settings;
use sql_ast::SettingValue;
use std::alloc::Global;

fn text_of(value: &SettingValue) -> &[u8]
    ensures { result.now ≡ changes.text_of value.now }
{
    match value {
        SettingValue::Word(word) => word.as_bytes(),
        SettingValue::Text(text) => text.as_bytes(),
        SettingValue::Number(digits) => digits.as_bytes(),
    }
}

fn with_truth(mut settings: Settings, name: SettingName, on: bool) -> Settings
    ensures { result ≡ changes.with_truth settings name on }
{
    match name {
        SettingName::PartitionPruning => settings.enable_partition_pruning = on,
        SettingName::PartitionwiseJoin => settings.enable_partitionwise_join = on,
        SettingName::PartitionwiseAggregate => settings.enable_partitionwise_aggregate = on,
        SettingName::HashJoin => settings.enable_hashjoin = on,
        SettingName::CacheMode | SettingName::WithoutEffect => {}
    }
    settings
}

// The settings with another value, if that setting has such a one.
fn with_value(mut settings: Settings, name: SettingName, text: &[u8]) -> Option<Settings>
    ensures { result ≡ changes.with_value settings name text.now }
{
    match name {
        SettingName::CacheMode => match mode_of(text) {
            Some(mode) => {
                settings.plan_cache_mode = mode;
                Some(settings)
            }
            None => None,
        },
        SettingName::WithoutEffect => Some(settings),
        _ => match truth_of(text) {
            Some(on) => Some(with_truth(settings, name, on)),
            None => None,
        },
    }
}

/// The settings after SET name TO value. Another name is 42704, another value 22023.
pub fn set(
    alloc: Global,
    settings: Settings,
    name: &[u8],
    value: &SettingValue,
) -> Result<Settings, Refusal>
    ensures { IsAnswerBy (λ g. g) result (changes.set settings name.now value.now) }
{
    let Some(setting) = setting_named(name) else {
        return Err(Refusal::Sql(no_setting(alloc, name)?));
    };
    let text = text_of(value);
    match with_value(settings, setting, text) {
        Some(settings) => Ok(settings),
        None => Err(Refusal::Sql(no_value(alloc, text, name)?)),
    }
}

fn reset_to(mut settings: Settings, name: SettingName) -> Settings
    ensures { result ≡ changes.reset_to settings name }
{
    let defaults = Settings::defaults();
    match name {
        SettingName::PartitionPruning => {
            settings.enable_partition_pruning = defaults.enable_partition_pruning;
        }
        SettingName::PartitionwiseJoin => {
            settings.enable_partitionwise_join = defaults.enable_partitionwise_join;
        }
        SettingName::PartitionwiseAggregate => {
            settings.enable_partitionwise_aggregate = defaults.enable_partitionwise_aggregate;
        }
        SettingName::HashJoin => settings.enable_hashjoin = defaults.enable_hashjoin,
        SettingName::CacheMode => settings.plan_cache_mode = defaults.plan_cache_mode,
        SettingName::WithoutEffect => {}
    }
    settings
}

/// The settings after RESET name. Another name is 42704.
pub fn reset(alloc: Global, settings: Settings, name: &[u8]) -> Result<Settings, Refusal>
    ensures { IsAnswerBy (λ g. g) result (changes.reset settings name.now) }
{
    match setting_named(name) {
        Some(setting) => Ok(reset_to(settings, setting)),
        None => Err(Refusal::Sql(no_setting(alloc, name)?)),
    }
}
