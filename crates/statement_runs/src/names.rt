ghost use Rattle.std.specs.Prelude.{◌≡◌, bytes_eq};
ghost use Rattle.std.specs.Str.{str_eq_ignore_ascii_case};
ghost use Rattle.statement_runs.specs.Names as names;

use sessions::PlanCacheMode;

/// A setting.
#[derive(Clone, Copy, Debug, PartialEq, Eq)]
pub enum SettingName {
    PartitionPruning,
    PartitionwiseJoin,
    PartitionwiseAggregate,
    HashJoin,
    CacheMode,
    WithoutEffect,
}

fn is_name(name: &[u8], word: &[u8]) -> bool
    ensures { result ≡ bytes_eq name.now word.now }
{
    name == word
}

pub(crate) fn setting_named(name: &[u8]) -> Option<SettingName>
    ensures { result ≡ names.setting_named name.now }
{
    if is_name(name, b"enable_partition_pruning") {
        Some(SettingName::PartitionPruning)
    } else if is_name(name, b"enable_partitionwise_join") {
        Some(SettingName::PartitionwiseJoin)
    } else if is_name(name, b"enable_partitionwise_aggregate") {
        Some(SettingName::PartitionwiseAggregate)
    } else if is_name(name, b"enable_hashjoin") {
        Some(SettingName::HashJoin)
    } else if is_name(name, b"plan_cache_mode") {
        Some(SettingName::CacheMode)
    } else if is_name(name, b"deadlock_timeout") {
        Some(SettingName::WithoutEffect)
    } else if is_name(name, b"client_min_messages") {
        Some(SettingName::WithoutEffect)
    } else {
        None
    }
}

fn is_word(text: &[u8], word: &[u8]) -> bool
    ensures { result ≡ str_eq_ignore_ascii_case text.now word.now }
{
    text.eq_ignore_ascii_case(word)
}

pub(crate) fn truth_of(text: &[u8]) -> Option<bool>
    ensures { result ≡ names.truth_of text.now }
{
    if is_word(text, b"on")
        || is_word(text, b"true")
        || is_word(text, b"yes")
        || is_word(text, b"1")
    {
        Some(true)
    } else if is_word(text, b"off")
        || is_word(text, b"false")
        || is_word(text, b"no")
        || is_word(text, b"0")
    {
        Some(false)
    } else {
        None
    }
}

pub(crate) fn mode_of(text: &[u8]) -> Option<PlanCacheMode>
    ensures { result ≡ names.mode_of text.now }
{
    if is_word(text, b"auto") {
        Some(PlanCacheMode::Auto)
    } else if is_word(text, b"force_custom_plan") {
        Some(PlanCacheMode::ForceCustomPlan)
    } else if is_word(text, b"force_generic_plan") {
        Some(PlanCacheMode::ForceGenericPlan)
    } else {
        None
    }
}
