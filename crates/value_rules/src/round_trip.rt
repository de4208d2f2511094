ghost use Rattle.std.specs.Prelude.{◌≡◌, ◌≢◌, Ok};
ghost use Rattle.std.specs.Fmt.{signed_decimal};
ghost use Rattle.value_rules.specs.Reads.{reads, IsCalendarDay};
ghost use Rattle.pg_values.specs.declared.value.Kind.TheVariants.{Int4 as KInt4, Int8 as KInt8, Day as KDay};
ghost use Rattle.pg_values.specs.declared.value.Value.TheVariants.{Int4, Int8, Day};
ghost use Rattle.pg_values.specs.declared.value.Value.TheVariants.{Null};
ghost use Rattle.pg_values.specs.Days.{IsDay};
ghost use Rattle.pg_values.specs.Spelling.{spelled};
ghost use Rattle.pg_values.specs.Kinds.{kind_of};

use jiff_core::civil::Date;
use pg_values::Value;

// The text of an integer is read as that integer.
fn integer_reads_back(n: i32)
    ensures { reads KInt4 (signed_decimal n) ≡ Ok (Int4 n) }
{}

fn bigint_reads_back(n: i64)
    ensures { reads KInt8 (signed_decimal n) ≡ Ok (Int8 n) }
{}

fn date_reads_back(day: i32)
    requires { IsDay day }
    ensures { reads KDay (spelled (Day day)) ≡ Ok (Day day) }
{
    let Ok(_date) = Date::from_unix_epoch_day(day as i64) else {
        unreachable!()
    };
}

/// What `write_value` writes of a value that is not null is read again as that value. The call does
/// nothing: its contract is the law.
pub fn reads_back(v: &Value)
    requires some { v.now ≢ Null }
    requires date { IsCalendarDay v.now }
    ensures { reads (kind_of v.now) (spelled v.now) ≡ Ok v.now }
{
    match v {
        Value::Null => unreachable!(),
        Value::Int4(n) => integer_reads_back(*n),
        Value::Int8(n) => bigint_reads_back(*n),
        Value::Text(_) => {}
        Value::Day(day) => date_reads_back(*day),
        Value::Truth(true) => {}
        Value::Truth(false) => {}
    }
}
