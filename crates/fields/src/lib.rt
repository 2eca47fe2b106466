// The comma fields of a value. A wrong count of them is 6 before any number is looked at.
// Its public functions are parts for other crates: no host calls them.
#![tactic(auto, unfolding(text::specs::Lines::needed, text::specs::Lines::perhaps, text::specs::Lines::or_bad, text::specs::Lines::map_read, text::specs::Lines::both, text::specs::Lines::one, text::specs::Lines::two))]

ghost use Rattle.std.specs.Prelude.{◌≡◌};
ghost use Rattle.text.specs.Lines.{good, fields, needed, perhaps, one, two};
ghost use Rattle.fields.specs.Fields.{two_as_they_are, two_needed, needed_perhaps};
ghost use Rattle.fields.specs.Reading.{number_read_meant, maybe_read_meant, numbers_read_meant, number_maybe_read_meant, field_meant, fields_meant};

use model::Tid;
use settings::Refusal;
use text::lines::comma_at;
use text::numbers::read_number;

// A field that has to be a number.
fn needed_number(field: &[u8]) -> Result<u32, Refusal>
    ensures { number_read_meant result ≡ needed field.now }
{
    read_number(field).ok_or(Refusal::BadNumber)
}

// A field that may be empty.
fn optional_number(field: &[u8]) -> Result<Option<Tid>, Refusal>
    ensures { maybe_read_meant result ≡ perhaps field.now }
{
    if field.is_empty() {
        return Ok(None);
    }
    let number = needed_number(field)?;
    Ok(Some(Tid(number)))
}

// The value where it is one field.
fn one_field(v: &[u8]) -> Result<&[u8], Refusal>
    ensures { field_meant result ≡ one (fields v.now) good }
{
    match comma_at(v, 0) {
        Some(_) => Err(Refusal::BadLine),
        None => Ok(v),
    }
}

// The two fields of a value with just one comma.
fn two_fields(v: &[u8]) -> Result<(&[u8], &[u8]), Refusal>
    ensures { fields_meant result ≡ two (fields v.now) two_as_they_are }
{
    let comma = comma_at(v, 0).ok_or(Refusal::BadLine)?;
    match comma_at(v, comma + 1) {
        Some(_) => Err(Refusal::BadLine),
        None => Ok((&v[..comma], &v[comma + 1..])),
    }
}

// One field, a number.
pub fn one_number(v: &[u8]) -> Result<u32, Refusal>
    ensures { number_read_meant result ≡ one (fields v.now) needed }
{
    needed_number(one_field(v)?)
}

// One field, which may be empty.
pub fn one_maybe(v: &[u8]) -> Result<Option<Tid>, Refusal>
    ensures { maybe_read_meant result ≡ one (fields v.now) perhaps }
{
    optional_number(one_field(v)?)
}

// Two fields, both numbers.
pub fn two_numbers(v: &[u8]) -> Result<(u32, u32), Refusal>
    ensures { numbers_read_meant result ≡ two (fields v.now) two_needed }
{
    let (first, second) = two_fields(v)?;
    Ok((needed_number(first)?, needed_number(second)?))
}

// Two fields, a number and one that may be empty.
pub fn number_and_maybe(v: &[u8]) -> Result<(u32, Option<Tid>), Refusal>
    ensures { number_maybe_read_meant result ≡ two (fields v.now) needed_perhaps }
{
    let (first, second) = two_fields(v)?;
    Ok((needed_number(first)?, optional_number(second)?))
}
