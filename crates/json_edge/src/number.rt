//! Numbers of JSON (RFC 8259 section 6), as `serde_json` reads them.
ghost use Rattle.std.specs.Prelude.{◌≡◌, ◌<◌, ◌==◌, option_map, true, false, IsTrue, slice_index, length};
ghost use Rattle.spec_json.specs.Json.{whole_number};
ghost use Rattle.serde_json.specs.Read.{number_of, number_from, float_of};
ghost use Rattle.json_edge.specs.FoundData.{read_as};

use fast_float::Numeral;
use json::Invalid;
use spec_json::num::Num;
use spec_json::tree::Tree;

/// The number that a token writes, none where it isn't whole: with a fraction or an exponent, `-0`, or outside -2^63 to 2^64 - 1.
///
/// One that is too large for a float is no JSON. Takes no memory.
pub fn number(text: &str) -> Result<Option<Tree>, Invalid>
    ensures { option_map whole_number (number_of text.now) ≡ read_as result }
{
    let bytes = text.as_bytes();
    if has_minus(bytes) {
        negative(&Numeral::scan(&bytes[1..]))
    } else {
        unsigned(&Numeral::scan(bytes))
    }
}

fn has_minus(bytes: &[u8]) -> bool
    ensures value { result ≡ (slice_index bytes.now 0 == 45) }
    ensures len { IsTrue result → 0 < length bytes.now }
{
    !bytes.is_empty() && bytes[0] == b'-'
}

fn unsigned(numeral: &Numeral<'_>) -> Result<Option<Tree>, Invalid>
    ensures { option_map whole_number (number_from false numeral.now) ≡ read_as result }
{
    match numeral.to_u64() {
        Some(n) => Ok(Some(Tree::Whole(Num::new(n as i128)))),
        None => not_whole(false, numeral),
    }
}

fn negative(numeral: &Numeral<'_>) -> Result<Option<Tree>, Invalid>
    ensures { option_map whole_number (number_from true numeral.now) ≡ read_as result }
{
    if let Some(n) = numeral.to_i64(true) {
        if n < 0 {
            return Ok(Some(Tree::Whole(Num::new(n as i128))));
        }
    }
    not_whole(true, numeral)
}

// `serde_json` reads such a number as the nearest float, where there is one.
fn not_whole(negative: bool, numeral: &Numeral<'_>) -> Result<Option<Tree>, Invalid>
    ensures { option_map whole_number (float_of negative numeral.now) ≡ read_as result }
{
    if numeral.to_float::<f64>(negative).is_finite() {
        Ok(None)
    } else {
        Err(Invalid)
    }
}
